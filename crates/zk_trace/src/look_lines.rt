ghost use Rattle.std.specs.Prelude.{◌≡◌, ◌++◌, ◌≤◌, ◌^◌, IfOk, length, map};
ghost use Rattle.zk_trace.specs.LookLines.{item_line, signal_line, signal_lines, look_lines};

use crate::looks::{ItemLook, Looks, SignalLook};
use std::alloc::Global;
use zk_base::{Listed, NoMemory, Seen};

/// What a player found when it looked.
#[derive(Clone, Copy, PartialEq, Eq)]
pub enum LookReply {
    /// The busy flags of an item, below 32, and how many entries the work service had.
    Flags(u8, u64),
    /// Whether a signal was raised, with what result, and after how many writes.
    Seen(Seen),
}

/// A look, whatever it was at. It is a line of a trace.
#[derive(Clone, Copy, PartialEq, Eq)]
pub struct LookLine {
    /// The number of the player.
    pub player: u32,
    /// The number of the look among all steps of the player, from 0.
    pub step: u32,
    /// The item or the signal, by its object number.
    pub object: u32,
    /// What the player found.
    pub reply: LookReply,
}

fn item_line(look: &ItemLook) -> LookLine
    ensures { result ≡ item_line look.now }
{
    LookLine {
        player: look.player,
        step: look.step,
        object: look.item,
        reply: LookReply::Flags(look.flags, look.at),
    }
}

fn signal_line(object: u32, look: &SignalLook) -> LookLine
    ensures { result ≡ signal_line object look.now }
{
    LookLine {
        player: look.player,
        step: look.step,
        object,
        reply: LookReply::Seen(look.seen),
    }
}

fn add_item_lines(lines: &mut Listed<LookLine>, looks: &[ItemLook]) -> Result<(), NoMemory>
    ensures { IfOk result (λ _. lines.new ≡ lines.old ++ map item_line looks.now) }
{
    for look in looks {
        lines.push(item_line(look))?;
    }
    Ok(())
}

fn add_signal_lines(
    lines: &mut Listed<LookLine>,
    object: u32,
    looks: &[SignalLook],
) -> Result<(), NoMemory>
    ensures { IfOk result (λ _. lines.new ≡ lines.old ++ map (signal_line object) looks.now) }
{
    for look in looks {
        lines.push(signal_line(object, look))?;
    }
    Ok(())
}

impl Looks {
    /// All looks, as a trace has their lines: those at items, then those at each signal by object number; each by player and
    /// then by step.
    pub fn lines(&self, alloc: Global) -> Result<Listed<LookLine>, NoMemory>
        requires { length self.now.signals ≤ 2 ^ 32 }
        ensures { IfOk result (λ lines. lines ≡ look_lines self.now) }
    {
        let mut lines = Listed::new(alloc);
        add_item_lines(&mut lines, self.items.items())?;
        for (object, looks) in self.signals.items().iter().enumerate() {
            add_signal_lines(&mut lines, object as u32, looks.items())?;
        }
        Ok(lines)
    }
}
