ghost use Rattle.std.specs.Prelude.{◌≡◌, ◌++◌, decimal, OnOk};
ghost use Rattle.zk_trace.specs.Looks.{look_head, item_look_line, signal_look_line, raised_word, seen_word, stamp_word};

use crate::flags::put_flags;
use crate::lined::{Lined, put_spot};
use crate::names::name_at;
use zk_base::{Listed, NoMemory, Seen};
use zk_paper::Paper;
use zk_scenario::Scenario;

/// The word of a look.
pub const LOOK: &[u8] = b"look";

/// What a player looks at: whether an item is busy.
pub const BUSY: &[u8] = b"busy";

/// What a player looks at: a signal.
pub const CHECK: &[u8] = b"check";

/// What stands before the number of entries or writes.
pub const STAMP: &[u8] = b"@";

/// What a player found when it looked at the busy flags of an item.
#[derive(Clone, Copy, Debug, PartialEq, Eq)]
pub struct ItemLook {
    /// The number of the player.
    pub player: u32,
    /// The number of the look among all steps of the player, from 0.
    pub step: u32,
    /// The item, by its object number.
    pub item: u32,
    /// Its busy flags, below 32.
    pub flags: u8,
    /// How many entries the work service had.
    pub at: u64,
}

/// What a player found when it looked at a signal.
#[derive(Clone, Copy, Debug, PartialEq, Eq)]
pub struct SignalLook {
    /// The number of the player.
    pub player: u32,
    /// The number of the look among all steps of the player, from 0.
    pub step: u32,
    /// What it found.
    pub seen: Seen,
}

/// All looks at items, by player and then by step.
pub type ItemLooks = Listed<ItemLook>;

/// The looks at each signal, by object number; each by player and then by step.
pub type SignalLooks = Listed<Listed<SignalLook>>;

/// All looks, a list a section. A section's lines in a trace are these, in this order.
#[derive(Drop)]
pub struct Looks {
    /// Those at items, in the section of the work service.
    pub items: ItemLooks,
    /// Those at signals, in the section of each.
    pub signals: SignalLooks,
}

impl Lined for ItemLook {
    ghost text = { item_look_line };

    fn put_line(&self, out: &mut Paper, scenario: &Scenario) -> Result<(), NoMemory> {
        put_look_head(out, scenario, self.player, self.step)?;
        out.push(b' ')?;
        out.put(BUSY)?;
        out.push(b' ')?;
        out.put(name_at(scenario.decls(), self.item as usize))?;
        out.put(b" = ")?;
        put_flags(out, self.flags)?;
        out.push(b' ')?;
        put_stamp(out, self.at)?;
        out.push(b'\n')
    }
}

impl Lined for SignalLook {
    ghost text = { signal_look_line };

    fn put_line(&self, out: &mut Paper, scenario: &Scenario) -> Result<(), NoMemory> {
        put_look_head(out, scenario, self.player, self.step)?;
        out.push(b' ')?;
        out.put(CHECK)?;
        out.put(b" = ")?;
        put_seen(out, self.seen.raised, self.seen.result)?;
        out.push(b' ')?;
        put_stamp(out, u64::from(self.seen.stamp))?;
        out.push(b'\n')
    }
}

/// The word of a look and whose step it is.
fn put_look_head(
    out: &mut Paper,
    scenario: &Scenario,
    player: u32,
    step: u32,
) -> Result<(), NoMemory>
    ensures text { OnOk result (out.new.put ≡ out.old.put ++ look_head scenario.now.decls player step) }
    ensures front { out.new.front ≡ out.old.front }
{
    out.put(LOOK)?;
    out.push(b' ')?;
    put_spot(out, scenario, player, step)
}

/// Whether a signal was raised.
pub fn raised_word(raised: bool) -> &'static [u8]
    ensures { result.now ≡ raised_word raised }
{
    if raised { b"raised" } else { b"clear" }
}

/// What a signal was: raised or clear, and the result.
pub fn put_seen(out: &mut Paper, raised: bool, value: u16) -> Result<(), NoMemory>
    ensures text { OnOk result (out.new.put ≡ out.old.put ++ seen_word raised value) }
    ensures front { out.new.front ≡ out.old.front }
{
    out.put(raised_word(raised))?;
    out.push(b' ')?;
    out.put_number(u64::from(value))
}

/// After how many entries or writes it was so.
fn put_stamp(out: &mut Paper, stamp: u64) -> Result<(), NoMemory>
    ensures text { OnOk result (out.new.put ≡ out.old.put ++ stamp_word stamp) }
    ensures front { out.new.front ≡ out.old.front }
{
    out.put(STAMP)?;
    out.put_number(stamp)
}
