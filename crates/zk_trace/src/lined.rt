ghost use Rattle.std.specs.Prelude.{◌≡◌, ℕ, List, ◌++◌, OnOk, take};
ghost use Rattle.std.specs.List.{flat_map};
ghost use Rattle.zk_line.specs.declared.types.Decl.{Decl};
ghost use Rattle.zk_trace.specs.Looks.{spot_word};
ghost use Rattle.zk_trace.specs.Text.{entry_line, answer_line};

use crate::names::player_name;
use crate::parts::{answer_part, put_part};
use crate::spelled::Spelled;
use crate::words::call_word;
use zk_base::{Entry, NoMemory};
use zk_paper::Paper;
use zk_scenario::Scenario;
use zk_worker::Answered;

/// What is a line of a section.
pub trait Lined {
    /// Its line, with the names of the declarations.
    ghost text: { List Decl → Self → List ℕ };

    /// Appends its line.
    fn put_line(&self, out: &mut Paper, scenario: &Scenario) -> Result<(), NoMemory>
        ensures text { OnOk result (out.new.put ≡ out.old.put ++ text scenario.now.decls self.now) }
        ensures front { out.new.front ≡ out.old.front };
}

/// Appends the lines of a section behind its head.
pub fn put_lines<X: Lined>(
    out: &mut Paper,
    scenario: &Scenario,
    lines: &[X],
) -> Result<(), NoMemory>
    ensures text { OnOk result (out.new.put ≡ out.old.put ++ flat_map (X.text scenario.now.decls) lines.now) }
    ensures front { out.new.front ≡ out.old.front }
{
    for line in lines {
        line.put_line(out, scenario)?;
    }
    Ok(())
}

impl<O: Spelled, R: Spelled> Lined for Entry<O, R> {
    ghost text = { entry_line O.words R.words };

    fn put_line(&self, out: &mut Paper, scenario: &Scenario) -> Result<(), NoMemory> {
        put_spot(out, scenario, self.who.number, self.step)?;
        self.op.put_words(out, scenario)?;
        out.put(b" =")?;
        self.reply.put_words(out, scenario)?;
        out.push(b'\n')
    }
}

/// What stands between the name of a player and the number of its step.
pub const POINT: u8 = b'.';

/// Whose step it is, and which.
pub fn put_spot(
    out: &mut Paper,
    scenario: &Scenario,
    player: u32,
    step: u32,
) -> Result<(), NoMemory>
    ensures text { OnOk result (out.new.put ≡ out.old.put ++ spot_word scenario.now.decls player step) }
    ensures front { out.new.front ≡ out.old.front }
{
    out.put_numbered(
        player_name(scenario, player as usize),
        POINT,
        u64::from(step),
    )
}

impl Lined for Answered {
    ghost text = { answer_line };

    fn put_line(&self, out: &mut Paper, scenario: &Scenario) -> Result<(), NoMemory> {
        out.put_number(u64::from(self.step))?;
        out.push(b' ')?;
        out.put(call_word(self.word))?;
        out.put(b" =")?;
        put_part(out, scenario, b' ', &answer_part(&self.answer))?;
        out.push(b'\n')
    }
}
