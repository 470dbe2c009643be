ghost use Rattle.std.specs.Prelude.{◌≡◌, ℕ, List, Option, IfOk};
ghost use Rattle.zk_line.specs.declared.types.Decl.{Decl};
ghost use Rattle.zk_words.specs.Pieces.{words_of};
ghost use Rattle.zk_trace.specs.EntryRead.{entry_front_of, entry_of};

use crate::halves::sides_of;
use crate::hints::Hints;
use crate::rows_read::Row;
use crate::spelled::Spelled;
use crate::spot_read::spot_of;
use std::alloc::Global;
use zk_base::{Entry, NoMemory, Who};
use zk_scenario::Scenario;
use zk_words::Words;

/// What is asked of a service, as it is read together with what answers it.
pub trait Asked: Spelled + Drop {
    /// What answers it.
    type Reply: Spelled + Drop;

    /// The operation that some words say.
    ghost op_of: { List Decl → List (List ℕ) → Option Self };

    /// The reply to an operation that stands behind the sign.
    ghost reply_of: { List Decl → Self → List ℕ → Option Self.Reply };

    /// Reads an operation.
    fn op_of(scenario: &Scenario, words: Words<'_>) -> Option<Self>
        ensures { result ≡ op_of scenario.now.decls words.entry };

    /// Reads a reply to this operation.
    fn reply_of(
        &self,
        alloc: Global,
        scenario: &Scenario,
        row: &[u8],
    ) -> Result<Option<Self::Reply>, NoMemory>
        ensures { IfOk result (λ reply. reply ≡ reply_of scenario.now.decls self.now row.now) };
}

impl<O: Asked> Row for Entry<O, O::Reply> {
    ghost says = { λ decls last row. entry_of decls (O.op_of decls) (O.reply_of decls) row };

    fn of_line(
        alloc: Global,
        scenario: &Scenario,
        hints: &Hints,
        _last: Option<&Entry<O, O::Reply>>,
        line: &[u8],
    ) -> Result<Option<Entry<O, O::Reply>>, NoMemory> {
        entry_of::<O>(alloc, scenario, hints, line)
    }
}

fn entry_of<O: Asked>(
    alloc: Global,
    scenario: &Scenario,
    hints: &Hints,
    row: &[u8],
) -> Result<Option<Entry<O, O::Reply>>, NoMemory>
    ensures { let decls = scenario.now.decls in
        IfOk result (λ entry. entry ≡ entry_of decls (O.op_of decls) (O.reply_of decls) row.now) }
{
    let Some((front, answer)) = sides_of(row) else {
        return Ok(None);
    };
    let Some(((who, step), op)) = asking_of::<O>(scenario, hints, front) else {
        return Ok(None);
    };
    let Some(reply) = op.reply_of(alloc, scenario, answer)? else {
        return Ok(None);
    };
    Ok(Some(Entry {
        who,
        step,
        op,
        reply,
    }))
}

/// Whose step it is, and what is asked.
fn asking_of<O: Asked>(scenario: &Scenario, hints: &Hints, front: &[u8]) -> Option<((Who, u32), O)>
    ensures { let decls = scenario.now.decls in result ≡ entry_front_of decls (O.op_of decls) (words_of front.now) }
{
    let mut words = Words::of(front);
    let spot = spot_of(scenario, hints, words.next()?)?;
    Some((spot, O::op_of(scenario, words)?))
}
