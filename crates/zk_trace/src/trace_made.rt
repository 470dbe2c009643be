ghost use Rattle.std.specs.Prelude.{◌≡◌, [], map, length, IfOk};
ghost use Rattle.zk_scenario.specs.Players.{players as players_of};
ghost use Rattle.zk_trace.specs.Stood.{AreFew};
ghost use Rattle.zk_trace.specs.WholeParts.{singles_of, families_of, parts_of};
ghost use Rattle.zk_trace.specs.WholeRead.{trace_with, trace_of};

use crate::Trace;
use crate::logs_read::read_logs;
use crate::looks::{Looks, SignalLooks};
use crate::trace::{Ending, Histories};
use crate::whole_read::{Families, SignalLines, Singles, Whole};
use std::alloc::Global;
use zk_base::{Listed, NoMemory};
use zk_model_wait::{SignalOp, SignalReply};
use zk_scenario::Scenario;

/// The writes to signals, and the looks at them.
fn parted(
    alloc: Global,
    signals: Listed<SignalLines>,
) -> Result<(Histories<SignalOp, SignalReply>, SignalLooks), NoMemory>
    ensures writes { IfOk result (λ parts. parts.0 ≡ map (λ both. both.0) signals) }
    ensures looks { IfOk result (λ parts. parts.1 ≡ map (λ both. both.1) signals) }
{
    let mut histories = Vec::new(alloc);
    let mut looks = Vec::new(alloc);
    for (history, seen) in signals.into_vec() {
        histories.push(history)?;
        looks.push(seen)?;
    }
    Ok((Listed::from_vec(histories), Listed::from_vec(looks)))
}

/// A trace of these sections, without logs.
fn without_logs(
    alloc: Global,
    ending: Ending,
    singles: Singles,
    families: Families,
) -> Result<Trace, NoMemory>
    ensures { IfOk result (λ trace. trace ≡ trace_with ending (singles_of singles) (families_of families) []) }
{
    let Singles {
        work,
        item_looks: items,
        clock,
        table,
    } = singles;
    let Families {
        sems,
        msgqs,
        signals,
        chans,
        observers,
    } = families;
    let (signals, seen) = parted(alloc, signals)?;
    Ok(Trace {
        ending,
        work,
        clock,
        table,
        sems,
        msgqs,
        signals,
        chans,
        observers,
        looks: Looks {
            items,
            signals: seen,
        },
        logs: Listed::new(alloc),
    })
}

/// The trace of what stands in a text.
pub fn trace_of(alloc: Global, scenario: &Scenario, whole: Whole) -> Result<Trace, NoMemory>
    requires few { AreFew (trace_of (parts_of whole)) }
    requires all { length whole.players ≡ length (players_of scenario.now.decls) }
    ensures { IfOk result (λ trace. trace ≡ trace_of (parts_of whole)) }
{
    let Whole {
        format: _,
        ending,
        singles,
        families,
        players,
    } = whole;
    let mut trace = without_logs(alloc, ending, singles, families)?;
    trace.logs = read_logs(alloc, scenario, &trace, players)?;
    Ok(trace)
}
