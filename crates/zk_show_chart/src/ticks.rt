ghost use Rattle.std.specs.Prelude.{◌≡◌, ◌^◌, ◌<◌, ◌++◌, length, option_map, IfOk, OnOk};
ghost use Rattle.std.specs.Option.{option_to_list};
ghost use Rattle.zk_show_chart.specs.Ticks.{tick_in, time_of, time_at, ticks_from};

use crate::Tick;
use crate::bars::row_count;
use std::alloc::Global;
use zk_base::NoMemory;
use zk_model_wait::ClockReply;
use zk_trace::{Stood, Trace};
use zk_worker::Spot;

/// The time that the clock tells, in ticks, if it does.
fn time_of(reply: ClockReply) -> Option<u64>
    ensures { result ≡ time_of reply }
{
    match reply {
        ClockReply::Now(time) => Some(time),
        _ => None,
    }
}

/// The time that the step at a spot tells, if it does.
fn time_at(trace: &Trace, spot: Spot) -> Option<u64>
    ensures { result ≡ time_at trace.now spot }
{
    match spot {
        Spot::Clock(place) => {
            let entry = trace.clock.items().get(place as usize)?;
            time_of(entry.reply)
        }
        _ => None,
    }
}

/// A moment more, if the time is told in this row.
fn put_tick(ticks: &mut Vec<Tick>, row: u32, time: Option<u64>) -> Result<(), NoMemory>
    ensures { OnOk result (ticks.new.items ≡ ticks.old.items ++ option_to_list (option_map (tick_in row) time)) }
{
    if let Some(time) = time {
        ticks.push(Tick { row, time })?;
    }
    Ok(())
}

/// The rows in which the time is told. `drawn` says of each row whose step it is, and where it stands.
pub fn ticks_of(alloc: Global, trace: &Trace, drawn: &[Stood]) -> Result<Vec<Tick>, NoMemory>
    ensures { IfOk result (λ ticks. length drawn.now < 2 ^ 32 → ticks.items ≡ ticks_from trace.now 0 drawn.now) }
{
    let mut ticks = Vec::new(alloc);
    for row in 0..row_count(drawn) {
        let time = time_at(trace, drawn[row as usize].spot);
        put_tick(&mut ticks, row, time)?;
    }
    Ok(ticks)
}
