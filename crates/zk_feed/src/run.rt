ghost use Rattle.std.specs.Prelude.{IfOk};
ghost use Rattle.zk_feed.specs.Feeding.{IsInRange};
ghost use Rattle.zk_feed.specs.Output.{IsFeedOutput};

use crate::fan::fan_of;
use crate::hearing::hear;
use crate::printing::print;
use crate::send::send_each;
use crate::shared::Shared;
use crate::size::FeedSize;
use crate::subscribers::subscribers_of;
use std::alloc::Global;
use std::sync::Wait;
use std::thread::Threads;
use zk_base::{Gate, NoMemory};

/// Feeds all subscribers by all publishers, which run beside each other and ask the gate before each message, and prints what
/// each subscriber took.
///
/// Nothing is claimed of the order in which messages of different publishers come, nor that it returns, since a publisher may
/// wait for others at the fan.
pub fn feed<R: Threads + Wait + Sync, G: Gate + Sync>(
    rt: &R,
    alloc: Global,
    size: FeedSize,
    gate: &G,
) -> Result<Vec<u8>, NoMemory>
    requires range { IsInRange size }
    ensures output { IfOk result (λ output. IsFeedOutput size output.items) }
{
    let (subs, takers, columns) = subscribers_of(alloc, size)?;
    let (fan, passes) = fan_of(alloc, size)?;
    let shared = Shared { size, fan, subs };
    let rows = shared.rows(alloc, columns)?;
    let mut feeders = shared.feeders(alloc, passes, rows)?;
    send_each(rt, &shared, gate, &mut feeders);
    let (pass, rows) = shared.gather(alloc, feeders)?;
    let Shared { size: _, fan, subs } = shared;
    // All that was done at the fan are the publishers' opens: so each of them was told of all subscribers.
    let _closed = fan.close(pass);
    let heard = hear(rt, alloc, size, subs, takers, rows)?;
    print(alloc, heard)
}
