ghost use Rattle.std.specs.Prelude.{IfOk};
ghost use Rattle.zk_feed.specs.Feeding.{IsInRange};
ghost use Rattle.zk_forms.specs.FeedAnswer.{IsFeedAnswer};

use std::alloc::Global;
use std::sync::Wait;
use std::thread::Threads;
use zk_base::{Gate, NoMemory, Status};
use zk_feed::{FeedSize, feed};

/// The whole output of `feed` for this size, and the status that goes with it. It may wait.
pub fn feed_output<R: Threads + Wait + Sync, G: Gate + Sync>(
    rt: &R,
    alloc: Global,
    size: FeedSize,
    gate: &G,
) -> Result<(Vec<u8>, Status), NoMemory>
    requires range { IsInRange size }
    ensures output { IfOk result (λ made. IsFeedAnswer size made.1 made.0.items) }
{
    Ok((feed(rt, alloc, size, gate)?, Status::Success))
}
