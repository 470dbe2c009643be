ghost use Rattle.std.specs.Prelude.{◌≡◌, ◌<◌, length};
ghost use Rattle.crossbeam_queue.specs.Passes.{ruled_capacity};

use crate::numbered::Numbered;
use crate::rule::PoolRule;
use crate::views::View;
use crossbeam_queue::RuledArrayQueue;
use std::snapshot::Snapshot;

/// Items that threads take out, one at a time, and give back, each by a hand of its own. Each item is in the queue or in one hand.
///
/// Every call of a pool takes hands of that pool alone. A pool is shared by reference; `close` takes it apart.
#[derive(Drop)]
pub struct Pool<T: Numbered> {
    // Each item has a place in the queue.
    pub(crate) queue: RuledArrayQueue<T, View<T::Home>, PoolRule<T>>,
    pub(crate) hands: u32,
    pub(crate) given: Snapshot<Vec<T>>,
    ghost fits: { ruled_capacity queue ≡ length given.value.items },
    ghost some_hands: { 0 < hands },
}
