ghost use Rattle.std.specs.Prelude.{◌≡◌, All, length, IfOk};
ghost use Rattle.zk_feed.specs.Feeding.{AreColumns, AreNewRows, AreSubs, IsInRange, IsSubOf};

use crate::lasts::last_of_each;
use crate::shared::Shared;
use crate::size::FeedSize;
use std::alloc::Global;
use zk_base::{NoMemory, push_within};
use zk_msgsub::{MsgSub, PubSeat, SubSeat};

/// The subscribers of a feed, what takes at each, and the seats of its publishers. Each has room for all messages.
pub fn subscribers_of(
    alloc: Global,
    size: FeedSize,
) -> Result<(Vec<MsgSub>, Vec<SubSeat>, Vec<Vec<PubSeat>>), NoMemory>
    requires { IsInRange size }
    ensures many { IfOk result (λ made. length made.0.items ≡ size.subscribers) }
    ensures subs { IfOk result (λ made. AreSubs size made.0.items made.1.items) }
    ensures columns { IfOk result (λ made. AreColumns size.publishers made.0.items made.2.items) }
{
    let count = size.subscribers as usize;
    let mut subs = Vec::with_capacity(alloc, count)?;
    let mut takers = Vec::with_capacity(alloc, count)?;
    let mut columns = Vec::with_capacity(alloc, count)?;
    let capacity = size.publishers * size.messages;
    for made in 0..size.subscribers {
        let _ = made;
        let (sub, seats, taker) = MsgSub::new(alloc, capacity, size.publishers, size.messages)?;
        push_within(&mut subs, sub);
        push_within(&mut takers, taker);
        push_within(&mut columns, seats);
    }
    Ok((subs, takers, columns))
}

impl Shared {
    /// The seats of each publisher, by subscriber, out of those at each subscriber, by publisher: of the last publisher first.
    pub fn rows(
        &self,
        alloc: Global,
        mut columns: Vec<Vec<PubSeat>>,
    ) -> Result<Vec<Vec<PubSeat>>, NoMemory>
        requires subs { All (IsSubOf self.now.size) self.now.subs.items }
        requires columns { AreColumns self.now.size.publishers self.now.subs.items columns.items }
        ensures { IfOk result (λ rows. AreNewRows self.now.size self.now.subs.items 0 rows.items) }
    {
        let mut rows = Vec::with_capacity(alloc, self.size.publishers as usize)?;
        for made in 0..self.size.publishers {
            let _ = made;
            push_within(&mut rows, last_of_each(alloc, &mut columns)?);
        }
        Ok(rows)
    }
}
