ghost use Rattle.std.specs.Prelude.{◌≡◌, All, IfOk, length, map};
ghost use Rattle.zk_feed.specs.Feeding.{AreRows, AreSubs, notes_in};
ghost use Rattle.zk_feed.specs.Output.{IsHeard};

use crate::lasts::last_of_each;
use crate::size::FeedSize;
use std::alloc::Global;
use std::sync::Wait;
use zk_base::{NoMemory, push_within};
use zk_msgsub::{MsgSub, Note, PubSeat, SubSeat};

/// All that each subscriber got, the last one first: its seats are the last of these rows, one for each publisher, and so on.
pub fn hear<R: Wait>(
    rt: &R,
    alloc: Global,
    size: FeedSize,
    mut subs: Vec<MsgSub>,
    mut takers: Vec<SubSeat>,
    mut rows: Vec<Vec<PubSeat>>,
) -> Result<Vec<Vec<Note>>, NoMemory>
    requires subs { AreSubs size subs.items takers.items }
    requires rows { AreRows subs.items size.messages rows.items }
    requires many { length rows.items ≡ size.publishers }
    requires all { length subs.items ≡ size.subscribers }
    ensures many { IfOk result (λ heard. length heard.items ≡ size.subscribers) }
    ensures each { IfOk result (λ heard. All (IsHeard size) (map notes_in heard.items)) }
{
    let mut heard = Vec::with_capacity(alloc, size.subscribers as usize)?;
    while let Some(sub) = subs.pop() {
        let Some(taker) = takers.pop() else {
            unreachable!()
        };
        let seats = last_of_each(alloc, &mut rows)?;
        push_within(&mut heard, sub.close(rt, alloc, seats, taker)?);
    }
    Ok(heard)
}
