ghost use Rattle.std.specs.Prelude.{◌≡◌, ◌<◌, ◌≤◌, set};
ghost use Rattle.std.specs.List.{list_any};
ghost use Rattle.zk_model_work.specs.Answers.{closes};
ghost use Rattle.zk_work.specs.Engine.{is_flushing, has_come, left_waits};
ghost use Rattle.zk_work.specs.Flushed.{AreKept};

use crate::active::Active;
use crate::flushed::{Flushed, holds};
use crate::open_waits::OpenWaits;
use zk_base::Who;
use zk_model_work::{Awaited, Closing, Queue, Wait, drained_of, is_unanswered};

/// Whether a flush waits for an admission of the item. Where nobody waits, the item isn't asked.
fn is_flushing(active: &Active, waits: &OpenWaits, flushed: &[Flushed], item: u32) -> bool
    requires item { item < active.now.admissions.items }
    requires kept { AreKept active.now.admissions flushed.now waits.now.waits }
    ensures { result ≡ is_flushing active.now.admissions waits.now.waits item }
{
    if waits.is_empty() {
        return false;
    }
    let numbers = flushed[item as usize];
    holds(numbers, active.waiting(item)) || holds(numbers, active.running(item))
}

/// The word of the item says whether a flush waits for an admission of it.
pub fn mark_flushing(active: &mut Active, waits: &OpenWaits, flushed: &[Flushed], item: u32)
    requires item { item < active.old.admissions.items }
    requires kept { AreKept active.old.admissions flushed.now waits.now.waits }
    ensures admissions { active.new.admissions ≡ active.old.admissions }
    ensures timeouts { active.new.timeouts ≡ active.old.timeouts }
    ensures flushing { active.new.flushing
        ≡ set active.old.flushing item (is_flushing active.old.admissions waits.now.waits item) }
{
    let flushing = is_flushing(active, waits, flushed, item);
    active.mark_flushing(item, flushing);
}

/// Whether what is awaited has come, where it is of this kind.
fn has_come(active: &Active, queues: &[Queue], closing: Closing, awaited: Awaited) -> bool
    ensures { result ≡ has_come active.now.admissions queues.now closing awaited }
{
    match (closing, awaited) {
        (Closing::Cancel, Awaited::Cancel(number)) => !active.is_open(number),
        (Closing::Flush, Awaited::Flush(number)) => !active.is_open(number),
        (Closing::Drain, Awaited::Drain(queue, count)) => count < drained_of(queues, queue),
        _ => false,
    }
}

/// Whether this is the player's wait of this place, and what it awaits has come.
fn closes(
    active: &Active,
    queues: &[Queue],
    closing: Closing,
    who: Who,
    place: u64,
    wait: Wait,
) -> bool
    ensures { result ≡ closes (has_come active.now.admissions queues.now closing) who place wait }
{
    is_unanswered(wait, place, who.number) && has_come(active, queues, closing, wait.awaited)
}

/// Whether there is such a wait.
pub fn may_close(
    active: &Active,
    queues: &[Queue],
    waits: &OpenWaits,
    closing: Closing,
    who: Who,
    place: u64,
) -> bool
    ensures { result
        ≡ list_any (closes (has_come active.now.admissions queues.now closing) who place) waits.now.waits }
{
    match waits.at(place) {
        None => false,
        Some(wait) => closes(active, queues, closing, who, place, wait),
    }
}

/// The wait that this ends is taken out.
pub fn close(
    active: &Active,
    queues: &[Queue],
    waits: &mut OpenWaits,
    closing: Closing,
    who: Who,
    place: u64,
)
    ensures waits { waits.new.waits
        ≡ left_waits active.now.admissions queues.now waits.old.waits closing who place }
    ensures next { waits.new.next ≡ waits.old.next }
    ensures room { waits.old.room ≤ waits.new.room }
{
    if may_close(active, queues, waits, closing, who, place) {
        waits.in_order();
        waits.take_out(place);
    }
}
