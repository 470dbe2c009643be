ghost use Rattle.std.specs.Prelude.{◌≡◌, Some, None};
ghost use Rattle.zk_model_work.specs.Answers.{is_chained, target, admission, refusal, submission_to, submission_at, submission, is_pending, remaining, wait_for, cancel_wait, flush_wait, drain_wait, start_reply, drain_reply, unplug_reply, stop_reply, cancel_start_reply, flush_start_reply, closes};
ghost use Rattle.zk_model_work.specs.Machine.{taken_up, may_begin, may_end, has_come};

use crate::{
    Admission, Awaited, Closing, Item, Queue, Submitted, Wait, WorkReply, drained_of,
    first_in_line, has_come, is_plugged, is_started, is_unanswered, is_worker, run,
};
use zk_base::{Errno, Who};

/// Whether the caller is the worker of the queue.
fn is_chained(queue: &Queue, caller: Option<u32>) -> bool
    ensures { result ≡ is_chained queue.now caller }
{
    match caller {
        None => false,
        Some(player) => player == queue.worker,
    }
}

/// The queue that a submission goes to.
fn target(item: Item, named: Option<u32>) -> Option<u32>
    ensures { result ≡ target item named }
{
    item.home.or(named).or(item.last)
}

/// The answer where the item is admitted.
fn admission(item: Item, number: u32) -> Submitted
    ensures { result ≡ admission item number }
{
    if item.running {
        Submitted::Rerun(item.next, number)
    } else {
        Submitted::Fresh(item.next, number)
    }
}

/// Why the queue takes no submission of this caller, if it takes none. A caller is a player, or nobody.
fn refusal(queue: &Queue, caller: Option<u32>) -> Option<Errno>
    ensures { result ≡ refusal caller queue.now }
{
    if !queue.started {
        return Some(Errno::NoDev);
    }
    if queue.draining && !is_chained(queue, caller) {
        return Some(Errno::Busy);
    }
    if queue.plugged && !queue.draining {
        return Some(Errno::Busy);
    }
    None
}

/// The answer of the queue that the item goes to.
fn submission_to(item: Item, caller: Option<u32>, number: u32, queue: &Queue) -> Submitted
    ensures { result ≡ submission_to item caller number queue.now }
{
    match refusal(queue, caller) {
        Some(errno) => Submitted::Refused(errno),
        None => admission(item, number),
    }
}

/// The answer at the queue of this number, if there is one.
fn submission_at(item: Item, queues: &[Queue], caller: Option<u32>, to: Option<u32>) -> Submitted
    ensures { result ≡ submission_at item queues.now caller to }
{
    match to {
        None => Submitted::Refused(Errno::Inval),
        Some(number) => match queues.get(number as usize) {
            None => Submitted::Refused(Errno::Inval),
            Some(queue) => submission_to(item, caller, number, queue),
        },
    }
}

/// The answer to a submission of the item by this player, or by nobody, to the named queue.
pub fn submission(
    item: Item,
    queues: &[Queue],
    caller: Option<u32>,
    named: Option<u32>,
) -> Submitted
    ensures { result ≡ submission item queues.now caller named }
{
    if item.cancelling {
        return Submitted::Refused(Errno::Busy);
    }
    if item.queued {
        return Submitted::Already;
    }
    submission_at(item, queues, caller, target(item, named))
}

/// Whether the item, which is armed or isn't, is delayed, queued or being cancelled.
pub fn is_pending(item: Item, armed: bool) -> bool
    ensures { result ≡ is_pending item armed }
{
    armed || item.queued || item.cancelling
}

/// The ticks until this deadline, none where there is none.
pub fn remaining(deadline: Option<u64>, time: u64) -> u64
    ensures { result ≡ remaining deadline time }
{
    match deadline {
        None => 0,
        Some(deadline) => deadline.saturating_sub(time),
    }
}

/// The wait of a player that begins with the entry of this place.
fn wait_for(place: u64, who: Who, awaited: Awaited) -> Wait
    ensures { result ≡ wait_for place who awaited }
{
    Wait {
        place,
        player: who.number,
        awaited,
        answered: false,
    }
}

/// The wait for the end of the run of this number, which a cancel found, if it found one.
pub fn cancel_wait(place: u64, who: Who, number: Option<u64>) -> Option<Wait>
    ensures { result ≡ cancel_wait place who number }
{
    match number {
        None => None,
        Some(number) => Some(wait_for(place, who, Awaited::Cancel(number))),
    }
}

/// The wait for the end of the admission of this number, if there is one.
pub fn flush_wait(place: u64, who: Who, number: Option<u64>) -> Option<Wait>
    ensures { result ≡ flush_wait place who number }
{
    match number {
        None => None,
        Some(number) => Some(wait_for(place, who, Awaited::Flush(number))),
    }
}

/// The wait for one more draining of the queue to end, unless it is idle.
pub fn drain_wait(idle: bool, place: u64, queues: &[Queue], who: Who, queue: u32) -> Option<Wait>
    ensures { result ≡ drain_wait idle place queues.now who queue }
{
    if idle {
        return None;
    }
    let drained = drained_of(queues, queue);
    Some(wait_for(place, who, Awaited::Drain(queue, drained)))
}

/// What a worker of this queue takes up: the first in its line.
pub fn taken_up(admissions: &[Admission], queue: u32) -> Option<WorkReply>
    ensures { result ≡ taken_up admissions.now queue }
{
    let number = first_in_line(admissions, queue)?;
    let admission = admissions.get(number)?;
    Some(WorkReply::Run(admission.item, number as u64))
}

/// Whether the player may take up the next of this queue: its worker may, while it runs nothing.
pub fn may_begin(admissions: &[Admission], queues: &[Queue], who: Who, queue: u32) -> bool
    ensures { result ≡ may_begin admissions.now queues.now who queue }
{
    is_worker(queues, queue, who.number) && run(admissions, queue).is_none()
}

/// Whether the player may end what this queue runs: its worker may.
pub fn may_end(admissions: &[Admission], queues: &[Queue], who: Who, queue: u32) -> bool
    ensures { result ≡ may_end admissions.now queues.now who queue }
{
    is_worker(queues, queue, who.number) && run(admissions, queue).is_some()
}

/// What a start of this queue is answered: whether it was started before.
pub fn start_reply(queues: &[Queue], queue: u32) -> WorkReply
    ensures { result ≡ start_reply queues.now queue }
{
    if is_started(queues, queue) {
        WorkReply::Already
    } else {
        WorkReply::Done
    }
}

/// What the start of a drain is answered: whether it has to wait. It hasn't where the queue is idle.
pub fn drain_reply(idle: bool) -> WorkReply
    ensures { result ≡ drain_reply idle }
{
    if idle {
        WorkReply::Number(0)
    } else {
        WorkReply::Wait
    }
}

/// What an unplug of this queue is answered: whether it was plugged before.
pub fn unplug_reply(queues: &[Queue], queue: u32) -> WorkReply
    ensures { result ≡ unplug_reply queues.now queue }
{
    if is_plugged(queues, queue) {
        WorkReply::Done
    } else {
        WorkReply::Already
    }
}

/// What a stop of this queue is answered: whether it was started before, and may be stopped, as it may
/// where it is plugged, and idle.
pub fn stop_reply(queues: &[Queue], queue: u32, idle: bool) -> WorkReply
    ensures { result ≡ stop_reply idle queues.now queue }
{
    if !is_started(queues, queue) {
        return WorkReply::Already;
    }
    if is_plugged(queues, queue) && idle {
        WorkReply::Done
    } else {
        WorkReply::Busy
    }
}

/// Whether this is the player's unanswered wait of this place, and what it awaits has come.
pub fn closes(
    admissions: &[Admission],
    queues: &[Queue],
    closing: Closing,
    who: Who,
    place: u64,
    wait: Wait,
) -> bool
    ensures { result ≡ closes (has_come admissions.now queues.now closing) who place wait }
{
    is_unanswered(wait, place, who.number) && has_come(admissions, queues, closing, wait.awaited)
}

/// What a sync cancel is answered, by the item's busy flags before it and by whether the item runs.
pub fn cancel_start_reply(flags: u8, runs: bool) -> WorkReply
    ensures { result ≡ cancel_start_reply flags runs }
{
    if flags == 0 {
        return WorkReply::Truth(false);
    }
    if runs {
        WorkReply::Wait
    } else {
        WorkReply::Truth(true)
    }
}

/// What a flush is answered: the number of the admission that it waits for, if there is one.
pub fn flush_start_reply(number: Option<u64>) -> WorkReply
    ensures { result ≡ flush_start_reply number }
{
    match number {
        Some(number) => WorkReply::WaitFor(number),
        None => WorkReply::Truth(false),
    }
}
