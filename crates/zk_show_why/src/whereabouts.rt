ghost use Rattle.std.specs.Prelude.{◌≡◌};
ghost use Rattle.zk_show_why.specs.Whereabouts.{after, after_all, after_announce, after_asked, after_begin, after_delay, after_done, after_end, after_flush, after_reply, after_submission, asked_of, begun, disarmed, dropped, expiry_of, flushed, hurried, hurried_to, is_known, is_number, is_run_by, made_by, nowhere, queue_begun, queue_ended, queued, submitted};

use zk_base::Entry;
use zk_model_work::{Expiry, Submitted, WorkOp, WorkReply};
use zk_trace::Trace;

/// Whoever made an entry, at which of its own steps.
#[derive(Clone, Copy)]
pub struct Made {
    pub player: u32,
    pub step: u32,
}

/// An admission, and the number of its queue.
#[derive(Clone, Copy)]
pub struct Admitted {
    pub number: u64,
    pub queue: u32,
}

/// A delay: who set it, and the number of the queue to which its end submits the item.
#[derive(Clone, Copy)]
pub struct Armed {
    pub made: Made,
    pub queue: u32,
}

/// Where an item is.
#[derive(Clone, Copy)]
pub struct Whereabouts {
    /// As what it waits for its run.
    pub waiting: Option<Admitted>,
    /// As what it runs.
    pub run: Option<Admitted>,
    pub armed: Option<Armed>,
}

/// What an operation asks for an item.
#[derive(Clone, Copy)]
pub enum Asked {
    /// It is about something else.
    Nothing,
    Submission,
    /// A delay, unless it has one; the number of the queue.
    Delay(u32),
    /// A delay in place of the one that it has; the number of the queue.
    OtherDelay(u32),
    Cancelling,
    Flushing,
}

pub fn nowhere() -> Whereabouts
    ensures { result ≡ nowhere }
{
    Whereabouts {
        waiting: None,
        run: None,
        armed: None,
    }
}

pub fn made_by<O, R>(entry: &Entry<O, R>) -> Made
    ensures { result ≡ made_by entry.now }
{
    Made {
        player: entry.who.number,
        step: entry.step,
    }
}

/// Whether it is the admission of a number.
pub fn is_number(admitted: Option<Admitted>, number: u64) -> bool
    ensures { result ≡ is_number admitted number }
{
    match admitted {
        Some(admitted) => admitted.number == number,
        None => false,
    }
}

fn disarmed(at: Whereabouts) -> Whereabouts
    ensures { result ≡ disarmed at }
{
    Whereabouts {
        waiting: at.waiting,
        run: at.run,
        armed: None,
    }
}

fn dropped(at: Whereabouts) -> Whereabouts
    ensures { result ≡ dropped at }
{
    Whereabouts {
        waiting: None,
        run: at.run,
        armed: None,
    }
}

fn queued(at: Whereabouts, number: u64, queue: u32) -> Whereabouts
    ensures { result ≡ queued at number queue }
{
    Whereabouts {
        waiting: Some(Admitted { number, queue }),
        run: at.run,
        armed: at.armed,
    }
}

// Behind a submission that is answered so.
fn submitted(at: Whereabouts, answer: Submitted) -> Whereabouts
    ensures { result ≡ submitted at answer }
{
    match answer {
        Submitted::Fresh(number, queue) => queued(at, number, queue),
        Submitted::Rerun(number, queue) => queued(at, number, queue),
        _ => at,
    }
}

// The queue that runs it, or else its delay's.
fn hurried_to(at: Whereabouts, armed: Armed) -> u32
    ensures { result ≡ hurried_to at armed }
{
    match at.run {
        Some(run) => run.queue,
        None => armed.queue,
    }
}

fn is_known(at: Whereabouts, number: u64) -> bool
    ensures { result ≡ is_known at number }
{
    is_number(at.waiting, number) || is_number(at.run, number)
}

fn hurried(at: Whereabouts, number: u64, armed: Armed) -> Whereabouts
    ensures { result ≡ hurried at number armed }
{
    if is_known(at, number) {
        disarmed(at)
    } else {
        queued(disarmed(at), number, hurried_to(at, armed))
    }
}

// Behind a flush that waits for this admission.
fn flushed(at: Whereabouts, number: u64) -> Whereabouts
    ensures { result ≡ flushed at number }
{
    match at.armed {
        Some(armed) => hurried(at, number, armed),
        None => at,
    }
}

/// What an operation asks for the item of a number.
pub fn asked_of(item: usize, op: WorkOp) -> Asked
    ensures { result ≡ asked_of item op }
{
    match op {
        WorkOp::Submit(other, _) if other as usize == item => Asked::Submission,
        WorkOp::Schedule(other, queue, _) if other as usize == item => Asked::Delay(queue),
        WorkOp::Reschedule(other, queue, _) if other as usize == item => Asked::OtherDelay(queue),
        WorkOp::Cancel(other) if other as usize == item => Asked::Cancelling,
        WorkOp::CancelStart(other) if other as usize == item => Asked::Cancelling,
        WorkOp::FlushStart(other) if other as usize == item => Asked::Flushing,
        _ => Asked::Nothing,
    }
}

fn after_submission(at: Whereabouts, reply: &WorkReply) -> Whereabouts
    ensures { result ≡ after_submission at reply.now }
{
    match reply {
        WorkReply::Sub(answer) => submitted(at, *answer),
        _ => at,
    }
}

fn after_delay(at: Whereabouts, queue: u32, made: Made, reply: &WorkReply) -> Whereabouts
    ensures { result ≡ after_delay at queue made reply.now }
{
    match reply {
        WorkReply::Armed => Whereabouts {
            waiting: at.waiting,
            run: at.run,
            armed: Some(Armed { made, queue }),
        },
        WorkReply::Sub(answer) => submitted(at, *answer),
        _ => at,
    }
}

// Behind a flush, which ends its delay.
fn after_flush(at: Whereabouts, reply: &WorkReply) -> Whereabouts
    ensures { result ≡ after_flush at reply.now }
{
    match reply {
        WorkReply::WaitFor(number) => flushed(at, *number),
        _ => disarmed(at),
    }
}

fn after_asked(at: Whereabouts, asked: Asked, made: Made, reply: &WorkReply) -> Whereabouts
    ensures { result ≡ after_asked at asked made reply.now }
{
    match asked {
        Asked::Nothing => at,
        Asked::Submission => after_submission(at, reply),
        Asked::Delay(queue) => after_delay(at, queue, made, reply),
        Asked::OtherDelay(queue) => after_delay(disarmed(at), queue, made, reply),
        Asked::Cancelling => dropped(at),
        Asked::Flushing => after_flush(at, reply),
    }
}

/// The answer to an item's submission, if its delay is among those that are over.
pub fn expiry_of(item: usize, expiries: &[Expiry]) -> Option<Submitted>
    ensures { result ≡ expiry_of item expiries.now }
{
    for expiry in expiries {
        if expiry.item as usize == item {
            return Some(expiry.submitted);
        }
    }
    None
}

fn after_announce(item: usize, at: Whereabouts, expiries: &[Expiry]) -> Whereabouts
    ensures { result ≡ after_announce item at expiries.now }
{
    match expiry_of(item, expiries) {
        Some(answer) => submitted(disarmed(at), answer),
        None => at,
    }
}

fn queue_begun(op: WorkOp) -> Option<u32>
    ensures { result ≡ queue_begun op }
{
    match op {
        WorkOp::Begin(queue) => Some(queue),
        _ => None,
    }
}

fn queue_ended(op: WorkOp) -> Option<u32>
    ensures { result ≡ queue_ended op }
{
    match op {
        WorkOp::End(queue) => Some(queue),
        _ => None,
    }
}

// A worker has taken it up.
fn begun(at: Whereabouts, number: u64, queue: u32) -> Whereabouts
    ensures { result ≡ begun at number queue }
{
    Whereabouts {
        waiting: None,
        run: Some(Admitted { number, queue }),
        armed: at.armed,
    }
}

fn after_begin(at: Whereabouts, number: u64, op: WorkOp) -> Whereabouts
    ensures { result ≡ after_begin at number op }
{
    match queue_begun(op) {
        Some(queue) => begun(at, number, queue),
        None => at,
    }
}

fn is_run_by(at: Whereabouts, queue: u32) -> bool
    ensures { result ≡ is_run_by at queue }
{
    match at.run {
        Some(run) => run.queue == queue,
        None => false,
    }
}

fn after_end(at: Whereabouts, queue: u32) -> Whereabouts
    ensures { result ≡ after_end at queue }
{
    if is_run_by(at, queue) {
        Whereabouts {
            waiting: at.waiting,
            run: None,
            armed: at.armed,
        }
    } else {
        at
    }
}

fn after_done(at: Whereabouts, op: WorkOp) -> Whereabouts
    ensures { result ≡ after_done at op }
{
    match queue_ended(op) {
        Some(queue) => after_end(at, queue),
        None => at,
    }
}

fn after_reply(
    item: usize,
    at: Whereabouts,
    op: WorkOp,
    made: Made,
    reply: &WorkReply,
) -> Whereabouts
    ensures { result ≡ after_reply item at op made reply.now }
{
    match reply {
        WorkReply::Run(other, number) => {
            if *other as usize == item {
                after_begin(at, *number, op)
            } else {
                at
            }
        }
        WorkReply::Now(_, expiries) => after_announce(item, at, expiries.items()),
        WorkReply::Done => after_done(at, op),
        _ => after_asked(at, asked_of(item, op), made, reply),
    }
}

/// Where the item of a number is behind an entry.
pub fn after(item: usize, at: Whereabouts, entry: &Entry<WorkOp, WorkReply>) -> Whereabouts
    ensures { result ≡ after item at entry.now }
{
    after_reply(item, at, entry.op, made_by(entry), &entry.reply)
}

/// Where the item of a number is at the end of a run.
pub fn place_of_item(trace: &Trace, item: usize) -> Whereabouts
    ensures { result ≡ after_all item nowhere trace.now.work }
{
    let mut at = nowhere();
    for entry in trace.work.items() {
        at = after(item, at, entry);
    }
    at
}
