ghost use Rattle.std.specs.Prelude.{◌≡◌, ◌++◌, List, IfOk, OnOk};
ghost use Rattle.zk_show_why.specs.Left.{delay_left, delayed, is_alike, is_among, is_told, is_vain, item_left, items_left, left_of, lost_by, lost_by_call, lost_by_cancel, lost_by_flush, lost_by_reply, lost_by_submission, msgqs_left, refused, with_left, with_lost};

use crate::stock::msgq_of;
use crate::times::due_of;
use crate::whereabouts::{
    Armed, Asked, Made, Whereabouts, after, asked_of, expiry_of, is_number, made_by, nowhere,
};
use std::alloc::Global;
use zk_base::{Entry, Errno, NoMemory};
use zk_model_work::{Submitted, WorkOp, WorkReply};
use zk_scenario::Scenario;
use zk_trace::Trace;

/// What came to nothing, or is left.
#[derive(Clone, Copy)]
pub enum What {
    /// A submission by a call was refused.
    Refused(Errno),
    /// The submission at the end of a delay was refused.
    Expired(Errno),
    /// The submission by a flush was refused.
    Hurried,
    /// The admission of this number was dropped by a cancel.
    Dropped(u64),
    /// A delay, which ends at this moment.
    Delayed(u64),
    /// So many messages.
    Holds(u64),
}

/// What came to nothing of an item, or is left of an object, by whose step.
#[derive(Clone, Copy)]
pub struct Left {
    pub what: What,
    /// The item, or the message queue.
    pub object: u32,
    pub made: Made,
}

fn refused(answer: Submitted) -> Option<Errno>
    ensures { result ≡ refused answer }
{
    match answer {
        Submitted::Refused(errno) => Some(errno),
        _ => None,
    }
}

fn lost_by_submission(reply: &WorkReply) -> Option<What>
    ensures { result ≡ lost_by_submission reply.now }
{
    match reply {
        WorkReply::Sub(answer) => Some(What::Refused(refused(*answer)?)),
        _ => None,
    }
}

// Whether a flush that is answered so has submitted an item, which was delayed, in vain.
fn is_vain(at: Whereabouts, reply: &WorkReply) -> bool
    ensures { result ≡ is_vain at reply.now }
{
    match reply {
        WorkReply::WaitFor(number) => {
            is_number(at.run, *number) && !is_number(at.waiting, *number)
        }
        _ => true,
    }
}

fn lost_by_flush(at: Whereabouts, reply: &WorkReply) -> Option<What>
    ensures { result ≡ lost_by_flush at reply.now }
{
    if at.armed.is_some() && is_vain(at, reply) {
        Some(What::Hurried)
    } else {
        None
    }
}

fn lost_by_cancel(at: Whereabouts) -> Option<What>
    ensures { result ≡ lost_by_cancel at }
{
    match at.waiting {
        Some(waiting) => Some(What::Dropped(waiting.number)),
        None => None,
    }
}

fn lost_by_call(at: Whereabouts, asked: Asked, reply: &WorkReply) -> Option<What>
    ensures { result ≡ lost_by_call at asked reply.now }
{
    match asked {
        Asked::Nothing => None,
        Asked::Submission => lost_by_submission(reply),
        Asked::Delay(_) => lost_by_submission(reply),
        Asked::OtherDelay(_) => lost_by_submission(reply),
        Asked::Cancelling => lost_by_cancel(at),
        Asked::Flushing => lost_by_flush(at, reply),
    }
}

fn lost_by_reply(item: usize, at: Whereabouts, op: WorkOp, reply: &WorkReply) -> Option<What>
    ensures { result ≡ lost_by_reply item at op reply.now }
{
    match reply {
        WorkReply::Now(_, expiries) => {
            let answer = expiry_of(item, expiries.items())?;
            Some(What::Expired(refused(answer)?))
        }
        _ => lost_by_call(at, asked_of(item, op), reply),
    }
}

// What came to nothing of the item of a number by an entry, if something did.
fn lost_by(item: usize, at: Whereabouts, entry: &Entry<WorkOp, WorkReply>) -> Option<What>
    ensures { result ≡ lost_by item at entry.now }
{
    lost_by_reply(item, at, entry.op, &entry.reply)
}

fn is_alike(what: What, other: What) -> bool
    ensures { result ≡ is_alike what other }
{
    match (what, other) {
        (What::Refused(_), What::Refused(_)) => true,
        (What::Expired(_), What::Expired(_)) => true,
        (What::Hurried, What::Hurried) => true,
        (What::Dropped(_), What::Dropped(_)) => true,
        _ => false,
    }
}

// Whether one of these is a player's, and like this.
fn is_among(player: u32, what: What, told: &[Left]) -> bool
    ensures { result ≡ is_among player what told.now }
{
    for left in told {
        if left.made.player == player && is_alike(left.what, what) {
            return true;
        }
    }
    false
}

// Of a worker, whose runs may be many, the first of those that are alike is told for all.
fn is_told(threads: usize, told: &[Left], left: Left) -> bool
    ensures { result ≡ is_told threads told.now left }
{
    !((left.made.player as usize) < threads) && is_among(left.made.player, left.what, told)
}

fn put_left(threads: usize, told: &mut Vec<Left>, left: Left) -> Result<(), NoMemory>
    ensures { OnOk result (told.new.items ≡ with_left threads told.old.items left) }
{
    if !is_told(threads, told, left) {
        told.push(left)?;
    }
    Ok(())
}

fn put_lost(
    threads: usize,
    told: &mut Vec<Left>,
    object: u32,
    what: Option<What>,
    made: Made,
) -> Result<(), NoMemory>
    ensures { OnOk result (told.new.items ≡ with_lost threads told.old.items object what made) }
{
    match what {
        Some(what) => put_left(threads, told, Left { what, object, made }),
        None => Ok(()),
    }
}

fn delayed(object: u32, armed: Armed, moment: u64) -> Left
    ensures { result ≡ delayed object armed moment }
{
    Left {
        what: What::Delayed(moment),
        object,
        made: armed.made,
    }
}

// The delay that is left of an item, if there is one.
fn delay_left(trace: &Trace, item: usize, object: u32, at: Whereabouts) -> Option<Left>
    ensures { result ≡ delay_left trace.now item object at }
{
    let armed = at.armed?;
    let moment = due_of(trace, item)?;
    Some(delayed(object, armed, moment))
}

// What came to nothing of an item, and the delay that is left of it.
fn item_left(
    alloc: Global,
    threads: usize,
    trace: &Trace,
    item: usize,
    object: u32,
) -> Result<Vec<Left>, NoMemory>
    ensures { IfOk result (λ told. told.items ≡ item_left threads trace.now item object) }
{
    let mut told = Vec::new(alloc);
    let mut at = nowhere();
    for entry in trace.work.items() {
        put_lost(
            threads,
            &mut told,
            object,
            lost_by(item, at, entry),
            made_by(entry),
        )?;
        at = after(item, at, entry);
    }
    if let Some(left) = delay_left(trace, item, object, at) {
        told.push(left)?;
    }
    Ok(told)
}

fn items_left(
    alloc: Global,
    threads: usize,
    trace: &Trace,
    objects: &[u32],
) -> Result<Vec<Left>, NoMemory>
    ensures { IfOk result (λ told. told.items ≡ items_left threads trace.now 0 objects.now) }
{
    let mut told = Vec::new(alloc);
    for (item, object) in objects.iter().enumerate() {
        told.extend_from_slice(&item_left(alloc, threads, trace, item, *object)?)?;
    }
    Ok(told)
}

// Appends what is left in the message queues of these objects.
fn put_msgqs_left(told: &mut Vec<Left>, trace: &Trace, objects: &[u32]) -> Result<(), NoMemory>
    ensures { OnOk result (told.new.items ≡ told.old.items ++ msgqs_left trace.now objects.now) }
{
    for object in objects {
        if let Some(left) = msgq_of(trace, *object) {
            told.push(left)?;
        }
    }
    Ok(())
}

/// All that a run leaves behind: of each item what came to nothing, and its delay, then the messages.
pub fn left_of(alloc: Global, scenario: &Scenario, trace: &Trace) -> Result<Vec<Left>, NoMemory>
    ensures { IfOk result (λ told. told.items ≡ left_of scenario.now.decls trace.now) }
{
    let mut told = items_left(alloc, scenario.threads().len(), trace, scenario.items())?;
    put_msgqs_left(&mut told, trace, scenario.msgqs())?;
    Ok(told)
}
