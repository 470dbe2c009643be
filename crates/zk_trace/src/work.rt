ghost use Rattle.std.specs.Prelude.{◌≡◌, ◌∷◌, ◌++◌, map, drop, OnOk};
ghost use Rattle.zk_words.specs.Bytes.{space};
ghost use Rattle.zk_trace.specs.Parts.{each_behind};
ghost use Rattle.zk_trace.specs.Work.{verb_word, said_of, op_words, admitted, submitted_parts, reply_parts, expiries_of, expiry_word, reply_words};
ghost use Rattle.zk_trace.specs.Sized.{AreSized, IsSizedExpiry, IsSizedWork};
ghost use Rattle.std.specs.List.{AllByRecursion};

use crate::parts::{FixedWord, Part, PartList, put_part, put_parts, put_said};
use crate::sizes::{Sizes, all_sizes};
use crate::spelled::Spelled;
use zk_base::{Errno, NoMemory};
use zk_model_work::{Expiry, Submitted, WorkOp, WorkReply};
use zk_paper::Paper;
use zk_scenario::Scenario;

/// The byte between the words of a delay that ended.
pub const COLON: u8 = b':';

/// The verbs of the work service's operations.
#[derive(Clone, Copy)]
pub enum Verb {
    /// Of `WorkOp::Submit`.
    Submit,
    /// Of `WorkOp::Cancel`.
    Cancel,
    /// Of `WorkOp::CancelStart`.
    CancelStart,
    /// Of `WorkOp::CancelDone`.
    CancelDone,
    /// Of `WorkOp::FlushStart`.
    FlushStart,
    /// Of `WorkOp::FlushDone`.
    FlushDone,
    /// Of `WorkOp::Schedule`.
    Schedule,
    /// Of `WorkOp::Reschedule`.
    Reschedule,
    /// Of `WorkOp::Remaining`.
    Remaining,
    /// Of `WorkOp::Start`.
    Start,
    /// Of `WorkOp::DrainStart`.
    DrainStart,
    /// Of `WorkOp::DrainDone`.
    DrainDone,
    /// Of `WorkOp::Unplug`.
    Unplug,
    /// Of `WorkOp::Stop`.
    Stop,
    /// Of `WorkOp::Announce`.
    Announce,
    /// Of `WorkOp::Begin`.
    Begin,
    /// Of `WorkOp::End`.
    End,
}

/// The word of a verb.
pub fn verb_word(verb: Verb) -> &'static [u8]
    ensures { result.now ≡ verb_word verb }
{
    match verb {
        Verb::Submit => b"submit",
        Verb::Cancel => b"cancel",
        Verb::CancelStart => b"cancelstart",
        Verb::CancelDone => b"canceldone",
        Verb::FlushStart => b"flushstart",
        Verb::FlushDone => b"flushdone",
        Verb::Schedule => b"schedule",
        Verb::Reschedule => b"reschedule",
        Verb::Remaining => b"remaining",
        Verb::Start => b"start",
        Verb::DrainStart => b"drainstart",
        Verb::DrainDone => b"draindone",
        Verb::Unplug => b"unplug",
        Verb::Stop => b"stop",
        Verb::Announce => b"announce",
        Verb::Begin => b"begin",
        Verb::End => b"end",
    }
}

/// An operation as it is written: its verb, and what stands behind that.
pub fn said_of(op: WorkOp) -> (Verb, PartList<'static>)
    ensures { result ≡ said_of op }
{
    match op {
        WorkOp::Submit(item, queue) => (
            Verb::Submit,
            PartList::two(Part::Item(item), Part::Target(queue)),
        ),
        WorkOp::Cancel(item) => (Verb::Cancel, PartList::one(Part::Item(item))),
        WorkOp::CancelStart(item) => (Verb::CancelStart, PartList::one(Part::Item(item))),
        WorkOp::CancelDone(place) => (Verb::CancelDone, PartList::one(Part::Place(place))),
        WorkOp::FlushStart(item) => (Verb::FlushStart, PartList::one(Part::Item(item))),
        WorkOp::FlushDone(place) => (Verb::FlushDone, PartList::one(Part::Place(place))),
        WorkOp::Schedule(item, queue, delay) => (
            Verb::Schedule,
            PartList::three(Part::Item(item), Part::Queue(queue), Part::Narrow(delay)),
        ),
        WorkOp::Reschedule(item, queue, delay) => (
            Verb::Reschedule,
            PartList::three(Part::Item(item), Part::Queue(queue), Part::Narrow(delay)),
        ),
        WorkOp::Remaining(item) => (Verb::Remaining, PartList::one(Part::Item(item))),
        WorkOp::Start(queue) => (Verb::Start, PartList::one(Part::Queue(queue))),
        WorkOp::DrainStart(queue, plug) => (
            Verb::DrainStart,
            PartList::two(Part::Queue(queue), Part::Plug(plug)),
        ),
        WorkOp::DrainDone(place) => (Verb::DrainDone, PartList::one(Part::Place(place))),
        WorkOp::Unplug(queue) => (Verb::Unplug, PartList::one(Part::Queue(queue))),
        WorkOp::Stop(queue) => (Verb::Stop, PartList::one(Part::Queue(queue))),
        WorkOp::Announce(ticks) => (Verb::Announce, PartList::one(Part::Narrow(ticks))),
        WorkOp::Begin(queue) => (Verb::Begin, PartList::one(Part::Queue(queue))),
        WorkOp::End(queue) => (Verb::End, PartList::one(Part::Queue(queue))),
    }
}

/// The parts of what became of a submission.
pub fn submitted_parts(submitted: Submitted) -> PartList<'static>
    ensures { result ≡ submitted_parts submitted }
{
    match submitted {
        Submitted::Already => PartList::one(Part::Fixed(FixedWord::Zero)),
        Submitted::Fresh(admission, queue) => admitted(FixedWord::One, admission, queue),
        Submitted::Rerun(admission, queue) => admitted(FixedWord::Two, admission, queue),
        Submitted::Refused(errno) => PartList::one(Part::Refusal(errno)),
    }
}

fn admitted(answer: FixedWord, admission: u64, queue: u32) -> PartList<'static>
    ensures { result ≡ admitted answer admission queue }
{
    PartList::three(
        Part::Fixed(answer),
        Part::Admission(admission),
        Part::Queue(queue),
    )
}

/// The parts of a reply.
pub fn reply_parts(reply: &WorkReply) -> PartList<'static>
    ensures { result ≡ reply_parts reply.now }
{
    match reply {
        WorkReply::Sub(submitted) => submitted_parts(*submitted),
        WorkReply::Armed => PartList::one(Part::Fixed(FixedWord::One)),
        WorkReply::Flags(flags) => PartList::one(Part::Flags(*flags)),
        WorkReply::Truth(truth) => PartList::one(Part::Truth(*truth)),
        WorkReply::Wait => PartList::one(Part::Fixed(FixedWord::Wait)),
        WorkReply::WaitFor(admission) => PartList::two(
            Part::Fixed(FixedWord::Wait),
            Part::Admission(*admission),
        ),
        WorkReply::Number(number) => PartList::one(Part::Wide(*number)),
        WorkReply::Done => PartList::one(Part::Fixed(FixedWord::Done)),
        WorkReply::Already => PartList::one(Part::Fixed(FixedWord::Already)),
        WorkReply::Busy => PartList::one(Part::Refusal(Errno::Busy)),
        WorkReply::Now(time, _) => PartList::two(Part::Fixed(FixedWord::Now), Part::Wide(*time)),
        WorkReply::Run(item, admission) => PartList::two(
            Part::Item(*item),
            Part::Admission(*admission),
        ),
    }
}

/// The delays that a reply says to have ended.
fn expiries_of(reply: &WorkReply) -> &[Expiry]
    ensures { result.now ≡ expiries_of reply.now }
{
    match reply {
        WorkReply::Now(_, expiries) => expiries.items(),
        _ => &[],
    }
}

impl Spelled for WorkOp {
    ghost words = { op_words };

    fn put_words(&self, out: &mut Paper, scenario: &Scenario) -> Result<(), NoMemory> {
        let (verb, parts) = said_of(*self);
        put_said(out, scenario, verb_word(verb), &parts)
    }
}

impl Spelled for WorkReply {
    ghost words = { reply_words };

    fn put_words(&self, out: &mut Paper, scenario: &Scenario) -> Result<(), NoMemory> {
        put_parts(out, scenario, b' ', &reply_parts(self))?;
        put_expiries(out, scenario, expiries_of(self))
    }
}

fn put_expiries(out: &mut Paper, scenario: &Scenario, expiries: &[Expiry]) -> Result<(), NoMemory>
    ensures text { OnOk result (out.new.put ≡
        out.old.put ++ each_behind space (map (expiry_word scenario.now.decls) expiries.now)) }
    ensures front { out.new.front ≡ out.old.front }
{
    for expiry in expiries {
        put_expiry(out, scenario, *expiry)?;
    }
    Ok(())
}

fn put_expiry(out: &mut Paper, scenario: &Scenario, expiry: Expiry) -> Result<(), NoMemory>
    ensures text { OnOk result (out.new.put ≡ out.old.put ++ space ∷ expiry_word scenario.now.decls expiry) }
    ensures front { out.new.front ≡ out.old.front }
{
    put_part(out, scenario, b' ', &Part::Item(expiry.item))?;
    put_parts(out, scenario, COLON, &submitted_parts(expiry.submitted))
}

impl Sizes for WorkOp {
    ghost sized = { λ op. AreSized (said_of op).1 };

    fn sizes(&self) {
        let (_, parts) = said_of(*self);
        parts.sizes();
    }
}

impl Sizes for WorkReply {
    ghost sized = { IsSizedWork };

    fn sizes(&self) {
        reply_parts(self).sizes();
        expiry_sizes(expiries_of(self));
    }
}

impl Sizes for Expiry {
    ghost sized = { IsSizedExpiry };

    fn sizes(&self) {
        submitted_parts(self.submitted).sizes();
    }
}

fn expiry_sizes(expiries: &[Expiry])
    ensures { AllByRecursion IsSizedExpiry expiries.now }
{
    all_sizes(expiries);
}
