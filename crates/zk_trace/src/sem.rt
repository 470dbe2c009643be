ghost use Rattle.std.specs.Prelude.{◌≡◌};
ghost use Rattle.zk_trace.specs.Sem.{verb_word, said_of, op_words, reply_parts, reply_words};
ghost use Rattle.zk_trace.specs.Sized.{AreSized};

use crate::parts::{FixedWord, Part, PartList, put_parts, put_said};
use crate::sizes::Sizes;
use crate::spelled::Spelled;
use zk_base::{Errno, NoMemory};
use zk_model_wait::{SemOp, SemReply};
use zk_paper::Paper;
use zk_scenario::Scenario;

/// The verbs of a semaphore's operations.
#[derive(Clone, Copy)]
pub enum Verb {
    /// Of `SemOp::Take`.
    Take,
    /// Of `SemOp::TakeEnd`.
    TakeEnd,
    /// Of `SemOp::TakeQuit`.
    TakeQuit,
    /// Of `SemOp::Give`.
    Give,
    /// Of `SemOp::Reset`.
    Reset,
    /// Of `SemOp::Count`.
    Count,
    /// Of `SemOp::PollArm`.
    PollArm,
    /// Of `SemOp::PollEnd`.
    PollEnd,
    /// Of `SemOp::PollQuit`.
    PollQuit,
}

/// The word of a verb.
pub fn verb_word(verb: Verb) -> &'static [u8]
    ensures { result.now ≡ verb_word verb }
{
    match verb {
        Verb::Take => b"take",
        Verb::TakeEnd => b"takeend",
        Verb::TakeQuit => b"takequit",
        Verb::Give => b"give",
        Verb::Reset => b"reset",
        Verb::Count => b"count",
        Verb::PollArm => b"pollarm",
        Verb::PollEnd => b"pollend",
        Verb::PollQuit => b"pollquit",
    }
}

/// An operation as it is written: its verb, and what stands behind that.
pub fn said_of(op: SemOp) -> (Verb, PartList<'static>)
    ensures { result ≡ said_of op }
{
    match op {
        SemOp::Take(waits) => (Verb::Take, PartList::one(Part::Waits(waits))),
        SemOp::TakeEnd(place) => (Verb::TakeEnd, PartList::one(Part::Place(place))),
        SemOp::TakeQuit(place) => (Verb::TakeQuit, PartList::one(Part::Place(place))),
        SemOp::Give => (Verb::Give, PartList::none()),
        SemOp::Reset => (Verb::Reset, PartList::none()),
        SemOp::Count => (Verb::Count, PartList::none()),
        SemOp::PollArm(waits) => (Verb::PollArm, PartList::one(Part::Waits(waits))),
        SemOp::PollEnd(place) => (Verb::PollEnd, PartList::one(Part::Place(place))),
        SemOp::PollQuit(place) => (Verb::PollQuit, PartList::one(Part::Place(place))),
    }
}

/// The parts of a reply.
pub fn reply_parts(reply: SemReply) -> PartList<'static>
    ensures { result ≡ reply_parts reply }
{
    match reply {
        SemReply::Got => PartList::one(Part::Fixed(FixedWord::Got)),
        SemReply::Busy => PartList::one(Part::Refusal(Errno::Busy)),
        SemReply::Wait => PartList::one(Part::Fixed(FixedWord::Wait)),
        SemReply::Again => PartList::one(Part::Refusal(Errno::Again)),
        SemReply::Done => PartList::one(Part::Fixed(FixedWord::Done)),
        SemReply::Number(number) => PartList::one(Part::Narrow(number)),
        SemReply::Ready => PartList::one(Part::Fixed(FixedWord::Ready)),
        SemReply::NotReady => PartList::one(Part::Fixed(FixedWord::NotReady)),
        SemReply::Armed => PartList::one(Part::Fixed(FixedWord::Armed)),
        SemReply::Noted => PartList::one(Part::Fixed(FixedWord::Noted)),
        SemReply::Plain => PartList::one(Part::Fixed(FixedWord::Plain)),
    }
}

impl Spelled for SemOp {
    ghost words = { op_words };

    fn put_words(&self, out: &mut Paper, scenario: &Scenario) -> Result<(), NoMemory> {
        let (verb, parts) = said_of(*self);
        put_said(out, scenario, verb_word(verb), &parts)
    }
}

impl Spelled for SemReply {
    ghost words = { reply_words };

    fn put_words(&self, out: &mut Paper, scenario: &Scenario) -> Result<(), NoMemory> {
        put_parts(out, scenario, b' ', &reply_parts(*self))
    }
}

impl Sizes for SemOp {
    ghost sized = { λ op. AreSized (said_of op).1 };

    fn sizes(&self) {
        let (_, parts) = said_of(*self);
        parts.sizes();
    }
}

impl Sizes for SemReply {
    ghost sized = { λ reply. AreSized (reply_parts reply) };

    fn sizes(&self) {
        reply_parts(*self).sizes();
    }
}
