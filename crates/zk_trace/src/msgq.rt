ghost use Rattle.std.specs.Prelude.{◌≡◌};
ghost use Rattle.zk_trace.specs.Msgq.{verb_word, said_of, op_words, reply_parts, reply_words};
ghost use Rattle.zk_trace.specs.Sized.{AreSized};

use crate::parts::{FixedWord, Part, PartList, put_parts, put_said};
use crate::sizes::Sizes;
use crate::spelled::Spelled;
use zk_base::{Errno, NoMemory};
use zk_model_wait::{MsgqOp, MsgqReply};
use zk_paper::Paper;
use zk_scenario::Scenario;

/// The verbs of a message queue's operations.
#[derive(Clone, Copy)]
pub enum Verb {
    /// Of `MsgqOp::Put`.
    Put,
    /// Of `MsgqOp::PutFront`.
    PutFront,
    /// Of `MsgqOp::PutEnd`.
    PutEnd,
    /// Of `MsgqOp::PutQuit`.
    PutQuit,
    /// Of `MsgqOp::Get`.
    Get,
    /// Of `MsgqOp::GetEnd`.
    GetEnd,
    /// Of `MsgqOp::GetQuit`.
    GetQuit,
    /// Of `MsgqOp::Peek`.
    Peek,
    /// Of `MsgqOp::PeekAt`.
    PeekAt,
    /// Of `MsgqOp::Purge`.
    Purge,
    /// Of `MsgqOp::Used`.
    Used,
    /// Of `MsgqOp::Free`.
    Free,
    /// Of `MsgqOp::PollArm`.
    PollArm,
    /// Of `MsgqOp::PollEnd`.
    PollEnd,
    /// Of `MsgqOp::PollQuit`.
    PollQuit,
}

/// The word of a verb.
pub fn verb_word(verb: Verb) -> &'static [u8]
    ensures { result.now ≡ verb_word verb }
{
    match verb {
        Verb::Put => b"put",
        Verb::PutFront => b"putfront",
        Verb::PutEnd => b"putend",
        Verb::PutQuit => b"putquit",
        Verb::Get => b"get",
        Verb::GetEnd => b"getend",
        Verb::GetQuit => b"getquit",
        Verb::Peek => b"peek",
        Verb::PeekAt => b"peekat",
        Verb::Purge => b"purge",
        Verb::Used => b"used",
        Verb::Free => b"free",
        Verb::PollArm => b"pollarm",
        Verb::PollEnd => b"pollend",
        Verb::PollQuit => b"pollquit",
    }
}

/// An operation as it is written: its verb, and what stands behind that.
pub fn said_of(op: &MsgqOp) -> (Verb, PartList<'_>)
    ensures { result ≡ said_of op.now }
{
    match op {
        MsgqOp::Put(message, waits) => (
            Verb::Put,
            PartList::two(Part::message(message), Part::Waits(*waits)),
        ),
        MsgqOp::PutFront(message) => (Verb::PutFront, PartList::one(Part::message(message))),
        MsgqOp::PutEnd(place) => (Verb::PutEnd, PartList::one(Part::Place(*place))),
        MsgqOp::PutQuit(place) => (Verb::PutQuit, PartList::one(Part::Place(*place))),
        MsgqOp::Get(waits) => (Verb::Get, PartList::one(Part::Waits(*waits))),
        MsgqOp::GetEnd(place) => (Verb::GetEnd, PartList::one(Part::Place(*place))),
        MsgqOp::GetQuit(place) => (Verb::GetQuit, PartList::one(Part::Place(*place))),
        MsgqOp::Peek => (Verb::Peek, PartList::none()),
        MsgqOp::PeekAt(index) => (Verb::PeekAt, PartList::one(Part::Narrow(*index))),
        MsgqOp::Purge => (Verb::Purge, PartList::none()),
        MsgqOp::Used => (Verb::Used, PartList::none()),
        MsgqOp::Free => (Verb::Free, PartList::none()),
        MsgqOp::PollArm(waits) => (Verb::PollArm, PartList::one(Part::Waits(*waits))),
        MsgqOp::PollEnd(place) => (Verb::PollEnd, PartList::one(Part::Place(*place))),
        MsgqOp::PollQuit(place) => (Verb::PollQuit, PartList::one(Part::Place(*place))),
    }
}

/// The parts of a reply.
pub fn reply_parts(reply: &MsgqReply) -> PartList<'_>
    ensures { result ≡ reply_parts reply.now }
{
    match reply {
        MsgqReply::Done => PartList::one(Part::Fixed(FixedWord::Done)),
        MsgqReply::NoMsg => PartList::one(Part::Refusal(Errno::NoMsg)),
        MsgqReply::Wait => PartList::one(Part::Fixed(FixedWord::Wait)),
        MsgqReply::Again => PartList::one(Part::Refusal(Errno::Again)),
        MsgqReply::Bytes(message) => PartList::one(Part::message(message)),
        MsgqReply::Number(number) => PartList::one(Part::Narrow(*number)),
        MsgqReply::Ready => PartList::one(Part::Fixed(FixedWord::Ready)),
        MsgqReply::NotReady => PartList::one(Part::Fixed(FixedWord::NotReady)),
        MsgqReply::Armed => PartList::one(Part::Fixed(FixedWord::Armed)),
        MsgqReply::Noted => PartList::one(Part::Fixed(FixedWord::Noted)),
        MsgqReply::Plain => PartList::one(Part::Fixed(FixedWord::Plain)),
    }
}

impl Spelled for MsgqOp {
    ghost words = { op_words };

    fn put_words(&self, out: &mut Paper, scenario: &Scenario) -> Result<(), NoMemory> {
        let (verb, parts) = said_of(self);
        put_said(out, scenario, verb_word(verb), &parts)
    }
}

impl Spelled for MsgqReply {
    ghost words = { reply_words };

    fn put_words(&self, out: &mut Paper, scenario: &Scenario) -> Result<(), NoMemory> {
        put_parts(out, scenario, b' ', &reply_parts(self))
    }
}

impl Sizes for MsgqOp {
    ghost sized = { λ op. AreSized (said_of op).1 };

    fn sizes(&self) {
        let (_, parts) = said_of(self);
        parts.sizes();
    }
}

impl Sizes for MsgqReply {
    ghost sized = { λ reply. AreSized (reply_parts reply) };

    fn sizes(&self) {
        reply_parts(self).sizes();
    }
}
