ghost use Rattle.std.specs.Prelude.{◌≡◌};
ghost use Rattle.zk_trace.specs.Signal.{verb_word, said_of, op_words, reply_parts, reply_words};
ghost use Rattle.zk_trace.specs.Sized.{AreSized, IsSizedWrite};

use crate::parts::{Part, PartList, put_parts, put_said};
use crate::sizes::{Sizes, short};
use crate::spelled::Spelled;
use zk_base::NoMemory;
use zk_model_wait::{SignalOp, SignalReply};
use zk_paper::Paper;
use zk_scenario::Scenario;

/// The verbs of a signal's operations.
#[derive(Clone, Copy)]
pub enum Verb {
    /// Of `SignalOp::Raise`.
    Raise,
    /// Of `SignalOp::Clear`.
    Clear,
}

/// The word of a verb.
pub fn verb_word(verb: Verb) -> &'static [u8]
    ensures { result.now ≡ verb_word verb }
{
    match verb {
        Verb::Raise => b"raise",
        Verb::Clear => b"clear",
    }
}

/// An operation as it is written: its verb, and what stands behind that.
pub fn said_of(op: SignalOp) -> (Verb, PartList<'static>)
    ensures { result ≡ said_of op }
{
    match op {
        SignalOp::Raise(value) => (Verb::Raise, PartList::one(Part::Narrow(u32::from(value)))),
        SignalOp::Clear => (Verb::Clear, PartList::none()),
    }
}

/// The parts of a reply.
pub fn reply_parts(reply: SignalReply) -> PartList<'static>
    ensures { result ≡ reply_parts reply }
{
    match reply {
        SignalReply::Stamp(stamp) => PartList::one(Part::Narrow(stamp)),
    }
}

impl Spelled for SignalOp {
    ghost words = { op_words };

    fn put_words(&self, out: &mut Paper, scenario: &Scenario) -> Result<(), NoMemory> {
        let (verb, parts) = said_of(*self);
        put_said(out, scenario, verb_word(verb), &parts)
    }
}

impl Spelled for SignalReply {
    ghost words = { reply_words };

    fn put_words(&self, out: &mut Paper, scenario: &Scenario) -> Result<(), NoMemory> {
        put_parts(out, scenario, b' ', &reply_parts(*self))
    }
}

impl Sizes for SignalOp {
    ghost sized = { IsSizedWrite };

    fn sizes(&self) {
        if let SignalOp::Raise(value) = *self {
            short(value);
        }
    }
}

impl Sizes for SignalReply {
    ghost sized = { λ reply. AreSized (reply_parts reply) };

    fn sizes(&self) {
        reply_parts(*self).sizes();
    }
}
