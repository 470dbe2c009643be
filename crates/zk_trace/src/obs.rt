ghost use Rattle.std.specs.Prelude.{◌≡◌};
ghost use Rattle.zk_trace.specs.Obs.{verb_word, said_of, op_words, reply_parts, reply_words};
ghost use Rattle.zk_trace.specs.Sized.{AreSized};

use crate::parts::{FixedWord, Part, PartList, put_parts, put_said};
use crate::sizes::Sizes;
use crate::spelled::Spelled;
use zk_base::{Errno, NoMemory};
use zk_model_bus::{ObsOp, ObsReply};
use zk_paper::Paper;
use zk_scenario::Scenario;

/// The verbs of an observer's operations.
#[derive(Clone, Copy)]
pub enum Verb {
    /// Of `ObsOp::Visit`.
    Visit,
    /// Of `ObsOp::Take`.
    Take,
    /// Of `ObsOp::TakeEnd`.
    TakeEnd,
    /// Of `ObsOp::TakeQuit`.
    TakeQuit,
    /// Of `ObsOp::Enable`.
    Enable,
}

/// The word of a verb.
pub fn verb_word(verb: Verb) -> &'static [u8]
    ensures { result.now ≡ verb_word verb }
{
    match verb {
        Verb::Visit => b"visit",
        Verb::Take => b"take",
        Verb::TakeEnd => b"takeend",
        Verb::TakeQuit => b"takequit",
        Verb::Enable => b"enable",
    }
}

/// An operation as it is written: its verb, and what stands behind that.
pub fn said_of(op: ObsOp) -> (Verb, PartList<'static>)
    ensures { result ≡ said_of op }
{
    match op {
        ObsOp::Visit(channel) => (Verb::Visit, PartList::one(Part::Object(channel))),
        ObsOp::Take(waits) => (Verb::Take, PartList::one(Part::Waits(waits))),
        ObsOp::TakeEnd(place) => (Verb::TakeEnd, PartList::one(Part::Place(place))),
        ObsOp::TakeQuit(place) => (Verb::TakeQuit, PartList::one(Part::Place(place))),
        ObsOp::Enable(on) => (Verb::Enable, PartList::one(Part::State(on))),
    }
}

/// The parts of a reply.
pub fn reply_parts(reply: ObsReply) -> PartList<'static>
    ensures { result ≡ reply_parts reply }
{
    match reply {
        ObsReply::Off => PartList::one(Part::Fixed(FixedWord::Off)),
        ObsReply::Run => PartList::one(Part::Fixed(FixedWord::Run)),
        ObsReply::Pushed => PartList::one(Part::Fixed(FixedWord::Pushed)),
        ObsReply::Full => PartList::one(Part::Fixed(FixedWord::Full)),
        ObsReply::Channel(channel) => PartList::one(Part::Object(channel)),
        ObsReply::NoMsg => PartList::one(Part::Refusal(Errno::NoMsg)),
        ObsReply::Wait => PartList::one(Part::Fixed(FixedWord::Wait)),
        ObsReply::Again => PartList::one(Part::Refusal(Errno::Again)),
        ObsReply::Done => PartList::one(Part::Fixed(FixedWord::Done)),
    }
}

impl Spelled for ObsOp {
    ghost words = { op_words };

    fn put_words(&self, out: &mut Paper, scenario: &Scenario) -> Result<(), NoMemory> {
        let (verb, parts) = said_of(*self);
        put_said(out, scenario, verb_word(verb), &parts)
    }
}

impl Spelled for ObsReply {
    ghost words = { reply_words };

    fn put_words(&self, out: &mut Paper, scenario: &Scenario) -> Result<(), NoMemory> {
        put_parts(out, scenario, b' ', &reply_parts(*self))
    }
}

impl Sizes for ObsOp {
    ghost sized = { λ op. AreSized (said_of op).1 };

    fn sizes(&self) {
        let (_, parts) = said_of(*self);
        parts.sizes();
    }
}

impl Sizes for ObsReply {
    ghost sized = { λ reply. AreSized (reply_parts reply) };

    fn sizes(&self) {
        reply_parts(*self).sizes();
    }
}
