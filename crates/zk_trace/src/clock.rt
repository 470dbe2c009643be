ghost use Rattle.std.specs.Prelude.{◌≡◌};
ghost use Rattle.zk_trace.specs.Clock.{verb_word, said_of, op_words, reply_parts, reply_words};
ghost use Rattle.zk_trace.specs.Sized.{AreSized};

use crate::parts::{FixedWord, Part, PartList, put_parts, put_said};
use crate::sizes::Sizes;
use crate::spelled::Spelled;
use zk_base::NoMemory;
use zk_model_wait::{ClockOp, ClockReply};
use zk_paper::Paper;
use zk_scenario::Scenario;

/// The verbs of the clock's operations.
#[derive(Clone, Copy)]
pub enum Verb {
    /// Of `ClockOp::Announce`.
    Announce,
    /// Of `ClockOp::Alarm`.
    Alarm,
    /// Of `ClockOp::AlarmEnd`.
    AlarmEnd,
}

/// The word of a verb.
pub fn verb_word(verb: Verb) -> &'static [u8]
    ensures { result.now ≡ verb_word verb }
{
    match verb {
        Verb::Announce => b"announce",
        Verb::Alarm => b"alarm",
        Verb::AlarmEnd => b"alarmend",
    }
}

/// An operation as it is written: its verb, and what stands behind that.
pub fn said_of(op: ClockOp) -> (Verb, PartList<'static>)
    ensures { result ≡ said_of op }
{
    match op {
        ClockOp::Announce(ticks) => (Verb::Announce, PartList::one(Part::Narrow(ticks))),
        ClockOp::Alarm(ticks) => (Verb::Alarm, PartList::one(Part::Narrow(ticks))),
        ClockOp::AlarmEnd(moment) => (Verb::AlarmEnd, PartList::one(Part::Wide(moment))),
    }
}

/// The parts of a reply.
pub fn reply_parts(reply: ClockReply) -> PartList<'static>
    ensures { result ≡ reply_parts reply }
{
    match reply {
        ClockReply::Now(time) => PartList::two(Part::Fixed(FixedWord::Now), Part::Wide(time)),
        ClockReply::At(moment) => PartList::two(Part::Fixed(FixedWord::At), Part::Wide(moment)),
        ClockReply::Due => PartList::one(Part::Fixed(FixedWord::Due)),
    }
}

impl Spelled for ClockOp {
    ghost words = { op_words };

    fn put_words(&self, out: &mut Paper, scenario: &Scenario) -> Result<(), NoMemory> {
        let (verb, parts) = said_of(*self);
        put_said(out, scenario, verb_word(verb), &parts)
    }
}

impl Spelled for ClockReply {
    ghost words = { reply_words };

    fn put_words(&self, out: &mut Paper, scenario: &Scenario) -> Result<(), NoMemory> {
        put_parts(out, scenario, b' ', &reply_parts(*self))
    }
}

impl Sizes for ClockOp {
    ghost sized = { λ op. AreSized (said_of op).1 };

    fn sizes(&self) {
        let (_, parts) = said_of(*self);
        parts.sizes();
    }
}

impl Sizes for ClockReply {
    ghost sized = { λ reply. AreSized (reply_parts reply) };

    fn sizes(&self) {
        reply_parts(*self).sizes();
    }
}
