ghost use Rattle.std.specs.Prelude.{◌≡◌};
ghost use Rattle.zk_trace.specs.Chan.{verb_word, said_of, op_words, reply_parts, reply_words};
ghost use Rattle.zk_trace.specs.Sized.{AreSized};

use crate::parts::{FixedWord, Named, Part, PartList, put_parts, put_said};
use crate::sizes::Sizes;
use crate::spelled::Spelled;
use zk_base::{Errno, NoMemory};
use zk_model_bus::{ChanOp, ChanReply};
use zk_paper::Paper;
use zk_scenario::Scenario;

/// The verbs of a channel's operations.
#[derive(Clone, Copy)]
pub enum Verb {
    /// Of `ChanOp::Offer`.
    Offer,
    /// Of `ChanOp::Enter`.
    Enter,
    /// Of `ChanOp::Claim`.
    Claim,
    /// Of `ChanOp::ClaimEnd`.
    ClaimEnd,
    /// Of `ChanOp::ClaimQuit`.
    ClaimQuit,
    /// Of `ChanOp::Set`.
    Set,
    /// Of `ChanOp::List`.
    List,
    /// Of `ChanOp::Get`.
    Get,
    /// Of `ChanOp::Free`.
    Free,
    /// Of `ChanOp::Finish`.
    Finish,
    /// Of `ChanOp::Mask`.
    Mask,
}

/// The word of a verb.
pub fn verb_word(verb: Verb) -> &'static [u8]
    ensures { result.now ≡ verb_word verb }
{
    match verb {
        Verb::Offer => b"offer",
        Verb::Enter => b"enter",
        Verb::Claim => b"claim",
        Verb::ClaimEnd => b"claimend",
        Verb::ClaimQuit => b"claimquit",
        Verb::Set => b"set",
        Verb::List => b"list",
        Verb::Get => b"get",
        Verb::Free => b"free",
        Verb::Finish => b"finish",
        Verb::Mask => b"mask",
    }
}

/// An operation as it is written: its verb, and what stands behind that.
pub fn said_of(op: &ChanOp) -> (Verb, PartList<'_>)
    ensures { result ≡ said_of op.now }
{
    match op {
        ChanOp::Offer(message, waits) => (
            Verb::Offer,
            PartList::two(Part::message(message), Part::Waits(*waits)),
        ),
        ChanOp::Enter(waits) => (Verb::Enter, PartList::one(Part::Waits(*waits))),
        ChanOp::Claim(waits) => (Verb::Claim, PartList::one(Part::Waits(*waits))),
        ChanOp::ClaimEnd(place) => (Verb::ClaimEnd, PartList::one(Part::Place(*place))),
        ChanOp::ClaimQuit(place) => (Verb::ClaimQuit, PartList::one(Part::Place(*place))),
        ChanOp::Set(message) => (Verb::Set, PartList::one(Part::message(message))),
        ChanOp::List => (Verb::List, PartList::none()),
        ChanOp::Get => (Verb::Get, PartList::none()),
        ChanOp::Free => (Verb::Free, PartList::none()),
        ChanOp::Finish => (Verb::Finish, PartList::none()),
        ChanOp::Mask(observer, on) => (
            Verb::Mask,
            PartList::two(Part::Object(*observer), Part::State(*on)),
        ),
    }
}

/// The parts of a reply.
pub fn reply_parts(reply: &ChanReply) -> PartList<'_>
    ensures { result ≡ reply_parts reply.now }
{
    match reply {
        ChanReply::Got => PartList::one(Part::Fixed(FixedWord::Got)),
        ChanReply::Busy => PartList::one(Part::Refusal(Errno::Busy)),
        ChanReply::Wait => PartList::one(Part::Fixed(FixedWord::Wait)),
        ChanReply::Again => PartList::one(Part::Refusal(Errno::Again)),
        ChanReply::NoMsg => PartList::one(Part::Refusal(Errno::NoMsg)),
        ChanReply::Observers(told) => PartList::one(Part::Objects(Named::of(told))),
        ChanReply::Bytes(message) => PartList::one(Part::message(message)),
        ChanReply::Done => PartList::one(Part::Fixed(FixedWord::Done)),
        ChanReply::Inval => PartList::one(Part::Refusal(Errno::Inval)),
    }
}

impl Spelled for ChanOp {
    ghost words = { op_words };

    fn put_words(&self, out: &mut Paper, scenario: &Scenario) -> Result<(), NoMemory> {
        let (verb, parts) = said_of(self);
        put_said(out, scenario, verb_word(verb), &parts)
    }
}

impl Spelled for ChanReply {
    ghost words = { reply_words };

    fn put_words(&self, out: &mut Paper, scenario: &Scenario) -> Result<(), NoMemory> {
        put_parts(out, scenario, b' ', &reply_parts(self))
    }
}

impl Sizes for ChanOp {
    ghost sized = { λ op. AreSized (said_of op).1 };

    fn sizes(&self) {
        let (_, parts) = said_of(self);
        parts.sizes();
    }
}

impl Sizes for ChanReply {
    ghost sized = { λ reply. AreSized (reply_parts reply) };

    fn sizes(&self) {
        reply_parts(self).sizes();
    }
}
