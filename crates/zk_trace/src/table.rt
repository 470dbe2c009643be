ghost use Rattle.std.specs.Prelude.{◌≡◌};
ghost use Rattle.zk_trace.specs.Table.{verb_word, said_of, op_words, reply_parts, reply_words};
ghost use Rattle.zk_trace.specs.Sized.{AreSized};

use crate::parts::{FixedWord, Part, PartList, put_parts, put_said};
use crate::sizes::Sizes;
use crate::spelled::Spelled;
use zk_base::NoMemory;
use zk_model_bus::{TableOp, TableReply};
use zk_paper::Paper;
use zk_scenario::Scenario;

/// The verbs of the object table's operations.
#[derive(Clone, Copy)]
pub enum Verb {
    /// Of `TableOp::Check`.
    Check,
    /// Of `TableOp::Grant`.
    Grant,
    /// Of `TableOp::Revoke`.
    Revoke,
    /// Of `TableOp::Release`.
    Release,
    /// Of `TableOp::Public`.
    Public,
    /// Of `TableOp::Init`.
    Init,
    /// Of `TableOp::EnterUser`.
    User,
}

/// The word of a verb.
pub fn verb_word(verb: Verb) -> &'static [u8]
    ensures { result.now ≡ verb_word verb }
{
    match verb {
        Verb::Check => b"check",
        Verb::Grant => b"grant",
        Verb::Revoke => b"revoke",
        Verb::Release => b"release",
        Verb::Public => b"public",
        Verb::Init => b"init",
        Verb::User => b"user",
    }
}

/// An operation as it is written: its verb, and what stands behind that.
pub fn said_of(op: TableOp) -> (Verb, PartList<'static>)
    ensures { result ≡ said_of op }
{
    match op {
        TableOp::Check(object, need) => {
            let parts = PartList::two(Part::Checked(object), Part::Need(need));
            (Verb::Check, parts)
        }
        TableOp::Grant(thread, object) => {
            let parts = PartList::two(Part::Object(thread), Part::Object(object));
            (Verb::Grant, parts)
        }
        TableOp::Revoke(thread, object) => {
            let parts = PartList::two(Part::Object(thread), Part::Object(object));
            (Verb::Revoke, parts)
        }
        TableOp::Release(object) => (Verb::Release, PartList::one(Part::Object(object))),
        TableOp::Public(object) => (Verb::Public, PartList::one(Part::Object(object))),
        TableOp::Init(object) => (Verb::Init, PartList::one(Part::Object(object))),
        TableOp::EnterUser => (Verb::User, PartList::none()),
    }
}

/// The parts of a reply.
pub fn reply_parts(reply: TableReply) -> PartList<'static>
    ensures { result ≡ reply_parts reply }
{
    match reply {
        TableReply::Done => PartList::one(Part::Fixed(FixedWord::Done)),
        TableReply::Already => PartList::one(Part::Fixed(FixedWord::Already)),
        TableReply::Oops(why) => PartList::one(Part::Oops(why)),
    }
}

impl Spelled for TableOp {
    ghost words = { op_words };

    fn put_words(&self, out: &mut Paper, scenario: &Scenario) -> Result<(), NoMemory> {
        let (verb, parts) = said_of(*self);
        put_said(out, scenario, verb_word(verb), &parts)
    }
}

impl Spelled for TableReply {
    ghost words = { reply_words };

    fn put_words(&self, out: &mut Paper, scenario: &Scenario) -> Result<(), NoMemory> {
        put_parts(out, scenario, b' ', &reply_parts(*self))
    }
}

impl Sizes for TableOp {
    ghost sized = { λ op. AreSized (said_of op).1 };

    fn sizes(&self) {
        let (_, parts) = said_of(*self);
        parts.sizes();
    }
}

impl Sizes for TableReply {
    ghost sized = { λ reply. AreSized (reply_parts reply) };

    fn sizes(&self) {
        reply_parts(*self).sizes();
    }
}
