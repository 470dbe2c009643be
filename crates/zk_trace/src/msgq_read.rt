ghost use Rattle.std.specs.Prelude.{◌≡◌};
ghost use Rattle.std.specs.Str.{bytes_eq};
ghost use Rattle.zk_trace.specs.Msgq.{reply_parts};
ghost use Rattle.zk_trace.specs.MsgqRead.{verb_of, op_behind, op_of, bytes_reply, number_reply, reply_of};
ghost use Rattle.zk_trace.specs.Static.{static_row};

use crate::choosing::first_of;
use crate::messages::message_of;
use crate::msgq::{Verb, reply_parts, verb_word};
use crate::numerals::{narrow_of, wide_of};
use crate::parts::static_row;
use crate::row_words::{bare, one_word, two_words};
use crate::set_words::waits_of;
use zk_model_wait::{MsgqOp, MsgqReply};
use zk_scenario::Scenario;
use zk_words::{Words, is_same};

/// All verbs.
const VERBS: [Verb; 15] = [
    Verb::Put,
    Verb::PutFront,
    Verb::PutEnd,
    Verb::PutQuit,
    Verb::Get,
    Verb::GetEnd,
    Verb::GetQuit,
    Verb::Peek,
    Verb::PeekAt,
    Verb::Purge,
    Verb::Used,
    Verb::Free,
    Verb::PollArm,
    Verb::PollEnd,
    Verb::PollQuit,
];

/// The operation that some words say.
pub fn op_of(scenario: &Scenario, words: Words<'_>) -> Option<MsgqOp>
    ensures { result ≡ op_of scenario.now.decls words.entry }
{
    let mut words = words;
    let verb = verb_of(words.next()?)?;
    op_behind(scenario, verb, words)
}

fn verb_of(word: &[u8]) -> Option<Verb>
    ensures { result ≡ verb_of word.now }
{
    VERBS
        .iter()
        .copied()
        .find(|verb| is_same(word, verb_word(*verb)))
}

fn op_behind(scenario: &Scenario, verb: Verb, words: Words<'_>) -> Option<MsgqOp>
    ensures { result ≡ op_behind scenario.now.decls verb words.entry }
{
    match verb {
        Verb::Put => {
            let (message, waits) = two_words(words)?;
            Some(MsgqOp::Put(message_of(message)?, waits_of(waits)?))
        }
        Verb::PutFront => Some(MsgqOp::PutFront(message_of(one_word(words)?)?)),
        Verb::PutEnd => Some(MsgqOp::PutEnd(wide_of(one_word(words)?)?)),
        Verb::PutQuit => Some(MsgqOp::PutQuit(wide_of(one_word(words)?)?)),
        Verb::Get => Some(MsgqOp::Get(waits_of(one_word(words)?)?)),
        Verb::GetEnd => Some(MsgqOp::GetEnd(wide_of(one_word(words)?)?)),
        Verb::GetQuit => Some(MsgqOp::GetQuit(wide_of(one_word(words)?)?)),
        Verb::Peek => bare(MsgqOp::Peek, words),
        Verb::PeekAt => Some(MsgqOp::PeekAt(narrow_of(one_word(words)?)?)),
        Verb::Purge => bare(MsgqOp::Purge, words),
        Verb::Used => bare(MsgqOp::Used, words),
        Verb::Free => bare(MsgqOp::Free, words),
        Verb::PollArm => Some(MsgqOp::PollArm(waits_of(one_word(words)?)?)),
        Verb::PollEnd => Some(MsgqOp::PollEnd(wide_of(one_word(words)?)?)),
        Verb::PollQuit => Some(MsgqOp::PollQuit(wide_of(one_word(words)?)?)),
    }
}

/// The reply to an operation of a verb that stands behind the sign.
pub fn reply_of(scenario: &Scenario, verb: Verb, row: &[u8]) -> Option<MsgqReply>
    ensures { result ≡ reply_of scenario.now.decls verb row.now }
{
    match verb {
        Verb::Put => first_of!(is_written, row; MsgqReply::Done, MsgqReply::NoMsg, MsgqReply::Wait),
        Verb::PutFront => first_of!(is_written, row; MsgqReply::Done, MsgqReply::NoMsg),
        Verb::PutEnd => first_of!(is_written, row; MsgqReply::Done, MsgqReply::NoMsg),
        Verb::PutQuit =>
            first_of!(is_written, row; MsgqReply::Done, MsgqReply::NoMsg, MsgqReply::Again),
        Verb::Get =>
            first_of!(is_written, row; MsgqReply::NoMsg, MsgqReply::Wait; bytes_reply(row)),
        Verb::GetEnd => bytes_reply(row),
        Verb::GetQuit => first_of!(is_written, row; MsgqReply::Again; bytes_reply(row)),
        Verb::Peek => first_of!(is_written, row; MsgqReply::NoMsg; bytes_reply(row)),
        Verb::PeekAt => first_of!(is_written, row; MsgqReply::NoMsg; bytes_reply(row)),
        Verb::Purge => first_of!(is_written, row; MsgqReply::Done),
        Verb::Used => number_reply(row),
        Verb::Free => number_reply(row),
        Verb::PollArm =>
            first_of!(is_written, row; MsgqReply::Ready, MsgqReply::NotReady, MsgqReply::Armed),
        Verb::PollEnd => first_of!(is_written, row; MsgqReply::Noted),
        Verb::PollQuit => first_of!(is_written, row; MsgqReply::Noted, MsgqReply::Plain),
    }
}

fn bytes_reply(row: &[u8]) -> Option<MsgqReply>
    ensures { result ≡ bytes_reply row.now }
{
    Some(MsgqReply::Bytes(message_of(row)?))
}

fn number_reply(row: &[u8]) -> Option<MsgqReply>
    ensures { result ≡ number_reply row.now }
{
    Some(MsgqReply::Number(narrow_of(row)?))
}

#[inline(always)]
fn is_written(reply: MsgqReply, row: &[u8]) -> bool
    ensures { result ≡ bytes_eq row.now (static_row (reply_parts reply)) }
{
    is_same(row, static_row(&reply_parts(&reply)))
}
