ghost use Rattle.std.specs.Prelude.{◌≡◌};
ghost use Rattle.std.specs.Str.{bytes_eq};
ghost use Rattle.zk_trace.specs.Chan.{reply_parts};
ghost use Rattle.zk_trace.specs.ChanRead.{verb_of, op_behind, op_of, reply_of};
ghost use Rattle.zk_trace.specs.Static.{static_row};

use crate::chan::{Verb, reply_parts, verb_word};
use crate::choosing::first_of;
use crate::look_ups::observer_of;
use crate::messages::message_of;
use crate::numerals::wide_of;
use crate::parts::static_row;
use crate::row_words::{bare, observers_of, one_word, two_words};
use crate::set_words::{state_of, waits_of};
use zk_model_bus::{ChanOp, ChanReply};
use zk_scenario::Scenario;
use zk_words::{Words, is_same};

/// All verbs.
const VERBS: [Verb; 11] = [
    Verb::Offer,
    Verb::Enter,
    Verb::Claim,
    Verb::ClaimEnd,
    Verb::ClaimQuit,
    Verb::Set,
    Verb::List,
    Verb::Get,
    Verb::Free,
    Verb::Finish,
    Verb::Mask,
];

/// The operation that some words say.
pub fn op_of(scenario: &Scenario, words: Words<'_>) -> Option<ChanOp>
    ensures { result ≡ op_of scenario.now.decls words.entry }
{
    let mut words = words;
    let verb = verb_of(words.next()?)?;
    op_behind(scenario, verb, words)
}

fn verb_of(word: &[u8]) -> Option<Verb>
    ensures { result ≡ verb_of word.now }
{
    VERBS
        .iter()
        .copied()
        .find(|verb| is_same(word, verb_word(*verb)))
}

fn op_behind(scenario: &Scenario, verb: Verb, words: Words<'_>) -> Option<ChanOp>
    ensures { result ≡ op_behind scenario.now.decls verb words.entry }
{
    match verb {
        Verb::Offer => {
            let (message, waits) = two_words(words)?;
            Some(ChanOp::Offer(message_of(message)?, waits_of(waits)?))
        }
        Verb::Enter => Some(ChanOp::Enter(waits_of(one_word(words)?)?)),
        Verb::Claim => Some(ChanOp::Claim(waits_of(one_word(words)?)?)),
        Verb::ClaimEnd => Some(ChanOp::ClaimEnd(wide_of(one_word(words)?)?)),
        Verb::ClaimQuit => Some(ChanOp::ClaimQuit(wide_of(one_word(words)?)?)),
        Verb::Set => Some(ChanOp::Set(message_of(one_word(words)?)?)),
        Verb::List => bare(ChanOp::List, words),
        Verb::Get => bare(ChanOp::Get, words),
        Verb::Free => bare(ChanOp::Free, words),
        Verb::Finish => bare(ChanOp::Finish, words),
        Verb::Mask => {
            let (observer, on) = two_words(words)?;
            Some(ChanOp::Mask(observer_of(scenario, observer)?, state_of(on)?))
        }
    }
}

/// The reply to an operation of a verb that stands behind the sign.
pub fn reply_of(scenario: &Scenario, verb: Verb, row: &[u8]) -> Option<ChanReply>
    ensures { result ≡ reply_of scenario.now.decls verb row.now }
{
    match verb {
        Verb::Offer => {
            first_of!(is_written, row; ChanReply::Got, ChanReply::Busy, ChanReply::Wait, ChanReply::NoMsg)
        }
        Verb::Enter => first_of!(is_written, row; ChanReply::Got, ChanReply::Busy, ChanReply::Wait),
        Verb::Claim => first_of!(is_written, row; ChanReply::Got, ChanReply::Busy, ChanReply::Wait),
        Verb::ClaimEnd => first_of!(is_written, row; ChanReply::Got),
        Verb::ClaimQuit => first_of!(is_written, row; ChanReply::Got, ChanReply::Again),
        Verb::Set => Some(ChanReply::Observers(observers_of(scenario, row)?)),
        Verb::List => Some(ChanReply::Observers(observers_of(scenario, row)?)),
        Verb::Get => Some(ChanReply::Bytes(message_of(row)?)),
        Verb::Free => first_of!(is_written, row; ChanReply::Done),
        Verb::Finish => first_of!(is_written, row; ChanReply::Done, ChanReply::Inval),
        Verb::Mask => first_of!(is_written, row; ChanReply::Done, ChanReply::Inval),
    }
}

#[inline(always)]
fn is_written(reply: ChanReply, row: &[u8]) -> bool
    ensures { result ≡ bytes_eq row.now (static_row (reply_parts reply)) }
{
    is_same(row, static_row(&reply_parts(&reply)))
}
