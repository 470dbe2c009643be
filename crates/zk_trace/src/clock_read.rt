ghost use Rattle.std.specs.Prelude.{◌≡◌};
ghost use Rattle.std.specs.Str.{bytes_eq};
ghost use Rattle.zk_trace.specs.Clock.{reply_parts};
ghost use Rattle.zk_trace.specs.ClockRead.{verb_of, op_behind, op_of, reply_of};
ghost use Rattle.zk_trace.specs.Static.{static_row};

use crate::choosing::first_of;
use crate::clock::{Verb, reply_parts, verb_word};
use crate::numerals::{narrow_of, wide_of};
use crate::parts::{FixedWord, fixed_word, static_row};
use crate::row_words::{behind, one_word};
use zk_model_wait::{ClockOp, ClockReply};
use zk_scenario::Scenario;
use zk_words::{Words, is_same};

/// All verbs.
const VERBS: [Verb; 3] = [Verb::Announce, Verb::Alarm, Verb::AlarmEnd];

/// The operation that some words say.
pub fn op_of(scenario: &Scenario, words: Words<'_>) -> Option<ClockOp>
    ensures { result ≡ op_of scenario.now.decls words.entry }
{
    let mut words = words;
    let verb = verb_of(words.next()?)?;
    op_behind(scenario, verb, words)
}

fn verb_of(word: &[u8]) -> Option<Verb>
    ensures { result ≡ verb_of word.now }
{
    VERBS
        .iter()
        .copied()
        .find(|verb| is_same(word, verb_word(*verb)))
}

fn op_behind(scenario: &Scenario, verb: Verb, words: Words<'_>) -> Option<ClockOp>
    ensures { result ≡ op_behind scenario.now.decls verb words.entry }
{
    match verb {
        Verb::Announce => Some(ClockOp::Announce(narrow_of(one_word(words)?)?)),
        Verb::Alarm => Some(ClockOp::Alarm(narrow_of(one_word(words)?)?)),
        Verb::AlarmEnd => Some(ClockOp::AlarmEnd(wide_of(one_word(words)?)?)),
    }
}

/// The reply to an operation of a verb that stands behind the sign.
pub fn reply_of(scenario: &Scenario, verb: Verb, row: &[u8]) -> Option<ClockReply>
    ensures { result ≡ reply_of scenario.now.decls verb row.now }
{
    match verb {
        Verb::Announce => {
            let words = behind(fixed_word(FixedWord::Now), Words::of(row))?;
            Some(ClockReply::Now(wide_of(one_word(words)?)?))
        }
        Verb::Alarm => {
            let words = behind(fixed_word(FixedWord::At), Words::of(row))?;
            Some(ClockReply::At(wide_of(one_word(words)?)?))
        }
        Verb::AlarmEnd => first_of!(is_written, row; ClockReply::Due),
    }
}

#[inline(always)]
fn is_written(reply: ClockReply, row: &[u8]) -> bool
    ensures { result ≡ bytes_eq row.now (static_row (reply_parts reply)) }
{
    is_same(row, static_row(&reply_parts(reply)))
}
