ghost use Rattle.std.specs.Prelude.{◌≡◌};
ghost use Rattle.std.specs.Str.{bytes_eq};
ghost use Rattle.zk_trace.specs.Sem.{reply_parts};
ghost use Rattle.zk_trace.specs.SemRead.{verb_of, op_behind, op_of, reply_of};
ghost use Rattle.zk_trace.specs.Static.{static_row};

use crate::choosing::first_of;
use crate::numerals::{narrow_of, wide_of};
use crate::parts::static_row;
use crate::row_words::{bare, one_word};
use crate::sem::{Verb, reply_parts, verb_word};
use crate::set_words::waits_of;
use zk_model_wait::{SemOp, SemReply};
use zk_scenario::Scenario;
use zk_words::{Words, is_same};

/// All verbs.
const VERBS: [Verb; 9] = [
    Verb::Take,
    Verb::TakeEnd,
    Verb::TakeQuit,
    Verb::Give,
    Verb::Reset,
    Verb::Count,
    Verb::PollArm,
    Verb::PollEnd,
    Verb::PollQuit,
];

/// The operation that some words say.
pub fn op_of(scenario: &Scenario, words: Words<'_>) -> Option<SemOp>
    ensures { result ≡ op_of scenario.now.decls words.entry }
{
    let mut words = words;
    let verb = verb_of(words.next()?)?;
    op_behind(scenario, verb, words)
}

fn verb_of(word: &[u8]) -> Option<Verb>
    ensures { result ≡ verb_of word.now }
{
    VERBS
        .iter()
        .copied()
        .find(|verb| is_same(word, verb_word(*verb)))
}

fn op_behind(scenario: &Scenario, verb: Verb, words: Words<'_>) -> Option<SemOp>
    ensures { result ≡ op_behind scenario.now.decls verb words.entry }
{
    match verb {
        Verb::Take => Some(SemOp::Take(waits_of(one_word(words)?)?)),
        Verb::TakeEnd => Some(SemOp::TakeEnd(wide_of(one_word(words)?)?)),
        Verb::TakeQuit => Some(SemOp::TakeQuit(wide_of(one_word(words)?)?)),
        Verb::Give => bare(SemOp::Give, words),
        Verb::Reset => bare(SemOp::Reset, words),
        Verb::Count => bare(SemOp::Count, words),
        Verb::PollArm => Some(SemOp::PollArm(waits_of(one_word(words)?)?)),
        Verb::PollEnd => Some(SemOp::PollEnd(wide_of(one_word(words)?)?)),
        Verb::PollQuit => Some(SemOp::PollQuit(wide_of(one_word(words)?)?)),
    }
}

/// The reply to an operation of a verb that stands behind the sign.
pub fn reply_of(scenario: &Scenario, verb: Verb, row: &[u8]) -> Option<SemReply>
    ensures { result ≡ reply_of scenario.now.decls verb row.now }
{
    match verb {
        Verb::Take => first_of!(is_written, row; SemReply::Got, SemReply::Busy, SemReply::Wait),
        Verb::TakeEnd => first_of!(is_written, row; SemReply::Got, SemReply::Again),
        Verb::TakeQuit => first_of!(is_written, row; SemReply::Got, SemReply::Again),
        Verb::Give => first_of!(is_written, row; SemReply::Done),
        Verb::Reset => first_of!(is_written, row; SemReply::Done),
        Verb::Count => Some(SemReply::Number(narrow_of(row)?)),
        Verb::PollArm =>
            first_of!(is_written, row; SemReply::Ready, SemReply::NotReady, SemReply::Armed),
        Verb::PollEnd => first_of!(is_written, row; SemReply::Noted),
        Verb::PollQuit => first_of!(is_written, row; SemReply::Noted, SemReply::Plain),
    }
}

#[inline(always)]
fn is_written(reply: SemReply, row: &[u8]) -> bool
    ensures { result ≡ bytes_eq row.now (static_row (reply_parts reply)) }
{
    is_same(row, static_row(&reply_parts(reply)))
}
