ghost use Rattle.std.specs.Prelude.{◌≡◌};
ghost use Rattle.zk_trace.specs.SignalRead.{verb_of, op_behind, op_of, reply_of};

use crate::numerals::{narrow_of, short_of};
use crate::row_words::{bare, one_word};
use crate::signal::{Verb, verb_word};
use zk_model_wait::{SignalOp, SignalReply};
use zk_scenario::Scenario;
use zk_words::{Words, is_same};

/// All verbs.
const VERBS: [Verb; 2] = [Verb::Raise, Verb::Clear];

/// The operation that some words say.
pub fn op_of(scenario: &Scenario, words: Words<'_>) -> Option<SignalOp>
    ensures { result ≡ op_of scenario.now.decls words.entry }
{
    let mut words = words;
    let verb = verb_of(words.next()?)?;
    op_behind(scenario, verb, words)
}

fn verb_of(word: &[u8]) -> Option<Verb>
    ensures { result ≡ verb_of word.now }
{
    VERBS
        .iter()
        .copied()
        .find(|verb| is_same(word, verb_word(*verb)))
}

fn op_behind(scenario: &Scenario, verb: Verb, words: Words<'_>) -> Option<SignalOp>
    ensures { result ≡ op_behind scenario.now.decls verb words.entry }
{
    match verb {
        Verb::Raise => Some(SignalOp::Raise(short_of(one_word(words)?)?)),
        Verb::Clear => bare(SignalOp::Clear, words),
    }
}

/// The reply to an operation of a verb that stands behind the sign.
pub fn reply_of(scenario: &Scenario, verb: Verb, row: &[u8]) -> Option<SignalReply>
    ensures { result ≡ reply_of scenario.now.decls verb row.now }
{
    match verb {
        Verb::Raise => Some(SignalReply::Stamp(narrow_of(row)?)),
        Verb::Clear => Some(SignalReply::Stamp(narrow_of(row)?)),
    }
}
