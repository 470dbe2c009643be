ghost use Rattle.std.specs.Prelude.{◌≡◌};
ghost use Rattle.std.specs.Str.{bytes_eq};
ghost use Rattle.zk_trace.specs.Obs.{reply_parts};
ghost use Rattle.zk_trace.specs.ObsRead.{verb_of, op_behind, op_of, channel_reply, reply_of};
ghost use Rattle.zk_trace.specs.Static.{static_row};

use crate::choosing::first_of;
use crate::look_ups::chan_of;
use crate::numerals::wide_of;
use crate::obs::{Verb, reply_parts, verb_word};
use crate::parts::static_row;
use crate::row_words::one_word;
use crate::set_words::{state_of, waits_of};
use zk_model_bus::{ObsOp, ObsReply};
use zk_scenario::Scenario;
use zk_words::{Words, is_same};

/// All verbs.
const VERBS: [Verb; 5] = [
    Verb::Visit,
    Verb::Take,
    Verb::TakeEnd,
    Verb::TakeQuit,
    Verb::Enable,
];

/// The operation that some words say.
pub fn op_of(scenario: &Scenario, words: Words<'_>) -> Option<ObsOp>
    ensures { result ≡ op_of scenario.now.decls words.entry }
{
    let mut words = words;
    let verb = verb_of(words.next()?)?;
    op_behind(scenario, verb, words)
}

fn verb_of(word: &[u8]) -> Option<Verb>
    ensures { result ≡ verb_of word.now }
{
    VERBS
        .iter()
        .copied()
        .find(|verb| is_same(word, verb_word(*verb)))
}

fn op_behind(scenario: &Scenario, verb: Verb, words: Words<'_>) -> Option<ObsOp>
    ensures { result ≡ op_behind scenario.now.decls verb words.entry }
{
    match verb {
        Verb::Visit => Some(ObsOp::Visit(chan_of(scenario, one_word(words)?)?)),
        Verb::Take => Some(ObsOp::Take(waits_of(one_word(words)?)?)),
        Verb::TakeEnd => Some(ObsOp::TakeEnd(wide_of(one_word(words)?)?)),
        Verb::TakeQuit => Some(ObsOp::TakeQuit(wide_of(one_word(words)?)?)),
        Verb::Enable => Some(ObsOp::Enable(state_of(one_word(words)?)?)),
    }
}

/// The reply to an operation of a verb that stands behind the sign.
pub fn reply_of(scenario: &Scenario, verb: Verb, row: &[u8]) -> Option<ObsReply>
    ensures { result ≡ reply_of scenario.now.decls verb row.now }
{
    match verb {
        Verb::Visit => {
            first_of!(is_written, row; ObsReply::Off, ObsReply::Run, ObsReply::Pushed, ObsReply::Full)
        }
        Verb::Take => {
            first_of!(is_written, row; ObsReply::NoMsg, ObsReply::Wait; channel_reply(scenario, row))
        }
        Verb::TakeEnd => channel_reply(scenario, row),
        Verb::TakeQuit => first_of!(is_written, row; ObsReply::Again; channel_reply(scenario, row)),
        Verb::Enable => first_of!(is_written, row; ObsReply::Done),
    }
}

fn channel_reply(scenario: &Scenario, row: &[u8]) -> Option<ObsReply>
    ensures { result ≡ channel_reply scenario.now.decls row.now }
{
    Some(ObsReply::Channel(chan_of(scenario, row)?))
}

#[inline(always)]
fn is_written(reply: ObsReply, row: &[u8]) -> bool
    ensures { result ≡ bytes_eq row.now (static_row (reply_parts reply)) }
{
    is_same(row, static_row(&reply_parts(reply)))
}
