ghost use Rattle.std.specs.Prelude.{◌≡◌, option_map, option_and_then};
ghost use Rattle.zk_trace.specs.AnswerRead.{call_of, refusals, refusal_of, can_be_value, value_words_of, signal_value, value_of, answer_of, answered_front_of, answered_of};
ghost use Rattle.zk_trace.specs.Fields.{named};
ghost use Rattle.zk_trace.specs.Sides.{kept};
ghost use Rattle.zk_trace.specs.Words.{errno_word};

use crate::flags::flags_of;
use crate::halves::sides_of;
use crate::look_read::{can_be, raised_of};
use crate::look_ups::chan_of;
use crate::messages::message_of;
use crate::numerals::{narrow_of, short_of, wide_of};
use crate::row_words::{oops_of, ready_of, two_words};
use crate::set_words::truth_of;
use crate::words::errno_word;
use zk_base::Errno;
use zk_scenario::Scenario;
use zk_words::{Head, Word, Words, head_of, is_same};
use zk_worker::{Answer, Answered};

/// A call, as it is spelled in a scenario.
fn call_of(word: &[u8]) -> Option<Word>
    ensures { result ≡ call_of word.now }
{
    match head_of(word)? {
        Head::Call(call) => Some(call),
        _ => None,
    }
}

/// With what a call can be refused.
fn refusals(word: Word) -> &'static [Errno]
    ensures { result.now ≡ refusals word }
{
    match word {
        Word::Submit => &[Errno::Busy, Errno::Inval, Errno::NoDev],
        Word::Schedule => &[Errno::Busy, Errno::NoDev],
        Word::Reschedule => &[Errno::Busy, Errno::NoDev],
        Word::Start => &[Errno::Already],
        Word::Unplug => &[Errno::Already],
        Word::Stop => &[Errno::Already, Errno::Busy],
        Word::Take => &[Errno::Busy, Errno::Again],
        Word::Put => &[Errno::NoMsg, Errno::Again],
        Word::PutFront => &[Errno::NoMsg],
        Word::Get => &[Errno::NoMsg, Errno::Again],
        Word::Peek => &[Errno::NoMsg],
        Word::PeekAt => &[Errno::NoMsg],
        Word::Poll => &[Errno::Again],
        Word::Claim => &[Errno::Busy, Errno::Again],
        Word::Finish => &[Errno::Inval],
        Word::Publish => &[Errno::NoMsg, Errno::Busy, Errno::Again, Errno::Fault],
        Word::Notify => &[Errno::Busy, Errno::Again, Errno::Fault],
        Word::Read => &[Errno::Busy, Errno::Again],
        Word::Mask => &[Errno::Inval],
        Word::SubWait => &[Errno::NoMsg, Errno::Again],
        Word::Init => &[Errno::Already],
        _ => &[],
    }
}

/// A refusal of a call.
fn refusal_of(word: Word, row: &[u8]) -> Option<Answer>
    ensures { result ≡ refusal_of word row.now }
{
    Some(Answer::Refused(one_of(refusals(word), row)?))
}

fn one_of(errnos: &[Errno], row: &[u8]) -> Option<Errno>
    ensures { result ≡ named errno_word errnos.now row.now }
{
    errnos
        .iter()
        .copied()
        .find(|errno| is_same(row, errno_word(*errno)))
}

/// What a signal was.
fn signal_answer(words: Words<'_>) -> Option<Answer>
    ensures { result ≡ option_map signal_value (option_and_then (kept can_be_value) (value_words_of words.entry)) }
{
    let (raised, value) = two_words(words)?;
    let raised = raised_of(raised)?;
    let value = short_of(value)?;
    if can_be(raised, value) {
        Some(Answer::Signal(raised, value))
    } else {
        None
    }
}

/// What a call answers that is neither refused nor fails a check.
fn value_of(scenario: &Scenario, word: Word, row: &[u8]) -> Option<Answer>
    ensures { result ≡ value_of scenario.now.decls word row.now }
{
    match word {
        Word::Cancel => Some(Answer::Flags(flags_of(row)?)),
        Word::Busy => Some(Answer::Flags(flags_of(row)?)),
        Word::CancelSync => Some(Answer::Truth(truth_of(row)?)),
        Word::Flush => Some(Answer::Truth(truth_of(row)?)),
        Word::Get => Some(Answer::Bytes(message_of(row)?)),
        Word::Peek => Some(Answer::Bytes(message_of(row)?)),
        Word::PeekAt => Some(Answer::Bytes(message_of(row)?)),
        Word::Read => Some(Answer::Bytes(message_of(row)?)),
        Word::Check => signal_answer(Words::of(row)),
        Word::Poll => Some(Answer::Ready(ready_of(row)?)),
        Word::SubWait => Some(Answer::Channel(chan_of(scenario, row)?)),
        _ => Some(Answer::Number(wide_of(row)?)),
    }
}

/// The answer to a call that stands behind the sign.
pub fn answer_of(scenario: &Scenario, word: Word, row: &[u8]) -> Option<Answer>
    ensures { result ≡ answer_of scenario.now.decls word row.now }
{
    if let Some(refusal) = refusal_of(word, row) {
        return Some(refusal);
    }
    if let Some(why) = oops_of(row) {
        return Some(Answer::Oops(why));
    }
    value_of(scenario, word, row)
}

fn answered_front_of(words: Words<'_>) -> Option<(u32, Word)>
    ensures { result ≡ answered_front_of words.entry }
{
    let (step, call) = two_words(words)?;
    let step = narrow_of(step)?;
    Some((step, call_of(call)?))
}

/// The call and its answer that a line says.
pub fn answered_of(scenario: &Scenario, row: &[u8]) -> Option<Answered>
    ensures { result ≡ answered_of scenario.now.decls row.now }
{
    let (front, answer) = sides_of(row)?;
    let (step, word) = answered_front_of(Words::of(front))?;
    let answer = answer_of(scenario, word, answer)?;
    Some(Answered { step, word, answer })
}
