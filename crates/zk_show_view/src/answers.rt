ghost use Rattle.std.specs.Prelude.{◌≡◌, ◌++◌, IfOk, IfSome, OnOk};
ghost use Rattle.zk_forms.specs.CheckAnswer.{trace_refused};
ghost use Rattle.zk_forms.specs.Refusal.{refusal_text};
ghost use Rattle.zk_show_view.specs.Answers.{answer_line, answer_text, answer_words, asks_instead, at_answer, at_line};

use std::alloc::Global;
use zk_base::{NoMemory, put, put_decimal};
use zk_check::Fail;
use zk_forms::{fail_word, put_unlawful};
use zk_scenario::Why;
use zk_words::{Pieces, is_same, number_in};

/// What `zk` says where it prints no trace.
#[derive(Clone, Copy)]
pub enum Answer {
    Lawful,
    Unlawful(u32, Fail),
    Refused(u32, Why),
    RefusedTrace(u32),
    RefusedWords,
}

const FAILS: [Fail; 5] = [
    Fail::Place,
    Fail::History,
    Fail::Log,
    Fail::Look,
    Fail::Ending,
];

const WHYS: [Why; 7] = [
    Why::Header,
    Why::Line,
    Why::Order,
    Why::Number,
    Why::Name,
    Why::Limit,
    Why::Length,
];

fn put_refused(out: &mut Vec<u8>, line: u32, why: Why) -> Result<(), NoMemory>
    ensures { OnOk result (out.new.items ≡ out.old.items ++ refusal_text line why) }
{
    put(out, b"refused ")?;
    put_decimal(out, u64::from(line))?;
    put(out, b" ")?;
    put(out, why.word().as_bytes())?;
    put(out, b"\n")
}

fn put_refused_trace(out: &mut Vec<u8>, line: u32) -> Result<(), NoMemory>
    ensures { OnOk result (out.new.items ≡ out.old.items ++ trace_refused line) }
{
    put(out, b"refused ")?;
    put_decimal(out, u64::from(line))?;
    put(out, b" trace\n")
}

fn put_answer(out: &mut Vec<u8>, answer: Answer) -> Result<(), NoMemory>
    ensures { OnOk result (out.new.items ≡ out.old.items ++ answer_text answer) }
{
    match answer {
        Answer::Lawful => put(out, b"lawful\n"),
        Answer::Unlawful(line, fail) => put_unlawful(out, line, fail),
        Answer::Refused(line, why) => put_refused(out, line, why),
        Answer::RefusedTrace(line) => put_refused_trace(out, line),
        Answer::RefusedWords => put(out, b"refused words\n"),
    }
}

fn fail_of(word: &[u8]) -> Option<Fail> {
    for fail in FAILS {
        if is_same(word, fail_word(fail)) {
            return Some(fail);
        }
    }
    None
}

fn why_of(word: &[u8]) -> Option<Why> {
    for why in WHYS {
        if is_same(word, why.word().as_bytes()) {
            return Some(why);
        }
    }
    None
}

// The only answer that a text could be.
fn read_answer(text: &[u8]) -> Option<Answer> {
    let [line @ .., b'\n'] = text else {
        return None;
    };
    let mut words: Pieces<'_, b' '> = Pieces::of(line);
    let head = words.next()?;
    if is_same(head, b"lawful") {
        return Some(Answer::Lawful);
    }
    let place = words.next()?;
    if is_same(place, b"words") {
        return Some(Answer::RefusedWords);
    }
    let number = number_in(0, u32::MAX, place)?;
    let reason = words.next()?;
    if is_same(head, b"unlawful") {
        return Some(Answer::Unlawful(number, fail_of(reason)?));
    }
    if is_same(reason, b"trace") {
        return Some(Answer::RefusedTrace(number));
    }
    Some(Answer::Refused(number, why_of(reason)?))
}

/// The answer that a text is, if it is one.
pub fn answer_of(alloc: Global, text: &[u8]) -> Result<Option<Answer>, NoMemory>
    ensures { IfOk result (λ found. IfSome found (λ answer. text.now ≡ answer_text answer)) }
{
    let Some(answer) = read_answer(text) else {
        return Ok(None);
    };
    let mut spelled = Vec::new(alloc);
    put_answer(&mut spelled, answer)?;
    if is_same(text, &spelled) {
        Ok(Some(answer))
    } else {
        Ok(None)
    }
}

// Of what `zk` says it.
fn answer_words(answer: Answer) -> &'static [u8]
    ensures { result.now ≡ answer_words answer }
{
    match answer {
        Answer::Lawful => b"`zk` says this of a trace that is lawful",
        Answer::Unlawful(_, _) => b"`zk` says this of a trace that isn't lawful",
        Answer::Refused(_, _) => b"`zk` says this of a scenario that is refused",
        Answer::RefusedTrace(_) => b"`zk` says this of a trace that can't be read",
        Answer::RefusedWords => b"`zk` says this where its words are no form of it",
    }
}

// The line that it names.
fn answer_line(answer: Answer) -> Option<u32>
    ensures { result ≡ answer_line answer }
{
    match answer {
        Answer::Lawful => None,
        Answer::Unlawful(line, _) => Some(line),
        Answer::Refused(line, _) => Some(line),
        Answer::RefusedTrace(line) => Some(line),
        Answer::RefusedWords => None,
    }
}

fn put_at(out: &mut Vec<u8>, line: u32) -> Result<(), NoMemory>
    ensures { OnOk result (out.new.items ≡ out.old.items ++ at_line line) }
{
    put(out, b", at its line ")?;
    put_decimal(out, u64::from(line))
}

fn put_line(out: &mut Vec<u8>, line: Option<u32>) -> Result<(), NoMemory>
    ensures { OnOk result (out.new.items ≡ out.old.items ++ at_answer line) }
{
    match line {
        Some(line) => put_at(out, line),
        None => Ok(()),
    }
}

fn put_asking(out: &mut Vec<u8>, answer: Answer) -> Result<(), NoMemory>
    ensures { OnOk result (out.new.items ≡ out.old.items ++ asks_instead answer) }
{
    put(out, answer_words(answer))?;
    put_line(out, answer_line(answer))?;
    put(
        out,
        b". Give the scenario itself, or what `zk replay` or `zk run` printed of it.\n",
    )
}

/// What is asked for where the input is such an answer.
pub fn asking(alloc: Global, answer: Answer) -> Result<Vec<u8>, NoMemory>
    ensures { IfOk result (λ told. told.items ≡ asks_instead answer) }
{
    let mut told = Vec::new(alloc);
    put_asking(&mut told, answer)?;
    Ok(told)
}
