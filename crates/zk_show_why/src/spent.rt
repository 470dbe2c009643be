use crate::run::Run;
use crate::story::{Saying, Story};
use crate::words::Told;
use zk_model_work::WorkReply;
use zk_scenario::Ref;
use zk_words::Word;
use zk_worker::{Answer, Answers};

// How many of the last calls are looked at for a run that they repeat, and how long that is at most.
const LAST: usize = 64;

const LONGEST_RUN: usize = 16;

/// Tells which calls a player repeats that has made all its steps.
pub fn tell_spent(story: &mut Story, run: &Run<'_>, player: usize) {
    if let Some(log) = run.log(player) {
        match period(&log.answers) {
            Some(count) => tell_last(story, &log.answers, count, Told::Repeats),
            None => tell_last(story, &log.answers, LONGEST_RUN, Told::LastCalls),
        }
    }
    tell_last_run(story, run, player);
}

/// The length of the shortest run of calls that the last ones repeat.
fn period(answers: &Answers) -> Option<usize> {
    for length in 1..LONGEST_RUN.saturating_add(1) {
        if repeats(answers, length) {
            return Some(length);
        }
    }
    None
}

// Whether the last calls are a run of this length again and again, twice at least.
fn repeats(answers: &Answers, length: usize) -> bool {
    let count = answers.len();
    let first = count.saturating_sub(LAST).saturating_add(length);
    if count < first.saturating_add(length) {
        return false;
    }
    for place in first..count {
        if word_at(answers, place) != word_at(answers, place.saturating_sub(length)) {
            return false;
        }
    }
    true
}

fn word_at(answers: &Answers, place: usize) -> Option<Word> {
    let _known: Option<Answer> = None;
    Some(answers.get(place)?.word)
}

// Names the last calls; the first of them so.
fn tell_last(story: &mut Story, answers: &Answers, count: usize, first: Told) {
    let mut told = first;
    for place in answers.len().saturating_sub(count)..answers.len() {
        if let Some(word) = word_at(answers, place) {
            let mut saying = Saying::of(told);
            saying.call = word;
            story.say(saying);
            told = Told::CallToo;
        }
    }
}

// Of a worker, which item it has run last.
fn tell_last_run(story: &mut Story, run: &Run<'_>, player: usize) {
    let mut last = None;
    for entry in run.trace.work.items() {
        match &entry.reply {
            WorkReply::Run(item, _) if entry.who.number as usize == player => last = Some(*item),
            _ => {}
        }
    }
    if let Some(item) = last {
        if let Some(object) = run.scenario.items().get(item as usize) {
            story.say(Saying::of(Told::RanLast).object(Ref::Known(*object)));
        }
    }
}
