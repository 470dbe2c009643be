ghost use Rattle.std.specs.Prelude.{◌≡◌, MatchOption, option_and_then};
ghost use Rattle.zk_base.specs.Limits.{most_few};
ghost use Rattle.zk_trace.specs.Fields.{bare, one_word, two_words, three_words, behind, oops_of, observers_of, ready_of, observer_of, narrow_of, each_of, up_to};

use crate::look_ups::observer_of;
use crate::names::NO_NAME;
use crate::numerals::narrow_of;
use crate::set_words::why_of;
use crate::words::{OOPS, READY};
use zk_base::{Few, MOST_FEW};
use zk_line::MOST_EVENTS;
use zk_model_bus::OopsWhy;
use zk_scenario::Scenario;
use zk_words::{Pieces, Words, is_same};
use zk_worker::Positions;

/// This, where there is no word.
pub fn bare<A: Drop, const SEPARATOR: u8>(made: A, words: Pieces<'_, SEPARATOR>) -> Option<A>
    ensures { result ≡ bare made words.entry }
{
    let mut words = words;
    if words.next().is_some() {
        return None;
    }
    Some(made)
}

/// The word, where there is just one.
pub fn one_word<'a, const SEPARATOR: u8>(words: Pieces<'a, SEPARATOR>) -> Option<&'a [u8]>
    ensures { MatchOption result (one_word words.entry ≡ None) (λ word. one_word words.entry ≡ Some word.now) }
{
    let mut words = words;
    let word = words.next()?;
    if words.next().is_some() {
        return None;
    }
    Some(word)
}

/// The words, where there are just two.
pub fn two_words<'a, const SEPARATOR: u8>(
    words: Pieces<'a, SEPARATOR>,
) -> Option<(&'a [u8], &'a [u8])>
    ensures { MatchOption result (two_words words.entry ≡ None)
        (λ w. two_words words.entry ≡ Some (w.0.now, w.1.now)) }
{
    let mut words = words;
    let first = words.next()?;
    let second = words.next()?;
    if words.next().is_some() {
        return None;
    }
    Some((first, second))
}

/// The words, where there are just three.
pub fn three_words<'a, const SEPARATOR: u8>(
    words: Pieces<'a, SEPARATOR>,
) -> Option<(&'a [u8], &'a [u8], &'a [u8])>
    ensures { MatchOption result (three_words words.entry ≡ None)
        (λ w. three_words words.entry ≡ Some (w.0.now, w.1.now, w.2.now)) }
{
    let mut words = words;
    let first = words.next()?;
    let second = words.next()?;
    let third = words.next()?;
    if words.next().is_some() {
        return None;
    }
    Some((first, second, third))
}

/// The words behind this one.
pub fn behind<'a, const SEPARATOR: u8>(
    first: &[u8],
    words: Pieces<'a, SEPARATOR>,
) -> Option<Pieces<'a, SEPARATOR>>
    ensures { result ≡ behind first.now words.entry }
{
    let mut words = words;
    if is_same(words.next()?, first) {
        Some(words)
    } else {
        None
    }
}

/// That a check fails, and why.
pub fn oops_of(row: &[u8]) -> Option<OopsWhy>
    ensures { result ≡ oops_of row.now }
{
    why_of(row.strip_prefix(OOPS)?)
}

/// The observers that were told, or none.
pub fn observers_of(scenario: &Scenario, row: &[u8]) -> Option<Few>
    ensures { result ≡ observers_of scenario.now.decls row.now }
{
    if is_same(row, NO_NAME) {
        return Some(Few::none());
    }
    told_of(scenario, Words::of(row))
}

fn told_of(scenario: &Scenario, words: Words<'_>) -> Option<Few>
    ensures { result ≡ option_and_then (up_to most_few) (each_of (observer_of scenario.now.decls) words.entry) }
{
    let mut words = words;
    let mut told = Few::none();
    while let Some(word) = words.next() {
        let observer = observer_of(scenario, word)?;
        if told.numbers().len() == MOST_FEW {
            return None;
        }
        told.push(observer);
    }
    Some(told)
}

/// The events of a poll that are ready, behind their word.
pub fn ready_of(row: &[u8]) -> Option<Positions>
    ensures { result ≡ ready_of row.now }
{
    positions_of(behind(READY, Words::of(row))?)
}

fn positions_of(words: Words<'_>) -> Option<Positions>
    ensures { result ≡ option_and_then (up_to MOST_EVENTS) (each_of narrow_of words.entry) }
{
    let mut words = words;
    let mut positions = Positions::new();
    while let Some(word) = words.next() {
        let position = narrow_of(word)?;
        if positions.numbers().len() == MOST_EVENTS {
            return None;
        }
        positions.push(position);
    }
    Some(positions)
}
