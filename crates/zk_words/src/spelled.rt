ghost use Rattle.std.specs.Prelude.{◌≡◌, []};
ghost use Rattle.std.specs.List.{list_all, list_any};
ghost use Rattle.zk_words.specs.Events.{asks, is_event};
ghost use Rattle.zk_words.specs.Spelled.{choice_text, same_choice, is_spelled_in, are_spelled};

use crate::event::{is_event, is_ignore};
use crate::hex::is_hex;
use crate::numbers::{is_number, priority_of};
use crate::pieces::Words;
use crate::slot::{Choice, Rest, Slot};
use crate::table::Row;
use crate::timeout::is_wait;
use crate::validator::validator_of;
use zk_base::is_spelled;

/// One of the two words of a choice; the first is true.
pub fn choice_text(choice: Choice, first: bool) -> &'static [u8]
    ensures { result.now ≡ choice_text choice first }
{
    match (choice, first) {
        (Choice::Mode, true) => b"user",
        (Choice::Mode, false) => b"super",
        (Choice::State, true) => b"on",
        (Choice::State, false) => b"off",
        (Choice::Drain, true) => b"plug",
        (Choice::Drain, false) => b"open",
    }
}

/// Whether two choices are one.
pub fn same_choice(choice: Choice, other: Choice) -> bool
    ensures { result ≡ same_choice choice other }
{
    match (choice, other) {
        (Choice::Mode, Choice::Mode) => true,
        (Choice::State, Choice::State) => true,
        (Choice::Drain, Choice::Drain) => true,
        _ => false,
    }
}

/// Whether there is a word for each slot of a row and a slot for each word, each spelled as its slot asks.
#[tactic(auto, using(crate::proofs::Spellings::spelled_next))]
pub fn are_spelled(row: &Row, words: Words<'_>) -> bool
    ensures { result ≡ are_spelled row.now.slots row.now.rest words.entry }
{
    let mut words = words;
    let mut slots = row.slots;
    while let [slot, more @ ..] = slots {
        let Some(word) = words.next() else {
            return false;
        };
        if !is_spelled_in(*slot, word) {
            return false;
        }
        slots = more;
    }
    rest_is_spelled(row.rest, words)
}

#[tactic(auto, using(crate::proofs::Spellings::events_spelled))]
fn rest_is_spelled(rest: Rest, words: Words<'_>) -> bool
    ensures { result ≡ are_spelled [] rest words.entry }
{
    let mut words = words;
    match rest {
        Rest::Nothing => words.next().is_none(),
        Rest::Maybe(slot) => {
            let Some(word) = words.next() else {
                return true;
            };
            words.next().is_none() && is_spelled_in(slot, word)
        }
        Rest::Many(slot) => all_are_spelled(slot, words),
        Rest::Events => any_asks(words.again()) && are_events(words),
    }
}

/// Whether words that are all in one slot are spelled as it asks.
fn all_are_spelled(slot: Slot, words: Words<'_>) -> bool
    ensures { result ≡ are_spelled [] (Rest.Many slot) words.entry }
{
    let mut words = words;
    while let Some(word) = words.next() {
        if !is_spelled_in(slot, word) {
            return false;
        }
    }
    true
}

/// Whether one of the words of events asks for something.
fn any_asks(words: Words<'_>) -> bool
    ensures { result ≡ list_any asks words.entry }
{
    let mut words = words;
    while let Some(word) = words.next() {
        if !is_ignore(word) {
            return true;
        }
    }
    false
}

/// Whether all of them are spelled as events.
fn are_events(words: Words<'_>) -> bool
    ensures { result ≡ list_all is_event words.entry }
{
    let mut words = words;
    while let Some(word) = words.next() {
        if !is_event(word) {
            return false;
        }
    }
    true
}

/// Whether a word is spelled as its slot asks.
pub fn is_spelled_in(slot: Slot, word: &[u8]) -> bool
    ensures { result ≡ is_spelled_in slot word.now }
{
    match slot {
        Slot::New => is_spelled(word),
        Slot::Owner => is_spelled(word),
        Slot::Object(_) => is_spelled(word),
        Slot::Rawable => is_spelled(word),
        Slot::Number(_, _) => is_number(word),
        Slot::Priority => priority_of(word).is_some(),
        Slot::Either(choice) => {
            word == choice_text(choice, true) || word == choice_text(choice, false)
        }
        Slot::Hex => is_hex(word),
        Slot::Wait => is_wait(word),
        Slot::Event => is_event(word),
        Slot::Valid => validator_of(word).is_some(),
        Slot::Raw => word == b"raw".as_slice(),
    }
}
