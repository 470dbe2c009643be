use crate::placed::{PlacedWord, PlacedWords};
use crate::signs::{Sort, first_that};
use crate::words::Cause;
use crate::{Accepted, Finding};
use zk_base::LONGEST_NAME;
use zk_words::{Head, Rest, Slot, head_of, is_ignore, is_spelled_in, row_of};

/// What is wrong with the words of a line that is no form of a line.
pub fn spelling_finding(line: &[u8]) -> Finding {
    let mut words = PlacedWords::of(line);
    let Some(first) = words.next() else {
        return Finding::unmarked(Cause::OtherSpelling, Accepted::Line);
    };
    match head_of(first.text) {
        Some(head) => behind_head(line, head, &mut words).in_line(head),
        None => plain(Cause::NoSuchWord, first, Accepted::Line),
    }
}

fn behind_head(line: &[u8], head: Head, words: &mut PlacedWords<'_>) -> Finding {
    let row = row_of(head);
    let mut slots = row.slots;
    while let [slot, more @ ..] = slots {
        let Some(word) = words.next() else {
            return missing(line, head);
        };
        if !is_spelled_in(*slot, word.text) {
            return word_finding(*slot, word);
        }
        slots = more;
    }
    match row.rest {
        Rest::Nothing => too_many(words, head),
        Rest::Maybe(slot) => maybe_finding(slot, words, head),
        Rest::Many(slot) => many_finding(slot, words, head),
        Rest::Events => events_finding(line, words, head),
    }
}

fn missing(line: &[u8], head: Head) -> Finding {
    Finding::at(
        Cause::WordMissing,
        line.len().saturating_add(1),
        1,
        Accepted::Form(head),
    )
}

fn too_many(words: &mut PlacedWords<'_>, head: Head) -> Finding {
    match words.next() {
        Some(word) => Finding::on(Cause::WordTooMany, word, Accepted::Form(head)),
        None => Finding::unmarked(Cause::OtherSpelling, Accepted::Form(head)),
    }
}

fn maybe_finding(slot: Slot, words: &mut PlacedWords<'_>, head: Head) -> Finding {
    match words.next() {
        Some(word) if !is_spelled_in(slot, word.text) => word_finding(slot, word),
        _ => too_many(words, head),
    }
}

fn many_finding(slot: Slot, words: &mut PlacedWords<'_>, head: Head) -> Finding {
    while let Some(word) = words.next() {
        if !is_spelled_in(slot, word.text) {
            return word_finding(slot, word);
        }
    }
    Finding::unmarked(Cause::OtherSpelling, Accepted::Form(head))
}

fn events_finding(line: &[u8], words: &mut PlacedWords<'_>, head: Head) -> Finding {
    let mut ignored = None;
    while let Some(word) = words.next() {
        if !is_spelled_in(Slot::Event, word.text) {
            return word_finding(Slot::Event, word);
        }
        if is_ignore(word.text) {
            ignored = Some(word);
        }
    }
    match ignored {
        Some(word) => Finding::on(Cause::AllIgnored, word, Accepted::Event),
        None => missing(line, head),
    }
}

/// What is wrong with a word that isn't spelled as its slot asks.
fn word_finding(slot: Slot, word: PlacedWord<'_>) -> Finding {
    match slot {
        Slot::New => name_finding(word),
        Slot::Owner => name_finding(word),
        Slot::Object(_) => name_finding(word),
        Slot::Rawable => name_finding(word),
        Slot::Number(least, most) => {
            number_finding(word, Accepted::Number(least, most), Cause::NoNumber)
        }
        Slot::Priority => priority_finding(word),
        Slot::Either(choice) => plain(Cause::NeitherWord, word, Accepted::Either(choice)),
        Slot::Hex => hex_finding(word),
        Slot::Wait => number_finding(word, Accepted::Wait, Cause::NoWait),
        Slot::Event => plain(Cause::NoEvent, word, Accepted::Event),
        Slot::Valid => plain(Cause::NoValidator, word, Accepted::Validator),
        Slot::Raw => plain(Cause::OnlyRaw, word, Accepted::Raw),
    }
}

// The word, unless a capital letter is what is wrong.
fn plain(cause: Cause, word: PlacedWord<'_>, accepted: Accepted) -> Finding {
    match first_that(word.text, true, Sort::Capital) {
        Some(at) => Finding::in_word(Cause::CapitalLetter, word, at, accepted),
        None => Finding::on(cause, word, accepted),
    }
}

fn name_finding(word: PlacedWord<'_>) -> Finding {
    match first_that(word.text, false, Sort::OfName) {
        Some(at) => sign_finding(Cause::NameSign, word, at, Accepted::Name),
        None if LONGEST_NAME < word.text.len() => {
            Finding::on(Cause::LongName, word, Accepted::Name)
        }
        None => Finding::in_word(Cause::NameBegins, word, 0, Accepted::Name),
    }
}

// The byte at a place, unless a capital letter is what is wrong.
fn sign_finding(cause: Cause, word: PlacedWord<'_>, at: usize, accepted: Accepted) -> Finding {
    match first_that(word.text, true, Sort::Capital) {
        Some(capital) => Finding::in_word(Cause::CapitalLetter, word, capital, accepted),
        None => Finding::in_word(cause, word, at, accepted),
    }
}

// Of a word that may be a number, and isn't said otherwise to be wrong.
fn number_finding(word: PlacedWord<'_>, accepted: Accepted, other: Cause) -> Finding {
    match word.text {
        [b'+', ..] => Finding::at(Cause::PlusSign, word.from, 1, accepted),
        [b'-', ..] => Finding::at(Cause::MinusSign, word.from, 1, accepted),
        [b'0', rest @ ..] => zero_finding(word, rest, word.from, accepted),
        _ => plain(other, word, accepted),
    }
}

// A word that begins with a zero at a place, and goes on so.
fn zero_finding(word: PlacedWord<'_>, rest: &[u8], zero: usize, accepted: Accepted) -> Finding {
    if first_that(rest, false, Sort::Digit).is_none() {
        Finding::at(Cause::LeadingZero, zero, 1, accepted)
    } else {
        plain(Cause::NoNumber, word, accepted)
    }
}

fn priority_finding(word: PlacedWord<'_>) -> Finding {
    match word.text {
        [b'-', b'0'] => Finding::at(Cause::MinusZero, word.from, 2, Accepted::Priority),
        [b'-', b'0', rest @ ..] => {
            zero_finding(word, rest, word.from.saturating_add(1), Accepted::Priority)
        }
        [b'-', ..] => plain(Cause::NoNumber, word, Accepted::Priority),
        _ => number_finding(word, Accepted::Priority, Cause::NoNumber),
    }
}

fn hex_finding(word: PlacedWord<'_>) -> Finding {
    let accepted = Accepted::Message(None);
    match first_that(word.text, false, Sort::OfMessage) {
        Some(at) => sign_finding(Cause::NoDigit, word, at, accepted),
        None => Finding::on(Cause::OddDigits, word, accepted),
    }
}
