use crate::placed::PlacedWords;
use crate::signs::{Sort, first_that};
use crate::words::Cause;
use crate::{Accepted, Finding};

/// What is wrong with the bytes of a line, whatever its words are.
pub fn surface_finding(line: &[u8]) -> Option<Finding> {
    if first_that(line, false, Sort::Space).is_none() {
        return Some(Finding::unmarked(Cause::Blank, Accepted::WithoutLine));
    }
    if let Some(finding) = comment(line) {
        return Some(finding);
    }
    match byte_finding(line) {
        Some(finding) => Some(finding),
        None => space_finding(line),
    }
}

// Where a word begins as comments do in other languages.
fn comment(line: &[u8]) -> Option<Finding> {
    let mut words = PlacedWords::of(line);
    while let Some(word) = words.next() {
        if begins_comment(word.text) {
            let len = line.len().saturating_sub(word.from);
            return Some(Finding::at(Cause::Comment, word.from, len, Accepted::Without));
        }
    }
    None
}

fn begins_comment(word: &[u8]) -> bool {
    match word {
        [b'#', ..] => true,
        [b';', ..] => true,
        [b'/', b'/', ..] => true,
        [b'/', b'*', ..] => true,
        [b'-', b'-', ..] => true,
        _ => false,
    }
}

// The first byte that is neither a space nor has a picture.
fn byte_finding(line: &[u8]) -> Option<Finding> {
    let at = first_that(line, false, Sort::Printable)?;
    let finding = match line.get(at) {
        Some(b'\r') => Finding::at(Cause::Return, at, 1, Accepted::OneFeed),
        Some(b'\t') => Finding::at(Cause::Tab, at, 1, Accepted::OneSpace),
        _ => Finding::at(Cause::OtherByte, at, 1, Accepted::PlainBytes),
    };
    Some(finding)
}

fn space_finding(line: &[u8]) -> Option<Finding> {
    if let [b' ', ..] = line {
        return Some(Finding::at(Cause::SpaceInFront, 0, 1, Accepted::OneSpace));
    }
    if let [.., b' '] = line {
        let at = line.len().saturating_sub(1);
        return Some(Finding::at(Cause::SpaceBehind, at, 1, Accepted::OneSpace));
    }
    let mut words = PlacedWords::of(line);
    while let Some(word) = words.next() {
        if word.text.is_empty() {
            return Some(Finding::at(Cause::TwoSpaces, word.from, 1, Accepted::OneSpace));
        }
    }
    None
}
