use crate::before::Before;
use crate::placed::{PlacedPart, PlacedParts, PlacedWord};
use crate::words::Cause;
use crate::{Accepted, Finding};
use zk_base::is_name;
use zk_line::kind_of;
use zk_scenario::Decl;
use zk_words::{
    Head, Line, Lines, Need, Slot, can_be_raw, event_named, is_same, line_of, need_of, plays_script,
};

/// Which name of a line can't stand where it does, with these lines behind it.
pub fn name_finding(
    before: &Before,
    line: &[u8],
    parts: &PlacedParts<'_>,
    behind: &[u8],
) -> Finding {
    if let Some(finding) = reserved_finding(parts) {
        return finding;
    }
    let mut left = parts.again();
    while let Some(part) = left.next() {
        if let Some(finding) = part_finding(before, behind, part) {
            return finding;
        }
        let again = match part.slot {
            Slot::Object(Need::Obs) => same_name(part.word.text, &left),
            _ => None,
        };
        if let Some(again) = again {
            return Finding::on(Cause::ObserverTwice, again, Accepted::Once);
        }
    }
    match parts.head {
        // All words behind the first.
        Head::Allow => {
            let len = line.len().saturating_sub(parts.from);
            Finding::at(Cause::AllowedTwice, parts.from, len, Accepted::Once)
        }
        head => Finding::unmarked(Cause::OtherName, Accepted::Form(head)),
    }
}

// The name that a word says, and what would be accepted in its place.
fn asked(part: PlacedPart<'_>) -> Option<(&[u8], Accepted)> {
    match part.slot {
        Slot::New => Some((part.word.text, Accepted::NewName)),
        Slot::Owner => Some((part.word.text, Accepted::Owner)),
        Slot::Object(need) => Some((part.word.text, Accepted::Object(need))),
        Slot::Rawable => Some((part.word.text, Accepted::Rawable)),
        Slot::Event => {
            let event = event_named(part.word.text)?;
            Some((event.name, Accepted::Object(need_of(event.source))))
        }
        _ => None,
    }
}

fn reserved_finding(parts: &PlacedParts<'_>) -> Option<Finding> {
    let mut left = parts.again();
    while let Some(part) = left.next() {
        if let Some((name, accepted)) = asked(part) {
            if !is_name(name) {
                return Some(Finding::on(Cause::Reserved, part.word, accepted));
            }
        }
    }
    None
}

fn part_finding(before: &Before, behind: &[u8], part: PlacedPart<'_>) -> Option<Finding> {
    let (name, accepted) = asked(part)?;
    let cause = match (before.declared(name), accepted) {
        (Some(_), Accepted::NewName) => Cause::DeclaredTwice,
        (None, Accepted::NewName) => return None,
        (Some(decl), _) => {
            if is_met(accepted, decl) {
                return None;
            }
            Cause::OtherKind
        }
        (None, _) => {
            if is_declared_in(behind, name) {
                Cause::DeclaredLater
            } else {
                Cause::Undeclared
            }
        }
    };
    Some(Finding::on(cause, part.word, accepted))
}

/// Whether what was declared would be accepted.
pub fn is_met(accepted: Accepted, decl: &Decl) -> bool {
    match accepted {
        Accepted::Object(need) => need.is_met_by(kind_of(decl)),
        Accepted::Owner => plays_script(kind_of(decl)),
        Accepted::Rawable => can_be_raw(kind_of(decl)),
        _ => false,
    }
}

// Whether one of these lines declares this name.
fn is_declared_in(lines: &[u8], name: &[u8]) -> bool {
    let mut lines = Lines::of(lines);
    while let Some(line) = lines.next() {
        if let Line::Formed(Head::Declare(_), parts) = line_of(line) {
            let mut parts = parts;
            if let Some(part) = parts.next() {
                if is_same(part.text, name) {
                    return true;
                }
            }
        }
    }
    false
}

// The next word that names the same observer.
fn same_name<'a>(name: &[u8], parts: &PlacedParts<'a>) -> Option<PlacedWord<'a>> {
    let mut left = parts.again();
    while let Some(part) = left.next() {
        if is_same(part.word.text, name) {
            return Some(part.word);
        }
    }
    None
}
