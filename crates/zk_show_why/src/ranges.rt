use crate::before::Before;
use crate::placed::{PlacedPart, PlacedParts};
use crate::words::Cause;
use crate::{Accepted, Finding};
use zk_base::LONGEST_MESSAGE;
use zk_scenario::Decl;
use zk_words::{Head, MOST_COUNT, Slot, number_in, priority_of, wait_of};

/// Which number of a line is out of its range, or which message isn't of its size.
pub fn number_finding(before: &Before, parts: &PlacedParts<'_>) -> Finding {
    let size = size_asked(before, parts);
    let mut left = parts.again();
    while let Some(part) = left.next() {
        if let Some(finding) = part_finding(size, part) {
            return finding;
        }
    }
    match parts.head {
        Head::Declare(_) => together_finding(parts),
        head => Finding::unmarked(Cause::OutOfRange, Accepted::Form(head)),
    }
}

// The size of the messages of what the first word names.
fn size_asked(before: &Before, parts: &PlacedParts<'_>) -> Option<usize> {
    let part = parts.again().next()?;
    match (part.slot, before.declared(part.word.text)?) {
        (Slot::New, _) => None,
        (_, Decl::Msgq(_, size, _, _)) => Some(*size as usize),
        (_, Decl::Chan(_, message, _, _)) => Some(message.bytes().len()),
        _ => None,
    }
}

fn part_finding(size: Option<usize>, part: PlacedPart<'_>) -> Option<Finding> {
    match part.slot {
        Slot::Number(least, most) => match number_in(least, most, part.word.text) {
            Some(_) => None,
            None => Some(Finding::on(Cause::OutOfRange, part.word, Accepted::Number(least, most))),
        },
        Slot::Priority => match priority_of(part.word.text) {
            Some(Some(_)) => None,
            _ => Some(Finding::on(Cause::PriorityOutOfRange, part.word, Accepted::Priority)),
        },
        Slot::Wait => match wait_of(part.word.text) {
            Some(_) => None,
            None => Some(Finding::on(Cause::WaitOutOfRange, part.word, Accepted::Wait)),
        },
        Slot::Hex => message_finding(size, part),
        _ => None,
    }
}

fn message_finding(size: Option<usize>, part: PlacedPart<'_>) -> Option<Finding> {
    let bytes = part.word.text.len() / 2;
    match size {
        Some(size) if bytes != size => {
            Some(Finding::on(Cause::OtherSize, part.word, Accepted::Message(Some(size))))
        }
        _ => {
            if LONGEST_MESSAGE < bytes {
                Some(Finding::on(Cause::LongMessage, part.word, Accepted::Message(None)))
            } else {
                None
            }
        }
    }
}

// Which numbers of a declaration don't go together: the count of a semaphore and its limit, or the size of a channel and
// its first message.
fn together_finding(parts: &PlacedParts<'_>) -> Finding {
    let mut parts = parts.again();
    match (parts.next(), parts.next(), parts.next()) {
        (Some(_), Some(initial), Some(limit)) => match limit.slot {
            Slot::Hex => {
                let accepted = match number_in(1, LONGEST_MESSAGE as u32, initial.word.text) {
                    Some(size) => Accepted::Message(Some(size as usize)),
                    None => Accepted::Message(None),
                };
                Finding::on(Cause::OtherFirstSize, limit.word, accepted)
            }
            _ => {
                let most = number_in(1, MOST_COUNT, limit.word.text).unwrap_or(MOST_COUNT);
                Finding::on(
                    Cause::InitialAboveLimit,
                    initial.word,
                    Accepted::Number(0, most),
                )
            }
        },
        _ => Finding::unmarked(Cause::OutOfRange, Accepted::OtherNumber),
    }
}
