ghost use Rattle.std.specs.Prelude.{◌++◌, OnOk};
ghost use Rattle.zk_base.specs.Fronts.{StaysInFront};
ghost use Rattle.zk_show_why.specs.Refusal.{refusal_head};

use crate::accepted::{put_accepted, put_form};
use crate::before::Before;
use crate::limits::limit_finding;
use crate::misnamed::name_finding;
use crate::misplaced::order_finding;
use crate::mistakes::put_further;
use crate::placed::PlacedParts;
use crate::plain::{between, put_marked};
use crate::ranges::number_finding;
use crate::spelling::spelling_finding;
use crate::surface::surface_finding;
use crate::text::Text;
use crate::words::{ACCEPTED, Cause, END, IN_FORM};
use crate::{Accepted, Finding};
use std::alloc::Global;
use zk_base::{NoMemory, put, put_decimal};
use zk_scenario::Why;
use zk_words::Lines;

/// The refused line in its text.
#[derive(Clone, Copy)]
struct Refused<'a> {
    // Without its line feed.
    line: &'a [u8],
    /// Whether it has one.
    fed: bool,
    /// The lines before it, with their feeds.
    front: &'a [u8],
    /// The lines behind it.
    behind: &'a [u8],
}

/// Appends why a scenario is refused: the line's number and the reason, as the reader gives them; the line, with a mark below
/// the word that is meant; the cause in a sentence; and what would be accepted. Up to nineteen further mistakes follow, each told
/// as the first one.
pub fn put_refusal(out: &mut Vec<u8>, text: &[u8], line: u32, why: Why) -> Result<(), NoMemory>
    ensures told { OnOk result (StaysInFront (out.old.items ++ refusal_head line why) out.new.items) }
    ensures kept { StaysInFront out.old.items out.new.items }
{
    put_mistake(out, line, text, line, why)?;
    put_further(out, text, line, why)
}

/// Appends why a line of this text is refused, which is the line of the other number in the whole input.
pub fn put_mistake(
    out: &mut Vec<u8>,
    number: u32,
    text: &[u8],
    line: u32,
    why: Why,
) -> Result<(), NoMemory>
    ensures told { OnOk result (StaysInFront (out.old.items ++ refusal_head number why) out.new.items) }
    ensures kept { StaysInFront out.old.items out.new.items }
{
    let told = refusal_told(*out.allocator(), text, line, why)?;
    put(out, b"line ")?;
    put_decimal(out, u64::from(number))?;
    put(out, b": ")?;
    put(out, why.word().as_bytes())?;
    put(out, b"\n")?;
    put(out, &told)
}

// All behind the first line.
fn refusal_told(alloc: Global, text: &[u8], line: u32, why: Why) -> Result<Vec<u8>, NoMemory> {
    let refused = refused_line(text, line);
    let before = Before::of(alloc, refused.front)?;
    let mut told = Text::new(alloc);
    tell_refused(&mut told, refused, before.as_ref(), why);
    told.whole()
}

// With what the lines before it say.
fn tell_refused(told: &mut Text, refused: Refused<'_>, before: Option<&Before>, why: Why) {
    let finding = finding_of(refused, before, why);
    if why != Why::Length {
        put_marked(told, refused.line, finding.mark);
    }
    told.put(finding.cause.sentence());
    told.put(ACCEPTED);
    put_accepted(told, before, finding.accepted);
    put_in_form(told, finding);
    told.put(END);
}

// The form of the whole line, unless it was said.
fn put_in_form(told: &mut Text, finding: Finding) {
    match (finding.accepted, finding.head) {
        (Accepted::Form(_), _) => {}
        (_, Some(head)) => {
            told.put(IN_FORM);
            put_form(told, head);
        }
        (_, None) => {}
    }
}

// Line 0 is none, and so is one behind the last; its text is empty then.
fn refused_line(text: &[u8], line: u32) -> Refused<'_> {
    let mut lines = Lines::of(text);
    let mut front: usize = 0;
    let mut number: u32 = 1;
    while let Some(piece) = lines.next() {
        let end = front.saturating_add(piece.len());
        if number == line {
            return Refused {
                line: piece,
                fed: end < text.len(),
                front: between(text, 0, front),
                behind: between(text, end.saturating_add(1), text.len()),
            };
        }
        front = end.saturating_add(1);
        number = number.saturating_add(1);
    }
    Refused {
        line: &[],
        fed: true,
        front: &[],
        behind: &[],
    }
}

fn finding_of(refused: Refused<'_>, before: Option<&Before>, why: Why) -> Finding {
    match why {
        Why::Length => Finding::unmarked(Cause::TooLong, Accepted::WholeText),
        Why::Header => header_finding(refused),
        Why::Line => line_finding(refused),
        _ => match before {
            Some(before) => formed_finding(refused, before, why),
            None => unknown_finding(why),
        },
    }
}

fn header_finding(refused: Refused<'_>) -> Finding {
    // The first line is empty, and has no line feed.
    if refused.line.is_empty() && !refused.fed {
        return Finding::unmarked(Cause::Empty, Accepted::Header);
    }
    match surface_finding(refused.line) {
        Some(finding) => finding,
        None => Finding::at(Cause::OtherHeader, 0, refused.line.len(), Accepted::Header),
    }
}

fn line_finding(refused: Refused<'_>) -> Finding {
    if !refused.fed {
        return Finding::at(Cause::NoLineFeed, refused.line.len(), 1, Accepted::LastFeed);
    }
    match surface_finding(refused.line) {
        Some(finding) => finding,
        None => spelling_finding(refused.line),
    }
}

// Of a line that is spelled right.
fn formed_finding(refused: Refused<'_>, before: &Before, why: Why) -> Finding {
    let line = refused.line;
    match (why, PlacedParts::of(line)) {
        (Why::Order, _) => order_finding(before, line),
        (Why::Number, Some(parts)) => number_finding(before, &parts),
        (Why::Name, Some(parts)) => name_finding(before, line, &parts, refused.behind),
        (Why::Limit, Some(parts)) => limit_finding(before, line, &parts),
        _ => unknown_finding(why),
    }
}

// Where the lines before aren't those of a scenario, so that no cause can be found.
fn unknown_finding(why: Why) -> Finding {
    let (cause, accepted) = match why {
        Why::Header => (Cause::OtherHeader, Accepted::Header),
        Why::Line => (Cause::OtherSpelling, Accepted::FormattedLine),
        Why::Order => (Cause::OtherOrder, Accepted::Elsewhere),
        Why::Number => (Cause::OutOfRange, Accepted::InRange),
        Why::Name => (Cause::OtherName, Accepted::Declared),
        Why::Limit => (Cause::ManyCalls, Accepted::Without),
        Why::Length => (Cause::TooLong, Accepted::WholeText),
    };
    Finding::unmarked(cause, accepted)
}
