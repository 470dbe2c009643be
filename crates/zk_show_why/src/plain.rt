use crate::finding::Span;
use crate::signs::is_printable;
use crate::text::Text;
use zk_words::digit_of;

/// How many columns a line of text takes at most.
const WIDEST: usize = 100;

// What stands in front of the text of a line.
const INDENT: &[u8] = b"    ";

// What stands in place of what is cut.
const CUT: &[u8] = b"..";

// How many columns are left for a line beside its indent, and for one that is cut at both ends.
const ROOM: usize = 96;

const CUT_ROOM: usize = 92;

// How many bytes are shown in front of a mark that doesn't stand near the beginning.
const BEFORE_MARK: usize = 16;

// In printable ASCII: any other byte as `\x` and two digits.
fn put_plain(text: &mut Text, bytes: &[u8]) {
    for byte in bytes {
        if is_printable(*byte) {
            text.put(&[*byte]);
        } else {
            text.put(&[b'\\', b'x', digit_of(*byte / 16), digit_of(*byte % 16)]);
        }
    }
}

// How many columns some bytes take.
fn width(bytes: &[u8]) -> usize {
    let mut columns: usize = 0;
    for byte in bytes {
        columns = columns.saturating_add(width_of(*byte));
    }
    columns
}

fn width_of(byte: u8) -> usize {
    if is_printable(byte) { 1 } else { 4 }
}

/// The bytes of a text from a place to another.
pub fn between(text: &[u8], from: usize, to: usize) -> &[u8] {
    let front = match text.split_at_checked(to) {
        Some((front, _)) => front,
        None => text,
    };
    match front.split_at_checked(from) {
        Some((_, piece)) => piece,
        None => &[],
    }
}

// How many bytes of a text fit into so many columns.
fn fitting(text: &[u8], room: usize) -> usize {
    let mut columns: usize = 0;
    let mut bytes: usize = 0;
    for byte in text {
        columns = columns.saturating_add(width_of(*byte));
        if room < columns {
            break;
        }
        bytes = bytes.saturating_add(1);
    }
    bytes
}

// The part of a line that is shown.
fn window_at(line: &[u8], mark: Span) -> Span {
    if width(line) <= ROOM {
        return Span {
            from: 0,
            to: line.len(),
        };
    }
    let front = width(between(line, 0, mark.to));
    let from = if front <= CUT_ROOM {
        0
    } else {
        mark.from.saturating_sub(BEFORE_MARK)
    };
    let shown = fitting(between(line, from, line.len()), CUT_ROOM);
    Span {
        from,
        to: from.saturating_add(shown),
    }
}

/// Appends a line, cut where it is long, and below it a line that marks some of its bytes. Of an empty line there is
/// nothing to be seen.
pub fn put_marked(text: &mut Text, line: &[u8], mark: Option<Span>) {
    if line.is_empty() {
        return;
    }
    let shown = window_at(line, mark.unwrap_or(Span { from: 0, to: 0 }));
    put_shown(text, line, shown);
    if let Some(mark) = mark {
        put_mark(text, line, shown, mark);
    }
}

fn put_shown(text: &mut Text, line: &[u8], shown: Span) {
    text.put(INDENT);
    if 0 < shown.from {
        text.put(CUT);
    }
    put_plain(text, between(line, shown.from, shown.to));
    if shown.to < line.len() {
        text.put(CUT);
    }
    text.put(b"\n");
}

fn put_mark(text: &mut Text, line: &[u8], shown: Span, mark: Span) {
    text.put(INDENT);
    if 0 < shown.from {
        put_each(text, b" ", CUT.len());
    }
    put_each(text, b" ", width(between(line, shown.from, mark.from)));
    // Behind the end of the line.
    put_each(text, b" ", mark.from.saturating_sub(line.len()));
    let marked = width(between(line, mark.from, mark.to.min(shown.to)));
    put_each(text, b"^", marked.max(1));
    text.put(b"\n");
}

fn put_each(text: &mut Text, sign: &[u8], count: usize) {
    for _ in 0..count.min(WIDEST) {
        text.put(sign);
    }
}
