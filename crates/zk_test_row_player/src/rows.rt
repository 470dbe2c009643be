use crate::checking::{put_checks, put_unlawful};
use crate::format_one::{FIRST_TWO, in_format_one};
use crate::kept::put_kept;
use crate::migrating::put_unmigrated;
use crate::play::{Played, play, play_by};
use crate::reading::{is_read_again, put_readings};
use crate::shown::{put_same_picture, put_shown, put_shown_piece};
use crate::spelled::{put_spelled, put_times};
use std::alloc::Global;
use std::rt::Files;
use std::sync::Wait;
use std::thread::Threads;
use zk_base::{NoMemory, Status, put, put_decimal};
use zk_trace::Format;

/// What is printed of these lines:
///
///     # NAME         a row begins, with no text yet
///     LINE           the text goes on with this line
///     *COUNT PIECE   the text goes on with this piece, so many times
///     + PIECE        is the text with this piece behind it read? The text stays as it is
///     ! WORDS        plays the text by these words: the status, and what is printed behind the text
///     $ PIECE        plays the text: the status, and whether the output ends with this piece
///     = WORDS        plays the text by these words: the status, and whether that prints what `replay` does
///     ~ WORDS        plays the text by these words: the status, and what `check` says of the output
///     @ WORDS: PIECE plays the text by these words: the status, and whether the output holds this piece
///     ? CHANGE       plays the text, and reads the trace in format 1 changed in this way
///     ? check CHANGE plays the text, and checks the trace in format 1 changed in this way
///     % CHANGE       plays the text, and reads the trace changed in this way
///     % check CHANGE plays the text, and checks the trace changed in this way
///     &              reads the trace that stands in the text: each entry, look and answer of it
///     ^ WORD         shows the text, a run or a scenario alone, by this word: the status, and what is printed
///     > WORD: PIECE  shows the text by this word: the status, and whether what is printed holds this piece
///     < PICTURE      shows the text by `svg`: the status, and whether it draws what this file holds
///
/// Each trace that is played is read and printed again, checked, and migrated without its counts. Where it isn't the same,
/// `misread` is printed; where it isn't said to be lawful, what is said; where something else is made of it, `not migrated`;
/// and where there is none, `no trace`.
pub fn answered<R: Threads + Wait + Files + AllocGlobal + Sync>(
    rt: &R,
    alloc: Global,
    lines: &str,
) -> Result<Vec<u8>, NoMemory> {
    let mut out = Vec::new(alloc);
    let mut text = Vec::new(alloc);
    for line in lines.split('\n') {
        put_row(rt, alloc, &mut out, &mut text, line)?;
    }
    Ok(out)
}

fn put_row<R: Threads + Wait + Files + AllocGlobal + Sync>(
    rt: &R,
    alloc: Global,
    out: &mut Vec<u8>,
    text: &mut Vec<u8>,
    line: &str,
) -> Result<(), NoMemory> {
    match line.as_bytes() {
        [b'#', ..] => {
            text.clear();
            put_line(out, line.as_bytes())
        }
        [b'*', ..] => put_times(text, line.strip_prefix('*').unwrap_or("")),
        [b'+', piece @ ..] => put_reading(alloc, out, text, piece),
        [b'!', ..] => put_play(rt, alloc, out, text, line),
        [b'$', piece @ ..] => put_end(alloc, out, text, piece),
        [b'=', ..] => put_same(rt, alloc, out, text, line),
        [b'~', ..] => put_checked(rt, alloc, out, text, line),
        [b'@', ..] => put_holding(rt, alloc, out, text, line),
        [b'?', ..] => put_change(alloc, out, text, line, Format::One),
        [b'%', ..] => put_change(alloc, out, text, line, Format::Two),
        [b'&'] => put_kept(alloc, out, text),
        [b'^', ..] => put_shown(alloc, out, text, line),
        [b'>', ..] => put_shown_piece(alloc, out, text, line),
        [b'<', ..] => put_same_picture(rt, out, text, line),
        _ => put_line(text, line.as_bytes()),
    }
}

fn put_line(out: &mut Vec<u8>, line: &[u8]) -> Result<(), NoMemory> {
    put(out, line)?;
    put(out, b"\n")
}

/// Whether the text with this piece behind it is read, or the refusal.
fn put_reading(
    alloc: Global,
    out: &mut Vec<u8>,
    text: &[u8],
    piece: &[u8],
) -> Result<(), NoMemory> {
    let mut whole = Vec::new(alloc);
    put(&mut whole, text)?;
    put_spelled(&mut whole, behind_space(piece), 0)?;
    let played = play(alloc, " replay", &whole)?;
    put(out, said(played.status, played.sink.held(), &whole))?;
    put(out, b":")?;
    put_line(out, piece)?;
    put_faults(alloc, out, &whole, &played)
}

/// What was said of a text: the refusal, or whether it is printed again as it stood, with a trace behind it.
fn said<'a>(status: Status, held: &'a [u8], text: &[u8]) -> &'a [u8] {
    match (status, held, held.strip_prefix(text)) {
        (Status::Refused, [refusal @ .., b'\n'], _) => refusal,
        (_, _, Some(behind)) if behind.starts_with(FIRST_TWO) => b"read",
        _ => b"misprinted",
    }
}

/// The status, and what is printed behind the text; all that is printed, where that doesn't begin with it.
fn put_play<R: Threads + Wait + Sync>(
    rt: &R,
    alloc: Global,
    out: &mut Vec<u8>,
    text: &[u8],
    line: &str,
) -> Result<(), NoMemory> {
    let words = line.strip_prefix('!').unwrap_or("");
    let played = play_by(rt, alloc, words, text)?;
    let held = played.sink.held();
    put_decimal(out, u64::from(played.status.code()))?;
    match held.strip_prefix(text) {
        Some(behind) => {
            put(out, b", behind the text:\n")?;
            put(out, behind)?;
            put_faults_of(alloc, out, text, words, &played)
        }
        None => {
            put(out, b":\n")?;
            put(out, held)
        }
    }
}

/// The status, and whether these words print what `replay` does.
fn put_same<R: Threads + Wait + Sync>(
    rt: &R,
    alloc: Global,
    out: &mut Vec<u8>,
    text: &[u8],
    line: &str,
) -> Result<(), NoMemory> {
    let Played { status, sink } = play_by(rt, alloc, line.strip_prefix('=').unwrap_or(""), text)?;
    let alone = play(alloc, " replay", text)?;
    put_decimal(out, u64::from(status.code()))?;
    if status == alone.status && sink.held() == alone.sink.held() {
        put(out, b", as by replay\n")
    } else {
        put(out, b", not as by replay\n")
    }
}

/// The status, and what `check` says of what these words print.
fn put_checked<R: Threads + Wait + Sync>(
    rt: &R,
    alloc: Global,
    out: &mut Vec<u8>,
    text: &[u8],
    line: &str,
) -> Result<(), NoMemory> {
    let Played { status, sink } = play_by(rt, alloc, line.strip_prefix('~').unwrap_or(""), text)?;
    put_decimal(out, u64::from(status.code()))?;
    put(out, b", ")?;
    let checked = play(alloc, " check", sink.held())?;
    put(out, checked.sink.held())
}

/// The status, and whether the output of these words holds this piece.
fn put_holding<R: Threads + Wait + Sync>(
    rt: &R,
    alloc: Global,
    out: &mut Vec<u8>,
    text: &[u8],
    line: &str,
) -> Result<(), NoMemory> {
    let asked = line.strip_prefix('@').unwrap_or("");
    let (words, piece) = asked.split_once(": ").unwrap_or((asked, ""));
    let mut wanted = Vec::new(alloc);
    put_spelled(&mut wanted, piece.as_bytes(), 0)?;
    let played = play_by(rt, alloc, words, text)?;
    put_decimal(out, u64::from(played.status.code()))?;
    if holds(played.sink.held(), &wanted) {
        put(out, b", holds ")?;
    } else {
        put(out, b", doesn't hold ")?;
    }
    put_line(out, piece.as_bytes())?;
    put_faults_of(alloc, out, text, words, &played)
}

/// Whether a piece stands somewhere in a text.
pub fn holds(text: &[u8], piece: &[u8]) -> bool {
    match piece {
        [] => true,
        _ => text.windows(piece.len()).any(|window| window == piece),
    }
}

/// The status, and whether the output ends with this piece.
fn put_end(alloc: Global, out: &mut Vec<u8>, text: &[u8], piece: &[u8]) -> Result<(), NoMemory> {
    let mut end = Vec::new(alloc);
    put_spelled(&mut end, behind_space(piece), 0)?;
    let played = play(alloc, " replay", text)?;
    put_decimal(out, u64::from(played.status.code()))?;
    if played.sink.held().ends_with(&end) {
        put(out, b", ends with")?;
    } else {
        put(out, b", doesn't end with")?;
    }
    put_line(out, piece)?;
    put_faults(alloc, out, text, &played)
}

/// Says so where something is wrong with a trace that these words print.
fn put_faults_of(
    alloc: Global,
    out: &mut Vec<u8>,
    text: &[u8],
    words: &str,
    played: &Played,
) -> Result<(), NoMemory> {
    if words.starts_with(" replay") || words.starts_with(" run") {
        return put_faults(alloc, out, text, played);
    }
    Ok(())
}

/// Says so where no trace stands behind the text, where it isn't read and printed again as it stands, where something else is
/// made of it by `migrate`, and where it isn't lawful.
fn put_faults(
    alloc: Global,
    out: &mut Vec<u8>,
    text: &[u8],
    played: &Played,
) -> Result<(), NoMemory> {
    if !ends_a_run(played.status) {
        return Ok(());
    }
    let held = played.sink.held();
    let behind = held.strip_prefix(text).unwrap_or(b"");
    if !behind.starts_with(FIRST_TWO) {
        return put(out, b"no trace\n");
    }
    if !is_read_again(alloc, text, behind)? {
        put(out, b"misread\n")?;
    }
    put_unmigrated(alloc, out, text, behind, held)?;
    put_unlawful(alloc, out, held)
}

/// Whether this is the status of a run that was played.
fn ends_a_run(status: Status) -> bool {
    matches!(status, Status::Success | Status::Stuck | Status::Spent)
}

/// What comes of the trace of the text, changed in this way, and what `check` says of it.
fn put_change(
    alloc: Global,
    out: &mut Vec<u8>,
    text: &[u8],
    line: &str,
    format: Format,
) -> Result<(), NoMemory> {
    let change = line
        .strip_prefix(letter_of(format))
        .unwrap_or("")
        .trim_start();
    let Played { status: _, sink } = play(alloc, " replay", text)?;
    let Some(behind) = sink.held().strip_prefix(text) else {
        return put(out, b"no trace\n");
    };
    let trace = match format {
        Format::One => in_format_one(alloc, behind)?,
        Format::Two => copied(alloc, behind)?,
    };
    match change.strip_prefix("check ") {
        Some(change) => put_checks(alloc, out, text, &trace, change),
        None => put_readings(alloc, out, text, &trace, change),
    }
}

fn copied(alloc: Global, text: &[u8]) -> Result<Vec<u8>, NoMemory> {
    let mut copy = Vec::new(alloc);
    put(&mut copy, text)?;
    Ok(copy)
}

/// The letter of the lines that change a trace in this format.
fn letter_of(format: Format) -> char {
    match format {
        Format::One => '?',
        Format::Two => '%',
    }
}

fn behind_space(piece: &[u8]) -> &[u8] {
    match piece {
        [b' ', rest @ ..] => rest,
        _ => piece,
    }
}
