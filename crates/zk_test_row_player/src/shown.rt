use crate::play::{ROOM, source_of};
use crate::rows::holds;
use std::alloc::Global;
use std::fs;
use std::rt::Files;
use zk_base::{NoMemory, Status, SureSink, put, put_decimal};
use zk_show_view::zk_show;

/// How the top call ended, what it showed, and what it told as errors.
#[derive(Drop)]
struct Seen {
    status: Status,
    sink: SureSink,
    errors: SureSink,
}

/// The status, and what is shown of a text by the word behind the sign; what is told as errors behind a line that says so.
pub fn put_shown(
    alloc: Global,
    out: &mut Vec<u8>,
    text: &[u8],
    line: &str,
) -> Result<(), NoMemory> {
    let seen = show(alloc, text, word_of(line))?;
    put_decimal(out, u64::from(seen.status.code()))?;
    put(out, b":\n")?;
    put(out, seen.sink.held())?;
    if !seen.errors.held().is_empty() {
        put(out, b"as errors:\n")?;
        put(out, seen.errors.held())?;
    }
    Ok(())
}

/// The status, and whether what is shown of a text by the word behind the sign holds the piece behind that.
pub fn put_shown_piece(
    alloc: Global,
    out: &mut Vec<u8>,
    text: &[u8],
    line: &str,
) -> Result<(), NoMemory> {
    let asked = word_of(line);
    let (word, piece) = asked.split_once(": ").unwrap_or((asked, ""));
    let seen = show(alloc, text, word)?;
    put_decimal(out, u64::from(seen.status.code()))?;
    if holds(seen.sink.held(), piece.as_bytes()) {
        put(out, b", holds ")?;
    } else {
        put(out, b", doesn't hold ")?;
    }
    put(out, piece.as_bytes())?;
    put(out, b"\n")
}

/// The status, and whether the picture of a text is what the file behind the sign holds.
pub fn put_same_picture<R: Files + AllocGlobal>(
    rt: &R,
    out: &mut Vec<u8>,
    text: &[u8],
    line: &str,
) -> Result<(), NoMemory> {
    let picture = word_of(line);
    let Ok(wanted) = fs::read(rt, picture) else {
        return put(out, b"no such file\n");
    };
    let seen = show(rt.alloc(), text, "svg")?;
    put_decimal(out, u64::from(seen.status.code()))?;
    if seen.sink.held() == wanted.as_slice() {
        put(out, b", as in ")?;
    } else {
        put(out, b", not as in ")?;
    }
    put(out, picture.as_bytes())?;
    put(out, b"\n")
}

/// The word behind a sign and a space.
fn word_of(line: &str) -> &str {
    match line.split_once(' ') {
        Some((_, word)) => word,
        None => "",
    }
}

/// What the top call of `zk_show` shows of a text by a word.
fn show(alloc: Global, text: &[u8], word: &str) -> Result<Seen, NoMemory> {
    let words = vec![in alloc; String::from_str(alloc, word)?]?;
    let mut source = source_of(alloc, text)?;
    let mut sink = SureSink::new(Vec::with_capacity(alloc, ROOM)?, 4096);
    let mut errors = SureSink::new(Vec::with_capacity(alloc, ROOM)?, 4096);
    let status = zk_show(alloc, &words, &mut source, &mut sink, &mut errors);
    Ok(Seen {
        status,
        sink,
        errors,
    })
}
