use crate::changes::{Change, change_of, changed_at, pieces_of};
use crate::migrating::put_other_verdict;
use crate::play::{Played, play};
use crate::reading::{feeds_in, line_behind, with_line};
use std::alloc::Global;
use zk_base::{NoMemory, Status, SureSink, put, put_decimal};

/// What `check` says of a trace.
#[derive(Clone, Copy, PartialEq, Eq)]
enum Verdict {
    Lawful,
    Place,
    History,
    Log,
    Look,
    Ending,
    Refused,
}

const VERDICTS: [Verdict; 7] = [
    Verdict::Lawful,
    Verdict::Place,
    Verdict::History,
    Verdict::Log,
    Verdict::Look,
    Verdict::Ending,
    Verdict::Refused,
];

/// The first or the last word of the line that says so.
fn word_of(verdict: Verdict) -> &'static str {
    match verdict {
        Verdict::Lawful => "lawful",
        Verdict::Place => "place",
        Verdict::History => "history",
        Verdict::Log => "log",
        Verdict::Look => "look",
        Verdict::Ending => "ending",
        Verdict::Refused => "refused",
    }
}

/// What a line says that `check` printed.
fn verdict_of(line: &[u8]) -> Option<Verdict> {
    VERDICTS.into_iter().find(|verdict| {
        let word = word_of(*verdict).as_bytes();
        line.starts_with(word) || line.ends_with(word)
    })
}

/// Says what `check` says of an output with a trace, where that isn't that the trace is lawful.
pub fn put_unlawful(alloc: Global, out: &mut Vec<u8>, output: &[u8]) -> Result<(), NoMemory> {
    let Played { status, sink } = play(alloc, " check", output)?;
    if status == Status::Success && sink.held() == b"lawful\n".as_slice() {
        return Ok(());
    }
    put(out, sink.held())
}

/// What `check` says of the trace part behind a text, changed in this way:
///
///     exchanged    with a line and the next one exchanged
///     left out     without a line
///     doubled      with a line twice
///     one more     with a number one more
///     N LINE       with this line in place of the line of this number, or with these, where `\n` stands between them
///     N            without the line of this number
///     X; Y         changed by X, and then by Y
///
/// The first four are each tried everywhere: how often `check` says what, and where it says `lawful`, the line that stands
/// there then. Where it says something else of what `migrate` makes of the changed trace, that stands there too.
pub fn put_checks(
    alloc: Global,
    out: &mut Vec<u8>,
    text: &[u8],
    behind: &[u8],
    change: &str,
) -> Result<(), NoMemory> {
    if let Some(change) = change_of(change) {
        return put_each_check(alloc, out, text, behind, change);
    }
    let mut changed = Vec::new(alloc);
    put(&mut changed, behind)?;
    for one in change.split("; ") {
        changed = with_line(alloc, &changed, line_behind(text), one)?;
    }
    let sink = checked(alloc, text, &changed)?;
    put(out, line_said(&sink))?;
    put(out, b": ")?;
    put(out, change.as_bytes())?;
    put(out, b"\n")?;
    put_other_verdict(alloc, out, text, &changed, &sink)
}

/// What `check` prints of a trace part behind a text.
fn checked(alloc: Global, text: &[u8], behind: &[u8]) -> Result<SureSink, NoMemory> {
    let mut whole = Vec::new(alloc);
    put(&mut whole, text)?;
    put(&mut whole, behind)?;
    let Played { status: _, sink } = play(alloc, " check", &whole)?;
    Ok(sink)
}

fn line_said(sink: &SureSink) -> &[u8] {
    match sink.held() {
        [line @ .., b'\n'] => line,
        whole => whole,
    }
}

fn put_each_check(
    alloc: Global,
    out: &mut Vec<u8>,
    text: &[u8],
    behind: &[u8],
    change: Change,
) -> Result<(), NoMemory> {
    let pieces = pieces_of(alloc, behind, change)?;
    let (mut verdicts, mut lawful) = (Vec::new(alloc), Vec::new(alloc));
    let mut line: usize = 0;
    for (place, piece) in pieces.iter().enumerate() {
        if let Some(changed) = changed_at(alloc, &pieces, change, place)? {
            let sink = checked(alloc, text, &changed)?;
            put_other_verdict(alloc, out, text, &changed, &sink)?;
            let verdict = verdict_of(line_said(&sink));
            if verdict == Some(Verdict::Lawful) {
                put_lawful(&mut lawful, line_behind(text), line, &changed)?;
            }
            verdicts.push(verdict)?;
        }
        line = line.saturating_add(feeds_in(piece));
    }
    put_counts(out, &verdicts)?;
    put(out, &lawful)
}

/// How often what was said, in one line.
fn put_counts(out: &mut Vec<u8>, verdicts: &[Option<Verdict>]) -> Result<(), NoMemory> {
    let mut between: &[u8] = b"";
    for verdict in VERDICTS {
        put(out, between)?;
        put_decimal(out, count_of(verdicts, verdict))?;
        put(out, b" ")?;
        put(out, word_of(verdict).as_bytes())?;
        between = b", ";
    }
    put(out, b"\n")
}

fn count_of(verdicts: &[Option<Verdict>], verdict: Verdict) -> u64 {
    verdicts.iter().filter(|one| **one == Some(verdict)).count() as u64
}

/// The line of this place, from 0, behind a text whose next line has this number.
fn put_lawful(out: &mut Vec<u8>, first: u32, line: usize, changed: &[u8]) -> Result<(), NoMemory> {
    put(out, b"lawful at ")?;
    put_decimal(out, u64::from(first).saturating_add(line as u64))?;
    put(out, b": ")?;
    put(
        out,
        changed
            .split(|byte| *byte == b'\n')
            .nth(line)
            .unwrap_or(b""),
    )?;
    put(out, b"\n")
}
