use crate::format_one::in_format_one;
use crate::play::{Played, play};
use crate::reading::line_behind;
use std::alloc::Global;
use zk_base::{NoMemory, Status, SureSink, put, put_decimal};

/// How many players there are at most where a trace is read in format 1.
const MOST_PLAYERS: usize = 64;

/// What `migrate` makes of a trace part behind a text.
fn migrated(alloc: Global, text: &[u8], trace: &[u8]) -> Result<Played, NoMemory> {
    let mut whole = Vec::new(alloc);
    put(&mut whole, text)?;
    put(&mut whole, trace)?;
    play(alloc, " migrate", &whole)
}

fn players_in(trace: &[u8]) -> usize {
    trace
        .split(|byte| *byte == b'\n')
        .filter(|line| line.starts_with(b"player "))
        .count()
}

/// The refusal of the first line behind a text.
fn refusal(alloc: Global, text: &[u8]) -> Result<Vec<u8>, NoMemory> {
    let mut line = Vec::new(alloc);
    put(&mut line, b"refused ")?;
    put_decimal(&mut line, u64::from(line_behind(text)))?;
    put(&mut line, b" trace\n")?;
    Ok(line)
}

/// Says so where `migrate` doesn't make this output of what its trace part is in format 1; where there are too many players
/// for that format, it is to be refused at its first line.
pub fn put_unmigrated(
    alloc: Global,
    out: &mut Vec<u8>,
    text: &[u8],
    trace: &[u8],
    output: &[u8],
) -> Result<(), NoMemory> {
    let Played { status, sink } = migrated(alloc, text, &in_format_one(alloc, trace)?)?;
    let is_well = if players_in(trace) <= MOST_PLAYERS {
        status == Status::Success && sink.held() == output
    } else {
        status == Status::Refused && sink.held() == refusal(alloc, text)?.as_slice()
    };
    if is_well {
        return Ok(());
    }
    put(out, b"not migrated\n")
}

/// Says so where `check` says something else of what `migrate` makes of this trace part, in format 1, than it said of that.
pub fn put_other_verdict(
    alloc: Global,
    out: &mut Vec<u8>,
    text: &[u8],
    trace: &[u8],
    said: &SureSink,
) -> Result<(), NoMemory> {
    let Played { status, sink } = migrated(alloc, text, trace)?;
    let other = match status {
        Status::Success => play(alloc, " check", sink.held())?.sink,
        _ => sink,
    };
    if other.held() == said.held() {
        return Ok(());
    }
    put(out, b"in format 2: ")?;
    put(out, other.held())
}
