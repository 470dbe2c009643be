use crate::counts::put_counts;
use crate::format_one::{FIRST_ONE, in_format_one};
use crate::spelled::put_spelled;
use std::alloc::Global;
use zk_base::{NoMemory, put, put_decimal};
use zk_scenario::{Scenario, read_scenario};
use zk_trace::{Formats, TraceRefused, put_trace, read_trace};

/// What stands in place of each byte of a trace.
const BYTES: [u8; 8] = *b"\n 01a.=-";

/// What came of a trace part that was read.
#[derive(Clone, Copy, PartialEq, Eq)]
pub enum Reading {
    /// It is read, and printed the same.
    Same,
    /// It is read, and printed otherwise.
    Otherwise,
    /// It is refused at this line.
    At(u32),
}

/// Reads a trace part behind a scenario, whose first line has this number, and prints it again, in its format.
pub fn read_again(
    alloc: Global,
    scenario: &Scenario,
    behind: &[u8],
    first: u32,
) -> Result<Reading, NoMemory> {
    match read_trace(alloc, scenario, Formats::Both, behind, first) {
        Ok(trace) => {
            let mut out = Vec::new(alloc);
            put_trace(&mut out, scenario, &trace)?;
            if behind.starts_with(FIRST_ONE) {
                out = in_format_one(alloc, &out)?;
            }
            Ok(if out.as_slice() == behind {
                Reading::Same
            } else {
                Reading::Otherwise
            })
        }
        Err(TraceRefused::At(line)) => Ok(Reading::At(line)),
        Err(TraceRefused::NoMemory) => Err(NoMemory),
    }
}

/// How many lines end in these bytes.
pub fn feeds_in(text: &[u8]) -> usize {
    text.iter().filter(|byte| **byte == b'\n').count()
}

/// The number of the line behind these bytes.
pub fn line_behind(text: &[u8]) -> u32 {
    u32::try_from(feeds_in(text))
        .unwrap_or(u32::MAX)
        .saturating_add(1)
}

/// Whether the trace part behind the text of a scenario is read, and printed the same.
pub fn is_read_again(alloc: Global, text: &[u8], behind: &[u8]) -> Result<bool, NoMemory> {
    let Ok(scenario) = read_scenario(alloc, text) else {
        return Ok(false);
    };
    Ok(read_again(alloc, &scenario, behind, line_behind(text))? == Reading::Same)
}

/// What comes of the trace part behind a text, changed in this way:
///
///     cuts     without its last line, its last two lines, and so on: the line that each is refused at
///     bytes    with another byte in place of each: how many are refused, and how many read
///     counts   with a count of a head one more and one less: the line that each is refused at
///     N LINE   with this line in place of the line of this number, or with these, where `\n` stands between them
///     N        without the line of this number
pub fn put_readings(
    alloc: Global,
    out: &mut Vec<u8>,
    text: &[u8],
    behind: &[u8],
    change: &str,
) -> Result<(), NoMemory> {
    let Ok(scenario) = read_scenario(alloc, text) else {
        return put(out, b"no scenario\n");
    };
    let first = line_behind(text);
    match change {
        "cuts" => put_cuts(alloc, out, &scenario, behind, first)?,
        "bytes" => put_bytes(alloc, out, &scenario, behind, first)?,
        "counts" => return put_counts(alloc, out, &scenario, behind, first),
        _ => put_changed(alloc, out, &scenario, behind, first, change)?,
    }
    put(out, b"\n")
}

/// Says so.
pub fn put_came(out: &mut Vec<u8>, came: Reading) -> Result<(), NoMemory> {
    match came {
        Reading::Same => put(out, b"read"),
        Reading::Otherwise => put(out, b"misread"),
        Reading::At(line) => {
            put(out, b"refused at ")?;
            put_decimal(out, u64::from(line))
        }
    }
}

fn put_cuts(
    alloc: Global,
    out: &mut Vec<u8>,
    scenario: &Scenario,
    behind: &[u8],
    first: u32,
) -> Result<(), NoMemory> {
    let mut piece = Vec::new(alloc);
    put_cut(alloc, out, scenario, &piece, first)?;
    for byte in behind {
        piece.push(*byte)?;
        if *byte == b'\n' {
            put(out, b", ")?;
            put_cut(alloc, out, scenario, &piece, first)?;
        }
    }
    Ok(())
}

fn put_cut(
    alloc: Global,
    out: &mut Vec<u8>,
    scenario: &Scenario,
    piece: &[u8],
    first: u32,
) -> Result<(), NoMemory> {
    put_came(out, read_again(alloc, scenario, piece, first)?)
}

/// These bytes with another in this place.
fn with_byte(alloc: Global, behind: &[u8], place: usize, other: u8) -> Result<Vec<u8>, NoMemory> {
    let mut changed = Vec::new(alloc);
    for (at, byte) in behind.iter().enumerate() {
        changed.push(if at == place { other } else { *byte })?;
    }
    Ok(changed)
}

fn put_bytes(
    alloc: Global,
    out: &mut Vec<u8>,
    scenario: &Scenario,
    behind: &[u8],
    first: u32,
) -> Result<(), NoMemory> {
    let (mut refused, mut read, mut misread): (u64, u64, u64) = (0, 0, 0);
    for place in 0..behind.len() {
        for other in BYTES {
            let changed = with_byte(alloc, behind, place, other)?;
            match read_again(alloc, scenario, &changed, first)? {
                Reading::Same => read = read.saturating_add(1),
                Reading::Otherwise => misread = misread.saturating_add(1),
                Reading::At(_) => refused = refused.saturating_add(1),
            }
        }
    }
    put_decimal(out, refused)?;
    put(out, b" refused, ")?;
    put_decimal(out, read)?;
    put(out, b" read, ")?;
    put_decimal(out, misread)?;
    put(out, b" misread")
}

/// These lines with others in place of the one of this number, where the first has the number `first`.
pub fn with_lines(
    alloc: Global,
    behind: &[u8],
    first: u32,
    number: u32,
    lines: &[u8],
) -> Result<Vec<u8>, NoMemory> {
    let mut changed = Vec::new(alloc);
    let mut at = first;
    for byte in behind {
        if at != number {
            changed.push(*byte)?;
        }
        if *byte == b'\n' {
            if at == number {
                put(&mut changed, lines)?;
            }
            at = at.saturating_add(1);
        }
    }
    Ok(changed)
}

/// The same, with the number and the line in one: the number, a space, and the line. With the number alone the line is left
/// out.
pub fn with_line(
    alloc: Global,
    behind: &[u8],
    first: u32,
    change: &str,
) -> Result<Vec<u8>, NoMemory> {
    let mut lines = Vec::new(alloc);
    let number = match change.split_once(' ') {
        Some((number, line)) => {
            put_spelled(&mut lines, line.as_bytes(), 0)?;
            put(&mut lines, b"\n")?;
            number
        }
        None => change,
    };
    with_lines(
        alloc,
        behind,
        first,
        number.parse::<u32>().unwrap_or(0),
        &lines,
    )
}

fn put_changed(
    alloc: Global,
    out: &mut Vec<u8>,
    scenario: &Scenario,
    behind: &[u8],
    first: u32,
    change: &str,
) -> Result<(), NoMemory> {
    let changed = with_line(alloc, behind, first, change)?;
    put_came(out, read_again(alloc, scenario, &changed, first)?)?;
    put(out, b": ")?;
    put(out, change.as_bytes())
}
