use crate::reading::{put_came, read_again, with_lines};
use std::alloc::Global;
use std::str::from_utf8;
use zk_base::{NoMemory, put, put_decimal};
use zk_scenario::Scenario;

/// How a count is changed.
#[derive(Clone, Copy)]
enum Other {
    More,
    Less,
}

/// At which places the words of a head are counts, the first word being at 0.
const COUNTS_OF_SECTION: [usize; 2] = [2, 3];

const COUNTS_OF_PLAYER: [usize; 1] = [3];

fn places_of(line: &[u8]) -> &'static [usize] {
    if line.starts_with(b"service ") {
        &COUNTS_OF_SECTION
    } else if line.starts_with(b"player ") {
        &COUNTS_OF_PLAYER
    } else {
        &[]
    }
}

fn changed(word: &[u8], other: Other) -> Option<u64> {
    let count = from_utf8(word).ok()?.parse::<u64>().ok()?;
    match other {
        Other::More => count.checked_add(1),
        Other::Less => count.checked_sub(1),
    }
}

/// A head with another count at this place; nothing where there is none.
fn head_with(
    alloc: Global,
    head: &[u8],
    place: usize,
    other: Other,
) -> Result<Option<Vec<u8>>, NoMemory> {
    let mut text = Vec::new(alloc);
    for (at, word) in head.split(|byte| *byte == b' ').enumerate() {
        if at != 0 {
            put(&mut text, b" ")?;
        }
        if at != place {
            put(&mut text, word)?;
            continue;
        }
        match changed(word, other) {
            Some(count) => put_decimal(&mut text, count)?,
            None => return Ok(None),
        }
    }
    Ok(Some(text))
}

/// With each count of each head one more and one less: the line of the head, that head, and what comes of it.
pub fn put_counts(
    alloc: Global,
    out: &mut Vec<u8>,
    scenario: &Scenario,
    behind: &[u8],
    first: u32,
) -> Result<(), NoMemory> {
    let mut number = first;
    for line in behind.split(|byte| *byte == b'\n') {
        for place in places_of(line) {
            for other in [Other::More, Other::Less] {
                if let Some(head) = head_with(alloc, line, *place, other)? {
                    put_counted(alloc, out, scenario, behind, first, number, head)?;
                }
            }
        }
        number = number.saturating_add(1);
    }
    Ok(())
}

fn put_counted(
    alloc: Global,
    out: &mut Vec<u8>,
    scenario: &Scenario,
    behind: &[u8],
    first: u32,
    number: u32,
    mut head: Vec<u8>,
) -> Result<(), NoMemory> {
    put_decimal(out, u64::from(number))?;
    put(out, b" ")?;
    put(out, &head)?;
    put(out, b": ")?;
    put(&mut head, b"\n")?;
    let changed = with_lines(alloc, behind, first, number, &head)?;
    put_came(out, read_again(alloc, scenario, &changed, first)?)?;
    put(out, b"\n")
}
