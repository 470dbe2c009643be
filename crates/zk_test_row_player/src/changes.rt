use std::alloc::Global;
use std::str::from_utf8;
use zk_base::{NoMemory, put, put_decimal};

/// How a text is changed at one of its places.
#[derive(Clone, Copy, PartialEq, Eq)]
pub enum Change {
    /// A line stands behind the next one.
    Exchanged,
    /// A line is left out.
    LeftOut,
    /// A line stands twice.
    Doubled,
    /// A number is one more.
    OneMore,
}

/// The change of this name.
pub fn change_of(name: &str) -> Option<Change> {
    match name {
        "exchanged" => Some(Change::Exchanged),
        "left out" => Some(Change::LeftOut),
        "doubled" => Some(Change::Doubled),
        "one more" => Some(Change::OneMore),
        _ => None,
    }
}

/// The pieces of a text at which it is changed: its lines, or its numbers and what stands between them.
pub fn pieces_of(alloc: Global, text: &[u8], change: Change) -> Result<Vec<&[u8]>, NoMemory> {
    let mut pieces = Vec::new(alloc);
    if change == Change::OneMore {
        for piece in text.chunk_by(|byte, next| byte.is_ascii_digit() == next.is_ascii_digit()) {
            pieces.push(piece)?;
        }
    } else {
        for line in text.split_inclusive(|byte| *byte == b'\n') {
            pieces.push(line)?;
        }
    }
    Ok(pieces)
}

/// The text of these pieces, changed at this place; nothing where it can't be changed there.
pub fn changed_at(
    alloc: Global,
    pieces: &[&[u8]],
    change: Change,
    place: usize,
) -> Result<Option<Vec<u8>>, NoMemory> {
    let Some((front, behind)) = pieces.split_at_checked(place) else {
        return Ok(None);
    };
    let mut text = Vec::new(alloc);
    put_all(&mut text, front)?;
    let rest = match (change, behind) {
        (Change::Exchanged, [line, next, rest @ ..]) => {
            put_all(&mut text, &[*next, *line])?;
            rest
        }
        (Change::LeftOut, [_, rest @ ..]) => rest,
        (Change::Doubled, [line, ..]) => {
            put(&mut text, line)?;
            behind
        }
        (Change::OneMore, [piece, rest @ ..]) => {
            let Some(number) = number_of(piece) else {
                return Ok(None);
            };
            put_decimal(&mut text, number.saturating_add(1))?;
            rest
        }
        _ => return Ok(None),
    };
    put_all(&mut text, rest)?;
    Ok(Some(text))
}

fn number_of(piece: &[u8]) -> Option<u64> {
    from_utf8(piece).ok()?.parse::<u64>().ok()
}

fn put_all(text: &mut Vec<u8>, pieces: &[&[u8]]) -> Result<(), NoMemory> {
    for piece in pieces {
        put(text, piece)?;
    }
    Ok(())
}
