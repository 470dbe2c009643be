//! The trace part of format 2 without what that has more than format 1: the numbers of lines in its heads.
use std::alloc::Global;
use zk_base::{NoMemory, put};

/// The first line of each format.
pub const FIRST_ONE: &[u8] = b"zt 1\n";

pub const FIRST_TWO: &[u8] = b"zt 2\n";

/// How many words of a line stand there in format 1 too.
fn words_kept(line: &[u8]) -> usize {
    if line.starts_with(b"service ") {
        2
    } else if line.starts_with(b"player ") {
        3
    } else {
        usize::MAX
    }
}

fn put_line(text: &mut Vec<u8>, line: &[u8]) -> Result<(), NoMemory> {
    let kept = words_kept(line);
    for (place, word) in line.split(|byte| *byte == b' ').enumerate() {
        if place >= kept {
            break;
        }
        if place != 0 {
            put(text, b" ")?;
        }
        put(text, word)?;
    }
    Ok(())
}

/// A trace part in format 1; as it is where it isn't in format 2.
pub fn in_format_one(alloc: Global, trace: &[u8]) -> Result<Vec<u8>, NoMemory> {
    let mut text = Vec::new(alloc);
    let Some(rest) = trace.strip_prefix(FIRST_TWO) else {
        put(&mut text, trace)?;
        return Ok(text);
    };
    put(&mut text, FIRST_ONE)?;
    for line in rest.split_inclusive(|byte| *byte == b'\n') {
        match line.strip_suffix(b"\n".as_slice()) {
            Some(line) => {
                put_line(&mut text, line)?;
                put(&mut text, b"\n")?;
            }
            None => put(&mut text, line)?,
        }
    }
    Ok(text)
}
