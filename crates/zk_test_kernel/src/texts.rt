//! What the tests look for in the text of a trace.

/// Whether these lines stand in it, one behind the other.
pub fn has(text: &[u8], lines: &[u8]) -> bool {
    for at in 0..text.len() {
        if text[at..].starts_with(lines) {
            return true;
        }
    }
    false
}

/// The number at the front of a line.
fn number_at(line: &[u8]) -> u32 {
    let mut number: u32 = 0;
    for byte in line {
        if !byte.is_ascii_digit() {
            break;
        }
        number = number
            .wrapping_mul(10)
            .wrapping_add(u32::from(*byte - b'0'));
    }
    number
}

/// How many steps of this player stand in it, its name with a point, if each is above those before it.
pub fn rising_steps(text: &[u8], player: &[u8]) -> Option<u32> {
    let mut count: u32 = 0;
    let mut below: u32 = 0;
    for line in text.split(|byte| *byte == b'\n') {
        let Some(rest) = line.strip_prefix(player) else {
            continue;
        };
        let step = number_at(rest);
        if step < below {
            return None;
        }
        below = step.saturating_add(1);
        count = count.saturating_add(1);
    }
    Some(count)
}
