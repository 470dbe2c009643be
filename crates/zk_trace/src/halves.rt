ghost use Rattle.std.specs.Prelude.{◌≡◌, MatchOption};
ghost use Rattle.zk_trace.specs.Sides.{halves, sides_of};

use zk_words::place_of;

/// What stands before the first of a byte, and behind it.
pub fn halves(byte: u8, text: &[u8]) -> Option<(&[u8], &[u8])>
    ensures { MatchOption result (halves byte text.now ≡ None)
        (λ h. halves byte text.now ≡ Some (h.0.now, h.1.now)) }
{
    match place_of(byte, text) {
        Some(at) => Some((&text[..at], &text[at + 1..])),
        None => None,
    }
}

const SPACE: &[u8] = b" ";

/// What stands before the first sign of a row, and behind it.
pub fn sides_of(row: &[u8]) -> Option<(&[u8], &[u8])>
    ensures { MatchOption result (sides_of row.now ≡ None)
        (λ sides. sides_of row.now ≡ Some (sides.0.now, sides.1.now)) }
{
    let (before, behind) = halves(b'=', row)?;
    let front = before.strip_suffix(SPACE)?;
    Some((front, behind.strip_prefix(SPACE)?))
}
