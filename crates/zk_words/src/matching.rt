ghost use Rattle.std.specs.Prelude.{◌≡◌, bytes_eq};

/// Whether a word is the same as another. Words are short, and most differ at their first byte: it is looked at first.
#[inline(always)]
pub fn is_same(word: &[u8], other: &[u8]) -> bool
    ensures { result ≡ bytes_eq word.now other.now }
{
    if word.len() != other.len() {
        return false;
    }
    for at in 0..word.len() {
        if word[at] != other[at] {
            return false;
        }
    }
    true
}
