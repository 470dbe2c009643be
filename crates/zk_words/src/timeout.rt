ghost use Rattle.std.specs.Prelude.{◌≡◌};
ghost use Rattle.zk_words.specs.Timeouts.{is_wait, wait_of};

use crate::limits::MOST_TICKS;
use crate::matching::is_same;
use crate::numbers::{is_number, number_in};

/// How long a call waits.
#[derive(Clone, Copy, PartialEq, Eq)]
pub enum Timeout {
    /// Not at all. Zephyr's `K_NO_WAIT`.
    No,
    /// Until it is served. Zephyr's `K_FOREVER`.
    Forever,
    /// So many ticks at most, from 1 to `MOST_TICKS`. Zephyr's `K_TICKS`.
    Ticks(u32),
}

/// Whether a word says how long a call waits, be its number of ticks in range or not.
pub fn is_wait(word: &[u8]) -> bool
    ensures { result ≡ is_wait word.now }
{
    is_same(word, b"no") || is_same(word, b"forever") || is_number(word)
}

/// How long a word says that a call waits.
pub fn wait_of(word: &[u8]) -> Option<Timeout>
    ensures { result ≡ wait_of word.now }
{
    if is_same(word, b"no") {
        Some(Timeout::No)
    } else if is_same(word, b"forever") {
        Some(Timeout::Forever)
    } else {
        number_in(1, MOST_TICKS, word).map(Timeout::Ticks)
    }
}
