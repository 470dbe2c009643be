//! The shared word: 131,072 times the stamp of its write, 65,536 where that raised the signal, and the result.
ghost use Rattle.std.specs.Prelude.{◌≡◌, ◌≤◌};
ghost use Rattle.zk_signal.specs.Limits.{most_stamps};
ghost use Rattle.zk_signal.specs.Words.{seen_in, stamp_in, word_of};

use zk_base::Seen;

/// What one stamp counts in the word.
const STAMP: u64 = 131_072;

/// What the mark of a raised signal counts in it.
const MARK: u64 = 65_536;

/// The word of a write.
pub(crate) fn word_of(seen: &Seen) -> u64
    ensures { result ≡ word_of seen.now }
{
    let mark = if seen.raised { MARK } else { 0 };
    STAMP * u64::from(seen.stamp) + mark + u64::from(seen.result)
}

/// Whether a word has the mark.
pub(crate) fn is_raised_in(word: u64) -> bool
    ensures { result ≡ (seen_in word).raised }
{
    word / MARK % 2 == 1
}

/// What a word says.
pub(crate) fn seen_in(word: u64) -> Seen
    requires { stamp_in word ≤ most_stamps }
    ensures { result ≡ seen_in word }
{
    Seen {
        raised: is_raised_in(word),
        result: (word % MARK) as u16,
        stamp: (word / STAMP) as u32,
    }
}
