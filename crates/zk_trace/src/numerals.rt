ghost use Rattle.std.specs.Prelude.{◌≡◌, Some, false, IfSome};
ghost use Rattle.std.specs.Char.{is_ascii_digit};
ghost use Rattle.std.specs.List.{list_all};
ghost use Rattle.zk_words.specs.Numbers.{is_number, number_of};
ghost use Rattle.zk_words.specs.Hex.{msg_of};
ghost use Rattle.zk_trace.specs.Fields.{wide_of, narrow_of, short_of, admission_of};

use crate::words::ADMISSION;
use zk_base::Msg;
use zk_words::{exact_number_of, is_hex, msg_of, number_in};

/// A number of 64 bits.
pub fn wide_of(word: &[u8]) -> Option<u64>
    ensures { result ≡ wide_of word.now }
{
    match plain_number(word) {
        Some(number) => Some(u64::from(number)),
        None => exact_number_of(word),
    }
}

/// A number of 32 bits.
pub fn narrow_of(word: &[u8]) -> Option<u32>
    ensures { result ≡ narrow_of word.now }
{
    match plain_number(word) {
        Some(number) => Some(number),
        None => number_in(0, u32::MAX, word),
    }
}

// Behind no greater number one digit more stays within 32 bits.
const MOST_BEFORE_DIGIT: u32 = 400_000_000;

/// The number that a word spells, where one pass finds it: what is none, or may be past 32 bits, is looked at once more.
fn plain_number(word: &[u8]) -> Option<u32>
    ensures { IfSome result (λ number. number_of word.now ≡ Some number) }
{
    if starts_badly(word) {
        return None;
    }
    let mut number = 0;
    for byte in word {
        if !byte.is_ascii_digit() || MOST_BEFORE_DIGIT < number {
            return None;
        }
        number = number * 10 + u32::from(*byte - b'0');
    }
    Some(number)
}

/// Whether a word is empty or begins with a zero.
fn starts_badly(word: &[u8]) -> bool
    ensures { result ≡ false → is_number word.now ≡ list_all is_ascii_digit word.now }
{
    match word {
        [first, ..] => *first == b'0',
        [] => true,
    }
}

/// A number of 16 bits.
pub fn short_of(word: &[u8]) -> Option<u16>
    ensures { result ≡ short_of word.now }
{
    let number = number_in(0, u32::from(u16::MAX), word)?;
    Some(number as u16)
}

/// The number of an admission.
pub fn admission_of(word: &[u8]) -> Option<u64>
    ensures { result ≡ admission_of word.now }
{
    wide_of(word.strip_prefix(ADMISSION)?)
}

/// A message.
pub fn message_of(word: &[u8]) -> Option<Msg>
    ensures { result ≡ msg_of word.now }
{
    if is_hex(word) { msg_of(word) } else { None }
}
