ghost use Rattle.std.specs.Prelude.{◌≡◌, ℕ, ◌^◌, ◌+◌, ◌*◌, ◌-◌, min, Some, None, option_map, option_and_then, length, true};
ghost use Rattle.std.specs.Char.{is_ascii_digit};
ghost use Rattle.std.specs.List.{list_all};
ghost use Rattle.std.specs.Str.Parse.{digits_value};
ghost use Rattle.zk_words.specs.Bytes.{digit_0};
ghost use Rattle.zk_words.specs.Numbers.{is_number, number_of, exact_number_of, saturated, fitting, number_in, priority_of, priority_above, priority_below};

use crate::limits::{GREATEST_PRIORITY, LEAST_PRIORITY};

/// The number that a word spells in decimal digits, without a sign or a leading zero. One past 64
/// bits is given as the greatest of them, so that a caller tells a number out of its range from a
/// word that is no number.
pub fn number_of(word: &[u8]) -> Option<u64>
    ensures { result ≡ option_map saturated (number_of word.now) }
{
    if is_number(word) {
        Some(value_of(word))
    } else {
        None
    }
}

/// The number of 64 bits that a word spells in decimal digits, without a sign or a leading zero. One
/// past 64 bits is refused.
pub fn exact_number_of(word: &[u8]) -> Option<u64>
    ensures { result ≡ exact_number_of word.now }
{
    if !is_number(word) {
        return None;
    }
    exact_value_of(word)
}

/// Whether a word spells a number.
pub fn is_number(word: &[u8]) -> bool
    ensures { result ≡ is_number word.now }
{
    match word {
        [first, rest @ ..] => are_digits(word) && (*first != b'0' || rest.is_empty()),
        [] => false,
    }
}

fn are_digits(word: &[u8]) -> bool
    ensures { result ≡ list_all is_ascii_digit word.now }
{
    word.iter().all(|b| b.is_ascii_digit())
}

fn value_of(digits: &[u8]) -> u64
    requires { list_all is_ascii_digit digits.now ≡ true }
    ensures { result ≡ saturated (digits_value 10 digits.now) }
{
    let mut n: u64 = 0;
    for digit in digits {
        n = with_digit(n, *digit);
    }
    n
}

fn exact_value_of(digits: &[u8]) -> Option<u64>
    requires { list_all is_ascii_digit digits.now ≡ true }
    ensures { result ≡ fitting (digits_value 10 digits.now) }
{
    let mut n = Some(0);
    for digit in digits {
        n = with_exact_digit(n, *digit);
    }
    n
}

fn with_exact_digit(n: Option<u64>, digit: u8) -> Option<u64>
    requires { is_ascii_digit digit ≡ true }
    ensures { (m : ℕ) → n ≡ fitting m → result ≡ fitting (m * 10 + (digit - digit_0)) }
{
    let tens = n?.checked_mul(10)?;
    tens.checked_add(u64::from(digit - b'0'))
}

fn with_digit(n: u64, digit: u8) -> u64
    requires { is_ascii_digit digit ≡ true }
    ensures { result ≡ saturated (n * 10 + (digit - digit_0)) }
{
    n.saturating_mul(10).saturating_add(u64::from(digit - b'0'))
}

/// The number from the least to the most that a word spells.
pub fn number_in(least: u32, most: u32, word: &[u8]) -> Option<u32>
    ensures { result ≡ number_in least most word.now }
{
    let n = number_of(word)?;
    if u64::from(least) <= n && n <= u64::from(most) {
        Some(n as u32)
    } else {
        None
    }
}

/// What a word says as a priority: nothing where it is no spelling of one, and nothing inside where
/// it is out of its range, from minus `LEAST_PRIORITY` to `GREATEST_PRIORITY`.
pub fn priority_of(word: &[u8]) -> Option<Option<i8>>
    ensures { result ≡ priority_of word.now }
{
    match word {
        [b'-', digits @ ..] => negative(digits),
        _ => positive(word),
    }
}

fn positive(digits: &[u8]) -> Option<Option<i8>>
    ensures { result ≡ option_map priority_above (number_of digits.now) }
{
    Some(priority_above(number_of(digits)?))
}

fn negative(digits: &[u8]) -> Option<Option<i8>>
    ensures { result ≡ option_and_then priority_below (number_of digits.now) }
{
    priority_below(number_of(digits)?)
}

fn priority_above(n: u64) -> Option<i8>
    ensures { result ≡ priority_above n }
{
    if n <= GREATEST_PRIORITY {
        Some(n as i8)
    } else {
        None
    }
}

fn priority_below(n: u64) -> Option<Option<i8>>
    ensures { result ≡ priority_below n }
{
    if n == 0 {
        return None;
    }
    Some(if n <= LEAST_PRIORITY {
        Some(-(n as i8))
    } else {
        None
    })
}
