ghost use Rattle.std.specs.Prelude.{◌≡◌, ◌++◌, true, ◌<◌, OnOk, OnErr};
ghost use Rattle.std.specs.List.{list_all};
ghost use Rattle.zk_base.specs.Fronts.{StaysInFront};
ghost use Rattle.zk_words.specs.Hex.{is_digit, digit_value, digit_of, is_hex, msg_of, byte_text, hex_text};

use zk_base::{LONGEST_MESSAGE, Msg, NoMemory, put};

/// Whether a word is a message in lower-case hexadecimal digits, two for each byte, of whatever length.
pub fn is_hex(word: &[u8]) -> bool
    ensures { result ≡ is_hex word.now }
{
    are_digits(word) && word.len() % 2 == 0 && !word.is_empty()
}

fn are_digits(word: &[u8]) -> bool
    ensures { result ≡ list_all is_digit word.now }
{
    word.iter().all(|b| is_digit(*b))
}

/// Whether a byte is a lower-case hexadecimal digit.
pub fn is_digit(byte: u8) -> bool
    ensures { result ≡ is_digit byte }
{
    b'0' <= byte && byte <= b'9' || b'a' <= byte && byte <= b'f'
}

/// The message that a word spells. There is none longer than the longest.
pub fn msg_of(word: &[u8]) -> Option<Msg>
    requires { is_hex word.now ≡ true }
    ensures { result ≡ msg_of word.now }
{
    if 2 * LONGEST_MESSAGE < word.len() {
        return None;
    }
    let mut bytes = [0; LONGEST_MESSAGE];
    let mut len = 0;
    let mut digits = word;
    while let [high, low, more @ ..] = digits {
        bytes[len] = digit_value(*high) * 16 + digit_value(*low);
        len += 1;
        digits = more;
    }
    Msg::new(&bytes[..len])
}

/// What a digit is worth.
pub fn digit_value(digit: u8) -> u8
    requires { is_digit digit ≡ true }
    ensures value { result ≡ digit_value digit }
    ensures small { result < 16 }
{
    if digit < b'a' {
        digit - b'0'
    } else {
        digit - b'a' + 10
    }
}

/// Appends bytes in lower-case hexadecimal digits, two for each. After an error a part may stand behind what was there.
pub fn put_hex(out: &mut Vec<u8>, bytes: &[u8]) -> Result<(), NoMemory>
    ensures text { OnOk result (out.new.items ≡ out.old.items ++ hex_text bytes.now) }
    ensures kept { OnErr result (StaysInFront out.old.items out.new.items) }
{
    for byte in bytes {
        put_byte(out, *byte)?;
    }
    Ok(())
}

/// Appends the two digits of a byte.
pub fn put_byte(out: &mut Vec<u8>, byte: u8) -> Result<(), NoMemory>
    ensures ok { OnOk result (out.new.items ≡ out.old.items ++ byte_text byte) }
    ensures err { OnErr result (out.new.items ≡ out.old.items) }
{
    put(out, &[digit_of(byte / 16), digit_of(byte % 16)])
}

/// The lower-case hexadecimal digit of a value below 16.
#[inline(always)]
pub fn digit_of(value: u8) -> u8
    requires { value < 16 }
    ensures { result ≡ digit_of value }
{
    if value < 10 {
        value + b'0'
    } else {
        value - 10 + b'a'
    }
}
