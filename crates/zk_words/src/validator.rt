ghost use Rattle.std.specs.Prelude.{◌≡◌, ◌++◌, OnOk, OnErr};
ghost use Rattle.zk_base.specs.Fronts.{StaysInFront};
ghost use Rattle.zk_words.specs.Validators.{byte_of, validator_of, validator_text};

use crate::event::behind;
use crate::hex::{digit_value, is_digit, put_byte};
use zk_base::{NoMemory, Valid, put};

/// What messages a channel takes, as a word says it.
pub fn validator_of(word: &[u8]) -> Option<Valid>
    ensures { result ≡ validator_of word.now }
{
    if word == b"any".as_slice() {
        return Some(Valid::Any);
    }
    let digits = behind(b"max:", word)?;
    byte_of(digits).map(Valid::Max)
}

/// The byte that two lower-case hexadecimal digits spell.
fn byte_of(word: &[u8]) -> Option<u8>
    ensures { result ≡ byte_of word.now }
{
    match word {
        [high, low] => {
            if is_digit(*high) && is_digit(*low) {
                Some(digit_value(*high) * 16 + digit_value(*low))
            } else {
                None
            }
        }
        _ => None,
    }
}

/// Appends the one spelling of what messages a channel takes. After an error a part may stand behind what was there.
pub fn put_validator(out: &mut Vec<u8>, valid: Valid) -> Result<(), NoMemory>
    ensures text { OnOk result (out.new.items ≡ out.old.items ++ validator_text valid) }
    ensures kept { OnErr result (StaysInFront out.old.items out.new.items) }
{
    match valid {
        Valid::Any => put(out, b"any"),
        Valid::Max(bound) => {
            put(out, b"max:")?;
            put_byte(out, bound)
        }
    }
}
