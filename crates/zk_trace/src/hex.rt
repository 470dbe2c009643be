ghost use Rattle.std.specs.Prelude.{◌≡◌, ◌++◌, OnOk};
ghost use Rattle.zk_words.specs.Hex.{byte_text, hex_text};

use zk_base::NoMemory;
use zk_paper::Paper;
use zk_words::digit_of;

/// Appends bytes in lower-case hexadecimal digits, two for each.
pub fn put_hex(out: &mut Paper, bytes: &[u8]) -> Result<(), NoMemory>
    ensures text { OnOk result (out.new.put ≡ out.old.put ++ hex_text bytes.now) }
    ensures front { out.new.front ≡ out.old.front }
{
    for byte in bytes {
        put_byte(out, *byte)?;
    }
    Ok(())
}

/// Appends the two digits of a byte.
#[inline(always)]
fn put_byte(out: &mut Paper, byte: u8) -> Result<(), NoMemory>
    ensures text { OnOk result (out.new.put ≡ out.old.put ++ byte_text byte) }
    ensures front { out.new.front ≡ out.old.front }
{
    out.put(&[digit_of(byte / 16), digit_of(byte % 16)])
}
