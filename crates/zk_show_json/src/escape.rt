ghost use Rattle.std.specs.Prelude.{◌≡◌, ◌<◌, ◌^◌, ℕ, List, ◌++◌, OnOk};
ghost use Rattle.std.specs.List.{list_all, AllByRecursion};
ghost use Rattle.zk_show_json.specs.Escapes.{is_plain, escape, escaped, quoted, IsHarmless};

use zk_base::NoMemory;
use zk_paper::Paper;
use zk_words::digit_of;

/// Appends a text between quotation marks.
#[tactic(auto, unfolding(crate::specs::Escapes::quoted))]
pub fn put_quoted(out: &mut Paper, text: &[u8]) -> Result<(), NoMemory>
    ensures text { OnOk result (out.new.put ≡ out.old.put ++ quoted text.now) }
    ensures front { out.new.front ≡ out.old.front }
{
    out.push(b'"')?;
    put_escaped(out, text)?;
    out.push(b'"')
}

/// Appends a text as it stands between quotation marks.
#[tactic(auto, using(crate::proofs::Escaping::escaped_plain))]
fn put_escaped(out: &mut Paper, text: &[u8]) -> Result<(), NoMemory>
    ensures text { OnOk result (out.new.put ≡ out.old.put ++ escaped text.now) }
    ensures front { out.new.front ≡ out.old.front }
{
    if are_plain(text) {
        return out.put(text);
    }
    put_each_escaped(out, text)
}

/// Whether each byte stands for itself.
fn are_plain(text: &[u8]) -> bool
    ensures { result ≡ list_all is_plain text.now }
{
    text.iter().all(|byte| is_plain(*byte))
}

fn put_each_escaped(out: &mut Paper, text: &[u8]) -> Result<(), NoMemory>
    ensures text { OnOk result (out.new.put ≡ out.old.put ++ escaped text.now) }
    ensures front { out.new.front ≡ out.old.front }
{
    for byte in text {
        put_byte(out, *byte)?;
    }
    Ok(())
}

/// Whether a byte stands for itself.
fn is_plain(byte: u8) -> bool
    ensures { result ≡ is_plain byte }
{
    b' ' <= byte && byte <= b'~' && byte != b'"' && byte != b'<' && byte != b'\\'
}

fn put_byte(out: &mut Paper, byte: u8) -> Result<(), NoMemory>
    ensures text { OnOk result (out.new.put ≡ out.old.put ++ escape byte) }
    ensures front { out.new.front ≡ out.old.front }
{
    if is_plain(byte) {
        return out.push(byte);
    }
    out.put(b"\\u00")?;
    out.put(&[digit_of(byte / 16), digit_of(byte % 16)])
}

/// No text ends its string, begins an element of a page or holds what isn't printable ASCII, whatever its bytes are.
pub fn texts_stay_texts()
    ensures { (text : List ℕ) → AllByRecursion (λ byte. byte < 2 ^ 8) text → AllByRecursion IsHarmless (escaped text) }
{}
