ghost use Rattle.std.specs.Prelude.{◌≡◌, ◌<◌, ℕ, List, ◌++◌, length, OnOk};
ghost use Rattle.std.specs.List.{list_all, AllByRecursion};
ghost use Rattle.zk_show_svg.specs.Escapes.{is_plain, escape, escaped, shortened, cut, IsHarmless};

use zk_base::NoMemory;
use zk_paper::Paper;
use zk_show_chart::answer_in;

/// Appends a text so that it stands in the picture as a text.
#[tactic(auto, using(crate::proofs::Escaping::escaped_plain))]
pub fn put_escaped(out: &mut Paper, text: &[u8]) -> Result<(), NoMemory>
    ensures text { OnOk result (out.new.put ≡ out.old.put ++ escaped text.now) }
    ensures front { out.new.front ≡ out.old.front }
{
    if are_plain(text) {
        return out.put(text);
    }
    put_each_escaped(out, text)
}

fn put_each_escaped(out: &mut Paper, text: &[u8]) -> Result<(), NoMemory>
    ensures text { OnOk result (out.new.put ≡ out.old.put ++ escaped text.now) }
    ensures front { out.new.front ≡ out.old.front }
{
    for byte in text {
        put_byte(out, *byte)?;
    }
    Ok(())
}

/// Whether each byte stands for itself.
fn are_plain(text: &[u8]) -> bool
    ensures { result ≡ list_all is_plain text.now }
{
    text.iter().all(|byte| is_plain(*byte))
}

/// Whether a byte stands for itself.
fn is_plain(byte: u8) -> bool
    ensures { result ≡ is_plain byte }
{
    b' ' <= byte && byte <= b'~' && byte != b'&' && byte != b'<' && byte != b'>' && byte != b'"'
}

fn put_byte(out: &mut Paper, byte: u8) -> Result<(), NoMemory>
    ensures text { OnOk result (out.new.put ≡ out.old.put ++ escape byte) }
    ensures front { out.new.front ≡ out.old.front }
{
    match byte {
        b'&' => out.put(b"&amp;"),
        b'<' => out.put(b"&lt;"),
        b'>' => out.put(b"&gt;"),
        b'"' => out.put(b"&quot;"),
        b' '..=b'~' => out.push(byte),
        _ => out.push(b'?'),
    }
}

/// Appends a text, and where it is longer than so many letters, two points in place of its middle or its end.
#[tactic(auto, unfolding(crate::specs::Escapes::cut))]
pub fn put_cut(out: &mut Paper, text: &[u8], letters: usize) -> Result<(), NoMemory>
    ensures text { OnOk result (out.new.put ≡ out.old.put ++ cut letters text.now) }
    ensures front { out.new.front ≡ out.old.front }
{
    if text.len() <= letters {
        return put_escaped(out, text);
    }
    put_shortened(out, text, answer_in(text), letters)
}

/// Appends a text of more letters than so many, of which this is the answer.
#[tactic(auto, unfolding(crate::specs::Escapes::shortened))]
fn put_shortened(
    out: &mut Paper,
    text: &[u8],
    answer: &[u8],
    letters: usize,
) -> Result<(), NoMemory>
    requires { letters < length text.now }
    ensures text { OnOk result (out.new.put ≡ out.old.put ++ shortened letters text.now answer.now) }
    ensures front { out.new.front ≡ out.old.front }
{
    if answer.len() + 2 <= letters {
        put_escaped(out, &text[..letters - (answer.len() + 2)])?;
        out.put(b"..")?;
        return put_escaped(out, answer);
    }
    put_escaped(out, &text[..letters.saturating_sub(2)])?;
    out.put(b"..")
}

/// No text begins or ends an element of the picture, or a value in one, whatever its bytes are.
pub fn texts_stay_texts()
    ensures { (text : List ℕ) → AllByRecursion IsHarmless (escaped text) }
{}
