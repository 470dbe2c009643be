ghost use Rattle.std.specs.Prelude.{◌≡◌, ◌++◌, ◌==◌, length, position, OnOk};
ghost use Rattle.zk_show_text.specs.Words.{first_word, more_words, words_of};

use zk_base::{NoMemory, put};

/// The first word of a look.
const LOOK: &[u8] = b"look";

fn space_in(text: &[u8]) -> Option<usize>
    ensures { result ≡ position (λ c. c == 32) text.now }
{
    text.iter().position(|byte| *byte == b' ')
}

fn first_word(text: &[u8]) -> &[u8]
    ensures { result.now ≡ first_word text.now }
{
    match space_in(text) {
        Some(space) => &text[..space],
        None => text,
    }
}

/// What stands behind the first word of a text.
fn more_words(text: &[u8]) -> &[u8]
    ensures { result.now ≡ more_words text.now }
{
    match space_in(text) {
        Some(space) => &text[space + 1..],
        None => &[],
    }
}

/// Appends what a line of a trace says of a step, without whose it is and which.
pub fn put_words(out: &mut Vec<u8>, text: &[u8]) -> Result<(), NoMemory>
    ensures { OnOk result (out.new.items ≡ out.old.items ++ words_of text.now) }
{
    let more = more_words(text);
    if first_word(text) != LOOK {
        return put(out, more);
    }
    put(out, b"look ")?;
    put(out, more_words(more))
}

/// How long that is.
pub fn words_len(text: &[u8]) -> usize
    ensures { result ≡ length (words_of text.now) }
{
    let more = more_words(text);
    if first_word(text) != LOOK {
        return more.len();
    }
    LOOK.len() + 1 + more_words(more).len()
}
