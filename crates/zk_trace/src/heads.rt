ghost use Rattle.std.specs.Prelude.{◌≡◌};
ghost use Rattle.std.specs.Str.{bytes_eq};
ghost use Rattle.zk_trace.specs.declared.format.Format.TheVariants.{One};
ghost use Rattle.zk_trace.specs.Text.{head_row};
ghost use Rattle.zk_trace.specs.SectionRead.{some_lines, head_words_of, head_of, without_looks, plain_head_of};

use crate::format::Format;
use crate::look_read::same_word;
use crate::numerals::wide_of;
use crate::row_words::{behind, three_words};
use crate::sections::SERVICE;
use zk_words::Words;

/// How many entries and how many looks a head tells of, where it tells of any number.
pub type Counts = (Option<u64>, Option<u64>);

/// What stands before the name in the head of a section of format 1.
const SERVICE_FRONT: &[u8] = b"service ";

/// Two numbers, of which one isn't 0.
fn some_lines(counts: (u64, u64)) -> Option<Counts>
    ensures { result ≡ some_lines counts }
{
    if counts.0 == 0 && counts.1 == 0 {
        None
    } else {
        Some((Some(counts.0), Some(counts.1)))
    }
}

/// The numbers behind the name of this section.
fn head_words_of(name: &[u8], words: Words<'_>) -> Option<(u64, u64)>
    ensures { result ≡ head_words_of name.now words.entry }
{
    let (word, entries, looks) = three_words(behind(SERVICE, words)?)?;
    same_word(name, word)?;
    let entries = wide_of(entries)?;
    Some((entries, wide_of(looks)?))
}

/// Whether a line is the head of this section in format 1.
fn is_head_of_one(name: &[u8], line: &[u8]) -> bool
    ensures { result ≡ bytes_eq line.now (head_row One name.now 0 0) }
{
    match line.strip_prefix(SERVICE_FRONT) {
        Some(rest) => rest == name,
        None => false,
    }
}

/// What it tells there: no number.
fn uncounted_head_of(name: &[u8], line: &[u8]) -> Option<Counts>
    ensures { result ≡ head_of One name.now line.now }
{
    if is_head_of_one(name, line) {
        Some((None, None))
    } else {
        None
    }
}

/// What a line tells of this section, where it is its head.
pub fn head_of(format: Format, name: &[u8], line: &[u8]) -> Option<Counts>
    ensures { result ≡ head_of format name.now line.now }
{
    match format {
        Format::One => uncounted_head_of(name, line),
        Format::Two => some_lines(head_words_of(name, Words::of(line))?),
    }
}

fn without_looks(counts: Counts) -> Option<Option<u64>>
    ensures { result ≡ without_looks counts }
{
    let (entries, looks) = counts;
    match looks {
        Some(looks) => { if looks == 0 { Some(entries) } else { None } }
        None => Some(entries),
    }
}

/// The same of a section that has entries alone.
pub fn plain_head_of(format: Format, name: &[u8], line: &[u8]) -> Option<Option<u64>>
    ensures { result ≡ plain_head_of format name.now line.now }
{
    without_looks(head_of(format, name, line)?)
}
