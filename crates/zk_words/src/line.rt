ghost use Rattle.std.specs.Prelude.{◌≡◌};
ghost use Rattle.zk_words.specs.Lines.{line_behind, line_of};

use crate::first::head_of;
use crate::parts::Parts;
use crate::pieces::Words;
use crate::spelled::are_spelled;
use crate::table::row_of;
use crate::word::Head;

/// One line of a scenario behind the first, by its spelling alone.
#[derive(Drop)]
pub enum Line<'a> {
    /// No form of a line, or a wrong spelling.
    Misspelled,
    /// What the line is, and the words behind its first.
    Formed(Head, Parts<'a>),
}

/// What a line, without its line feed, says by its spelling alone.
pub fn line_of(line: &[u8]) -> Line<'_>
    ensures { result ≡ line_of line.now }
{
    let mut words = Words::of(line);
    let Some(first) = words.next() else {
        return Line::Misspelled;
    };
    match head_of(first) {
        Some(head) => line_behind(head, words),
        None => Line::Misspelled,
    }
}

fn line_behind<'a>(head: Head, words: Words<'a>) -> Line<'a>
    ensures { result ≡ line_behind head words.entry }
{
    let row = row_of(head);
    if are_spelled(&row, words.again()) {
        Line::Formed(head, Parts::of(&row, words))
    } else {
        Line::Misspelled
    }
}
