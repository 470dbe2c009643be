ghost use Rattle.std.specs.Prelude.{◌<◌, length, IfSome};

use zk_words::{Head, Line, Parts, Slot, Words, line_of};

/// A word of a line.
#[derive(Clone, Copy)]
pub struct PlacedWord<'a> {
    pub text: &'a [u8],
    /// The place of its first byte, from 0.
    pub from: usize,
}

/// The words of a line with their places, from left to right.
#[derive(Drop)]
pub struct PlacedWords<'a> {
    words: Words<'a>,
    from: usize,
}

impl<'a> PlacedWords<'a> {
    pub fn of(line: &'a [u8]) -> PlacedWords<'a> {
        PlacedWords {
            words: Words::of(line),
            from: 0,
        }
    }

    pub fn next(&mut self) -> Option<PlacedWord<'a>>
        ensures { IfSome result (λ word. length self.new.words < length self.old.words) }
    {
        let text = self.words.next()?;
        let from = self.from;
        self.from = from.saturating_add(text.len()).saturating_add(1);
        Some(PlacedWord { text, from })
    }
}

/// A word of a line that has the form of its first word.
#[derive(Clone, Copy)]
pub struct PlacedPart<'a> {
    pub slot: Slot,
    pub word: PlacedWord<'a>,
}

/// The words behind the first of such a line, with their places, from left to right.
#[derive(Drop)]
pub struct PlacedParts<'a> {
    /// The first word of the line.
    pub head: Head,
    parts: Parts<'a>,
    /// The place of the first byte of the next one, from 0.
    pub from: usize,
}

impl<'a> PlacedParts<'a> {
    /// There is nothing behind the first word of a line that isn't formed.
    pub fn of(line: &'a [u8]) -> Option<PlacedParts<'a>> {
        let first = PlacedWords::of(line).next()?;
        match line_of(line) {
            Line::Formed(head, parts) => Some(PlacedParts {
                head,
                parts,
                from: first.text.len().saturating_add(1),
            }),
            Line::Misspelled => None,
        }
    }

    /// The same once more.
    pub fn again(&self) -> PlacedParts<'a> {
        PlacedParts {
            head: self.head,
            parts: self.parts.again(),
            from: self.from,
        }
    }

    pub fn next(&mut self) -> Option<PlacedPart<'a>>
        ensures { IfSome result (λ part. length self.new.parts < length self.old.parts) }
    {
        let part = self.parts.next()?;
        let from = self.from;
        self.from = from.saturating_add(part.text.len()).saturating_add(1);
        Some(PlacedPart {
            slot: part.slot,
            word: PlacedWord {
                text: part.text,
                from,
            },
        })
    }
}
