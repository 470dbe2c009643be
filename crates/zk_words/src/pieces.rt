ghost use Rattle.std.specs.Prelude.{◌≡◌, ◌==◌, ◌∷◌, [], position, MatchOption};
ghost use Rattle.zk_words.specs.Pieces.{pieces_between};

use memchr::memchr;
use std::marker::Model;

/// What stands between the separators of a text, from left to right. Two separators side by side have an
/// empty piece between them, and a separator at an end of the text has one outside.
#[derive(Drop)]
pub struct Pieces<'a, const SEPARATOR: u8> {
    // What stands behind the last separator that was passed. It counts only while there is more.
    rest: &'a [u8],
    more: bool,
}

/// The words of a line: a single space stands between two of them.
pub type Words<'a> = Pieces<'a, b' '>;

/// The lines of a text, each before its line feed, and what stands behind the last feed.
pub type Lines<'a> = Pieces<'a, b'\n'>;

impl<'a, const SEPARATOR: u8> Model for Pieces<'a, SEPARATOR> {
    ghost use Rattle.std.specs.Prelude.{ℕ, List, [], if◌then◌else◌};
    ghost use Rattle.zk_words.specs.Pieces.{pieces_between};

    ghost Value = { List (List ℕ) };

    ghost view = { λ p. if p.more then pieces_between SEPARATOR p.rest.now else [] };
}

impl<'a, const SEPARATOR: u8> Pieces<'a, SEPARATOR> {
    /// The pieces of a text, from its first byte on.
    pub fn of(text: &'a [u8]) -> Pieces<'a, SEPARATOR>
        ensures { result ≡ pieces_between SEPARATOR text.now }
    {
        Pieces {
            rest: text,
            more: true,
        }
    }

    /// The same pieces once more.
    pub fn again(&self) -> Pieces<'a, SEPARATOR>
        ensures { result ≡ self.now }
    {
        Pieces {
            rest: self.rest,
            more: self.more,
        }
    }

    /// The next piece, and nothing from the end of the text on.
    pub fn next(&mut self) -> Option<&'a [u8]>
        ensures { MatchOption result ((self.old ≡ []) × (self.new ≡ [])) (λ piece. self.old ≡ piece.now ∷ self.new) }
    {
        if !self.more {
            return None;
        }
        let (piece, rest) = split_at(SEPARATOR, self.rest);
        match rest {
            Some(rest) => self.rest = rest,
            None => self.more = false,
        }
        Some(piece)
    }
}

// The first piece, and what stands behind its separator, if it has one.
fn split_at(separator: u8, text: &[u8]) -> (&[u8], Option<&[u8]>)
    ensures { MatchOption result.1 (pieces_between separator text.now ≡ result.0.now ∷ [])
        (λ rest. pieces_between separator text.now ≡ result.0.now ∷ pieces_between separator rest.now) }
{
    match place_of(separator, text) {
        Some(at) => (&text[..at], Some(&text[at + 1..])),
        None => (text, None),
    }
}

/// The first place of a byte in a text.
pub fn place_of(byte: u8, text: &[u8]) -> Option<usize>
    ensures { result ≡ position (λ b. b == byte) text.now }
{
    memchr(byte, text)
}
