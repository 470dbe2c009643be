ghost use Rattle.std.specs.Prelude.{◌≡◌, ◌==◌, ◌∷◌, [], length, count_by, MatchOption, IsTrue, ◌↔◌};
ghost use Rattle.zk_trace.specs.Feeds.{lines_in};

use crate::halves::halves;
use std::marker::Model;

/// The lines of a text that are still to be read: those that have their line feed.
#[derive(Drop)]
pub struct Feed<'a> {
    // What stands behind the last feed that was passed.
    rest: &'a [u8],
    // How many lines that is, for rooms alone.
    lines: usize,
}

impl<'a> Model for Feed<'a> {
    ghost use Rattle.std.specs.Prelude.{ℕ, List};
    ghost use Rattle.zk_trace.specs.Feeds.{lines_in};

    ghost Value = { List (List ℕ) };

    ghost view = { λ f. lines_in f.rest.now };
}

impl<'a> Feed<'a> {
    /// The lines of a text.
    pub fn of(text: &'a [u8]) -> Feed<'a>
        ensures { result ≡ lines_in text.now }
    {
        Feed {
            rest: text,
            lines: count_of(b'\n', text),
        }
    }

    /// The next line, and what stands behind its feed. It isn't passed.
    pub fn next(&self) -> Option<(&'a [u8], &'a [u8])>
        ensures { MatchOption result (self.now ≡ []) (λ cut. self.now ≡ cut.0.now ∷ lines_in cut.1.now) }
    {
        match halves(b'\n', self.rest) {
            Some(cut) => Some(cut),
            None => None,
        }
    }

    /// Goes on with this text.
    pub fn go_on(&mut self, rest: &'a [u8])
        ensures { self.new ≡ lines_in rest.now }
    {
        self.rest = rest;
        self.lines = self.lines.saturating_sub(1);
    }

    /// The room for so many lines, where that is known: for no more than are left.
    pub fn room(&self, count: Option<u64>) -> usize {
        match count {
            Some(count) if count < self.lines as u64 => count as usize,
            Some(_) => self.lines,
            None => 0,
        }
    }

    /// Whether there is no line more.
    pub fn is_over(&self) -> bool
        ensures { IsTrue result ↔ (self.now ≡ []) }
    {
        self.next().is_none()
    }

    /// How many lines there are still.
    pub fn left(&self) -> usize
        ensures { result ≡ length self.now }
    {
        count_of(b'\n', self.rest)
    }
}

/// How many lines of a text have their line feed.
pub fn line_count(text: &[u8]) -> usize
    ensures { result ≡ length (lines_in text.now) }
{
    Feed::of(text).left()
}

fn count_of(byte: u8, text: &[u8]) -> usize
    ensures { result ≡ count_by (λ b. b == byte) text.now }
{
    text.iter().filter(|b| **b == byte).count()
}
