ghost use Rattle.std.specs.Prelude.{◌≡◌, [], ◌∷◌, MatchOption};
ghost use Rattle.zk_words.specs.Parts.{placed, parts_of};

use crate::pieces::Words;
use crate::slot::{Rest, Slot};
use crate::table::Row;
use std::marker::Model;

/// A word of a line, and the slot that it stands in.
#[derive(Clone, Copy)]
pub struct Part<'a> {
    pub slot: Slot,
    pub text: &'a [u8],
}

/// The words of a line behind its first, each in its slot, from left to right.
#[derive(Drop)]
pub struct Parts<'a> {
    slots: &'static [Slot],
    rest: Rest,
    words: Words<'a>,
}

impl<'a> Model for Parts<'a> {
    ghost use Rattle.std.specs.Prelude.{List};
    ghost use Rattle.zk_words.specs.Parts.{Placed, parts_of};

    ghost Value = { List Placed };

    ghost view = { λ p. parts_of p.slots.now p.rest p.words };
}

impl<'a> Parts<'a> {
    /// The words, in the slots of a row.
    pub fn of(row: &Row, words: Words<'a>) -> Parts<'a>
        ensures { result ≡ parts_of row.now.slots row.now.rest words.entry }
    {
        Parts {
            slots: row.slots,
            rest: row.rest,
            words,
        }
    }

    /// The same parts once more.
    pub fn again(&self) -> Parts<'a>
        ensures { result ≡ self.now }
    {
        Parts {
            slots: self.slots,
            rest: self.rest,
            words: self.words.again(),
        }
    }

    /// The next word with its slot.
    #[tactic(auto, using(crate::proofs::Placed::parts_of_none))]
    pub fn next(&mut self) -> Option<Part<'a>>
        ensures { MatchOption result ((self.old ≡ []) × (self.new ≡ []))
            (λ part. self.old ≡ placed part.slot part.text.now ∷ self.new) }
    {
        let Some(text) = self.words.next() else {
            return None;
        };
        match self.slots {
            [slot, slots @ ..] => {
                self.slots = slots;
                Some(Part { slot: *slot, text })
            }
            [] => match self.rest {
                Rest::Nothing => None,
                Rest::Maybe(slot) => {
                    self.rest = Rest::Nothing;
                    Some(Part { slot, text })
                }
                Rest::Many(slot) => Some(Part { slot, text }),
                Rest::Events => Some(Part {
                    slot: Slot::Event,
                    text,
                }),
            },
        }
    }
}
