ghost use Rattle.std.specs.Prelude.{◌≡◌, ◌<◌, ◌++◌, [], ◌∷◌, length};

use std::marker::Model;
use zk_line::MOST_EVENTS;

/// The positions of events among those of a poll, from 0 and rising: at most 8 of them, kept in place.
#[derive(Clone, Copy, Debug)]
pub struct Positions {
    // The positions, then zeros.
    numbers: [u32; MOST_EVENTS],
    count: usize,
}

impl Model for Positions {
    ghost use Rattle.std.specs.Prelude.{ℕ, List, take, length};
    ghost use Rattle.zk_base.specs.Padded.{padded, IsPadded};
    ghost use Rattle.zk_base.specs.Padding.{padded-take, length-padded};
    ghost use Rattle.zk_line.specs.declared.events.TheConstants.{MOST_EVENTS};
    ghost use Rattle.zk_worker.specs.Positions.{are_few};

    ghost Value = { List ℕ };

    ghost view = { λ p. take p.count p.numbers };

    ghost invariant = { λ p. IsPadded MOST_EVENTS are_few p.numbers p.count };

    ghost inverse = { λ v. record { numbers = padded MOST_EVENTS v; count = length v } };

    ghost inverse_ok = { λ p held. λ i. record {
      numbers = padded-take MOST_EVENTS are_few p.numbers p.count held i;
      count = length-padded MOST_EVENTS are_few p.numbers p.count held i;
    } };
}

impl Positions {
    /// No position.
    pub fn new() -> Positions
        ensures { result ≡ [] }
    {
        Positions {
            numbers: [0; MOST_EVENTS],
            count: 0,
        }
    }

    /// One position more, for which there is room.
    pub fn push(&mut self, number: u32)
        requires { length self.old < MOST_EVENTS }
        ensures { self.new ≡ self.old ++ number ∷ [] }
    {
        self.numbers[self.count] = number;
        self.count += 1;
    }

    /// The positions.
    pub fn numbers(&self) -> &[u32]
        ensures { result.now ≡ self.now }
    {
        &self.numbers[..self.count]
    }
}

impl PartialEq for Positions {
    ghost use Rattle.std.specs.Prelude.{◌==◌};
    ghost use Rattle.std.specs.Cmp.{partial_equiv_from_equiv, nat_eq_equiv};
    ghost use Rattle.std.specs.Cmp.Lexicographic.{pointwise, lists_equiv};

    ghost eq = { pointwise ◌==◌ };

    ghost laws = { partial_equiv_from_equiv (lists_equiv nat_eq_equiv) };

    fn eq(&self, other: &Positions) -> bool {
        self.numbers() == other.numbers()
    }
}

impl Eq for Positions {
    ghost use Rattle.std.specs.Cmp.{nat_eq_equiv};
    ghost use Rattle.std.specs.Cmp.Lexicographic.{lists_equiv};

    ghost laws = { lists_equiv nat_eq_equiv };
}
