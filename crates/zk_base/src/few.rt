ghost use Rattle.std.specs.Prelude.{◌≡◌, ◌<◌, ◌≤◌, [], ◌∷◌, ◌++◌, Some, None, if◌then◌else◌, length};
ghost use Rattle.zk_base.specs.Fews.{is_few};
ghost use Rattle.zk_base.specs.Limits.{most_few};

use std::marker::Model;

/// The most numbers that a short list keeps.
pub const MOST_FEW: usize = 8;

/// A short list of numbers: at most 8, kept in place, so that it is copied without memory.
#[derive(Clone, Copy, Debug)]
pub struct Few {
    // The numbers, then zeros.
    numbers: [u32; MOST_FEW],
    len: usize,
}

impl Model for Few {
    ghost use Rattle.std.specs.Prelude.{ℕ, List, take, length};
    ghost use Rattle.zk_base.specs.Fews.{is_few};
    ghost use Rattle.zk_base.specs.Limits.{most_few};
    ghost use Rattle.zk_base.specs.Padded.{padded, IsPadded};
    ghost use Rattle.zk_base.specs.Padding.{padded-take, length-padded};

    ghost Value = { List ℕ };

    ghost view = { λ f. take f.len f.numbers };

    ghost invariant = { λ f. IsPadded most_few is_few f.numbers f.len };

    ghost inverse = { λ v. record { numbers = padded most_few v; len = length v } };

    ghost inverse_ok = { λ f held. λ i. record {
      numbers = padded-take most_few is_few f.numbers f.len held i;
      len = length-padded most_few is_few f.numbers f.len held i;
    } };
}

impl Few {
    /// No number.
    pub fn none() -> Few
        ensures { result ≡ [] }
    {
        Few {
            numbers: [0; MOST_FEW],
            len: 0,
        }
    }

    /// The list of these numbers. There is none where they are more than 8.
    pub fn new(numbers: &[u32]) -> Option<Few>
        ensures { result ≡ (if is_few numbers.now then Some numbers.now else None) }
    {
        if !is_few(numbers) {
            return None;
        }
        let mut kept = [0; MOST_FEW];
        kept[..numbers.len()].copy_from_slice(numbers);
        Some(Few {
            numbers: kept,
            len: numbers.len(),
        })
    }

    /// One number more, behind the others.
    pub fn push(&mut self, number: u32)
        requires { length self.old < most_few }
        ensures { self.new ≡ self.old ++ number ∷ [] }
    {
        self.numbers[self.len] = number;
        self.len += 1;
    }

    /// Its numbers.
    pub fn numbers(&self) -> &[u32]
        ensures same { result.now ≡ self.now }
        ensures few { length result.now ≤ most_few }
    {
        &self.numbers[..self.len]
    }
}

impl PartialEq for Few {
    ghost use Rattle.std.specs.Prelude.{◌==◌};
    ghost use Rattle.std.specs.Cmp.{partial_equiv_from_equiv, nat_eq_equiv};
    ghost use Rattle.std.specs.Cmp.Lexicographic.{pointwise, lists_equiv};

    ghost eq = { pointwise ◌==◌ };

    ghost laws = { partial_equiv_from_equiv (lists_equiv nat_eq_equiv) };

    fn eq(&self, other: &Few) -> bool {
        self.numbers() == other.numbers()
    }
}

impl Eq for Few {
    ghost use Rattle.std.specs.Cmp.{nat_eq_equiv};
    ghost use Rattle.std.specs.Cmp.Lexicographic.{lists_equiv};

    ghost laws = { lists_equiv nat_eq_equiv };
}

/// Whether so many numbers are few.
fn is_few(numbers: &[u32]) -> bool
    ensures { result ≡ is_few numbers.now }
{
    numbers.len() <= MOST_FEW
}
