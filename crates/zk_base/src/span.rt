ghost use Rattle.std.specs.Prelude.{◌≡◌, ℕ, ◌^◌, ◌<◌, ◌≤◌, true, false};
ghost use Rattle.zk_base.specs.Slots.{IsIn};

/// Places from one to another: none where the lowest is above the highest.
#[derive(Clone, Copy)]
pub struct Span {
    /// The lowest of them.
    pub lowest: u64,
    /// The highest of them.
    pub highest: u64,
}

impl Span {
    /// No place.
    pub fn nothing() -> Span {
        Span {
            lowest: u64::MAX,
            highest: 0,
        }
    }

    /// All places.
    pub fn everything() -> Span
        ensures { (place : ℕ) → place < 2 ^ 64 → IsIn result place }
    {
        Span {
            lowest: 0,
            highest: u64::MAX,
        }
    }

    /// Whether a place is among these.
    pub fn holds(self, place: u64) -> bool
        ensures { result ≡ false → IsIn self place → ⊥ }
    {
        self.lowest <= place && place <= self.highest
    }

    /// These places, one more, and those between.
    pub fn with(self, place: u64) -> Span
        ensures here { IsIn result place }
        ensures wide { (other : ℕ) → IsIn self other → IsIn result other }
    {
        Span {
            lowest: self.lowest.min(place),
            highest: self.highest.max(place),
        }
    }

    /// These places where there is anything at them, and else none.
    pub fn where_any(self, any: bool) -> Span
        ensures { any ≡ true → result ≡ self }
    {
        if any { self } else { Span::nothing() }
    }
}
