ghost use Rattle.std.specs.Prelude.{◌≡◌, ℕ};

/// What goes into a pool: it has a number, and a home that it shares with all others of its pool.
pub trait Numbered: Drop {
    /// What all items of one pool have in common.
    type Home;

    /// The item's number.
    ghost number: { Self → ℕ };

    /// Its home.
    ghost home: { Self → Self.Home };

    /// The fact that a pool keeps of each item: who gives one back shows it, and who takes one is told it.
    ghost kept: { Self → Type 0 };

    /// Its number.
    fn number(&self) -> u32
        ensures { result ≡ number self.now };
}
