ghost use Rattle.std.specs.Prelude.{◌≡◌, ℕ, ◌+◌, ◌*◌, ◌^◌, ◌<◌, true, false, ◌==◌, ◌&&◌, if◌then◌else◌, OnOk, OnErr};
ghost use Rattle.zk_scenario.specs.Written.{has_pair};

use std::alloc::Global;
use std::collections::HashSet;
use zk_base::NoMemory;

/// Pairs of numbers.
#[derive(Drop)]
pub struct Pairs {
    // The first of the two in the upper half of a key.
    keys: HashSet<u64>,
}

impl Pairs {
    /// No pair. It takes no memory.
    pub fn new(alloc: Global) -> Pairs
        ensures { (first second : ℕ) → has_pair result first second ≡ false }
    {
        Pairs {
            keys: HashSet::new(alloc),
        }
    }

    /// Whether two numbers are one of the pairs.
    pub fn has(&self, first: u32, second: u32) -> bool
        ensures { result ≡ has_pair self.now first second }
    {
        self.keys.contains(&key_of(first, second))
    }

    /// One pair more.
    pub fn insert(&mut self, first: u32, second: u32) -> Result<(), NoMemory>
        ensures ok { OnOk result ((one other : ℕ) → other < 2 ^ 32 → has_pair self.new one other
            ≡ (if first == one && second == other then true else has_pair self.old one other)) }
        ensures unchanged { OnErr result ((one other : ℕ) → has_pair self.new one other ≡ has_pair self.old one other) }
    {
        self.keys.insert(key_of(first, second))?;
        Ok(())
    }
}

// What one is worth in the upper half of a key.
const UPPER: u64 = 1 << 32;

fn key_of(first: u32, second: u32) -> u64
    ensures { result ≡ first * 2 ^ 32 + second }
{
    u64::from(first) * UPPER + u64::from(second)
}
