ghost use Rattle.std.specs.Prelude.{◌≡◌, ℕ, ◌+◌, ◌≤◌, ◌<◌, ◌==◌, Some, List, length, take, drop, min, if◌then◌else◌};
ghost use Rattle.std.specs.List.{list_any};
ghost use Rattle.zk_base.specs.Causes.{counted};

use crate::{Failed, Source};
use std::marker::Model;

/// A source over memory that fails where it is told to.
#[derive(Drop)]
pub struct MemSource {
    bytes: Vec<u8>,
    // How many of the bytes were given.
    given: usize,
    piece: usize,
    failing: Vec<u64>,
    calls: u64,
    faults: u64,
}

impl Model for MemSource {
    ghost use Rattle.std.specs.Prelude.{◌≤◌, ◌<◌, drop, vec_len};
    ghost use Rattle.zk_base.specs.InMemory.{SourceView};

    ghost Value = { SourceView };

    ghost view = { λ s. record {
      left = drop s.given s.bytes.items;
      piece = s.piece;
      failing = s.failing.items;
      calls = s.calls;
      faults = s.faults;
    } };

    ghost invariant = { λ s. (s.given ≤ vec_len s.bytes) × (0 < s.piece) };
}

impl MemSource {
    /// Gives at most `piece` bytes in a call, and fails the calls whose numbers, counted from 0, are listed.
    pub fn new(bytes: Vec<u8>, piece: usize, fail_at: Vec<u64>) -> MemSource
        requires { 0 < piece }
        ensures { result ≡ record {
          left = bytes.items;
          piece = piece;
          failing = fail_at.items;
          calls = 0;
          faults = 0;
        } }
    {
        MemSource {
            bytes,
            given: 0,
            piece,
            failing: fail_at,
            calls: 0,
            faults: 0,
        }
    }
}

impl Source for MemSource {
    ghost use Rattle.std.specs.Prelude.{Some};

    ghost left = { λ s. Some s.left };

    ghost faults = { λ s. s.faults };

    fn read(&mut self, into: &mut [u8]) -> Result<usize, Failed> {
        let call = self.calls;
        self.calls = call.saturating_add(1);
        if self.failing.contains(&call) {
            self.faults = self.faults.saturating_add(1);
            return Err(Failed);
        }
        let count = give(&self.bytes[self.given..], self.piece, into);
        self.given += count;
        Ok(count)
    }
}

/// A source over memory that never fails.
#[derive(Drop)]
pub struct SureSource {
    bytes: Vec<u8>,
    // How many of the bytes were given.
    given: usize,
    piece: usize,
}

impl Model for SureSource {
    ghost use Rattle.std.specs.Prelude.{◌≤◌, ◌<◌, ℕ, List, drop, vec_len};

    ghost Value = { List ℕ };

    ghost view = { λ s. drop s.given s.bytes.items };

    ghost invariant = { λ s. (s.given ≤ vec_len s.bytes) × (0 < s.piece) };
}

impl SureSource {
    /// Gives at most `piece` bytes in a call.
    pub fn new(bytes: Vec<u8>, piece: usize) -> SureSource
        requires { 0 < piece }
        ensures { result ≡ bytes.items }
    {
        SureSource {
            bytes,
            given: 0,
            piece,
        }
    }
}

impl Source for SureSource {
    ghost use Rattle.std.specs.Prelude.{Some};

    ghost left = { λ s. Some s };

    ghost faults = { λ s. 0 };

    fn read(&mut self, into: &mut [u8]) -> Result<usize, Failed> {
        let count = give(&self.bytes[self.given..], self.piece, into);
        self.given += count;
        Ok(count)
    }
}

/// Copies the first bytes into the front of `into`, as many as there are, as fit, and as a piece has.
fn give(bytes: &[u8], piece: usize, into: &mut [u8]) -> usize
    ensures count { result ≡ min (min (length into.old) piece) (length bytes.now) }
    ensures front { take result into.new ≡ take result bytes.now }
    ensures size { length into.new ≡ length into.old }
{
    let count = into.len().min(piece).min(bytes.len());
    into[..count].copy_from_slice(&bytes[..count]);
    count
}
