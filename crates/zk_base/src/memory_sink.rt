ghost use Rattle.std.specs.Prelude.{◌≡◌, ℕ, ◌+◌, ◌-◌, ◌≤◌, ◌<◌, List, length, take, ◌++◌, min, vec_len, vec_capacity};

use crate::{Failed, Sink};
use std::marker::Model;

/// A sink over memory that fails where it is told to, and where it is full.
#[derive(Drop)]
pub struct MemSink {
    room: Vec<u8>,
    piece: usize,
    failing: Vec<u64>,
    calls: u64,
    faults: u64,
}

impl Model for MemSink {
    ghost use Rattle.std.specs.Prelude.{◌-◌, ◌<◌, vec_len, vec_capacity};
    ghost use Rattle.zk_base.specs.InMemory.{SinkView};

    ghost Value = { SinkView };

    ghost view = { λ s. record {
      held = s.room.items;
      room = vec_capacity s.room - vec_len s.room;
      piece = s.piece;
      failing = s.failing.items;
      calls = s.calls;
      faults = s.faults;
    } };

    ghost invariant = { λ s. 0 < s.piece };
}

impl MemSink {
    /// Takes what fits into the room's capacity, at most `piece` bytes in a call, and fails the calls whose numbers,
    /// counted from 0, are listed. A full room is a fault.
    pub fn new(room: Vec<u8>, piece: usize, fail_at: Vec<u64>) -> MemSink
        requires { 0 < piece }
        ensures { result ≡ record {
          held = room.items;
          room = vec_capacity room - vec_len room;
          piece = piece;
          failing = fail_at.items;
          calls = 0;
          faults = 0;
        } }
    {
        MemSink {
            room,
            piece,
            failing: fail_at,
            calls: 0,
            faults: 0,
        }
    }

    /// The bytes held so far.
    pub fn held(&self) -> &[u8]
        ensures { result.now ≡ self.now.held }
    {
        &self.room
    }
}

impl Sink for MemSink {
    ghost use Rattle.std.specs.Prelude.{Some};

    ghost held = { λ s. Some s.held };

    ghost faults = { λ s. s.faults };

    fn write(&mut self, piece: &[u8]) -> Result<usize, Failed> {
        let call = self.calls;
        self.calls = call.saturating_add(1);
        let count = count_that_fits(&self.room, self.piece, piece);
        if count == 0 || self.failing.contains(&call) {
            self.faults = self.faults.saturating_add(1);
            return Err(Failed);
        }
        append(&mut self.room, &piece[..count]);
        Ok(count)
    }
}

/// A sink over memory that fails only where it is full.
#[derive(Drop)]
pub struct SureSink {
    room: Vec<u8>,
    piece: usize,
    faults: u64,
}

impl Model for SureSink {
    ghost use Rattle.std.specs.Prelude.{◌-◌, ◌<◌, [], vec_len, vec_capacity};
    ghost use Rattle.zk_base.specs.InMemory.{SinkView};

    ghost Value = { SinkView };

    ghost view = { λ s. record {
      held = s.room.items;
      room = vec_capacity s.room - vec_len s.room;
      piece = s.piece;
      failing = [];
      calls = 0;
      faults = s.faults;
    } };

    ghost invariant = { λ s. 0 < s.piece };
}

impl SureSink {
    /// Takes what fits into the room's capacity, at most `piece` bytes in a call. A full room is a fault.
    pub fn new(room: Vec<u8>, piece: usize) -> SureSink
        requires { 0 < piece }
        ensures held { result.held ≡ room.items }
        ensures room { result.room ≡ vec_capacity room - vec_len room }
        ensures faults { result.faults ≡ 0 }
    {
        SureSink {
            room,
            piece,
            faults: 0,
        }
    }

    /// The bytes held so far.
    pub fn held(&self) -> &[u8]
        ensures { result.now ≡ self.now.held }
    {
        &self.room
    }
}

impl Sink for SureSink {
    ghost use Rattle.std.specs.Prelude.{Some};

    ghost held = { λ s. Some s.held };

    ghost faults = { λ s. s.faults };

    fn write(&mut self, piece: &[u8]) -> Result<usize, Failed> {
        let count = count_that_fits(&self.room, self.piece, piece);
        if count == 0 {
            self.faults = self.faults.saturating_add(1);
            return Err(Failed);
        }
        append(&mut self.room, &piece[..count]);
        Ok(count)
    }
}

/// How many of these bytes one call takes: what fits, and at most a piece.
fn count_that_fits(room: &Vec<u8>, most: usize, bytes: &[u8]) -> usize
    ensures { result ≡ min (min (length bytes.now) most) (vec_capacity room.now - vec_len room.now) }
{
    bytes.len().min(most).min(room.capacity() - room.len())
}

/// Appends bytes that fit, without taking memory.
fn append(room: &mut Vec<u8>, bytes: &[u8])
    requires { vec_len room.old + length bytes.now ≤ vec_capacity room.old }
    ensures { room.new.items ≡ room.old.items ++ bytes.now }
{
    match room.extend_from_slice(bytes) {
        Ok(()) => {}
        Err(_) => unreachable!(),
    }
}
