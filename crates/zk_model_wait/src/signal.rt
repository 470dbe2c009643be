ghost use Rattle.std.specs.Prelude.{◌≡◌, ◌+◌, ◌-◌, ◌^◌, ◌<◌, ◌≤◌, length, IsOk, IfOk, OnErr};
ghost use Rattle.zk_base.specs.History.{AddsNone};
ghost use Rattle.zk_base.specs.Limits.{most_entries};
ghost use Rattle.zk_model_wait.specs.Signal.{new_signal, signal_reply, signal_after};

use std::alloc::Global;
use std::marker::Model;
use zk_base::{NoMemory, Who};

/// What can be written to a signal. Both writes are possible at any time.
#[derive(Clone, Copy, Debug, PartialEq, Eq)]
pub enum SignalOp {
    /// Raises the signal with this result. Zephyr's `k_poll_signal_raise`.
    Raise(u16),
    /// Clears the signal. Zephyr's `k_poll_signal_reset`.
    Clear,
}

/// What a signal answers.
#[derive(Clone, Copy, Debug, PartialEq, Eq)]
pub enum SignalReply {
    /// The stamp of the write: its number among all writes to the signal, from 1.
    Stamp(u32),
}

/// The state of a signal's machine, with the memory that it has for writes.
#[derive(Drop)]
pub struct SignalStore {
    writes: Vec<SignalOp>,
}

impl Model for SignalStore {
    ghost use Rattle.std.specs.Prelude.{◌-◌, vec_len, vec_capacity};
    ghost use Rattle.zk_model_wait.specs.Signal.{SignalView};

    ghost Value = { SignalView };

    ghost view = { λ s. record {
      signal = record { writes = s.writes.items };
      room = vec_capacity s.writes - vec_len s.writes;
    } };
}

/// The state of a signal's machine alone, which contracts see as its definition has it.
#[derive(Drop)]
pub struct SignalState {
    store: SignalStore,
}

impl Model for SignalState {
    ghost use Rattle.zk_model_wait.specs.Signal.{Signal};

    ghost Value = { Signal };

    ghost view = { λ s. s.store.signal };
}

impl SignalState {
    /// A signal before the first write. It takes no memory.
    pub fn new(alloc: Global) -> SignalState
        ensures { result ≡ new_signal }
    {
        SignalState {
            store: SignalStore::new(alloc),
        }
    }
}

impl SignalStore {
    /// A signal before the first write. It takes no memory.
    pub fn new(alloc: Global) -> SignalStore
        ensures { result.signal ≡ new_signal }
    {
        SignalStore {
            writes: Vec::new(alloc),
        }
    }

    /// Makes room for so many writes.
    pub fn reserve(&mut self, more: usize) -> Result<(), NoMemory>
        ensures room { IfOk result (λ _. more ≤ self.new.room) }
        ensures more { self.old.room ≤ self.new.room }
        ensures same { self.new.signal ≡ self.old.signal }
    {
        self.writes.reserve(more)?;
        Ok(())
    }

    /// How many writes it takes without memory.
    pub fn room(&self) -> u64
        ensures { result ≡ self.now.room }
    {
        (self.writes.capacity() - self.writes.len()) as u64
    }
}

/// One write to a signal's machine: its reply and its next state. It is always possible.
pub fn signal_next(
    store: &mut SignalStore,
    who: Who,
    op: &SignalOp,
) -> Result<Option<SignalReply>, NoMemory>
    requires { length store.old.signal.writes < most_entries }
    ensures reply { IfOk result (λ reply. reply ≡ signal_reply store.old.signal who op.now) }
    ensures next { IfOk result (λ reply.
        store.new.signal ≡ signal_after store.old.signal who op.now reply) }
    ensures unchanged { OnErr result (store.new.signal ≡ store.old.signal) }

    // Memory: one place is enough.
    ensures roomy { 1 ≤ store.old.room → IsOk result }
    ensures room { store.old.room ≤ store.new.room + 1 }
    ensures kept { AddsNone result → store.old.room ≤ store.new.room }
{
    store.writes.push(*op)?;
    Ok(Some(SignalReply::Stamp(store.writes.len() as u32)))
}
