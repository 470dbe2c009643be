ghost use Rattle.std.specs.Prelude.{◌≡◌};

use crate::{Engine, NoMemory, Store, Who};

/// The engine that keeps its machine's state as the definition has it: it stands here once for all such services.
#[derive(Drop)]
pub struct PlainEngine<S: Store> {
    store: S,
}

impl<S: Store> PlainEngine<S> {
    /// The engine of what is kept.
    pub fn new(store: S) -> PlainEngine<S>
        ensures { result.store ≡ store }
    {
        PlainEngine { store }
    }
}

impl<S: Store> Engine for PlainEngine<S> {
    type Op = S::Op;

    type Reply = S::Reply;

    type State = S::State;

    ghost use Rattle.std.specs.Prelude.{◌≡◌, false, []};

    ghost stands_for = { λ e s. S.state e.store ≡ s };

    ghost room = { λ e. S.room e.store };

    ghost machine = { S.machine };

    ghost entries = { S.entries };

    ghost owed = { S.owed };

    ghost closes = { S.closes };

    ghost grows = { λ op. false };

    // Nothing is published for looks.
    ghost word = { λ s index. 0 };

    ghost WORDS = { 0 };

    const WORDS: u32 = 0;

    ghost touched = { λ e. [] };

    fn step(&mut self, who: Who, op: &S::Op) -> Result<Option<(S::Reply, S::Reply)>, NoMemory> {
        match self.store.next(who, op)? {
            None => Ok(None),
            Some(reply) => {
                let kept = reply;
                Ok(Some((reply, kept)))
            }
        }
    }

    fn is_closing(&self, who: Who, op: &S::Op) -> bool {
        self.store.is_closing(who, op)
    }

    fn is_futile(&self, who: Who, op: &S::Op) -> bool {
        self.store.is_futile(who, op)
    }

    fn owed(&self) -> u64 {
        self.store.owed()
    }

    fn word(&self, _index: u32) -> u32 {
        0
    }

    fn touched(&self) -> &[u32] {
        &[]
    }

    fn reserve(&mut self) -> Result<(), NoMemory> {
        self.store.reserve(3)
    }

    fn room(&self) -> u64 {
        self.store.room()
    }

    fn counts_entries() {
        S::counts_entries()
    }
}
