ghost use Rattle.std.specs.Prelude.{◌≡◌, ◌+◌, ◌<◌, ◌≤◌, true, false, [], ◌∷◌, ◌++◌, vec_len, vec_capacity, IsOk, OnOk};

use crate::{Engine, Entry, NoMemory, Service, Who, push_within};
use std::alloc::Global;
use std::marker::Model;
use std::snapshot::Snapshot;

/// An engine with its history: the history, its room and its legality stand here once for all services.
#[derive(Drop)]
pub struct Recorded<C: Engine> {
    // What it was made of, which only contracts see: it takes no memory.
    start: Snapshot<C::State>,
    engine: C,
    past: Vec<Entry<C::Op, C::Reply>>,
}

impl<C: Engine> Model for Recorded<C> {
    ghost use Rattle.std.specs.Prelude.{◌+◌, ◌-◌, ◌≤◌, ◌≡◌, min, vec_len, vec_capacity};
    ghost use Rattle.zk_base.specs.RecordedView.{RecordedView};
    ghost use Rattle.zk_base.specs.Recording.{IsRecorded};
    ghost use Rattle.zk_base.specs.Legal.{state_after};

    ghost Value = { RecordedView C.State C.Op C.Reply };

    ghost view = { λ a. record {
      start = a.start.value;
      history = a.past.items;
      room =
          min (vec_capacity a.past - (vec_len a.past + C.owed (state_after C.machine a.start.value a.past.items)))
          (C.room a.engine);
      touched = C.touched a.engine;
    } };

    ghost invariant = { λ a.
        IsRecorded C.machine C.owed C.entries (C.stands_for a.engine) a.start.value a.past.items
        (vec_len a.past) (vec_capacity a.past) };
}

impl<C: Engine> Recorded<C> {
    /// An engine with an empty history. The start value is what contracts see as the machine's first state.
    pub fn new(alloc: Global, start: Snapshot<C::State>, engine: C) -> Recorded<C>
        requires same { C.stands_for engine start.value }
        requires none { C.owed start.value ≡ 0 }
        requires first { C.entries start.value ≡ 0 }
        ensures start { result.start ≡ start.value }
        ensures history { result.history ≡ [] }
    {
        Recorded {
            start,
            engine,
            past: Vec::new(alloc),
        }
    }
}

/// Room for the entry of this operation and for those that it will owe.
fn make_room<C: Engine>(
    engine: &C,
    past: &mut Vec<Entry<C::Op, C::Reply>>,
    who: Who,
    op: &C::Op,
) -> Result<(), NoMemory>
    requires { (s : C.State) × C.stands_for engine.now s × (vec_len past.old + C.owed s ≤ vec_capacity past.old) }
    ensures items { past.new.items ≡ past.old.items }
    ensures len { vec_len past.new ≡ vec_len past.old }
    ensures capacity { vec_capacity past.old ≤ vec_capacity past.new }
    ensures ok { (s : C.State) → C.stands_for engine.now s →
        OnOk result (C.closes s who op.now ≡ false → vec_len past.new + C.owed s + 3 ≤ vec_capacity past.new) }
    ensures closing { (s : C.State) → C.stands_for engine.now s → C.closes s who op.now ≡ true → IsOk result }
    ensures roomy { (s : C.State) → C.stands_for engine.now s →
        vec_len past.old + C.owed s + 3 ≤ vec_capacity past.old → IsOk result }
{
    if engine.is_closing(who, op) {
        return Ok(());
    }
    let owed = engine.owed();
    past.reserve(owed as usize + 3)?;
    Ok(())
}

impl<C: Engine> Service for Recorded<C> {
    type Op = C::Op;

    type Reply = C::Reply;

    type State = C::State;

    ghost machine = { C.machine };

    ghost start = { λ a. a.start };

    ghost history = { λ a. a.history };

    ghost room = { λ a. a.room };

    ghost closes = { C.closes };

    ghost grows = { C.grows };

    ghost word = { C.word };

    ghost WORDS = { C.WORDS };

    const WORDS: u32 = C::WORDS;

    ghost touched = { λ a. a.touched };

    fn act(&mut self, who: Who, step: u32, op: C::Op) -> Result<Option<C::Reply>, NoMemory> {
        C::counts_entries();
        make_room(&self.engine, &mut self.past, who, &op)?;
        match self.engine.step(who, &op)? {
            None => Ok(None),
            Some((reply, kept)) => {
                push_within(
                    &mut self.past,
                    Entry {
                        who,
                        step,
                        op,
                        reply: kept,
                    },
                );
                Ok(Some(reply))
            }
        }
    }

    fn is_futile(&self, who: Who, op: &C::Op) -> bool {
        self.engine.is_futile(who, op)
    }

    fn reserve(&mut self) -> Result<(), NoMemory> {
        let owed = self.engine.owed();
        self.past.reserve(owed as usize + 3)?;
        self.engine.reserve()
    }

    fn word(&self, index: u32) -> u32 {
        self.engine.word(index)
    }

    fn touched(&self) -> &[u32] {
        self.engine.touched()
    }

    fn room(&self) -> u64 {
        let spare = self.past.capacity() - self.past.len() - self.engine.owed() as usize;
        (spare as u64).min(self.engine.room())
    }

    fn history(&self) -> &[Entry<C::Op, C::Reply>] {
        &self.past
    }

    fn into_history(self) -> Vec<Entry<C::Op, C::Reply>> {
        let Recorded {
            start: _,
            engine: _,
            past,
        } = self;
        past
    }
}
