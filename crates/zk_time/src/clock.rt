ghost use Rattle.std.specs.Prelude.{◌≡◌, []};
ghost use Rattle.zk_model_wait.specs.Clock.{new_clock};
ghost use Rattle.zk_time.specs.ClockSeen.{clock_start, clock_history};

use crate::clock_engine::ClockEngine;
use std::alloc::Global;
use std::snapshot::Snapshot;
use zk_base::{Entry, NoMemory, Recorded, Service, Who};
use zk_model_wait::{ClockOp, ClockReply, ClockState};

/// The clock service: the time of a scenario, and who waits for which moment, with its history.
#[derive(Drop)]
pub struct Clock {
    inner: Recorded<ClockEngine>,
}

impl Clock {
    /// The clock before the first entry, at time 0. It takes no memory.
    pub fn new(alloc: Global) -> Clock
        ensures start { clock_start result ≡ new_clock }
        ensures history { clock_history result ≡ [] }
    {
        let start = Snapshot::of(&ClockState::new(alloc));
        Clock {
            inner: Recorded::new(alloc, start, ClockEngine::new(alloc)),
        }
    }
}

impl Service for Clock {
    type Op = ClockOp;

    type Reply = ClockReply;

    type State = ClockState;

    ghost use Rattle.std.specs.Prelude.{false};
    ghost use Rattle.zk_model_wait.specs.Clock.{clock_closes, clock_machine};
    ghost use Rattle.zk_time.specs.ClockSeen.{clock_start, clock_history};

    ghost machine = { clock_machine };

    ghost start = { clock_start };

    ghost history = { clock_history };

    ghost room = { λ c. c.inner.room };

    ghost closes = { λ s who op. clock_closes op };

    ghost grows = { λ op. false };

    // Nothing is published for looks.
    ghost word = { λ s index. 0 };

    ghost WORDS = { 0 };

    const WORDS: u32 = 0;

    ghost touched = { λ c. c.inner.touched };

    fn act(&mut self, who: Who, step: u32, op: ClockOp) -> Result<Option<ClockReply>, NoMemory> {
        self.inner.act(who, step, op)
    }

    fn is_futile(&self, who: Who, op: &ClockOp) -> bool {
        self.inner.is_futile(who, op)
    }

    fn reserve(&mut self) -> Result<(), NoMemory> {
        self.inner.reserve()
    }

    fn word(&self, index: u32) -> u32 {
        self.inner.word(index)
    }

    fn touched(&self) -> &[u32] {
        self.inner.touched()
    }

    fn room(&self) -> u64 {
        self.inner.room()
    }

    fn history(&self) -> &[Entry<ClockOp, ClockReply>] {
        self.inner.history()
    }

    fn into_history(self) -> Vec<Entry<ClockOp, ClockReply>> {
        let Clock { inner } = self;
        inner.into_history()
    }
}
