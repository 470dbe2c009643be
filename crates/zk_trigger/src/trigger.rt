ghost use Rattle.std.specs.Prelude.{◌≡◌, []};
ghost use Rattle.zk_model_trigger.specs.Machine.{new_triggers};
ghost use Rattle.zk_trigger.specs.Seen.{trigger_start, trigger_history};

use crate::engine::TriggerEngine;
use std::alloc::Global;
use std::snapshot::Snapshot;
use zk_base::{Entry, NoMemory, Recorded, Service, Who};
use zk_model_trigger::{TriggerOp, TriggerReply, TriggerState};

/// Triggers, with their history: which events are ready, which items are armed, and what has fired. Zephyr's `k_work_poll`.
#[derive(Drop)]
pub struct Trigger {
    inner: Recorded<TriggerEngine>,
}

impl Trigger {
    /// Triggers before the first entry: nothing is armed or ready, at time 0. It takes no memory.
    pub fn new(alloc: Global) -> Trigger
        ensures start { trigger_start result ≡ new_triggers }
        ensures history { trigger_history result ≡ [] }
    {
        let start = Snapshot::of(&TriggerState::new(alloc));
        Trigger {
            inner: Recorded::new(alloc, start, TriggerEngine::new(alloc)),
        }
    }
}

impl Service for Trigger {
    type Op = TriggerOp;

    type Reply = TriggerReply;

    type State = TriggerState;

    ghost use Rattle.std.specs.Prelude.{false};
    ghost use Rattle.zk_model_trigger.specs.Machine.{trigger_machine};
    ghost use Rattle.zk_trigger.specs.Seen.{trigger_start, trigger_history};

    ghost machine = { trigger_machine };

    ghost start = { trigger_start };

    ghost history = { trigger_history };

    ghost room = { λ t. t.inner.room };

    // Nothing is owed: an arm takes the room of its fire.
    ghost closes = { λ s who op. false };

    ghost grows = { λ op. false };

    // Nothing is published for looks.
    ghost word = { λ s index. 0 };

    ghost WORDS = { 0 };

    const WORDS: u32 = 0;

    ghost touched = { λ t. t.inner.touched };

    fn act(
        &mut self,
        who: Who,
        step: u32,
        op: TriggerOp,
    ) -> Result<Option<TriggerReply>, NoMemory> {
        self.inner.act(who, step, op)
    }

    fn is_futile(&self, who: Who, op: &TriggerOp) -> bool {
        self.inner.is_futile(who, op)
    }

    fn reserve(&mut self) -> Result<(), NoMemory> {
        self.inner.reserve()
    }

    fn word(&self, index: u32) -> u32 {
        self.inner.word(index)
    }

    fn touched(&self) -> &[u32] {
        self.inner.touched()
    }

    fn room(&self) -> u64 {
        self.inner.room()
    }

    fn history(&self) -> &[Entry<TriggerOp, TriggerReply>] {
        self.inner.history()
    }

    fn into_history(self) -> Vec<Entry<TriggerOp, TriggerReply>> {
        let Trigger { inner } = self;
        inner.into_history()
    }
}
