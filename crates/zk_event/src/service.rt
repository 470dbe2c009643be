ghost use Rattle.std.specs.Prelude.{◌≡◌, [], IfOk};
ghost use Rattle.zk_event.specs.Event.{new_event};
ghost use Rattle.zk_event.specs.Seen.{event_start, event_history};

use crate::engine::EventEngine;
use crate::{EventOp, EventReply, EventState};
use std::alloc::Global;
use std::snapshot::Snapshot;
use zk_base::{Entry, NoMemory, Recorded, Service, Who};

/// An event object, with its history. Zephyr's `k_event`.
#[derive(Drop)]
pub struct Event {
    // It lies apart, so that a turn of a cell moves eight bytes.
    inner: Box<Recorded<EventEngine>>,
}

impl Event {
    /// An event object before the first entry: it has no bit. Zephyr's `k_event_init`.
    pub fn new(alloc: Global) -> Result<Event, NoMemory>
        ensures start { IfOk result (λ e. event_start e ≡ new_event) }
        ensures history { IfOk result (λ e. event_history e ≡ []) }
    {
        let state = EventState::new(alloc);
        let start = Snapshot::of(&state);
        let engine = EventEngine::new(state.into_store());
        let inner = Box::new(alloc, Recorded::new(alloc, start, engine))?;
        Ok(Event { inner })
    }
}

impl Service for Event {
    type Op = EventOp;

    type Reply = EventReply;

    type State = EventState;

    ghost use Rattle.std.specs.Prelude.{false};
    ghost use Rattle.zk_event.specs.Event.{event_closes, event_machine, event_word};
    ghost use Rattle.zk_event.specs.Seen.{event_start, event_history};

    ghost machine = { event_machine };

    ghost start = { event_start };

    ghost history = { event_history };

    ghost room = { λ s. s.inner.value.room };

    ghost closes = { λ s who op. event_closes op };

    ghost grows = { λ op. false };

    ghost word = { event_word };

    // The bits.
    ghost WORDS = { 1 };

    const WORDS: u32 = 1;

    ghost touched = { λ s. s.inner.value.touched };

    fn act(&mut self, who: Who, step: u32, op: EventOp) -> Result<Option<EventReply>, NoMemory> {
        self.inner.act(who, step, op)
    }

    fn is_futile(&self, who: Who, op: &EventOp) -> bool {
        self.inner.is_futile(who, op)
    }

    fn reserve(&mut self) -> Result<(), NoMemory> {
        self.inner.reserve()
    }

    fn word(&self, index: u32) -> u32 {
        self.inner.word(index)
    }

    fn touched(&self) -> &[u32] {
        self.inner.touched()
    }

    fn room(&self) -> u64 {
        self.inner.room()
    }

    fn history(&self) -> &[Entry<EventOp, EventReply>] {
        self.inner.history()
    }

    fn into_history(self) -> Vec<Entry<EventOp, EventReply>> {
        let Event { inner } = self;
        Box::into_inner(inner).into_history()
    }
}
