ghost use Rattle.std.specs.Prelude.{◌≡◌};

use crate::{EventOp, EventReply, EventState, EventStore};
use zk_base::{Engine, NoMemory, Store, Who};

/// The engine that keeps the machine's state as the definition has it, and publishes the bits.
#[derive(Drop)]
pub struct EventEngine {
    store: EventStore,
}

impl EventEngine {
    /// The engine of what is kept.
    pub fn new(store: EventStore) -> EventEngine
        ensures { result.store ≡ store }
    {
        EventEngine { store }
    }
}

impl Engine for EventEngine {
    type Op = EventOp;

    type Reply = EventReply;

    type State = EventState;

    ghost use Rattle.std.specs.Prelude.{◌≡◌, false, [], ◌∷◌};
    ghost use Rattle.zk_base.specs.Waits.{open_waits};
    ghost use Rattle.zk_event.specs.Event.{event_closes, event_machine, event_word};

    ghost stands_for = { λ e s. e.store.event ≡ s };

    ghost room = { λ e. e.store.room };

    ghost machine = { event_machine };

    ghost entries = { λ s. s.entries };

    ghost owed = { λ s. open_waits s.waits };

    ghost closes = { λ s who op. event_closes op };

    ghost grows = { λ op. false };

    ghost word = { event_word };

    // The bits.
    ghost WORDS = { 1 };

    const WORDS: u32 = 1;

    ghost touched = { λ e. 0 ∷ [] };

    fn step(
        &mut self,
        who: Who,
        op: &EventOp,
    ) -> Result<Option<(EventReply, EventReply)>, NoMemory> {
        match self.store.next(who, op)? {
            None => Ok(None),
            Some(reply) => {
                let kept = reply;
                Ok(Some((reply, kept)))
            }
        }
    }

    fn is_closing(&self, who: Who, op: &EventOp) -> bool {
        self.store.is_closing(who, op)
    }

    fn is_futile(&self, who: Who, op: &EventOp) -> bool {
        self.store.is_futile(who, op)
    }

    fn owed(&self) -> u64 {
        self.store.owed()
    }

    fn word(&self, index: u32) -> u32 {
        match index {
            0 => self.store.bits() as u32,
            _ => 0,
        }
    }

    fn touched(&self) -> &[u32] {
        &[0]
    }

    fn reserve(&mut self) -> Result<(), NoMemory> {
        self.store.reserve(3)
    }

    fn room(&self) -> u64 {
        self.store.room()
    }

    fn counts_entries() {
        EventStore::counts_entries()
    }
}
