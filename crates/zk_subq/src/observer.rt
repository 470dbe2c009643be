ghost use Rattle.std.specs.Prelude.{◌≡◌, true, None, Some, [], IfOk};
ghost use Rattle.zk_model_bus.specs.Observer.{new_obs};
ghost use Rattle.zk_subq.specs.Seen.{obs_start, obs_history};
ghost use Rattle.zk_subq.specs.Sizes.{is_capacity};

use std::alloc::Global;
use std::snapshot::Snapshot;
use zk_base::{Entry, NoMemory, PlainEngine, Recorded, Service, Who};
use zk_model_bus::{ObsOp, ObsReply, ObsState, ObsStore};

/// An observer of channels, with its history: a listener or a subscriber. Zephyr's `zbus_observer`.
#[derive(Drop)]
pub struct Observer {
    inner: Recorded<PlainEngine<ObsStore>>,
}

impl Observer {
    /// A listener before the first entry. Zephyr's `ZBUS_LISTENER_DEFINE`. It takes no memory.
    pub fn listener(alloc: Global) -> Observer
        ensures start { obs_start result ≡ new_obs None }
        ensures history { obs_history result ≡ [] }
    {
        let state = ObsState::listener(alloc);
        let start = Snapshot::of(&state);
        let engine = PlainEngine::new(state.into_store());
        Observer {
            inner: Recorded::new(alloc, start, engine),
        }
    }

    /// A subscriber before the first entry, whose list has room for so many channels, 1 to 256. Zephyr's
    /// `ZBUS_SUBSCRIBER_DEFINE`.
    pub fn subscriber(alloc: Global, capacity: u32) -> Result<Observer, NoMemory>
        requires { is_capacity capacity ≡ true }
        ensures start { IfOk result (λ observer. obs_start observer ≡ new_obs (Some capacity)) }
        ensures history { IfOk result (λ observer. obs_history observer ≡ []) }
    {
        let state = ObsState::subscriber(alloc, capacity)?;
        let start = Snapshot::of(&state);
        let engine = PlainEngine::new(state.into_store());
        Ok(Observer {
            inner: Recorded::new(alloc, start, engine),
        })
    }
}

impl Service for Observer {
    type Op = ObsOp;

    type Reply = ObsReply;

    type State = ObsState;

    ghost use Rattle.std.specs.Prelude.{false};
    ghost use Rattle.zk_model_bus.specs.Observer.{obs_closes, obs_machine};
    ghost use Rattle.zk_subq.specs.Seen.{obs_start, obs_history};

    ghost machine = { obs_machine };

    ghost start = { obs_start };

    ghost history = { obs_history };

    ghost room = { λ s. s.inner.room };

    ghost closes = { λ s who op. obs_closes op };

    ghost grows = { λ op. false };

    // Nothing is published for looks.
    ghost word = { λ s index. 0 };

    ghost WORDS = { 0 };

    const WORDS: u32 = 0;

    ghost touched = { λ s. s.inner.touched };

    fn act(&mut self, who: Who, step: u32, op: ObsOp) -> Result<Option<ObsReply>, NoMemory> {
        self.inner.act(who, step, op)
    }

    fn is_futile(&self, who: Who, op: &ObsOp) -> bool {
        self.inner.is_futile(who, op)
    }

    fn reserve(&mut self) -> Result<(), NoMemory> {
        self.inner.reserve()
    }

    fn word(&self, index: u32) -> u32 {
        self.inner.word(index)
    }

    fn touched(&self) -> &[u32] {
        self.inner.touched()
    }

    fn room(&self) -> u64 {
        self.inner.room()
    }

    fn history(&self) -> &[Entry<ObsOp, ObsReply>] {
        self.inner.history()
    }

    fn into_history(self) -> Vec<Entry<ObsOp, ObsReply>> {
        let Observer { inner } = self;
        inner.into_history()
    }
}
