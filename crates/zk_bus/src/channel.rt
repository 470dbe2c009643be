ghost use Rattle.std.specs.Prelude.{◌≡◌, ◌≤◌, [], length, IfOk};
ghost use Rattle.zk_base.specs.Limits.{most_few};
ghost use Rattle.zk_model_bus.specs.Channel.{new_chan};
ghost use Rattle.zk_bus.specs.Seen.{chan_start, chan_history};

use std::alloc::Global;
use std::snapshot::Snapshot;
use zk_base::{Entry, Msg, NoMemory, PlainEngine, Recorded, Service, Who};
use zk_model_bus::{ChanOp, ChanReply, ChanState, ChanStore, Valid};

/// A channel, with its history. Zephyr's `zbus_channel`.
#[derive(Drop)]
pub struct Channel {
    inner: Recorded<PlainEngine<ChanStore>>,
}

impl Channel {
    /// A channel before the first entry, with the message that it has at first, which its validator isn't asked of, and the
    /// object numbers of its observers, in declared order. Zephyr's `ZBUS_CHAN_DEFINE`.
    pub fn new(
        alloc: Global,
        initial: Msg,
        valid: Valid,
        observers: &[u32],
    ) -> Result<Channel, NoMemory>
        requires few { length observers.now ≤ most_few }
        ensures start { IfOk result (λ channel. chan_start channel ≡ new_chan initial valid observers.now) }
        ensures history { IfOk result (λ channel. chan_history channel ≡ []) }
    {
        let state = ChanState::new(alloc, initial, valid, observers)?;
        let start = Snapshot::of(&state);
        let engine = PlainEngine::new(state.into_store());
        Ok(Channel {
            inner: Recorded::new(alloc, start, engine),
        })
    }
}

impl Service for Channel {
    type Op = ChanOp;

    type Reply = ChanReply;

    type State = ChanState;

    ghost use Rattle.std.specs.Prelude.{false};
    ghost use Rattle.zk_model_bus.specs.Channel.{chan_closes, chan_machine};
    ghost use Rattle.zk_bus.specs.Seen.{chan_start, chan_history};

    ghost machine = { chan_machine };

    ghost start = { chan_start };

    ghost history = { chan_history };

    ghost room = { λ s. s.inner.room };

    ghost closes = { chan_closes };

    ghost grows = { λ op. false };

    // Nothing is published for looks.
    ghost word = { λ s index. 0 };

    ghost WORDS = { 0 };

    const WORDS: u32 = 0;

    ghost touched = { λ s. s.inner.touched };

    fn act(&mut self, who: Who, step: u32, op: ChanOp) -> Result<Option<ChanReply>, NoMemory> {
        self.inner.act(who, step, op)
    }

    fn is_futile(&self, who: Who, op: &ChanOp) -> bool {
        self.inner.is_futile(who, op)
    }

    fn reserve(&mut self) -> Result<(), NoMemory> {
        self.inner.reserve()
    }

    fn word(&self, index: u32) -> u32 {
        self.inner.word(index)
    }

    fn touched(&self) -> &[u32] {
        self.inner.touched()
    }

    fn room(&self) -> u64 {
        self.inner.room()
    }

    fn history(&self) -> &[Entry<ChanOp, ChanReply>] {
        self.inner.history()
    }

    fn into_history(self) -> Vec<Entry<ChanOp, ChanReply>> {
        let Channel { inner } = self;
        inner.into_history()
    }
}
