ghost use Rattle.std.specs.Prelude.{◌≡◌, true, []};
ghost use Rattle.zk_msgsub.specs.Fan.{are_subscribers, new_fan};
ghost use Rattle.zk_msgsub.specs.FanSeen.{fan_start, fan_history};

use crate::fan::Fan;
use crate::fan_state::{FanOp, FanReply, FanState};
use std::alloc::Global;
use std::snapshot::Snapshot;
use zk_base::{Entry, Few, NoMemory, Recorded, Service, Who};

impl Fan {
    /// A fan before the first entry, which lists these subscribers: different ones of 0 to 7. It takes no memory.
    pub fn new(alloc: Global, first: Few) -> Fan
        requires { are_subscribers first ≡ true }
        ensures start { fan_start result ≡ new_fan first }
        ensures history { fan_history result ≡ [] }
    {
        let state = FanState::new(first);
        let start = Snapshot::of(&state);
        Fan {
            inner: Recorded::new(alloc, start, state),
        }
    }
}

impl Service for Fan {
    type Op = FanOp;

    type Reply = FanReply;

    type State = FanState;

    ghost use Rattle.std.specs.Prelude.{false};
    ghost use Rattle.zk_msgsub.specs.Fan.{fan_machine};
    ghost use Rattle.zk_msgsub.specs.FanSeen.{fan_start, fan_history};

    ghost machine = { fan_machine };

    ghost start = { fan_start };

    ghost history = { fan_history };

    ghost room = { λ f. f.inner.room };

    ghost closes = { λ s who op. false };

    ghost grows = { λ op. false };

    // Nothing is published for looks.
    ghost word = { λ s index. 0 };

    ghost WORDS = { 0 };

    const WORDS: u32 = 0;

    ghost touched = { λ f. f.inner.touched };

    fn act(&mut self, who: Who, step: u32, op: FanOp) -> Result<Option<FanReply>, NoMemory> {
        self.inner.act(who, step, op)
    }

    fn is_futile(&self, who: Who, op: &FanOp) -> bool {
        self.inner.is_futile(who, op)
    }

    fn reserve(&mut self) -> Result<(), NoMemory> {
        self.inner.reserve()
    }

    fn word(&self, index: u32) -> u32 {
        self.inner.word(index)
    }

    fn touched(&self) -> &[u32] {
        self.inner.touched()
    }

    fn room(&self) -> u64 {
        self.inner.room()
    }

    fn history(&self) -> &[Entry<FanOp, FanReply>] {
        self.inner.history()
    }

    fn into_history(self) -> Vec<Entry<FanOp, FanReply>> {
        let Fan { inner } = self;
        inner.into_history()
    }
}
