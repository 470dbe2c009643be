ghost use Rattle.std.specs.Prelude.{◌≡◌, []};
ghost use Rattle.zk_base.specs.Legal.{state_after};
ghost use Rattle.zk_model_wait.specs.Signal.{new_signal, signal_seen, signal_machine};
ghost use Rattle.zk_poll.specs.Seen.{signal_start, signal_history, left_by};

use crate::signal_engine::{SignalEngine, written};
use std::alloc::Global;
use std::marker::Model;
use std::snapshot::Snapshot;
use zk_base::{Entry, NoMemory, Recorded, Seen, Service, Who};
use zk_model_wait::{SignalOp, SignalReply, SignalState};

/// A signal, with its history. Zephyr's `k_poll_signal`.
#[derive(Drop)]
pub struct Signal {
    inner: Recorded<SignalEngine>,
}

impl Model for Signal {
    ghost use Rattle.std.specs.Prelude.{◌≡◌};
    ghost use Rattle.zk_base.specs.RecordedView.{RecordedView};
    ghost use Rattle.zk_model_wait.specs.Signal.{new_signal};
    ghost use Rattle.zk_model_wait.specs.Signal as model;
    ghost use Rattle.zk_model_wait.specs.declared.signal.SignalOp.{SignalOp};
    ghost use Rattle.zk_model_wait.specs.declared.signal.SignalReply.{SignalReply};

    ghost Value = { RecordedView model.Signal SignalOp SignalReply };

    ghost view = { λ s. s.inner };

    ghost invariant = { λ s. s.inner.start ≡ new_signal };
}

impl Signal {
    /// A signal before the first write, which isn't raised. Zephyr's `k_poll_signal_init`. It takes no memory.
    pub fn new(alloc: Global) -> Signal
        ensures start { signal_start result ≡ new_signal }
        ensures history { signal_history result ≡ [] }
    {
        let start = Snapshot::of(&SignalState::new(alloc));
        let engine = SignalEngine::new();
        Signal {
            inner: Recorded::new(alloc, start, engine),
        }
    }

    /// What a look finds now: the last write, with its stamp, which is the number of all writes. Zephyr's `k_poll_signal_check`.
    pub fn seen(&self) -> Seen
        ensures seen { result ≡ signal_seen (state_after signal_machine (signal_start self.now) (signal_history self.now)) }
        ensures start { signal_start self.now ≡ new_signal }
    {
        match self.inner.history().last() {
            Some(entry) => left_by(entry),
            None => Seen {
                raised: false,
                result: 0,
                stamp: 0,
            },
        }
    }
}

/// What the write of an entry leaves.
fn left_by(entry: &Entry<SignalOp, SignalReply>) -> Seen
    ensures { result ≡ left_by entry.now }
{
    let SignalReply::Stamp(stamp) = entry.reply;
    written(stamp, &entry.op)
}

impl Service for Signal {
    type Op = SignalOp;

    type Reply = SignalReply;

    type State = SignalState;

    ghost use Rattle.std.specs.Prelude.{false};
    ghost use Rattle.zk_model_wait.specs.Signal.{signal_machine};
    ghost use Rattle.zk_poll.specs.Seen.{signal_start, signal_history};
    ghost use Rattle.zk_poll.specs.Words.{signal_word};

    ghost machine = { signal_machine };

    ghost start = { signal_start };

    ghost history = { signal_history };

    ghost room = { λ s. s.room };

    ghost closes = { λ s who op. false };

    ghost grows = { λ op. false };

    ghost word = { signal_word };

    ghost WORDS = { 0 };

    const WORDS: u32 = 0;

    ghost touched = { λ s. s.touched };

    fn act(&mut self, who: Who, step: u32, op: SignalOp) -> Result<Option<SignalReply>, NoMemory> {
        self.inner.act(who, step, op)
    }

    fn is_futile(&self, who: Who, op: &SignalOp) -> bool {
        self.inner.is_futile(who, op)
    }

    fn reserve(&mut self) -> Result<(), NoMemory> {
        self.inner.reserve()
    }

    fn word(&self, index: u32) -> u32 {
        self.inner.word(index)
    }

    fn touched(&self) -> &[u32] {
        self.inner.touched()
    }

    fn room(&self) -> u64 {
        self.inner.room()
    }

    fn history(&self) -> &[Entry<SignalOp, SignalReply>] {
        self.inner.history()
    }

    fn into_history(self) -> Vec<Entry<SignalOp, SignalReply>> {
        let Signal { inner } = self;
        inner.into_history()
    }
}
