ghost use Rattle.std.specs.Prelude.{◌≡◌, ◌≤◌};
ghost use Rattle.zk_model_wait.specs.Signal.{new_signal, signal_seen, written};
ghost use Rattle.zk_poll.specs.Words.{word_of};

use zk_base::{Engine, NoMemory, Seen, Who};
use zk_model_wait::{SignalOp, SignalReply, SignalState};

/// What a signal keeps: its last value, with the stamp of that. The writes before it are forgotten.
#[derive(Drop)]
pub struct SignalEngine {
    last: Seen,
}

impl SignalEngine {
    /// The engine before the first write. It takes no memory.
    pub fn new() -> SignalEngine
        ensures { result.last ≡ signal_seen new_signal }
    {
        SignalEngine {
            last: Seen {
                raised: false,
                result: 0,
                stamp: 0,
            },
        }
    }
}

/// What a write leaves, at its stamp.
pub fn written(stamp: u32, op: &SignalOp) -> Seen
    ensures { result ≡ written stamp op.now }
{
    match *op {
        SignalOp::Raise(value) => Seen {
            raised: true,
            result: value,
            stamp,
        },
        SignalOp::Clear => Seen {
            raised: false,
            result: 0,
            stamp,
        },
    }
}

/// The word of a value: its result, and 65,536 where it is raised.
fn word_of(seen: &Seen) -> u32
    ensures { result ≡ word_of seen.now }
{
    if seen.raised {
        seen.result as u32 + 65_536
    } else {
        0
    }
}

impl Engine for SignalEngine {
    type Op = SignalOp;

    type Reply = SignalReply;

    type State = SignalState;

    ghost use Rattle.std.specs.Prelude.{◌≡◌, ◌-◌, ◌^◌, length, false, []};
    ghost use Rattle.zk_model_wait.specs.Signal.{signal_seen, signal_machine};
    ghost use Rattle.zk_poll.specs.Words.{signal_word};

    ghost stands_for = { λ e s. e.last ≡ signal_seen s };

    ghost room = { λ e. 2 ^ 64 - 1 };

    ghost machine = { signal_machine };

    ghost entries = { λ s. length s.writes };

    ghost owed = { λ s. 0 };

    ghost closes = { λ s who op. false };

    ghost grows = { λ op. false };

    ghost word = { signal_word };

    ghost WORDS = { 0 };

    const WORDS: u32 = 0;

    ghost touched = { λ e. [] };

    fn step(
        &mut self,
        _who: Who,
        op: &SignalOp,
    ) -> Result<Option<(SignalReply, SignalReply)>, NoMemory> {
        let stamp = self.last.stamp + 1;
        self.last = written(stamp, op);
        Ok(Some((SignalReply::Stamp(stamp), SignalReply::Stamp(stamp))))
    }

    fn is_closing(&self, _who: Who, _op: &SignalOp) -> bool {
        false
    }

    fn is_futile(&self, _who: Who, _op: &SignalOp) -> bool {
        false
    }

    fn owed(&self) -> u64 {
        0
    }

    fn word(&self, index: u32) -> u32 {
        match index {
            0 => word_of(&self.last),
            _ => 0,
        }
    }

    fn touched(&self) -> &[u32] {
        &[]
    }

    fn reserve(&mut self) -> Result<(), NoMemory> {
        Ok(())
    }

    fn room(&self) -> u64 {
        u64::MAX
    }

    fn counts_entries() {}
}
