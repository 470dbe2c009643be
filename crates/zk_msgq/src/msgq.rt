ghost use Rattle.std.specs.Prelude.{◌≡◌, ◌≤◌, ◌↔◌, true, false, [], IfErr, IfOk};
ghost use Rattle.zk_model_wait.specs.Msgq.{new_msgq};
ghost use Rattle.zk_msgq.specs.Seen.{msgq_start, msgq_history};
ghost use Rattle.zk_msgq.specs.Sizes.{is_size};

use std::alloc::Global;
use std::snapshot::Snapshot;
use zk_base::{
    Entry, LONGEST_MESSAGE, MOST_HELD, NewRefused, NoMemory, PlainEngine, Recorded, Service, Who,
};
use zk_model_wait::{MsgqOp, MsgqReply, MsgqState, MsgqStore};

/// A message queue, with its history. Zephyr's `k_msgq`.
#[derive(Drop)]
pub struct Msgq {
    inner: Recorded<PlainEngine<MsgqStore>>,
}

impl Msgq {
    /// A message queue before the first entry, for so many messages of so many bytes. Zephyr's `k_msgq_init`.
    ///
    /// The answer is `Inval` where the size isn't 1 to 64 or the number isn't 1 to 256. The queue takes messages of any size:
    /// whoever makes calls keeps to the one that was declared.
    pub fn new(alloc: Global, size: u32, most: u32) -> Result<Msgq, NewRefused>
        ensures start { IfOk result (λ msgq. msgq_start msgq ≡ new_msgq most) }
        ensures history { IfOk result (λ msgq. msgq_history msgq ≡ []) }
        ensures takes { IfOk result (λ _. is_size size most ≡ true) }
        ensures inval { IfErr result (λ refused. (refused ≡ NewRefused.Inval) ↔ (is_size size most ≡ false)) }
    {
        if !is_size(size, most) {
            return Err(NewRefused::Inval);
        }
        match made(alloc, most) {
            Ok(msgq) => Ok(msgq),
            Err(NoMemory) => Err(NewRefused::NoMemory),
        }
    }
}

/// Whether a queue can be for so many messages of so many bytes.
fn is_size(size: u32, most: u32) -> bool
    ensures { result ≡ is_size size most }
{
    1 <= size && size <= LONGEST_MESSAGE as u32 && 1 <= most && most <= MOST_HELD
}

/// A message queue before the first entry.
fn made(alloc: Global, most: u32) -> Result<Msgq, NoMemory>
    requires { most ≤ 256 }
    ensures start { IfOk result (λ msgq. msgq_start msgq ≡ new_msgq most) }
    ensures history { IfOk result (λ msgq. msgq_history msgq ≡ []) }
{
    let state = MsgqState::new(alloc, most)?;
    let start = Snapshot::of(&state);
    let engine = PlainEngine::new(state.into_store());
    Ok(Msgq {
        inner: Recorded::new(alloc, start, engine),
    })
}

impl Service for Msgq {
    type Op = MsgqOp;

    type Reply = MsgqReply;

    type State = MsgqState;

    ghost use Rattle.std.specs.Prelude.{false};
    ghost use Rattle.zk_model_wait.specs.Msgq.{msgq_closes, msgq_machine};
    ghost use Rattle.zk_msgq.specs.Seen.{msgq_start, msgq_history};

    ghost machine = { msgq_machine };

    ghost start = { msgq_start };

    ghost history = { msgq_history };

    ghost room = { λ s. s.inner.room };

    ghost closes = { λ s who op. msgq_closes op };

    ghost grows = { λ op. false };

    // Nothing is published for looks.
    ghost word = { λ s index. 0 };

    ghost WORDS = { 0 };

    const WORDS: u32 = 0;

    ghost touched = { λ s. s.inner.touched };

    fn act(&mut self, who: Who, step: u32, op: MsgqOp) -> Result<Option<MsgqReply>, NoMemory> {
        self.inner.act(who, step, op)
    }

    fn is_futile(&self, who: Who, op: &MsgqOp) -> bool {
        self.inner.is_futile(who, op)
    }

    fn reserve(&mut self) -> Result<(), NoMemory> {
        self.inner.reserve()
    }

    fn word(&self, index: u32) -> u32 {
        self.inner.word(index)
    }

    fn touched(&self) -> &[u32] {
        self.inner.touched()
    }

    fn room(&self) -> u64 {
        self.inner.room()
    }

    fn history(&self) -> &[Entry<MsgqOp, MsgqReply>] {
        self.inner.history()
    }

    fn into_history(self) -> Vec<Entry<MsgqOp, MsgqReply>> {
        let Msgq { inner } = self;
        inner.into_history()
    }
}
