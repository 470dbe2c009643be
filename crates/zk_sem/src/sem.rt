ghost use Rattle.std.specs.Prelude.{◌≡◌, ◌<◌, ◌⊎◌, ◌↔◌, [], IsErr, IfErr, IfOk};
ghost use Rattle.zk_model_wait.specs.Sem.{new_sem};
ghost use Rattle.zk_sem.specs.Seen.{sem_start, sem_history};

use std::alloc::Global;
use std::snapshot::Snapshot;
use zk_base::{Entry, Errno, NoMemory, PlainEngine, Recorded, Service, Who};
use zk_model_wait::{SemOp, SemReply, SemState, SemStore};

/// A semaphore, with its history. Zephyr's `k_sem`.
#[derive(Drop)]
pub struct Sem {
    inner: Recorded<PlainEngine<SemStore>>,
}

impl Sem {
    /// A semaphore before the first entry, at this count, which never passes the limit. Zephyr's `k_sem_init`. It
    /// takes no memory.
    ///
    /// The answer is `Inval` where the limit is 0 or the count is above it.
    pub fn new(alloc: Global, initial: u32, limit: u32) -> Result<Sem, Errno>
        ensures start { IfOk result (λ sem. sem_start sem ≡ new_sem initial limit) }
        ensures history { IfOk result (λ sem. sem_history sem ≡ []) }
        ensures refused { IsErr result ↔ ((limit ≡ 0) ⊎ (limit < initial)) }
        ensures inval { IfErr result (λ errno. errno ≡ Errno.Inval) }
    {
        if limit == 0 || limit < initial {
            return Err(Errno::Inval);
        }
        let state = SemState::new(alloc, initial, limit);
        let start = Snapshot::of(&state);
        let engine = PlainEngine::new(state.into_store());
        Ok(Sem {
            inner: Recorded::new(alloc, start, engine),
        })
    }
}

impl Service for Sem {
    type Op = SemOp;

    type Reply = SemReply;

    type State = SemState;

    ghost use Rattle.std.specs.Prelude.{false};
    ghost use Rattle.zk_model_wait.specs.Sem.{sem_closes, sem_machine};
    ghost use Rattle.zk_sem.specs.Seen.{sem_start, sem_history};

    ghost machine = { sem_machine };

    ghost start = { sem_start };

    ghost history = { sem_history };

    ghost room = { λ s. s.inner.room };

    ghost closes = { λ s who op. sem_closes op };

    ghost grows = { λ op. false };

    // Nothing is published for looks.
    ghost word = { λ s index. 0 };

    ghost WORDS = { 0 };

    const WORDS: u32 = 0;

    ghost touched = { λ s. s.inner.touched };

    fn act(&mut self, who: Who, step: u32, op: SemOp) -> Result<Option<SemReply>, NoMemory> {
        self.inner.act(who, step, op)
    }

    fn is_futile(&self, who: Who, op: &SemOp) -> bool {
        self.inner.is_futile(who, op)
    }

    fn reserve(&mut self) -> Result<(), NoMemory> {
        self.inner.reserve()
    }

    fn word(&self, index: u32) -> u32 {
        self.inner.word(index)
    }

    fn touched(&self) -> &[u32] {
        self.inner.touched()
    }

    fn room(&self) -> u64 {
        self.inner.room()
    }

    fn history(&self) -> &[Entry<SemOp, SemReply>] {
        self.inner.history()
    }

    fn into_history(self) -> Vec<Entry<SemOp, SemReply>> {
        let Sem { inner } = self;
        inner.into_history()
    }
}
