ghost use Rattle.std.specs.Prelude.{◌≡◌, ◌≢◌, ◌≤◌, [], length, AllPairs, IfOk};
ghost use Rattle.zk_model_work.specs.State.{start_of};
ghost use Rattle.zk_work.specs.Seen.{work_start, work_history};
ghost use Rattle.zk_work.specs.Words.{most_items, most_queues};

use crate::engine::{MOST_ITEMS, WorkEngine};
use std::alloc::Global;
use std::snapshot::Snapshot;
use zk_base::{Entry, NoMemory, Recorded, Service, Who};
use zk_model_work::{WorkOp, WorkReply, WorkState};

/// The work service: all items and queues, with one history.
#[derive(Drop)]
pub struct Work {
    // It lies apart, so that a turn of a cell moves eight bytes.
    inner: Box<Recorded<WorkEngine>>,
}

impl Work {
    /// The service before the first entry: so many items, and a queue for each worker.
    ///
    /// The workers' numbers are those of their players, in the order of the queues.
    pub fn new(
        alloc: Global,
        items: u32,
        workers: &[u32],
        started: &[bool],
    ) -> Result<Work, NoMemory>
        requires same { length workers.now ≡ length started.now }
        requires differ { AllPairs (λ a b. a ≢ b) workers.now }
        requires queues { length workers.now ≤ most_queues }
        requires items { items ≤ most_items }
        ensures { IfOk result (λ w.
            (work_start w ≡ start_of items workers.now started.now) × (work_history w ≡ [])) }
    {
        let start = Snapshot::of(&WorkState::new(alloc, items, workers, started)?);
        let engine = WorkEngine::new(alloc, items, workers, started)?;
        let inner = Box::new(alloc, Recorded::new(alloc, start, engine))?;
        Ok(Work { inner })
    }
}

impl Service for Work {
    type Op = WorkOp;

    type Reply = WorkReply;

    type State = WorkState;

    ghost use Rattle.zk_model_work.specs.Machine.{work_machine};
    ghost use Rattle.zk_work.specs.EngineState.{work_closes, work_grows};
    ghost use Rattle.zk_work.specs.Seen.{work_start, work_history};
    ghost use Rattle.zk_work.specs.Words.{work_word, most_items};

    ghost machine = { work_machine };

    ghost start = { work_start };

    ghost history = { work_history };

    ghost room = { λ w. w.inner.value.room };

    ghost closes = { λ s who op. work_closes op };

    ghost grows = { work_grows };

    ghost word = { work_word };

    ghost WORDS = { most_items };

    const WORDS: u32 = MOST_ITEMS;

    ghost touched = { λ w. w.inner.value.touched };

    fn act(&mut self, who: Who, step: u32, op: WorkOp) -> Result<Option<WorkReply>, NoMemory> {
        self.inner.act(who, step, op)
    }

    fn is_futile(&self, who: Who, op: &WorkOp) -> bool {
        self.inner.is_futile(who, op)
    }

    fn reserve(&mut self) -> Result<(), NoMemory> {
        self.inner.reserve()
    }

    fn word(&self, index: u32) -> u32 {
        self.inner.word(index)
    }

    fn touched(&self) -> &[u32] {
        self.inner.touched()
    }

    fn room(&self) -> u64 {
        self.inner.room()
    }

    fn history(&self) -> &[Entry<WorkOp, WorkReply>] {
        self.inner.history()
    }

    fn into_history(self) -> Vec<Entry<WorkOp, WorkReply>> {
        let Work { inner } = self;
        Box::into_inner(inner).into_history()
    }
}
