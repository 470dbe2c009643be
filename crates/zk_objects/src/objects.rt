ghost use Rattle.std.specs.Prelude.{◌≡◌, [], IfOk};
ghost use Rattle.zk_model_bus.specs.Table.{IsSetup, new_table};
ghost use Rattle.zk_objects.specs.Seen.{objects_start, objects_history};

use crate::engine::ObjectsEngine;
use std::alloc::Global;
use std::snapshot::Snapshot;
use zk_base::{Entry, NoMemory, Recorded, Service, Who};
use zk_model_bus::{TableOp, TableReply, TableSetup, TableState};

/// The object table, with its history: who may use which object. Zephyr's kernel objects and their permissions.
#[derive(Drop)]
pub struct Objects {
    inner: Recorded<ObjectsEngine>,
}

impl Objects {
    /// The table before the first entry.
    pub fn new(alloc: Global, setup: &TableSetup) -> Result<Objects, NoMemory>
        requires { IsSetup setup.now }
        ensures start { IfOk result (λ objects. objects_start objects ≡ new_table setup.now) }
        ensures history { IfOk result (λ objects. objects_history objects ≡ []) }
    {
        let start = Snapshot::of(&TableState::new(alloc, setup)?);
        let engine = ObjectsEngine::new(alloc, setup)?;
        Ok(Objects {
            inner: Recorded::new(alloc, start, engine),
        })
    }
}

impl Service for Objects {
    type Op = TableOp;

    type Reply = TableReply;

    type State = TableState;

    ghost use Rattle.std.specs.Prelude.{false};
    ghost use Rattle.zk_model_bus.specs.Table.{table_machine};
    ghost use Rattle.zk_objects.specs.Seen.{objects_start, objects_history};

    ghost machine = { table_machine };

    ghost start = { objects_start };

    ghost history = { objects_history };

    ghost room = { λ s. s.inner.room };

    ghost closes = { λ s who op. false };

    ghost grows = { λ op. false };

    // Nothing is published for looks.
    ghost word = { λ s index. 0 };

    ghost WORDS = { 0 };

    const WORDS: u32 = 0;

    ghost touched = { λ s. s.inner.touched };

    fn act(&mut self, who: Who, step: u32, op: TableOp) -> Result<Option<TableReply>, NoMemory> {
        self.inner.act(who, step, op)
    }

    fn is_futile(&self, who: Who, op: &TableOp) -> bool {
        self.inner.is_futile(who, op)
    }

    fn reserve(&mut self) -> Result<(), NoMemory> {
        self.inner.reserve()
    }

    fn word(&self, index: u32) -> u32 {
        self.inner.word(index)
    }

    fn touched(&self) -> &[u32] {
        self.inner.touched()
    }

    fn room(&self) -> u64 {
        self.inner.room()
    }

    fn history(&self) -> &[Entry<TableOp, TableReply>] {
        self.inner.history()
    }

    fn into_history(self) -> Vec<Entry<TableOp, TableReply>> {
        let Objects { inner } = self;
        inner.into_history()
    }
}
