ghost use Rattle.std.specs.Prelude.{◌≡◌, ℕ, ◌==◌, ◌&&◌, ◌||◌, ◌+◌, ◌≤◌, IsOk, IfOk, OnErr};
ghost use Rattle.zk_model_bus.specs.Table.{IsSetup, new_table, enters, is_oops};
ghost use Rattle.zk_objects.specs.Kept.{IsStateOf, answered};
ghost use Rattle.zk_objects.specs.Players.{is_marked};

use crate::first::{first_objects, first_users};
use crate::marks::Marks;
use crate::object::{Object, answer, change};
use std::alloc::Global;
use zk_base::{Engine, NoMemory, Who};
use zk_model_bus::{TableOp, TableReply, TableSetup, TableState, is_for};
use zk_player_set::PlayerSet;

/// What the object table keeps: the permissions and the flags of each object, who is a user, and who is dead.
#[derive(Drop)]
pub struct ObjectsEngine {
    objects: Vec<Object>,
    users: Marks,
    dead: Marks,
}

impl ObjectsEngine {
    /// The engine before the first entry.
    pub fn new(alloc: Global, setup: &TableSetup) -> Result<ObjectsEngine, NoMemory>
        requires { IsSetup setup.now }
        ensures { IfOk result (λ e. IsStateOf e.objects.items e.users e.dead (new_table setup.now)) }
    {
        Ok(ObjectsEngine {
            objects: first_objects(alloc, setup)?,
            users: Marks::new(alloc, first_users(&setup.threads)),
            dead: Marks::new(alloc, PlayerSet::none()),
        })
    }

    /// Answers an operation that is possible, and marks its caller: as a user where it enters, and as dead at an oops.
    fn mark(&mut self, player: u32, op: &TableOp) -> Result<TableReply, NoMemory>
        ensures reply { IfOk result (λ reply. reply ≡ answered self.old.objects.items player op.now) }
        ensures objects { self.new.objects.items ≡ self.old.objects.items }
        ensures users { IfOk result (λ _. (other : ℕ) →
            is_marked self.new.users other ≡ (is_marked self.old.users other || (player == other && enters op.now))) }
        ensures dead { IfOk result (λ _. (other : ℕ) → is_marked self.new.dead other
            ≡ (is_marked self.old.dead other || (player == other && is_oops (answered self.old.objects.items player op.now)))) }
        ensures same_users { OnErr result ((other : ℕ) → is_marked self.new.users other ≡ is_marked self.old.users other) }
        ensures same_dead { OnErr result ((other : ℕ) → is_marked self.new.dead other ≡ is_marked self.old.dead other) }
        ensures roomy { 1 ≤ self.old.users.room → 1 ≤ self.old.dead.room → IsOk result }
        ensures users_room { self.old.users.room ≤ self.new.users.room + 1 }
        ensures dead_room { self.old.dead.room ≤ self.new.dead.room + 1 }
        ensures users_kept { OnErr result (self.old.users.room ≤ self.new.users.room) }
        ensures dead_kept { OnErr result (self.old.dead.room ≤ self.new.dead.room) }
    {
        let reply = answer(&self.objects, player, op);
        match (op, reply) {
            (TableOp::EnterUser, _) => self.users.insert(player)?,
            (_, TableReply::Oops(_)) => self.dead.insert(player)?,
            _ => {}
        }
        Ok(reply)
    }
}

impl Engine for ObjectsEngine {
    type Op = TableOp;

    type Reply = TableReply;

    type State = TableState;

    ghost use Rattle.std.specs.Prelude.{false, length, min, []};
    ghost use Rattle.zk_model_bus.specs.Table.{table_machine};
    ghost use Rattle.zk_objects.specs.Kept.{IsStateOf};

    ghost stands_for = { λ e s. IsStateOf e.objects.items e.users e.dead s };

    ghost room = { λ e. min e.users.room e.dead.room };

    ghost machine = { table_machine };

    ghost entries = { λ s. length s.entries };

    ghost owed = { λ s. 0 };

    ghost closes = { λ s who op. false };

    ghost grows = { λ op. false };

    // Nothing is published for looks.
    ghost word = { λ s index. 0 };

    ghost WORDS = { 0 };

    const WORDS: u32 = 0;

    ghost touched = { λ e. [] };

    fn step(
        &mut self,
        who: Who,
        op: &TableOp,
    ) -> Result<Option<(TableReply, TableReply)>, NoMemory> {
        if self.dead.has(who.number) || !is_for(self.users.has(who.number), op) {
            return Ok(None);
        }
        let reply = self.mark(who.number, op)?;
        change(&mut self.objects, who.number, op);
        Ok(Some((reply, reply)))
    }

    fn is_closing(&self, _who: Who, _op: &TableOp) -> bool {
        false
    }

    fn is_futile(&self, _who: Who, _op: &TableOp) -> bool {
        false
    }

    fn owed(&self) -> u64 {
        0
    }

    fn word(&self, _index: u32) -> u32 {
        0
    }

    fn touched(&self) -> &[u32] {
        &[]
    }

    fn reserve(&mut self) -> Result<(), NoMemory> {
        self.users.reserve(3)?;
        self.dead.reserve(3)
    }

    fn room(&self) -> u64 {
        self.users.room().min(self.dead.room())
    }

    fn counts_entries() {}
}
