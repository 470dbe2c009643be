ghost use Rattle.std.specs.Prelude.{◌≡◌, true, false, ◌+◌, ◌-◌, ◌^◌, ◌<◌, ◌≤◌, length, vec_len, IsOk, IfOk, OnErr};
ghost use Rattle.zk_base.specs.History.{AddsNone};
ghost use Rattle.zk_base.specs.Limits.{most_entries};
ghost use Rattle.zk_model_bus.specs.Table.{IsSetup, new_table, has_kind, is_thread, is_declared, said, is_allowed, publishes, is_public, initialises, begins_ready, was_initialised, is_ready, enters, begins_as_user, has_entered_user_mode, is_user, is_oops, is_dead, is_for, may, check_reply, answer, table_reply, table_after};

use std::alloc::Global;
use std::marker::Model;
use zk_base::{Kind, Need, NoMemory, Who};

/// What can be asked of the object table. A thread is named by its object.
#[derive(Clone, Copy, Debug, PartialEq, Eq)]
pub enum TableOp {
    /// Tests whether the caller, a user, may use the object for this need. There is none where its name is no object's.
    /// What Zephyr's `K_OOPS(K_SYSCALL_OBJ(..))` does at the head of a system call.
    Check(Option<u32>, Need),
    /// Gives the thread permission on the object. Zephyr's `k_object_access_grant`.
    Grant(u32, u32),
    /// Takes the thread's permission on the object away. Zephyr's `k_object_access_revoke`.
    Revoke(u32, u32),
    /// Gives the caller's own permission on the object up. Zephyr's `k_object_release`.
    Release(u32),
    /// Lets all threads use the object, for good. Zephyr's `k_object_access_all_grant`.
    Public(u32),
    /// Initialises the object. What Zephyr's `k_object_init` does at the end of an object's own init call.
    Init(u32),
    /// Makes the caller a user, for good. Zephyr's `k_thread_user_mode_enter`.
    EnterUser,
}

/// Why a check fails.
#[derive(Clone, Copy, Debug, PartialEq, Eq)]
pub enum OopsWhy {
    /// There is no such object.
    NoObject,
    /// The object's kind doesn't meet the need.
    WrongKind,
    /// The caller has no permission on the object, and it isn't public.
    NotGranted,
    /// The object isn't initialised.
    NotInit,
}

/// What the object table answers.
#[derive(Clone, Copy, Debug, PartialEq, Eq)]
pub enum TableReply {
    /// It is done, or the check is passed.
    Done,
    /// The object is initialised already.
    Already,
    /// The check fails, and ends the caller. Zephyr's `K_ERR_KERNEL_OOPS`.
    Oops(OopsWhy),
}

/// What the table reads of an entry of its history.
#[derive(Clone, Copy, PartialEq, Eq)]
pub struct TableEntry {
    /// The number of the player whose step this was.
    pub player: u32,
    /// What it asked.
    pub op: TableOp,
    /// What it was answered.
    pub reply: TableReply,
}

/// What is declared of objects, threads and permissions.
#[derive(Drop)]
pub struct TableSetup {
    /// What each object is.
    pub kinds: Vec<Kind>,
    /// Whether each object is initialised from the start.
    pub ready: Vec<bool>,
    /// The number of each thread's object, and whether it is a user, in player order.
    pub threads: Vec<(u32, bool)>,
    /// The permissions at first: a player, and an object.
    pub allowed: Vec<(u32, u32)>,
}

impl Model for TableSetup {
    ghost use Rattle.zk_model_bus.specs.Table.{Setup};

    ghost Value = { Setup };

    ghost view = { λ s. record {
      kinds = s.kinds.items;
      ready = s.ready.items;
      threads = s.threads.items;
      allowed = s.allowed.items;
    } };
}

/// The state of the object table's machine, with the memory that it has for entries.
#[derive(Drop)]
pub struct TableStore {
    setup: TableSetup,
    entries: Vec<TableEntry>,
}

impl Model for TableStore {
    ghost use Rattle.std.specs.Prelude.{◌-◌, vec_len, vec_capacity};
    ghost use Rattle.zk_model_bus.specs.Table.{TableView};

    ghost Value = { TableView };

    ghost view = { λ s. record {
      table = record { setup = s.setup; entries = s.entries.items };
      room = vec_capacity s.entries - vec_len s.entries;
    } };
}

/// The state of the object table's machine alone, which contracts see as its definition has it.
#[derive(Drop)]
pub struct TableState {
    store: TableStore,
}

impl Model for TableState {
    ghost use Rattle.zk_model_bus.specs.Table.{Table};

    ghost Value = { Table };

    ghost view = { λ s. s.store.table };
}

impl TableState {
    /// The table before the first entry.
    pub fn new(alloc: Global, setup: &TableSetup) -> Result<TableState, NoMemory>
        requires { IsSetup setup.now }
        ensures { IfOk result (λ state. state ≡ new_table setup.now) }
    {
        Ok(TableState {
            store: TableStore::new(alloc, setup)?,
        })
    }
}

impl TableSetup {
    /// The same declarations once more.
    pub fn copy(&self, alloc: Global) -> Result<TableSetup, NoMemory>
        ensures { IfOk result (λ copy. copy ≡ self.now) }
    {
        Ok(TableSetup {
            kinds: self.kinds.to_vec(alloc)?,
            ready: self.ready.to_vec(alloc)?,
            threads: self.threads.to_vec(alloc)?,
            allowed: self.allowed.to_vec(alloc)?,
        })
    }

    /// The object of this number meets the need.
    fn has_kind(&self, object: u32, need: Need) -> bool
        ensures { result ≡ has_kind self.now object need }
    {
        match self.kinds.get(object as usize) {
            Some(kind) => need.is_met_by(*kind),
            None => false,
        }
    }

    /// The player is the thread of this object number.
    fn is_thread(&self, player: u32, thread: u32) -> bool
        ensures { result ≡ is_thread self.now player thread }
    {
        match self.threads.get(player as usize) {
            Some(declared) => declared.0 == thread,
            None => false,
        }
    }

    /// The permission is declared.
    fn is_declared(&self, player: u32, object: u32) -> bool
        ensures { result ≡ is_declared self.now player object }
    {
        self.allowed
            .iter()
            .any(|allowed| allowed.0 == player && allowed.1 == object)
    }

    /// What an entry says of the permission of a player on an object.
    fn said(&self, player: u32, object: u32, before: bool, entry: &TableEntry) -> bool
        ensures { result ≡ said self.now player object before entry.now.player entry.now.op }
    {
        match entry.op {
            TableOp::Grant(thread, own) => {
                self.is_thread(player, thread) && own == object || before
            }
            TableOp::Revoke(thread, own) => {
                !(self.is_thread(player, thread) && own == object) && before
            }
            TableOp::Release(own) => !(entry.player == player && own == object) && before,
            _ => before,
        }
    }
}

/// The operation makes this object public.
fn publishes(object: u32, op: &TableOp) -> bool
    ensures { result ≡ publishes object op.now }
{
    match *op {
        TableOp::Public(own) => own == object,
        _ => false,
    }
}

/// The operation initialises this object.
fn initialises(object: u32, op: &TableOp) -> bool
    ensures { result ≡ initialises object op.now }
{
    match *op {
        TableOp::Init(own) => own == object,
        _ => false,
    }
}

/// The operation makes its caller a user.
fn enters(op: &TableOp) -> bool
    ensures { result ≡ enters op.now }
{
    match op {
        TableOp::EnterUser => true,
        _ => false,
    }
}

/// The reply is an oops.
fn is_oops(reply: &TableReply) -> bool
    ensures { result ≡ is_oops reply.now }
{
    match reply {
        TableReply::Oops(_) => true,
        _ => false,
    }
}

/// Whether an operation is possible for a user, or for a supervisor.
pub fn is_for(user: bool, op: &TableOp) -> bool
    ensures { result ≡ is_for user op.now }
{
    match op {
        TableOp::Check(_, _) => user,
        TableOp::Grant(_, _) | TableOp::Release(_) => true,
        _ => !user,
    }
}

impl TableStore {
    /// The table before the first entry.
    pub fn new(alloc: Global, setup: &TableSetup) -> Result<TableStore, NoMemory>
        requires { IsSetup setup.now }
        ensures { IfOk result (λ store. store.table ≡ new_table setup.now) }
    {
        Ok(TableStore {
            setup: setup.copy(alloc)?,
            entries: Vec::new(alloc),
        })
    }

    /// Makes room for so many entries.
    pub fn reserve(&mut self, more: usize) -> Result<(), NoMemory>
        ensures room { IfOk result (λ _. more ≤ self.new.room) }
        ensures more { self.old.room ≤ self.new.room }
        ensures same { self.new.table ≡ self.old.table }
    {
        self.entries.reserve(more)?;
        Ok(())
    }

    /// How many entries it takes without memory.
    pub fn room(&self) -> u64
        ensures { result ≡ self.now.room }
    {
        (self.entries.capacity() - self.entries.len()) as u64
    }

    /// The last word on the permission of the player on the object.
    fn is_allowed(&self, player: u32, object: u32) -> bool
        ensures { result ≡ is_allowed self.now.table player object }
    {
        let mut allowed = self.setup.is_declared(player, object);
        for entry in &self.entries {
            allowed = self.setup.said(player, object, allowed, entry);
        }
        allowed
    }

    /// The object is public.
    fn is_public(&self, object: u32) -> bool
        ensures { result ≡ is_public self.now.table object }
    {
        self.entries
            .iter()
            .any(|entry| publishes(object, &entry.op))
    }

    /// The object is declared ready.
    fn begins_ready(&self, object: u32) -> bool
        ensures { result ≡ begins_ready self.now.table.setup object }
    {
        match self.setup.ready.get(object as usize) {
            Some(ready) => *ready,
            None => false,
        }
    }

    /// An entry has initialised the object.
    fn was_initialised(&self, object: u32) -> bool
        ensures { result ≡ was_initialised self.now.table object }
    {
        self.entries
            .iter()
            .any(|entry| initialises(object, &entry.op))
    }

    /// The object is initialised.
    fn is_ready(&self, object: u32) -> bool
        ensures { result ≡ is_ready self.now.table object }
    {
        self.begins_ready(object) || self.was_initialised(object)
    }

    /// The player is declared a user.
    fn begins_as_user(&self, player: u32) -> bool
        ensures { result ≡ begins_as_user self.now.table.setup player }
    {
        match self.setup.threads.get(player as usize) {
            Some(declared) => declared.1,
            None => false,
        }
    }

    /// An entry of the player has made it a user.
    fn has_entered_user_mode(&self, player: u32) -> bool
        ensures { result ≡ has_entered_user_mode self.now.table player }
    {
        self.entries
            .iter()
            .any(|entry| entry.player == player && enters(&entry.op))
    }

    /// The player is a user.
    fn is_user(&self, player: u32) -> bool
        ensures { result ≡ is_user self.now.table player }
    {
        self.begins_as_user(player) || self.has_entered_user_mode(player)
    }

    /// A check of the player has ended in an oops.
    fn is_dead(&self, player: u32) -> bool
        ensures { result ≡ is_dead self.now.table player }
    {
        self.entries
            .iter()
            .any(|entry| entry.player == player && is_oops(&entry.reply))
    }

    /// The operation is possible for the player.
    fn may(&self, player: u32, op: &TableOp) -> bool
        ensures { result ≡ may self.now.table player op.now }
    {
        !self.is_dead(player) && is_for(self.is_user(player), op)
    }

    /// The four tests of a check, in their order.
    fn check(&self, player: u32, object: Option<u32>, need: Need) -> TableReply
        ensures { result ≡ check_reply self.now.table player object need }
    {
        let Some(object) = object else {
            return TableReply::Oops(OopsWhy::NoObject);
        };
        if !self.setup.has_kind(object, need) {
            return TableReply::Oops(OopsWhy::WrongKind);
        }
        if !(self.is_allowed(player, object) || self.is_public(object)) {
            return TableReply::Oops(OopsWhy::NotGranted);
        }
        if !(need.is_any() || self.is_ready(object)) {
            return TableReply::Oops(OopsWhy::NotInit);
        }
        TableReply::Done
    }

    /// What an operation is answered, where it is possible.
    fn answer(&self, player: u32, op: &TableOp) -> TableReply
        ensures { result ≡ answer self.now.table player op.now }
    {
        match *op {
            TableOp::Check(object, need) => self.check(player, object, need),
            TableOp::Init(object) if self.is_ready(object) => TableReply::Already,
            _ => TableReply::Done,
        }
    }
}

/// One operation of the object table's machine: its reply and its next state.
///
/// `None` says that the operation isn't possible. Each entry takes one place.
pub fn table_next(
    store: &mut TableStore,
    who: Who,
    op: &TableOp,
) -> Result<Option<TableReply>, NoMemory>
    requires { length store.old.table.entries < most_entries }
    ensures reply { IfOk result (λ reply. reply ≡ table_reply store.old.table who op.now) }
    ensures next { IfOk result (λ reply. store.new.table ≡ table_after store.old.table who op.now reply) }
    ensures unchanged { OnErr result (store.new.table ≡ store.old.table) }

    // Memory: one place is enough.
    ensures roomy { 1 ≤ store.old.room → IsOk result }
    ensures room { store.old.room ≤ store.new.room + 1 }
    ensures kept { AddsNone result → store.old.room ≤ store.new.room }
{
    if !store.may(who.number, op) {
        return Ok(None);
    }
    let reply = store.answer(who.number, op);
    store.entries.push(TableEntry {
        player: who.number,
        op: *op,
        reply,
    })?;
    Ok(Some(reply))
}
