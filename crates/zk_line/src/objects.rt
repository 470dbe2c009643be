ghost use Rattle.std.specs.Prelude.{◌≡◌, ◌-◌, ◌^◌, ◌<◌, None, [], ◌∷◌, ◌++◌, OnOk, OnErr, IfOk, length, count_by};
ghost use Rattle.zk_line.specs.Objects.{counts_with, object_of, is_thread, is_queue, is_item, is_sem, is_msgq, is_signal, is_chan, is_observer, name_of, places, number_of, player_count};

use crate::kind_lists::{Lists, add_to_kind};
use crate::kinds::{kind_of, name_of};
use crate::names::Names;
use crate::types::Decl;
use std::alloc::Global;
use std::marker::Model;
use zk_base::{NoMemory, make_room_for_one, push_within};
use zk_words::Kind;

/// The declarations, with a table for each question to them.
///
/// `numbers` has for each object its number among those that it counts with, `names` the object of each name.
#[derive(Drop)]
pub struct Objects {
    decls: Vec<Decl>,
    lists: Lists,
    numbers: Vec<u32>,
    names: Names,
}

impl Model for Objects {
    ghost use Rattle.std.specs.Prelude.{List};
    ghost use Rattle.zk_line.specs.declared.types.Decl.{Decl};
    ghost use Rattle.zk_line.specs.Objects.{IsTabled};

    ghost Value = { List Decl };

    ghost view = { λ a. a.decls.items };

    ghost invariant = { λ a. IsTabled a.decls.items a.lists a.numbers.items a.names };
}

impl Objects {
    /// No declaration. It takes no memory.
    pub fn new(alloc: Global) -> Objects
        ensures { result ≡ [] }
    {
        Objects {
            decls: Vec::new(alloc),
            lists: Lists::new(alloc),
            numbers: Vec::new(alloc),
            names: Names::new(alloc),
        }
    }

    /// All declarations, in order. An object's number is its place among them.
    pub fn decls(&self) -> &[Decl]
        ensures all { result.now ≡ self.now }
        ensures few { length self.now < 2 ^ 32 }
    {
        &self.decls
    }

    /// The object numbers of the threads, in order.
    pub fn threads(&self) -> &[u32]
        ensures all { result.now ≡ places is_thread self.now }
    {
        &self.lists.threads
    }

    /// The object numbers of the work queues, in order.
    pub fn queues(&self) -> &[u32]
        ensures all { result.now ≡ places is_queue self.now }
    {
        &self.lists.queues
    }

    /// The object numbers of the work items, in order.
    pub fn items(&self) -> &[u32]
        ensures all { result.now ≡ places is_item self.now }
    {
        &self.lists.items
    }

    /// The object numbers of the semaphores, in order.
    pub fn sems(&self) -> &[u32]
        ensures all { result.now ≡ places is_sem self.now }
    {
        &self.lists.sems
    }

    /// The object numbers of the message queues, in order.
    pub fn msgqs(&self) -> &[u32]
        ensures all { result.now ≡ places is_msgq self.now }
    {
        &self.lists.msgqs
    }

    /// The object numbers of the signals, in order.
    pub fn signals(&self) -> &[u32]
        ensures all { result.now ≡ places is_signal self.now }
    {
        &self.lists.signals
    }

    /// The object numbers of the channels, in order.
    pub fn chans(&self) -> &[u32]
        ensures all { result.now ≡ places is_chan self.now }
    {
        &self.lists.chans
    }

    /// The object numbers of the observers, subscribers and listeners together, in order.
    pub fn observers(&self) -> &[u32]
        ensures all { result.now ≡ places is_observer self.now }
    {
        &self.lists.observers
    }

    /// How many players there are: the threads, and a worker for each queue.
    pub fn player_count(&self) -> usize
        ensures { result ≡ player_count self.now }
    {
        self.lists.threads.len() + self.lists.queues.len()
    }

    /// How many objects there are that count with those of a kind: subscribers and listeners count together.
    pub fn count(&self, kind: Kind) -> usize
        ensures { result ≡ count_by (counts_with kind) self.now }
    {
        match kind {
            Kind::Thread => self.thread_count(),
            Kind::Queue => self.queue_count(),
            Kind::Item => self.item_count(),
            Kind::Sem => self.sem_count(),
            Kind::Msgq => self.msgq_count(),
            Kind::Signal => self.signal_count(),
            Kind::Listener => self.observer_count(),
            Kind::Sub => self.observer_count(),
            Kind::Chan => self.chan_count(),
        }
    }

    fn thread_count(&self) -> usize
        ensures { result ≡ count_by is_thread self.now }
    {
        self.lists.threads.len()
    }

    fn queue_count(&self) -> usize
        ensures { result ≡ count_by is_queue self.now }
    {
        self.lists.queues.len()
    }

    fn item_count(&self) -> usize
        ensures { result ≡ count_by is_item self.now }
    {
        self.lists.items.len()
    }

    fn sem_count(&self) -> usize
        ensures { result ≡ count_by is_sem self.now }
    {
        self.lists.sems.len()
    }

    fn msgq_count(&self) -> usize
        ensures { result ≡ count_by is_msgq self.now }
    {
        self.lists.msgqs.len()
    }

    fn signal_count(&self) -> usize
        ensures { result ≡ count_by is_signal self.now }
    {
        self.lists.signals.len()
    }

    fn chan_count(&self) -> usize
        ensures { result ≡ count_by is_chan self.now }
    {
        self.lists.chans.len()
    }

    fn observer_count(&self) -> usize
        ensures { result ≡ count_by is_observer self.now }
    {
        self.lists.observers.len()
    }

    /// The number of an object among those that it counts with: those of its kind, but subscribers and listeners
    /// count together.
    pub fn number(&self, object: u32) -> u32
        ensures { result ≡ number_of self.now object }
    {
        self.numbers.get(object as usize).copied().unwrap_or(0)
    }

    /// The object of a name.
    pub fn find(&self, name: &[u8]) -> Option<u32>
        ensures { result ≡ object_of self.now name.now }
    {
        self.names.find(name)
    }

    /// One declaration more, of a new name.
    pub fn push(&mut self, alloc: Global, decl: Decl) -> Result<(), NoMemory>
        requires few { length self.old < 2 ^ 32 - 1 }
        requires fresh { object_of self.old (name_of decl) ≡ None }
        ensures ok { OnOk result (self.new ≡ self.old ++ decl ∷ []) }
        ensures unchanged { OnErr result (self.new ≡ self.old) }
    {
        let number = self.count(kind_of(&decl)) as u32;
        make_room_for_one(&mut self.decls)?;
        make_room_for_one(&mut self.numbers)?;
        self.lists.make_room()?;
        let object = self.decls.len() as u32;
        self.names.insert(alloc, name_of(&decl), object)?;
        add_to_kind(&mut self.lists, &decl, object);
        push_within(&mut self.numbers, number);
        push_within(&mut self.decls, decl);
        Ok(())
    }

    /// The same declarations, in memory of their own.
    pub fn copy(&self, alloc: Global) -> Result<Objects, NoMemory>
        ensures copy { IfOk result (λ objects. objects ≡ self.now) }
    {
        Ok(Objects {
            decls: Vec::from_slice(alloc, &self.decls)?,
            lists: self.lists.copy(alloc)?,
            numbers: Vec::from_slice(alloc, &self.numbers)?,
            names: self.names.copy()?,
        })
    }
}
