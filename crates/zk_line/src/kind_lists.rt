ghost use Rattle.std.specs.Prelude.{◌≡◌, ◌<◌, [], IfOk, OnOk, vec_len, vec_capacity};
ghost use Rattle.zk_line.specs.Objects.{is_thread, is_queue, is_item, is_sem, is_msgq, is_signal, is_chan, is_observer, with_object};

use crate::types::Decl;
use std::alloc::Global;
use zk_base::{NoMemory, make_room_for_one, push_within};

/// The object numbers of the declarations of each kind, in order.
#[derive(Drop)]
pub struct Lists {
    pub threads: Vec<u32>,
    pub queues: Vec<u32>,
    pub items: Vec<u32>,
    pub sems: Vec<u32>,
    pub msgqs: Vec<u32>,
    pub signals: Vec<u32>,
    pub chans: Vec<u32>,
    // Subscribers and listeners together.
    pub observers: Vec<u32>,
}

impl Lists {
    /// No object. It takes no memory.
    pub fn new(alloc: Global) -> Lists
        ensures threads { result.threads.items ≡ [] }
        ensures queues { result.queues.items ≡ [] }
        ensures items { result.items.items ≡ [] }
        ensures sems { result.sems.items ≡ [] }
        ensures msgqs { result.msgqs.items ≡ [] }
        ensures signals { result.signals.items ≡ [] }
        ensures chans { result.chans.items ≡ [] }
        ensures observers { result.observers.items ≡ [] }
    {
        Lists {
            threads: Vec::new(alloc),
            queues: Vec::new(alloc),
            items: Vec::new(alloc),
            sems: Vec::new(alloc),
            msgqs: Vec::new(alloc),
            signals: Vec::new(alloc),
            chans: Vec::new(alloc),
            observers: Vec::new(alloc),
        }
    }

    /// The same lists, in memory of their own.
    pub fn copy(&self, alloc: Global) -> Result<Lists, NoMemory>
        ensures threads { IfOk result (λ lists. lists.threads.items ≡ self.now.threads.items) }
        ensures queues { IfOk result (λ lists. lists.queues.items ≡ self.now.queues.items) }
        ensures items { IfOk result (λ lists. lists.items.items ≡ self.now.items.items) }
        ensures sems { IfOk result (λ lists. lists.sems.items ≡ self.now.sems.items) }
        ensures msgqs { IfOk result (λ lists. lists.msgqs.items ≡ self.now.msgqs.items) }
        ensures signals { IfOk result (λ lists. lists.signals.items ≡ self.now.signals.items) }
        ensures chans { IfOk result (λ lists. lists.chans.items ≡ self.now.chans.items) }
        ensures observers { IfOk result (λ lists. lists.observers.items ≡ self.now.observers.items) }
    {
        Ok(Lists {
            threads: Vec::from_slice(alloc, &self.threads)?,
            queues: Vec::from_slice(alloc, &self.queues)?,
            items: Vec::from_slice(alloc, &self.items)?,
            sems: Vec::from_slice(alloc, &self.sems)?,
            msgqs: Vec::from_slice(alloc, &self.msgqs)?,
            signals: Vec::from_slice(alloc, &self.signals)?,
            chans: Vec::from_slice(alloc, &self.chans)?,
            observers: Vec::from_slice(alloc, &self.observers)?,
        })
    }

    /// Room in each list for one object more.
    pub fn make_room(&mut self) -> Result<(), NoMemory>
        ensures threads { self.new.threads.items ≡ self.old.threads.items }
        ensures queues { self.new.queues.items ≡ self.old.queues.items }
        ensures items { self.new.items.items ≡ self.old.items.items }
        ensures sems { self.new.sems.items ≡ self.old.sems.items }
        ensures msgqs { self.new.msgqs.items ≡ self.old.msgqs.items }
        ensures signals { self.new.signals.items ≡ self.old.signals.items }
        ensures chans { self.new.chans.items ≡ self.old.chans.items }
        ensures observers { self.new.observers.items ≡ self.old.observers.items }
        ensures thread_room { OnOk result (vec_len self.new.threads < vec_capacity self.new.threads) }
        ensures queue_room { OnOk result (vec_len self.new.queues < vec_capacity self.new.queues) }
        ensures item_room { OnOk result (vec_len self.new.items < vec_capacity self.new.items) }
        ensures sem_room { OnOk result (vec_len self.new.sems < vec_capacity self.new.sems) }
        ensures msgq_room { OnOk result (vec_len self.new.msgqs < vec_capacity self.new.msgqs) }
        ensures signal_room { OnOk result (vec_len self.new.signals < vec_capacity self.new.signals) }
        ensures chan_room { OnOk result (vec_len self.new.chans < vec_capacity self.new.chans) }
        ensures observer_room { OnOk result (vec_len self.new.observers < vec_capacity self.new.observers) }
    {
        make_room_for_one(&mut self.threads)?;
        make_room_for_one(&mut self.queues)?;
        make_room_for_one(&mut self.items)?;
        make_room_for_one(&mut self.sems)?;
        make_room_for_one(&mut self.msgqs)?;
        make_room_for_one(&mut self.signals)?;
        make_room_for_one(&mut self.chans)?;
        make_room_for_one(&mut self.observers)?;
        Ok(())
    }
}

/// Puts an object into the list of its declaration's kind, in which there is room.
pub fn add_to_kind(lists: &mut Lists, decl: &Decl, object: u32)
    requires thread_room { vec_len lists.old.threads < vec_capacity lists.old.threads }
    requires queue_room { vec_len lists.old.queues < vec_capacity lists.old.queues }
    requires item_room { vec_len lists.old.items < vec_capacity lists.old.items }
    requires sem_room { vec_len lists.old.sems < vec_capacity lists.old.sems }
    requires msgq_room { vec_len lists.old.msgqs < vec_capacity lists.old.msgqs }
    requires signal_room { vec_len lists.old.signals < vec_capacity lists.old.signals }
    requires chan_room { vec_len lists.old.chans < vec_capacity lists.old.chans }
    requires observer_room { vec_len lists.old.observers < vec_capacity lists.old.observers }
    ensures threads { lists.new.threads.items ≡ with_object is_thread decl.now object lists.old.threads.items }
    ensures queues { lists.new.queues.items ≡ with_object is_queue decl.now object lists.old.queues.items }
    ensures items { lists.new.items.items ≡ with_object is_item decl.now object lists.old.items.items }
    ensures sems { lists.new.sems.items ≡ with_object is_sem decl.now object lists.old.sems.items }
    ensures msgqs { lists.new.msgqs.items ≡ with_object is_msgq decl.now object lists.old.msgqs.items }
    ensures signals { lists.new.signals.items ≡ with_object is_signal decl.now object lists.old.signals.items }
    ensures chans { lists.new.chans.items ≡ with_object is_chan decl.now object lists.old.chans.items }
    ensures observers { lists.new.observers.items ≡ with_object is_observer decl.now object lists.old.observers.items }
{
    match decl {
        Decl::Thread(..) => push_within(&mut lists.threads, object),
        Decl::Queue(..) => push_within(&mut lists.queues, object),
        Decl::Item(_) => push_within(&mut lists.items, object),
        Decl::Sem(..) => push_within(&mut lists.sems, object),
        Decl::Msgq(..) => push_within(&mut lists.msgqs, object),
        Decl::Signal(..) => push_within(&mut lists.signals, object),
        Decl::Listener(_) => push_within(&mut lists.observers, object),
        Decl::Sub(..) => push_within(&mut lists.observers, object),
        Decl::Chan(..) => push_within(&mut lists.chans, object),
    }
}
