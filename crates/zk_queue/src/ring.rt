ghost use Rattle.std.specs.Prelude.{◌≡◌, ◌*◌, ◌<◌, true, None, Some, [], ◌∷◌, ◌++◌, length, set, is_some, option_map, option_to_list, nat_lt, ◌==◌, IfOk};
ghost use Rattle.std.specs.List.{list_any};
ghost use Rattle.zk_model_work.specs.Lists.{first};
ghost use Rattle.zk_queue.specs.Line.{has_number};
ghost use Rattle.zk_queue.specs.Ring.{living, index_at, entry_at, KeepsBut};

use crate::Ticket;
use std::alloc::Global;
use std::collections::VecDeque;
use std::marker::Model;
use zk_base::NoMemory;

/// What waits for a queue, lowest number first, with dead entries between.
///
/// An entry is a ticket, or `None` where it is dead: what was dropped leaves its entry, so that no
/// other moves. Entries are found by their positions, which count on from the first and wrap.
#[derive(Drop)]
pub struct Ring {
    entries: VecDeque<Option<Ticket>>,
    // The position of the first entry.
    front: u64,
    // How many entries are dead.
    dead: usize,
}

impl Model for Ring {
    ghost use Rattle.std.specs.Prelude.{◌≡◌, ◌+◌, length};
    ghost use Rattle.std.specs.VecDeque.{deque_capacity};
    ghost use Rattle.zk_queue.specs.Ring.{RingView, living};

    ghost Value = { RingView };

    ghost view = { λ a. record {
      entries = a.entries.items;
      front = a.front;
      capacity = deque_capacity a.entries;
    } };

    ghost invariant = { λ a. a.dead + length (living a.entries.items) ≡ length a.entries.items };
}

impl Ring {
    /// An empty ring that takes so many entries.
    pub fn new(alloc: Global, capacity: usize) -> Result<Ring, NoMemory>
        ensures { IfOk result (λ r. r ≡ record { entries = []; front = 0; capacity = capacity }) }
    {
        let entries = VecDeque::with_capacity(alloc, capacity)?;
        Ok(Ring {
            entries,
            front: 0,
            dead: 0,
        })
    }

    /// How many entries there are, the dead ones among them.
    pub fn len(&self) -> usize
        ensures { result ≡ length self.now.entries }
    {
        self.entries.len()
    }

    /// Whether nothing waits.
    pub fn is_empty(&self) -> bool
        ensures { result ≡ (length (living self.now.entries) == 0) }
    {
        self.dead == self.entries.len()
    }

    /// Whether more than half of the entries are dead.
    pub fn is_sparse(&self) -> bool
        ensures { result ≡ nat_lt (2 * length (living self.now.entries)) (length self.now.entries) }
    {
        self.entries.len() < 2 * self.dead
    }

    /// Whether a ticket that waits has this number.
    pub fn has_number(&self, number: u64) -> bool
        ensures { result ≡ list_any (has_number number) (living self.now.entries) }
    {
        for index in 0..self.entries.len() {
            if let Some(ticket) = self.entries[index] {
                if ticket.number == number {
                    return true;
                }
            }
        }
        false
    }

    /// The first ticket that waits.
    pub fn first(&self) -> Option<Ticket>
        ensures { result ≡ first (living self.now.entries) }
    {
        for index in 0..self.entries.len() {
            if let Some(ticket) = self.entries[index] {
                return Some(ticket);
            }
        }
        None
    }

    /// The index of the entry at this position.
    fn index(&self, position: u64) -> usize
        ensures { result ≡ index_at self.now.front position }
    {
        position.wrapping_sub(self.front) as usize
    }

    /// The ticket at this position, if there is one that waits.
    pub fn ticket(&self, position: u64) -> Option<Ticket>
        ensures { result ≡ entry_at self.now position }
    {
        let index = self.index(position);
        if index >= self.entries.len() {
            return None;
        }
        self.entries[index]
    }

    /// One more at the end, for which there has to be room. Its position.
    pub fn push(&mut self, ticket: Ticket) -> u64
        requires { length self.old.entries < self.old.capacity }
        ensures next { self.new.entries ≡ self.old.entries ++ Some ticket ∷ [] }
        ensures capacity { self.new.capacity ≡ self.old.capacity }
        ensures position { entry_at self.new result ≡ Some ticket }
        ensures keeps { KeepsBut None self.old self.new }
    {
        let position = self.front.wrapping_add(self.entries.len() as u64);
        self.entries.push_back_reserved(Some(ticket));
        position
    }

    /// The ticket at this position waits no longer: its entry is dead from now on. Its number.
    pub fn drop_at(&mut self, position: u64) -> u64
        requires { is_some (entry_at self.old position) ≡ true }
        ensures reply { option_map (λ t. t.number) (entry_at self.old position) ≡ Some result }
        ensures next { self.new.entries
            ≡ set self.old.entries (index_at self.old.front position) None }
        ensures capacity { self.new.capacity ≡ self.old.capacity }
        ensures keeps { KeepsBut (entry_at self.old position) self.old self.new }
    {
        let index = self.index(position);
        let Some(ticket) = self.entries[index] else {
            unreachable!();
        };
        self.entries[index] = None;
        self.dead += 1;
        ticket.number
    }

    /// Takes the first entry out, dead or not. There has to be one.
    pub fn pop_entry(&mut self) -> Option<Ticket>
        requires { 0 < length self.old.entries }
        ensures next { self.old.entries ≡ result ∷ self.new.entries }
        ensures capacity { self.new.capacity ≡ self.old.capacity }
        ensures room { length self.new.entries < self.new.capacity }
        ensures keeps { KeepsBut result self.old self.new }
    {
        let Some(entry) = self.entries.pop_front() else {
            unreachable!();
        };
        self.front = self.front.wrapping_add(1);
        if entry.is_none() {
            self.dead -= 1;
        }
        entry
    }

    /// Takes the first ticket that waits out, with the dead entries in front of it.
    pub fn pop(&mut self) -> Option<Ticket>
        ensures first { result ≡ first (living self.old.entries) }
        ensures next { living self.old.entries ≡ option_to_list result ++ living self.new.entries }
        ensures capacity { self.new.capacity ≡ self.old.capacity }
        ensures keeps { KeepsBut result self.old self.new }
    {
        for _ in 0..self.len() {
            let entry = self.pop_entry();
            if entry.is_some() {
                return entry;
            }
        }
        None
    }
}
