ghost use Rattle.std.specs.Prelude.{◌≡◌, true, false, ◌+◌, ◌<◌, ◌≤◌, Some, IsOk, IfOk, OnErr};
ghost use Rattle.zk_base.specs.History.{AddsNone};
ghost use Rattle.zk_base.specs.Limits.{most_entries};
ghost use Rattle.zk_event.specs.Event.{new_event, holds, told, with_bits, event_reply, event_after, may_wait};

use std::alloc::Global;
use std::marker::Model;
use zk_base::{NoMemory, Store, WaitList, Waiter, Who};

/// What can be asked of an event object.
#[derive(Clone, Copy, Debug, PartialEq, Eq)]
pub enum EventOp {
    /// Adds these bits. Zephyr's `k_event_post`.
    Post(u16),
    /// Puts these bits in the place of all. Zephyr's `k_event_set`.
    Set(u16),
    /// Takes these bits away. Zephyr's `k_event_clear`.
    Clear(u16),
    /// Asks for a bit of this mask, or for all of them where the first is true. Where the second is, all bits are taken
    /// away before. Where what is asked for isn't there, the caller waits, if the third is true. Zephyr's `k_event_wait`
    /// and `k_event_wait_all`.
    Wait(u16, bool, bool, bool),
    /// Ends a wait of the caller that is decided: the one that the entry of this place began.
    WaitEnd(u64),
    /// Gives a wait of the caller up, decided or not: the one that the entry of this place began.
    WaitQuit(u64),
}

/// What an event object answers.
#[derive(Clone, Copy, Debug, PartialEq, Eq)]
pub enum EventReply {
    /// The bits as they were before.
    Was(u16),
    /// The bits of the mask that were there, where what was asked for was, else 0.
    Bits(u16),
    /// What was asked for isn't there, and the caller waits.
    Wait,
}

/// What is waited for: a bit of the mask, or all of them.
#[derive(Clone, Copy, Debug, PartialEq, Eq)]
pub struct Wanted {
    /// The bits.
    pub mask: u16,
    /// Whether all of them are waited for.
    pub all: bool,
}

/// The state of an event object's machine, with the memory that it has for waits.
#[derive(Drop)]
pub struct EventStore {
    bits: u16,
    entries: u64,
    waits: WaitList<Wanted, EventReply>,
}

impl Model for EventStore {
    ghost use Rattle.std.specs.Prelude.{◌≤◌};
    ghost use Rattle.zk_event.specs.Event.{EventView, IsCounted};

    ghost Value = { EventView };

    ghost view = { λ s. record {
      event = record { bits = s.bits; entries = s.entries; waits = s.waits.waits };
      room = s.waits.room;
    } };

    ghost invariant = { λ s. record {
      counted : IsCounted (record { bits = s.bits; entries = s.entries; waits = s.waits.waits });
      waited : s.waits.next ≤ s.entries;
    } };
}

/// The state of an event object's machine alone, which contracts see as its definition has it.
#[derive(Drop)]
pub struct EventState {
    store: EventStore,
}

impl Model for EventState {
    ghost use Rattle.zk_event.specs.Event.{Event};

    ghost Value = { Event };

    ghost view = { λ s. s.store.event };
}

impl EventState {
    /// An event object before the first entry. It takes no memory.
    pub fn new(alloc: Global) -> EventState
        ensures { result ≡ new_event }
    {
        EventState {
            store: EventStore::new(alloc),
        }
    }

    /// The same state with its memory, as an engine keeps it.
    pub fn into_store(self) -> EventStore
        ensures { result.event ≡ self }
    {
        let EventState { store } = self;
        store
    }
}

/// Whether what is waited for is among these bits.
fn holds(bits: u16, wanted: &Wanted) -> bool
    ensures { result ≡ holds bits wanted.now }
{
    let shared = bits & wanted.mask;
    if wanted.all {
        shared == wanted.mask
    } else {
        shared != 0
    }
}

/// What these bits answer one who waits, where what it waits for is among them.
fn told(bits: u16, wanted: &Wanted) -> Option<EventReply>
    ensures { result ≡ told bits wanted.now }
{
    if holds(bits, wanted) {
        Some(EventReply::Bits(bits & wanted.mask))
    } else {
        None
    }
}

impl EventStore {
    /// An event object before the first entry: it has no bit. It takes no memory.
    pub fn new(alloc: Global) -> EventStore
        ensures { result.event ≡ new_event }
    {
        EventStore {
            bits: 0,
            entries: 0,
            waits: WaitList::new(alloc),
        }
    }

    /// The bits.
    pub fn bits(&self) -> u16
        ensures { result ≡ self.now.event.bits }
    {
        self.bits
    }

    /// These are the bits now: whoever waits for some that are there gets them.
    fn put(&mut self, bits: u16)
        requires { self.old.event.entries < most_entries }
        ensures next { self.new.event ≡ with_bits self.old.event bits }
        ensures room { self.old.room ≤ self.new.room }
    {
        self.bits = bits;
        self.waits.decide_by(|wanted| told(bits, wanted));
    }

    fn post(&mut self, who: Who, bits: u16) -> EventReply
        requires { self.old.event.entries < most_entries }
        ensures reply { Some result ≡ event_reply self.old.event who (EventOp.Post bits) }
        ensures next { self.new.event ≡ event_after self.old.event who (EventOp.Post bits) (Some result) }
        ensures room { self.old.room ≤ self.new.room }
    {
        let was = self.bits;
        self.put(was | bits);
        self.entries += 1;
        EventReply::Was(was)
    }

    fn set(&mut self, who: Who, bits: u16) -> EventReply
        requires { self.old.event.entries < most_entries }
        ensures reply { Some result ≡ event_reply self.old.event who (EventOp.Set bits) }
        ensures next { self.new.event ≡ event_after self.old.event who (EventOp.Set bits) (Some result) }
        ensures room { self.old.room ≤ self.new.room }
    {
        let was = self.bits;
        self.put(bits);
        self.entries += 1;
        EventReply::Was(was)
    }

    fn clear(&mut self, who: Who, bits: u16) -> EventReply
        requires { self.old.event.entries < most_entries }
        ensures reply { Some result ≡ event_reply self.old.event who (EventOp.Clear bits) }
        ensures next { self.new.event ≡ event_after self.old.event who (EventOp.Clear bits) (Some result) }
        ensures room { self.old.room ≤ self.new.room }
    {
        let was = self.bits;
        self.bits = was & !bits;
        self.entries += 1;
        EventReply::Was(was)
    }

    fn wait(
        &mut self,
        who: Who,
        mask: u16,
        all: bool,
        reset: bool,
        waits: bool,
    ) -> Result<Option<EventReply>, NoMemory>
        requires { self.old.event.entries < most_entries }
        ensures reply { IfOk result (λ reply.
            reply ≡ event_reply self.old.event who (EventOp.Wait mask all reset waits)) }
        ensures next { IfOk result (λ reply.
            self.new.event ≡ event_after self.old.event who (EventOp.Wait mask all reset waits) reply) }
        ensures unchanged { OnErr result (self.new.event ≡ self.old.event) }
        ensures memory { waits ≡ false → IsOk result }
        ensures roomy { 1 ≤ self.old.room → IsOk result }
        ensures room { self.old.room ≤ self.new.room + 1 }
        ensures kept { AddsNone result → self.old.room ≤ self.new.room }
    {
        let bits = if reset { 0 } else { self.bits };
        let wanted = Wanted { mask, all };
        let reply = match told(bits, &wanted) {
            Some(answer) => answer,
            None if waits => {
                self.waits.join(Waiter {
                    place: self.entries,
                    who,
                    payload: wanted,
                })?;
                EventReply::Wait
            }
            None => EventReply::Bits(0),
        };
        self.bits = bits;
        self.entries += 1;
        Ok(Some(reply))
    }

    fn wait_end(&mut self, who: Who, place: u64) -> Option<EventReply>
        requires { self.old.event.entries < most_entries }
        ensures reply { result ≡ event_reply self.old.event who (EventOp.WaitEnd place) }
        ensures next { self.new.event ≡ event_after self.old.event who (EventOp.WaitEnd place) result }
        ensures room { self.old.room ≤ self.new.room }
    {
        let reply = self.waits.end(who.number, place)?;
        self.entries += 1;
        Some(reply)
    }

    fn wait_quit(&mut self, who: Who, place: u64) -> Option<EventReply>
        requires { self.old.event.entries < most_entries }
        ensures reply { result ≡ event_reply self.old.event who (EventOp.WaitQuit place) }
        ensures next { self.new.event ≡ event_after self.old.event who (EventOp.WaitQuit place) result }
        ensures room { self.old.room ≤ self.new.room }
    {
        let reply = self.waits.quit(who.number, place, EventReply::Bits(0))?;
        self.entries += 1;
        Some(reply)
    }
}

/// One operation of an event object's machine: its reply and its next state.
///
/// `None` says that the operation isn't possible now. Only a `Wait` that waits takes memory.
pub fn event_next(
    store: &mut EventStore,
    who: Who,
    op: &EventOp,
) -> Result<Option<EventReply>, NoMemory>
    requires { store.old.event.entries < most_entries }
    ensures reply { IfOk result (λ reply. reply ≡ event_reply store.old.event who op.now) }
    ensures next { IfOk result (λ reply. store.new.event ≡ event_after store.old.event who op.now reply) }
    ensures unchanged { OnErr result (store.new.event ≡ store.old.event) }

    // Memory: one place is enough, and is taken only by a wait that begins.
    ensures memory { may_wait op.now ≡ false → IsOk result }
    ensures roomy { 1 ≤ store.old.room → IsOk result }
    ensures room { store.old.room ≤ store.new.room + 1 }
    ensures kept { AddsNone result → store.old.room ≤ store.new.room }
{
    match *op {
        EventOp::Post(bits) => Ok(Some(store.post(who, bits))),
        EventOp::Set(bits) => Ok(Some(store.set(who, bits))),
        EventOp::Clear(bits) => Ok(Some(store.clear(who, bits))),
        EventOp::Wait(mask, all, reset, waits) => store.wait(who, mask, all, reset, waits),
        EventOp::WaitEnd(place) => Ok(store.wait_end(who, place)),
        EventOp::WaitQuit(place) => Ok(store.wait_quit(who, place)),
    }
}

impl Store for EventStore {
    type Op = EventOp;

    type Reply = EventReply;

    type State = EventState;

    ghost use Rattle.zk_base.specs.Waits.{open_waits};
    ghost use Rattle.zk_event.specs.Event.{event_closes, event_machine};

    ghost state = { λ s. s.event };

    ghost room = { λ s. s.room };

    ghost machine = { event_machine };

    ghost entries = { λ s. s.entries };

    ghost owed = { λ s. open_waits s.waits };

    ghost closes = { λ s who op. event_closes op };

    fn next(&mut self, who: Who, op: &EventOp) -> Result<Option<EventReply>, NoMemory> {
        event_next(self, who, op)
    }

    fn is_closing(&self, _who: Who, op: &EventOp) -> bool {
        matches!(op, EventOp::WaitEnd(_) | EventOp::WaitQuit(_))
    }

    fn is_futile(&self, who: Who, op: &EventOp) -> bool {
        match op {
            EventOp::WaitEnd(place) => !self.waits.is_decided(who.number, *place),
            _ => false,
        }
    }

    fn owed(&self) -> u64 {
        self.waits.open()
    }

    fn reserve(&mut self, more: usize) -> Result<(), NoMemory> {
        self.waits.reserve(more)
    }

    fn room(&self) -> u64 {
        self.waits.room()
    }

    fn counts_entries() {}
}
