ghost use Rattle.std.specs.Prelude.{◌≡◌, true, false, ◌+◌, ◌-◌, ◌^◌, ◌<◌, ◌≤◌, ◌++◌, ◌∷◌, [], Some, None, length, IsOk, IfOk, OnErr};
ghost use Rattle.circular_buffer.specs.Buffer.{buffer};
ghost use Rattle.zk_base.specs.History.{AddsNone};
ghost use Rattle.zk_base.specs.Limits.{most_entries, most_held};
ghost use Rattle.zk_model_bus.specs.Observer.{new_obs, visit_reply, visited, obs_reply, obs_next, obs_after, may_wait};

use circular_buffer::HeapCircularBuffer;
use std::alloc::Global;
use std::marker::Model;
use zk_base::{NoMemory, Store, WaitList, Waiter, Who};

/// What can be asked of an observer: a listener or a subscriber.
#[derive(Clone, Copy, Debug, PartialEq, Eq)]
pub enum ObsOp {
    /// Tells it of a message of the channel of this number.
    Visit(u32),
    /// Takes the oldest channel of a subscriber. Where there is none the caller waits, if this is true. Zephyr's `zbus_sub_wait`.
    Take(bool),
    /// Ends a wait of the caller that is decided: the one that the entry of this place began.
    TakeEnd(u64),
    /// Gives a wait of the caller up, decided or not: the one that the entry of this place began.
    TakeQuit(u64),
    /// Enables it, where this is true, or disables it. Zephyr's `zbus_obs_set_enable`.
    Enable(bool),
}

/// What an observer answers.
#[derive(Clone, Copy, Debug, PartialEq, Eq)]
pub enum ObsReply {
    /// It is disabled.
    Off,
    /// It is a listener, whose script now runs.
    Run,
    /// It is a subscriber, and has the channel.
    Pushed,
    /// It is a subscriber, and its list is full.
    Full,
    /// The number of the channel.
    Channel(u32),
    /// There is no channel, and the caller doesn't wait.
    NoMsg,
    /// There is no channel, and the caller waits.
    Wait,
    /// The wait was given up.
    Again,
    /// It is done.
    Done,
}

/// The state of an observer's machine, with the memory that it has for waits.
#[derive(Drop)]
pub struct ObsStore {
    enabled: bool,
    entries: u64,
    // The channels of a subscriber, the oldest at the front. It has its room from the start.
    ring: Option<HeapCircularBuffer<u32>>,
    takers: WaitList<(), ObsReply>,
}

impl Model for ObsStore {
    ghost use Rattle.std.specs.Prelude.{◌≤◌};
    ghost use Rattle.zk_model_bus.specs.Observer.{ObsView, IsListed, most_of, channels_of};

    ghost Value = { ObsView };

    ghost view = { λ s. record {
      obs = record {
        capacity = most_of s.ring;
        entries = s.entries;
        enabled = s.enabled;
        channels = channels_of s.ring;
        takers = s.takers.waits;
      };
      room = s.takers.room;
    } };

    ghost invariant = { λ s. record {
      listed : IsListed (record {
        capacity = most_of s.ring;
        entries = s.entries;
        enabled = s.enabled;
        channels = channels_of s.ring;
        takers = s.takers.waits;
      });
      taken : s.takers.next ≤ s.entries;
    } };
}

/// The state of an observer's machine alone, which contracts see as its definition has it.
#[derive(Drop)]
pub struct ObsState {
    store: ObsStore,
}

impl Model for ObsState {
    ghost use Rattle.zk_model_bus.specs.Observer.{Observer};

    ghost Value = { Observer };

    ghost view = { λ s. s.store.obs };
}

impl ObsState {
    /// A listener before the first entry. It takes no memory.
    pub fn listener(alloc: Global) -> ObsState
        ensures { result ≡ new_obs None }
    {
        ObsState {
            store: ObsStore::listener(alloc),
        }
    }

    /// A subscriber before the first entry, whose list has this capacity.
    pub fn subscriber(alloc: Global, capacity: u32) -> Result<ObsState, NoMemory>
        requires { capacity ≤ most_held }
        ensures { IfOk result (λ state. state ≡ new_obs (Some capacity)) }
    {
        Ok(ObsState {
            store: ObsStore::subscriber(alloc, capacity)?,
        })
    }

    /// The same state with its memory, as an engine keeps it.
    pub fn into_store(self) -> ObsStore
        ensures { result.obs ≡ self }
    {
        let ObsState { store } = self;
        store
    }
}

/// One channel more behind the others, for which there is room.
fn append(ring: &mut HeapCircularBuffer<u32>, channel: u32)
    requires { length ring.old.items < ring.old.capacity }
    ensures { ring.new ≡ buffer (ring.old.items ++ channel ∷ []) ring.old.capacity }
{
    ring.push_back(channel);
}

impl ObsStore {
    /// A listener before the first entry. It takes no memory.
    pub fn listener(alloc: Global) -> ObsStore
        ensures { result.obs ≡ new_obs None }
    {
        ObsStore {
            enabled: true,
            entries: 0,
            ring: None,
            takers: WaitList::new(alloc),
        }
    }

    /// A subscriber before the first entry, whose list has this capacity.
    pub fn subscriber(alloc: Global, capacity: u32) -> Result<ObsStore, NoMemory>
        requires { capacity ≤ most_held }
        ensures { IfOk result (λ store. store.obs ≡ new_obs (Some capacity)) }
    {
        let ring = HeapCircularBuffer::with_capacity(alloc, capacity as usize)?;
        Ok(ObsStore {
            ring: Some(ring),
            ..ObsStore::listener(alloc)
        })
    }

    /// What an observer that is enabled does at a visit.
    fn tell(&mut self, channel: u32) -> ObsReply
        ensures reply { result ≡ visit_reply self.old.obs.capacity self.old.obs.takers.waiting self.old.obs }
        ensures next { self.new.obs
            ≡ visited self.old.obs.capacity self.old.obs.takers.waiting self.old.obs channel }
        ensures room { self.old.room ≤ self.new.room }
    {
        let Some(ring) = &mut self.ring else {
            return ObsReply::Run;
        };
        if self.takers.first().is_some() {
            self.takers.decide_first(ObsReply::Channel(channel));
        } else if !ring.is_full() {
            append(ring, channel);
        } else {
            return ObsReply::Full;
        }
        ObsReply::Pushed
    }

    fn visit(&mut self, who: Who, channel: u32) -> ObsReply
        requires { self.old.obs.entries < most_entries }
        ensures reply { Some result ≡ obs_reply self.old.obs who (ObsOp.Visit channel) }
        ensures next { self.new.obs ≡ obs_next self.old.obs who (ObsOp.Visit channel) }
        ensures room { self.old.room ≤ self.new.room }
    {
        let mut reply = ObsReply::Off;
        if self.enabled {
            reply = self.tell(channel);
        }
        self.entries += 1;
        reply
    }

    fn take(&mut self, who: Who, waits: bool) -> Result<Option<ObsReply>, NoMemory>
        requires { self.old.obs.entries < most_entries }
        ensures reply { IfOk result (λ reply. reply ≡ obs_reply self.old.obs who (ObsOp.Take waits)) }
        ensures next { IfOk result (λ reply.
            self.new.obs ≡ obs_after self.old.obs who (ObsOp.Take waits) reply) }
        ensures unchanged { OnErr result (self.new.obs ≡ self.old.obs) }
        ensures memory { waits ≡ false → IsOk result }
        ensures roomy { 1 ≤ self.old.room → IsOk result }
        ensures room { self.old.room ≤ self.new.room + 1 }
        ensures kept { AddsNone result → self.old.room ≤ self.new.room }
    {
        let Some(ring) = &mut self.ring else {
            return Ok(None);
        };
        let mut reply = ObsReply::NoMsg;
        if let Some(channel) = ring.pop_front() {
            reply = ObsReply::Channel(channel);
        } else if waits {
            self.takers.join(Waiter {
                place: self.entries,
                who,
                payload: (),
            })?;
            reply = ObsReply::Wait;
        }
        self.entries += 1;
        Ok(Some(reply))
    }

    fn take_end(&mut self, who: Who, place: u64) -> Option<ObsReply>
        requires { self.old.obs.entries < most_entries }
        ensures reply { result ≡ obs_reply self.old.obs who (ObsOp.TakeEnd place) }
        ensures next { self.new.obs ≡ obs_after self.old.obs who (ObsOp.TakeEnd place) result }
        ensures room { self.old.room ≤ self.new.room }
    {
        let reply = self.takers.end(who.number, place)?;
        self.entries += 1;
        Some(reply)
    }

    fn take_quit(&mut self, who: Who, place: u64) -> Option<ObsReply>
        requires { self.old.obs.entries < most_entries }
        ensures reply { result ≡ obs_reply self.old.obs who (ObsOp.TakeQuit place) }
        ensures next { self.new.obs ≡ obs_after self.old.obs who (ObsOp.TakeQuit place) result }
        ensures room { self.old.room ≤ self.new.room }
    {
        let reply = self.takers.quit(who.number, place, ObsReply::Again)?;
        self.entries += 1;
        Some(reply)
    }

    fn enable(&mut self, who: Who, on: bool) -> ObsReply
        requires { self.old.obs.entries < most_entries }
        ensures reply { Some result ≡ obs_reply self.old.obs who (ObsOp.Enable on) }
        ensures next { self.new.obs ≡ obs_next self.old.obs who (ObsOp.Enable on) }
        ensures room { self.old.room ≤ self.new.room }
    {
        self.enabled = on;
        self.entries += 1;
        ObsReply::Done
    }
}

/// One operation of an observer's machine: its reply and its next state.
///
/// `None` says that the operation isn't possible now. Only a `Take` that waits takes memory.
pub fn obs_next(store: &mut ObsStore, who: Who, op: &ObsOp) -> Result<Option<ObsReply>, NoMemory>
    requires { store.old.obs.entries < most_entries }
    ensures reply { IfOk result (λ reply. reply ≡ obs_reply store.old.obs who op.now) }
    ensures next { IfOk result (λ reply. store.new.obs ≡ obs_after store.old.obs who op.now reply) }
    ensures unchanged { OnErr result (store.new.obs ≡ store.old.obs) }

    // Memory: one place is enough, and is taken only by a wait that begins.
    ensures memory { may_wait op.now ≡ false → IsOk result }
    ensures roomy { 1 ≤ store.old.room → IsOk result }
    ensures room { store.old.room ≤ store.new.room + 1 }
    ensures kept { AddsNone result → store.old.room ≤ store.new.room }
{
    match *op {
        ObsOp::Visit(channel) => Ok(Some(store.visit(who, channel))),
        ObsOp::Take(waits) => store.take(who, waits),
        ObsOp::TakeEnd(place) => Ok(store.take_end(who, place)),
        ObsOp::TakeQuit(place) => Ok(store.take_quit(who, place)),
        ObsOp::Enable(on) => Ok(Some(store.enable(who, on))),
    }
}

impl Store for ObsStore {
    type Op = ObsOp;

    type Reply = ObsReply;

    type State = ObsState;

    ghost use Rattle.zk_base.specs.Waits.{open_waits};
    ghost use Rattle.zk_model_bus.specs.Observer.{obs_closes, obs_machine};

    ghost state = { λ s. s.obs };

    ghost room = { λ s. s.room };

    ghost machine = { obs_machine };

    ghost entries = { λ o. o.entries };

    ghost owed = { λ o. open_waits o.takers };

    ghost closes = { λ o who op. obs_closes op };

    fn next(&mut self, who: Who, op: &ObsOp) -> Result<Option<ObsReply>, NoMemory> {
        obs_next(self, who, op)
    }

    fn is_closing(&self, _who: Who, op: &ObsOp) -> bool {
        matches!(op, ObsOp::TakeEnd(_) | ObsOp::TakeQuit(_))
    }

    fn is_futile(&self, who: Who, op: &ObsOp) -> bool {
        match op {
            ObsOp::TakeEnd(place) => !self.takers.is_decided(who.number, *place),
            _ => false,
        }
    }

    fn owed(&self) -> u64 {
        self.takers.open()
    }

    fn reserve(&mut self, more: usize) -> Result<(), NoMemory> {
        self.takers.reserve(more)
    }

    fn room(&self) -> u64 {
        self.takers.room()
    }

    fn counts_entries() {}
}
