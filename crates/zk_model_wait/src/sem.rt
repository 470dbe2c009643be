ghost use Rattle.std.specs.Prelude.{◌≡◌, true, false, ◌+◌, ◌-◌, ◌^◌, ◌<◌, ◌≤◌, [], Some, IsOk, IfOk, OnOk, OnErr};
ghost use Rattle.zk_base.specs.History.{AddsNone};
ghost use Rattle.zk_base.specs.Limits.{most_entries};
ghost use Rattle.zk_model_wait.specs.Sem.{new_sem, give_to, sem_reply, sem_after, may_wait};

use std::alloc::Global;
use std::marker::Model;
use zk_base::{NoMemory, Store, WaitList, Waiter, Who};

/// What can be asked of a semaphore.
#[derive(Clone, Copy, Debug, PartialEq, Eq)]
pub enum SemOp {
    /// Takes one off the count. At 0 the caller waits, where this is true. Zephyr's `k_sem_take`.
    Take(bool),
    /// Ends a wait of the caller that is decided: the one that the entry of this place began.
    TakeEnd(u64),
    /// Gives a wait of the caller up, decided or not: the one that the entry of this place began.
    TakeQuit(u64),
    /// Gives one to the first who waits, or to the count. Zephyr's `k_sem_give`.
    Give,
    /// Sets the count to 0 and ends all waits. Zephyr's `k_sem_reset`.
    Reset,
    /// Asks for the count. Zephyr's `k_sem_count_get`.
    Count,
    /// Asks whether the count is above 0. At 0 the caller is registered, where this is true: a later give notifies it. The
    /// registration of an event by Zephyr's `k_poll`.
    PollArm(bool),
    /// Ends a poll of the caller that is notified: the one that the entry of this place began.
    PollEnd(u64),
    /// Gives a poll of the caller up, notified or not: the one that the entry of this place began.
    PollQuit(u64),
}

/// What a semaphore answers.
#[derive(Clone, Copy, Debug, PartialEq, Eq)]
pub enum SemReply {
    /// The caller has taken one.
    Got,
    /// The count is 0, and the caller doesn't wait.
    Busy,
    /// The count is 0, and the caller waits.
    Wait,
    /// The wait ended without one: it was reset, or given up.
    Again,
    /// It is done.
    Done,
    /// The count.
    Number(u32),
    /// The count is above 0, and the caller of the poll isn't registered.
    Ready,
    /// The count is 0, and the caller of the poll isn't registered.
    NotReady,
    /// The count is 0, and the caller of the poll is registered.
    Armed,
    /// The poll ended notified.
    Noted,
    /// The poll was given up, and was not notified.
    Plain,
}

/// The state of a semaphore's machine, with the memory that it has for waits.
#[derive(Drop)]
pub struct SemStore {
    count: u32,
    limit: u32,
    entries: u64,
    takers: WaitList<(), SemReply>,
    // Who is notified is decided.
    pollers: WaitList<(), SemReply>,
}

impl Model for SemStore {
    ghost use Rattle.std.specs.Prelude.{◌≤◌, min};
    ghost use Rattle.zk_model_wait.specs.Sem.{SemView, IsCounted};

    ghost Value = { SemView };

    ghost view = { λ s. record {
      sem = record {
        count = s.count;
        limit = s.limit;
        entries = s.entries;
        takers = s.takers.waits;
        pollers = s.pollers.waits;
      };
      room = min s.takers.room s.pollers.room;
    } };

    ghost invariant = { λ s. record {
      counted : IsCounted (record {
        count = s.count;
        limit = s.limit;
        entries = s.entries;
        takers = s.takers.waits;
        pollers = s.pollers.waits;
      });
      taken : s.takers.next ≤ s.entries;
      polled : s.pollers.next ≤ s.entries;
    } };
}

/// The state of a semaphore's machine alone, which contracts see as its definition has it.
#[derive(Drop)]
pub struct SemState {
    store: SemStore,
}

impl Model for SemState {
    ghost use Rattle.zk_model_wait.specs.Sem.{Sem};

    ghost Value = { Sem };

    ghost view = { λ s. s.store.sem };
}

impl SemState {
    /// A semaphore before the first entry. It takes no memory.
    pub fn new(alloc: Global, initial: u32, limit: u32) -> SemState
        requires { initial ≤ limit }
        ensures { result ≡ new_sem initial limit }
    {
        SemState {
            store: SemStore::new(alloc, initial, limit),
        }
    }

    /// The same state with its memory, as an engine keeps it.
    pub fn into_store(self) -> SemStore
        ensures { result.sem ≡ self }
    {
        let SemState { store } = self;
        store
    }
}

impl SemStore {
    /// A semaphore before the first entry. It takes no memory.
    pub fn new(alloc: Global, initial: u32, limit: u32) -> SemStore
        requires { initial ≤ limit }
        ensures { result.sem ≡ new_sem initial limit }
    {
        SemStore {
            count: initial,
            limit,
            entries: 0,
            takers: WaitList::new(alloc),
            pollers: WaitList::new(alloc),
        }
    }

    fn take(&mut self, who: Who, waits: bool) -> Result<Option<SemReply>, NoMemory>
        requires { self.old.sem.entries < most_entries }
        ensures reply { IfOk result (λ reply. reply ≡ sem_reply self.old.sem who (SemOp.Take waits)) }
        ensures next { IfOk result (λ reply.
            self.new.sem ≡ sem_after self.old.sem who (SemOp.Take waits) reply) }
        ensures unchanged { OnErr result (self.new.sem ≡ self.old.sem) }
        ensures memory { waits ≡ false → IsOk result }
        ensures roomy { 1 ≤ self.old.room → IsOk result }
        ensures room { self.old.room ≤ self.new.room + 1 }
        ensures kept { AddsNone result → self.old.room ≤ self.new.room }
    {
        let mut reply = SemReply::Got;
        if self.count > 0 {
            self.count -= 1;
        } else if waits {
            self.takers.join(Waiter {
                place: self.entries,
                who,
                payload: (),
            })?;
            reply = SemReply::Wait;
        } else {
            reply = SemReply::Busy;
        }
        self.entries += 1;
        Ok(Some(reply))
    }

    fn take_end(&mut self, who: Who, place: u64) -> Option<SemReply>
        requires { self.old.sem.entries < most_entries }
        ensures reply { result ≡ sem_reply self.old.sem who (SemOp.TakeEnd place) }
        ensures next { self.new.sem ≡ sem_after self.old.sem who (SemOp.TakeEnd place) result }
        ensures room { self.old.room ≤ self.new.room }
    {
        let reply = self.takers.end(who.number, place)?;
        self.entries += 1;
        Some(reply)
    }

    fn take_quit(&mut self, who: Who, place: u64) -> Option<SemReply>
        requires { self.old.sem.entries < most_entries }
        ensures reply { result ≡ sem_reply self.old.sem who (SemOp.TakeQuit place) }
        ensures next { self.new.sem ≡ sem_after self.old.sem who (SemOp.TakeQuit place) result }
        ensures room { self.old.room ≤ self.new.room }
    {
        let reply = self.takers.quit(who.number, place, SemReply::Again)?;
        self.entries += 1;
        Some(reply)
    }

    /// A give where nobody waits: the count is raised up to the limit, and the first poller that isn't notified yet is.
    fn raise(&mut self)
        requires { self.old.sem.entries < most_entries }
        ensures next { self.new.sem ≡ give_to [] self.old.sem }
        ensures room { self.old.room ≤ self.new.room }
    {
        if self.count < self.limit {
            self.count += 1;
        }
        self.pollers.decide_first(SemReply::Noted);
    }

    fn give(&mut self, who: Who) -> SemReply
        requires { self.old.sem.entries < most_entries }
        ensures reply { Some result ≡ sem_reply self.old.sem who SemOp.Give }
        ensures next { self.new.sem ≡ sem_after self.old.sem who SemOp.Give (Some result) }
        ensures room { self.old.room ≤ self.new.room }
    {
        match self.takers.first() {
            Some(_) => self.takers.decide_first(SemReply::Got),
            None => {
                self.raise();
            }
        }
        self.entries += 1;
        SemReply::Done
    }

    fn reset(&mut self, who: Who) -> SemReply
        requires { self.old.sem.entries < most_entries }
        ensures reply { Some result ≡ sem_reply self.old.sem who SemOp.Reset }
        ensures next { self.new.sem ≡ sem_after self.old.sem who SemOp.Reset (Some result) }
        ensures room { self.old.room ≤ self.new.room }
    {
        self.count = 0;
        self.takers.decide_all(SemReply::Again);
        self.entries += 1;
        SemReply::Done
    }

    fn count(&mut self, who: Who) -> SemReply
        requires { self.old.sem.entries < most_entries }
        ensures reply { Some result ≡ sem_reply self.old.sem who SemOp.Count }
        ensures next { self.new.sem ≡ sem_after self.old.sem who SemOp.Count (Some result) }
        ensures room { self.old.room ≤ self.new.room }
    {
        self.entries += 1;
        SemReply::Number(self.count)
    }

    fn poll_arm(&mut self, who: Who, waits: bool) -> Result<Option<SemReply>, NoMemory>
        requires { self.old.sem.entries < most_entries }
        ensures reply { IfOk result (λ reply.
            reply ≡ sem_reply self.old.sem who (SemOp.PollArm waits)) }
        ensures next { IfOk result (λ reply.
            self.new.sem ≡ sem_after self.old.sem who (SemOp.PollArm waits) reply) }
        ensures unchanged { OnErr result (self.new.sem ≡ self.old.sem) }
        ensures memory { waits ≡ false → IsOk result }
        ensures roomy { 1 ≤ self.old.room → IsOk result }
        ensures room { self.old.room ≤ self.new.room + 1 }
        ensures kept { AddsNone result → self.old.room ≤ self.new.room }
    {
        let mut reply = SemReply::Ready;
        if self.count == 0 {
            reply = SemReply::NotReady;
            if waits {
                self.pollers.join(Waiter {
                    place: self.entries,
                    who,
                    payload: (),
                })?;
                reply = SemReply::Armed;
            }
        }
        self.entries += 1;
        Ok(Some(reply))
    }

    fn poll_end(&mut self, who: Who, place: u64) -> Option<SemReply>
        requires { self.old.sem.entries < most_entries }
        ensures reply { result ≡ sem_reply self.old.sem who (SemOp.PollEnd place) }
        ensures next { self.new.sem ≡ sem_after self.old.sem who (SemOp.PollEnd place) result }
        ensures room { self.old.room ≤ self.new.room }
    {
        let reply = self.pollers.end(who.number, place)?;
        self.entries += 1;
        Some(reply)
    }

    fn poll_quit(&mut self, who: Who, place: u64) -> Option<SemReply>
        requires { self.old.sem.entries < most_entries }
        ensures reply { result ≡ sem_reply self.old.sem who (SemOp.PollQuit place) }
        ensures next { self.new.sem ≡ sem_after self.old.sem who (SemOp.PollQuit place) result }
        ensures room { self.old.room ≤ self.new.room }
    {
        let reply = self.pollers.quit(who.number, place, SemReply::Plain)?;
        self.entries += 1;
        Some(reply)
    }
}

/// One operation of a semaphore's machine: its reply and its next state.
///
/// `None` says that the operation isn't possible now. Only a `Take` or a `PollArm` that waits takes memory.
pub fn sem_next(store: &mut SemStore, who: Who, op: &SemOp) -> Result<Option<SemReply>, NoMemory>
    requires { store.old.sem.entries < most_entries }
    ensures reply { IfOk result (λ reply. reply ≡ sem_reply store.old.sem who op.now) }
    ensures next { IfOk result (λ reply. store.new.sem ≡ sem_after store.old.sem who op.now reply) }
    ensures unchanged { OnErr result (store.new.sem ≡ store.old.sem) }

    // Memory: one place is enough, and is taken only by a wait or a poll that begins.
    ensures memory { may_wait op.now ≡ false → IsOk result }
    ensures roomy { 1 ≤ store.old.room → IsOk result }
    ensures room { store.old.room ≤ store.new.room + 1 }
    ensures kept { AddsNone result → store.old.room ≤ store.new.room }
{
    match *op {
        SemOp::Take(waits) => store.take(who, waits),
        SemOp::TakeEnd(place) => Ok(store.take_end(who, place)),
        SemOp::TakeQuit(place) => Ok(store.take_quit(who, place)),
        SemOp::Give => Ok(Some(store.give(who))),
        SemOp::Reset => Ok(Some(store.reset(who))),
        SemOp::Count => Ok(Some(store.count(who))),
        SemOp::PollArm(waits) => store.poll_arm(who, waits),
        SemOp::PollEnd(place) => Ok(store.poll_end(who, place)),
        SemOp::PollQuit(place) => Ok(store.poll_quit(who, place)),
    }
}

impl Store for SemStore {
    type Op = SemOp;

    type Reply = SemReply;

    type State = SemState;

    ghost use Rattle.zk_model_wait.specs.Sem.{open_takes, sem_closes, sem_machine};

    ghost state = { λ s. s.sem };

    ghost room = { λ s. s.room };

    ghost machine = { sem_machine };

    ghost entries = { λ s. s.entries };

    ghost owed = { open_takes };

    ghost closes = { λ s who op. sem_closes op };

    fn next(&mut self, who: Who, op: &SemOp) -> Result<Option<SemReply>, NoMemory> {
        sem_next(self, who, op)
    }

    fn is_closing(&self, _who: Who, op: &SemOp) -> bool {
        matches!(
            op,
            SemOp::TakeEnd(_) | SemOp::TakeQuit(_) | SemOp::PollEnd(_) | SemOp::PollQuit(_)
        )
    }

    fn is_futile(&self, who: Who, op: &SemOp) -> bool {
        match op {
            SemOp::TakeEnd(place) => !self.takers.is_decided(who.number, *place),
            SemOp::PollEnd(place) => !self.pollers.is_decided(who.number, *place),
            _ => false,
        }
    }

    fn owed(&self) -> u64 {
        self.takers.open() + self.pollers.open()
    }

    fn reserve(&mut self, more: usize) -> Result<(), NoMemory> {
        self.takers.reserve(more)?;
        self.pollers.reserve(more)
    }

    fn room(&self) -> u64 {
        self.takers.room().min(self.pollers.room())
    }

    fn counts_entries() {}
}
