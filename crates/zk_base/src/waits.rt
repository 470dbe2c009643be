ghost use Rattle.std.specs.Prelude.{◌≡◌, ◌+◌, ◌^◌, ◌-◌, ◌≤◌, ◌<◌, false, Option, is_some, length, IsOk, IfOk, IfNone, OnOk, OnErr, slice_get};
ghost use Rattle.std.specs.Fn.{FnReturnsAt};
ghost use Rattle.zk_base.specs.Waits.{no_waits, decision_of, goes_on, open_waits, joined, left, first_decided, all_decided, each_decided, ended, quitted, quit_answer};

use crate::leaders::{First, lead};
use crate::slots::{
    Slot, Stage, answer_for, close_up, decide_at, decide_each, decide_tested, end, index_of,
    pass_on, rank_of, waits_for,
};
use crate::span::Span;
use crate::{NoMemory, Who, push_within};
use std::alloc::Global;
use std::marker::Model;

/// A wait that goes on.
#[derive(Clone, Copy, PartialEq, Eq)]
pub struct Waiter<M> {
    /// The place of the entry that began it, in the object's history.
    pub place: u64,
    /// Who waits.
    pub who: Who,
    /// What the caller waits with, as the message of a put.
    pub payload: M,
}

/// A wait that is decided and that its caller hasn't ended yet.
#[derive(Clone, Copy, PartialEq, Eq)]
pub struct Decision<A> {
    /// The place of the entry that began the wait, in the object's history.
    pub place: u64,
    /// The number of the player who waited.
    pub player: u32,
    /// What the end of the wait answers.
    pub answer: A,
}

/// Who waits at an object, in the order in which they are served, and whose wait is decided. Zephyr's `_wait_q_t`.
///
/// Only `reserve` and `join` take memory: a wait that joins has the room of its decision. Each wait is found by its place in
/// logarithmic time, and the first who waits at once.
#[derive(Drop)]
pub struct WaitList<M: Drop, A: Drop> {
    // All waits that haven't ended, and as many at most that have; the lowest place first. So no other moves where one ends.
    slots: Vec<Slot<M, A>>,
    // For each priority the first who waits with it, the priority that is served first in front.
    firsts: Vec<First>,
    // How many go on, and how many have ended.
    waiting: usize,
    ended: usize,
    // Above the place of each.
    next: u64,
    // How many decisions there were: those that were made at once count as one.
    decisions: u64,
    // Where all stand that are decided.
    told: Span,
}

impl<M: Drop, A: Drop> Model for WaitList<M, A> {
    ghost use Rattle.std.specs.Prelude.{◌-◌, min, vec_len, vec_capacity};
    ghost use Rattle.zk_base.specs.Waits.{WaitView};
    ghost use Rattle.zk_base.specs.Slots.{IsWaitList, waits_in};

    ghost Value = { WaitView M A };

    ghost view = { λ l. record {
      waits = waits_in l.slots.items;
      room = min (vec_capacity l.slots - vec_len l.slots) (vec_capacity l.firsts - vec_len l.firsts);
      next = l.next;
    } };

    ghost invariant = { λ l. IsWaitList l.slots.items l.firsts.items l.waiting l.ended l.next l.decisions l.told };
}

impl<M: Drop + Copy, A: Drop + Copy> WaitList<M, A> {
    /// Nobody waits. It takes no memory.
    pub fn new(alloc: Global) -> WaitList<M, A>
        ensures waits { result.waits ≡ no_waits }
        ensures next { result.next ≡ 0 }
    {
        WaitList {
            slots: Vec::new(alloc),
            firsts: Vec::new(alloc),
            waiting: 0,
            ended: 0,
            next: 0,
            decisions: 0,
            told: Span::nothing(),
        }
    }

    /// Makes room for so many waits more.
    pub fn reserve(&mut self, more: usize) -> Result<(), NoMemory>
        ensures room { IfOk result (λ _. more ≤ self.new.room) }
        ensures more { self.old.room ≤ self.new.room }
        ensures same { self.new.waits ≡ self.old.waits }
        ensures next { self.new.next ≡ self.old.next }
        ensures roomy { more ≤ self.old.room → IsOk result }
    {
        self.slots.reserve(more)?;
        self.firsts.reserve(more)?;
        Ok(())
    }

    /// How many waits it takes without memory.
    pub fn room(&self) -> u64
        ensures { result ≡ self.now.room }
    {
        let slots = self.slots.capacity() - self.slots.len();
        let firsts = self.firsts.capacity() - self.firsts.len();
        slots.min(firsts) as u64
    }

    /// A number above the places of all waits so far.
    pub fn next(&self) -> u64
        ensures { result ≡ self.now.next }
    {
        self.next
    }

    /// How many waits there are that haven't ended, decided or not.
    pub fn open(&self) -> u64
        ensures { result ≡ open_waits self.now.waits }
    {
        (self.slots.len() - self.ended) as u64
    }

    /// How many waits go on, undecided.
    pub fn waiting(&self) -> u64
        ensures { result ≡ length self.now.waits.waiting }
    {
        self.waiting as u64
    }

    /// The first who waits: who is served next.
    pub fn first(&self) -> Option<Waiter<M>>
        ensures { result ≡ slice_get self.now.waits.waiting 0 }
    {
        if self.firsts.is_empty() {
            return None;
        }
        let index = index_of(&self.slots, self.firsts[0].place)?;
        Some(self.slots[index].waiter)
    }

    /// One more waits, behind all of its priority. The place is that of the entry that begins the wait, and is above all
    /// places so far.
    pub fn join(&mut self, waiter: Waiter<M>) -> Result<(), NoMemory>
        requires above { self.old.next ≤ waiter.place }
        requires short { waiter.place < 2 ^ 64 - 1 }
        ensures ok { OnOk result (self.new.waits ≡ joined self.old.waits waiter) }
        ensures err { OnErr result (self.new.waits ≡ self.old.waits) }
        ensures next { OnOk result (self.new.next ≡ waiter.place + 1) }
        ensures err_next { OnErr result (self.new.next ≡ self.old.next) }

        // Memory: one place of it is enough.
        ensures roomy { 1 ≤ self.old.room → IsOk result }
        ensures room { self.old.room ≤ self.new.room + 1 }
        ensures kept { OnErr result (self.old.room ≤ self.new.room) }
        ensures open { open_waits self.new.waits ≤ open_waits self.old.waits + 1 }
    {
        self.slots.reserve(1)?;
        self.firsts.reserve(1)?;
        let rank = rank_of(waiter.who);
        let slot = Slot {
            waiter,
            rank,
            number: 0,
            stage: Stage::Waits,
        };
        push_within(&mut self.slots, slot);
        lead(&mut self.firsts, rank, waiter.place);
        self.waiting += 1;
        self.next = waiter.place + 1;
        Ok(())
    }

    /// Decides the wait of the first who waits, if anybody does.
    pub fn decide_first(&mut self, answer: A)
        ensures waits { self.new.waits ≡ first_decided answer self.old.waits }
        ensures next { self.new.next ≡ self.old.next }
        ensures open { open_waits self.new.waits ≡ open_waits self.old.waits }
        ensures room { self.old.room ≤ self.new.room }
    {
        if self.firsts.is_empty() {
            return;
        }
        let place = self.firsts[0].place;
        let Some(index) = index_of(&self.slots, place) else {
            return;
        };
        self.waiting -= 1;
        self.decisions += 1;
        self.told = self.told.with(place);
        decide_at(
            &mut self.slots,
            &mut self.firsts,
            index,
            self.decisions,
            answer,
        );
    }

    /// Decides all waits alike.
    pub fn decide_all(&mut self, answer: A)
        ensures waits { self.new.waits ≡ all_decided answer self.old.waits }
        ensures next { self.new.next ≡ self.old.next }
        ensures open { open_waits self.new.waits ≡ open_waits self.old.waits }
        ensures room { self.old.room ≤ self.new.room }
    {
        if self.waiting == 0 {
            return;
        }
        self.decisions += 1;
        decide_each(&mut self.slots, self.decisions, answer);
        self.firsts.clear();
        self.waiting = 0;
        self.told = Span::everything();
    }

    /// Decides each wait for which the test has an answer, with that answer, in the order in which they are served. The others
    /// go on. The test is asked once for each who waits.
    pub fn decide_by<F: Fn(&M) -> Option<A>>(&mut self, test: F)
        requires { F.IsAlwaysCallable test }
        ensures waits { (says : M → Option A) →
            ((payload : M) (answer : Option A) → FnReturnsAt F.Fn test payload answer → answer ≡ says payload) →
            self.new.waits ≡ each_decided says self.old.waits }
        ensures next { self.new.next ≡ self.old.next }
        ensures open { open_waits self.new.waits ≡ open_waits self.old.waits }
        ensures room { self.old.room ≤ self.new.room }
    {
        if self.waiting == 0 {
            return;
        }
        let decided = decide_tested(
            &mut self.slots,
            &mut self.firsts,
            &mut self.told,
            self.decisions + 1,
            &test,
        );
        self.waiting -= decided;
        self.decisions += decided.min(1) as u64;
    }

    /// Whether a wait is decided.
    pub fn is_decided(&self, player: u32, place: u64) -> bool
        ensures { result ≡ is_some (decision_of self.now.waits player place) }
    {
        // (asked of each who waits, at each entry: nearly all are told so without a search)
        if !self.told.holds(place) {
            return false;
        }
        match index_of(&self.slots, place) {
            Some(index) => answer_for(player, &self.slots[index]).is_some(),
            None => false,
        }
    }

    /// Ends a wait that is decided, and gives its answer. Nothing comes where it isn't, and then nothing changes.
    pub fn end(&mut self, player: u32, place: u64) -> Option<A>
        ensures answer { result ≡ decision_of self.old.waits player place }
        ensures waits { self.new.waits ≡ ended self.old.waits player place }
        ensures next { self.new.next ≡ self.old.next }
        ensures open { open_waits self.new.waits ≤ open_waits self.old.waits }
        ensures none { IfNone result (self.new.waits ≡ self.old.waits) }
        ensures room { self.old.room ≤ self.new.room }
    {
        let index = index_of(&self.slots, place)?;
        let answer = answer_for(player, &self.slots[index])?;
        end(&mut self.slots[index]);
        self.ended = close_up(&mut self.slots, self.ended + 1);
        self.told = self
            .told
            .where_any(self.slots.len() != self.waiting + self.ended);
        Some(answer)
    }

    /// Gives a wait up: it ends with its decision, or else with the answer of giving up. Nothing comes where there is no
    /// such wait, and then nothing changes.
    pub fn quit(&mut self, player: u32, place: u64, gives_up: A) -> Option<A>
        ensures answer { result ≡ quit_answer gives_up self.old.waits player place }
        ensures waits { self.new.waits ≡ quitted self.old.waits player place }
        ensures next { self.new.next ≡ self.old.next }
        ensures open { open_waits self.new.waits ≤ open_waits self.old.waits }
        ensures none { IfNone result (self.new.waits ≡ self.old.waits) }
        ensures room { self.old.room ≤ self.new.room }
    {
        let decided = self.end(player, place);
        let waited = self.leave(player, place);
        match decided {
            Some(answer) => Some(answer),
            None if waited => Some(gives_up),
            None => None,
        }
    }

    /// Takes a wait that goes on out, and says whether there was one.
    fn leave(&mut self, player: u32, place: u64) -> bool
        ensures found { result ≡ goes_on self.old.waits player place }
        ensures waits { self.new.waits ≡ left self.old.waits player place }
        ensures next { self.new.next ≡ self.old.next }
        ensures open { open_waits self.new.waits ≤ open_waits self.old.waits }
        ensures none { result ≡ false → self.new.waits ≡ self.old.waits }
        ensures room { self.old.room ≤ self.new.room }
    {
        let Some(index) = index_of(&self.slots, place) else {
            return false;
        };
        if !waits_for(player, &self.slots[index]) {
            return false;
        }
        pass_on(&mut self.firsts, &self.slots, index);
        self.waiting -= 1;
        end(&mut self.slots[index]);
        self.ended = close_up(&mut self.slots, self.ended + 1);
        true
    }
}
