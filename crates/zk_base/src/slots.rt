ghost use Rattle.std.specs.Prelude.{◌≡◌, ◌≢◌, ◌+◌, ◌<◌, ◌≤◌, true, Option, drop, length, map, set, vec_len, vec_capacity, All, HoldsAt, IfSome, IfNone};
ghost use Rattle.zk_base.specs.Slots.{IsPriority, IsClosedUp, StaysWaitList, rank_of, place_of, Rises, is_waiting, is_open, over, decided_as, decided_where, decided_all, answer_by, answer_for, waits_for, waits_as, leads, passed_on};
ghost use Rattle.zk_base.specs.Tests.{Computes};

use crate::Who;
use crate::leaders::{First, place_of_rank};
use crate::span::Span;
use crate::waits::Waiter;

/// How far a wait is.
#[derive(Clone, Copy)]
pub enum Stage<A> {
    /// It goes on.
    Waits,
    /// It is decided, with what its end answers.
    Decided(A),
    /// It has ended.
    Ended,
}

/// A wait as it is kept.
#[derive(Clone, Copy)]
pub struct Slot<M, A> {
    pub waiter: Waiter<M>,
    /// The priority as a number from 0 on.
    pub rank: u8,
    /// How many decisions there were with its own, where it is decided.
    pub number: u64,
    pub stage: Stage<A>,
}

/// The priority of a player as a number from 0 on.
pub fn rank_of(who: Who) -> u8
    ensures rank { result ≡ rank_of who.prio }
    ensures fits { IsPriority who.prio }
{
    who.prio.abs_diff(i8::MIN)
}

/// The index of the wait of this place, if there is one.
pub fn index_of<M, A>(slots: &[Slot<M, A>], place: u64) -> Option<usize>
    requires { Rises place_of slots.now }
    ensures within { IfSome result (λ index. index < length slots.now) }
    ensures found { IfSome result (HoldsAt (λ s. place_of s ≡ place) slots.now) }
    ensures none { IfNone result (All (λ s. place_of s ≢ place) slots.now) }
{
    let index = slots.partition_point(|slot| slot.waiter.place < place);
    if index == slots.len() {
        return None;
    }
    if slots[index].waiter.place != place {
        return None;
    }
    Some(index)
}

/// Whether the wait goes on.
fn is_waiting<M, A>(slot: &Slot<M, A>) -> bool
    ensures { result ≡ is_waiting slot.now }
{
    match slot.stage {
        Stage::Waits => true,
        _ => false,
    }
}

/// Whether the wait hasn't ended.
fn is_open<M, A>(slot: &Slot<M, A>) -> bool
    ensures { result ≡ is_open slot.now }
{
    match slot.stage {
        Stage::Ended => false,
        _ => true,
    }
}

/// Ends the wait.
pub fn end<M, A: Copy>(slot: &mut Slot<M, A>)
    ensures { slot.new ≡ over slot.old }
{
    slot.stage = Stage::Ended;
}

/// Decides the wait.
fn decide<M, A: Copy>(slot: &mut Slot<M, A>, number: u64, answer: A)
    ensures { slot.new ≡ decided_as number answer slot.old }
{
    slot.number = number;
    slot.stage = Stage::Decided(answer);
}

/// Decides the wait where it goes on.
fn decide_where_waiting<M, A: Copy>(slot: &mut Slot<M, A>, number: u64, answer: A)
    ensures { slot.new ≡ decided_all number answer slot.old }
{
    if is_waiting(slot) {
        decide(slot, number, answer);
    }
}

/// Decides all waits that go on.
pub fn decide_each<M: Copy, A: Copy>(slots: &mut [Slot<M, A>], number: u64, answer: A)
    ensures { slots.new ≡ map (decided_all number answer) slots.old }
{
    for slot in slots.iter_mut() {
        decide_where_waiting(slot, number, answer);
    }
}

/// What the end of this player's wait answers, where it is decided.
pub fn answer_for<M, A: Copy>(player: u32, slot: &Slot<M, A>) -> Option<A>
    ensures { result ≡ answer_for player slot.now }
{
    if slot.waiter.who.number != player {
        return None;
    }
    match slot.stage {
        Stage::Decided(answer) => Some(answer),
        _ => None,
    }
}

/// Whether this player's wait goes on.
pub fn waits_for<M, A>(player: u32, slot: &Slot<M, A>) -> bool
    ensures { result ≡ waits_for player slot.now }
{
    is_waiting(slot) && slot.waiter.who.number == player
}

/// Whether the wait goes on, and is of this rank.
fn waits_as<M, A>(rank: u8, slot: &Slot<M, A>) -> bool
    ensures { result ≡ waits_as rank slot.now }
{
    is_waiting(slot) && slot.rank == rank
}

/// The place of the first wait of this rank that goes on.
fn leads<M, A>(rank: u8, slots: &[Slot<M, A>]) -> Option<u64>
    ensures { result ≡ leads rank slots.now }
{
    match slots.iter().find(|slot| waits_as(rank, slot)) {
        Some(slot) => Some(slot.waiter.place),
        None => None,
    }
}

/// The wait at this index goes on no longer: where it was the first of its rank, the next one is.
pub fn pass_on<M, A>(firsts: &mut Vec<First>, slots: &[Slot<M, A>], index: usize)
    requires ordered { Rises (λ f. f.rank) firsts.old.items }
    requires within { index < length slots.now }
    ensures items { HoldsAt (λ s. firsts.new.items
        ≡ passed_on s.rank (place_of s) (leads s.rank (drop (index + 1) slots.now)) firsts.old.items) slots.now index }
    ensures len { vec_len firsts.new ≤ vec_len firsts.old }
    ensures capacity { vec_capacity firsts.new ≡ vec_capacity firsts.old }
{
    let slot = &slots[index];
    let Some(at) = place_of_rank(firsts, slot.rank) else {
        return;
    };
    if firsts[at].place != slot.waiter.place {
        return;
    }
    match leads(slot.rank, &slots[index + 1..]) {
        Some(place) => {
            firsts[at] = First {
                rank: slot.rank,
                place,
            };
        }
        None => {
            firsts.remove(at);
        }
    }
}

/// Decides the wait at this index: where it was the first of its rank, the next one is.
pub fn decide_at<M: Copy, A: Copy>(
    slots: &mut [Slot<M, A>],
    firsts: &mut Vec<First>,
    index: usize,
    number: u64,
    answer: A,
)
    requires ordered { Rises (λ f. f.rank) firsts.old.items }
    requires within { index < length slots.old }
    ensures slots { HoldsAt (λ s. slots.new ≡ set slots.old index (decided_as number answer s)) slots.old index }
    ensures firsts { HoldsAt (λ s. firsts.new.items
        ≡ passed_on s.rank (place_of s) (leads s.rank (drop (index + 1) slots.old)) firsts.old.items) slots.old index }
    ensures len { vec_len firsts.new ≤ vec_len firsts.old }
    ensures capacity { vec_capacity firsts.new ≡ vec_capacity firsts.old }
{
    pass_on(firsts, slots, index);
    decide(&mut slots[index], number, answer);
}

/// What the test answers, where the wait goes on.
fn answer_by<M, A, F: Fn(&M) -> Option<A>>(test: &F, slot: &Slot<M, A>) -> Option<A>
    requires { F.IsAlwaysCallable test.now }
    ensures waits { IfSome result (λ _. is_waiting slot.now ≡ true) }
    ensures answer { (says : M → Option A) → Computes F.Fn says test.now → result ≡ answer_by says slot.now }
{
    if !is_waiting(slot) {
        return None;
    }
    test(&slot.waiter.payload)
}

/// Decides each wait that goes on and for which the test has an answer, all as of one number, and notes where they stand. How
/// many they are.
pub fn decide_tested<M: Copy, A: Copy, F: Fn(&M) -> Option<A>>(
    slots: &mut [Slot<M, A>],
    firsts: &mut Vec<First>,
    told: &mut Span,
    number: u64,
    test: &F,
) -> usize
    requires callable { F.IsAlwaysCallable test.now }
    requires ordered { Rises (λ f. f.rank) firsts.old.items }
    ensures slots { (says : M → Option A) → Computes F.Fn says test.now
        → slots.new ≡ map (decided_where number says) slots.old }
    ensures stays { StaysWaitList number slots.old firsts.old.items told.old slots.new firsts.new.items told.new result }
    ensures len { vec_len firsts.new ≤ vec_len firsts.old }
    ensures capacity { vec_capacity firsts.new ≡ vec_capacity firsts.old }
{
    let mut decided = 0;
    for index in 0..slots.len() {
        if let Some(answer) = answer_by(test, &slots[index]) {
            *told = told.with(slots[index].waiter.place);
            decide_at(slots, firsts, index, number, answer);
            decided += 1;
        }
    }
    decided
}

/// Takes the waits out that have ended, where they are more than half. How many of those there are then.
pub fn close_up<M: Drop, A: Drop>(slots: &mut Vec<Slot<M, A>>, ended: usize) -> usize
    ensures slots { IsClosedUp slots.old.items ended slots.new.items result }
    ensures half { result + result ≤ length slots.new.items }
    ensures len { vec_len slots.new ≤ vec_len slots.old }
    ensures capacity { vec_capacity slots.new ≡ vec_capacity slots.old }
{
    if ended <= slots.len() / 2 {
        return ended;
    }
    slots.retain(|slot| is_open(slot));
    0
}
