ghost use Rattle.std.specs.Prelude.{◌≡◌, ℕ, ◌-◌, ◌<◌, ◌≤◌, [], ◌∷◌, ◌++◌, length, drop, replicate, slice_set, slice_index, All, MatchOption, OnOk, IfOk};
ghost use Rattle.std.specs.Bool.{MatchBool};
ghost use Rattle.std.specs.List.{AllAdjacentBelow, AllZip, slice_index_or};
ghost use Rattle.std.specs.List.Sorted.{IsPermutation, IsNonDecreasingBy};
ghost use Rattle.zk_show_order.specs.Lanes.{AreQueued, IsSortedLane, HasTwice, AreLanes};
ghost use Rattle.zk_show_order.specs.Order.{HasNoOrder};

use std::alloc::Global;
use std::marker::Model;
use zk_base::{Listed, NoMemory};
use zk_trace::Stood;

/// A line: the number of its step, and its place among all lines.
#[derive(Clone, Copy)]
pub struct Queued {
    pub step: u32,
    pub place: usize,
}

/// The places of the lines of a player that are left, by step.
#[derive(Drop)]
pub struct Lane {
    queued: Vec<Queued>,
    // So many of them are passed.
    passed: usize,
}

impl Model for Lane {
    ghost use Rattle.std.specs.Prelude.{ℕ, List, drop};
    ghost use Rattle.zk_show_order.specs.Lanes.{places_of};

    ghost Value = { List ℕ };

    ghost view = { λ l. places_of (drop l.passed l.queued.items) };
}

impl Lane {
    /// The lane of these lines; none where a step stands twice.
    fn of(mut queued: Vec<Queued>) -> Option<Lane>
        ensures { MatchOption result (HasTwice queued.items) (λ lane. IsSortedLane queued.items lane) }
    {
        sort_by_step(&mut queued);
        if !rises(&queued) {
            return None;
        }
        Some(Lane { queued, passed: 0 })
    }

    /// The place of the next line.
    pub fn next(&self) -> Option<usize>
        ensures { MatchOption result (self.now ≡ []) (λ place. self.now ≡ place ∷ drop 1 self.now) }
    {
        match self.queued.get(self.passed) {
            Some(next) => Some(next.place),
            None => None,
        }
    }

    /// Passes the next line.
    pub fn pass(&mut self)
        requires { 0 < length self.old }
        ensures { self.new ≡ drop 1 self.old }
    {
        self.passed += 1;
    }
}

fn sort_by_step(queued: &mut Vec<Queued>)
    ensures same { IsPermutation queued.old.items queued.new.items }
    ensures sorted { IsNonDecreasingBy (λ q. q.step) queued.new.items }
{
    queued.sort_unstable_by_key(|one| one.step);
}

/// Whether each step is above the one before it.
fn rises(queued: &[Queued]) -> bool
    ensures { MatchBool result
        (AllAdjacentBelow (λ a b. a.step < b.step) queued.now (length queued.now))
        ((k : ℕ) × (0 < k) × (k < length queued.now) × ((d : Queued) →
        (slice_index_or queued.now k d).step ≤ (slice_index_or queued.now (k - 1) d).step)) }
{
    for place in 1..queued.len() {
        if queued[place].step <= queued[place - 1].step {
            return false;
        }
    }
    true
}

/// How many players there are up to the highest of some lines.
fn player_count(lines: &[Stood]) -> usize
    ensures { All (λ line. line.player < result) lines.now }
{
    let mut count = 0;
    for line in lines {
        count = (line.player as usize + 1).max(count);
    }
    count
}

/// So many lists, all of them empty.
fn empty_lists(alloc: Global, count: usize) -> Result<Vec<Listed<Queued>>, NoMemory>
    ensures { IfOk result (λ lists. lists.items ≡ replicate count []) }
{
    let mut lists = Vec::with_capacity(alloc, count)?;
    for _list in 0..count {
        lists.push(Listed::new(alloc))?;
    }
    Ok(lists)
}

/// Puts a line at the end of a list.
fn put(lists: &mut Vec<Listed<Queued>>, player: usize, one: Queued) -> Result<(), NoMemory>
    requires { player < length lists.old.items }
    ensures { OnOk result (lists.new.items ≡
        slice_set lists.old.items player (slice_index_or lists.old.items player [] ++ one ∷ [])) }
{
    lists[player].push(one)
}

/// The lines of each player, in their order.
fn lists_of(alloc: Global, lines: &[Stood]) -> Result<Vec<Listed<Queued>>, NoMemory>
    ensures { IfOk result (λ lists. AreQueued lines.now (length lines.now) lists.items) }
{
    let mut lists = empty_lists(alloc, player_count(lines))?;
    for (place, line) in lines.iter().enumerate() {
        let step = line.step;
        put(&mut lists, line.player as usize, Queued { step, place })?;
    }
    Ok(lists)
}

/// The lanes of these lists; nothing where a step stands twice in one of them.
fn sorted(alloc: Global, lists: Vec<Listed<Queued>>) -> Result<Option<Vec<Lane>>, NoMemory>
    ensures { IfOk result (λ made. MatchOption made
        ((k : ℕ) × (k < length lists.items) × HasTwice (slice_index_or lists.items k []))
        (λ lanes. AllZip IsSortedLane lists.items lanes.items)) }
{
    let mut lanes = Vec::with_capacity(alloc, lists.len())?;
    for list in lists {
        match Lane::of(list.into_vec()) {
            Some(lane) => lanes.push(lane)?,
            None => return Ok(None),
        }
    }
    Ok(Some(lanes))
}

/// The lane of each player; nothing where a player made a step twice.
pub fn lanes_of(alloc: Global, lines: &[Stood]) -> Result<Option<Vec<Lane>>, NoMemory>
    ensures { IfOk result (λ made. MatchOption made (HasNoOrder lines.now) (λ lanes. AreLanes lines.now lanes.items)) }
{
    let lists = lists_of(alloc, lines)?;
    sorted(alloc, lists)
}
