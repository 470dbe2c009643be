ghost use Rattle.std.specs.Prelude.{◌≡◌, ℕ, ◌<◌, ◌≤◌, [], length, map, All, vec_capacity};
ghost use Rattle.crossbeam_queue.specs.Passes.{view, IsPassOf, ruled_capacity};
ghost use Rattle.zk_pool.specs.Counts.{tally};
ghost use Rattle.zk_pool.specs.Hands.{IsHandOf, StandsFor, hand_held, pool_hands, pool_home, pool_items, pool_numbers, room_size};
ghost use Rattle.zk_pool.specs.Rule.{Suits};

use crate::hand::Hand;
use crate::numbered::Numbered;
use crate::pool::Pool;
use crate::room::Room;
use crate::rule::{Merge, PoolRule, Take};
use crate::views::View;
use crossbeam_queue::{Pass, RuledArrayQueue};
use std::sync::Wait;
use zk_base::push_within;

/// Takes all items out of the queue, for the pass that stands for all hands.
fn drain<T: Numbered, R: Wait>(
    rt: &R,
    queue: &RuledArrayQueue<T, View<T::Home>, PoolRule<T>>,
    mut pass: Pass<T, View<T::Home>>,
    mut room: Vec<T>,
) -> Vec<T>
    requires own { IsPassOf queue.now pass }
    requires some { 0 < (view pass).hands }
    requires all { (view pass).hands ≡ (view pass).made }
    requires none { (view pass).held ≡ [] }
    requires fits { ruled_capacity queue.now ≡ length (view pass).numbers }
    requires room { (room.items ≡ []) × (ruled_capacity queue.now ≤ vec_capacity room) }
    ensures once { (n : ℕ) → tally n (map T.number result.items) ≡ tally n (view pass).numbers }
    ensures count { length result.items ≡ ruled_capacity queue.now }
    ensures suits { All (Suits T.number T.home T.kept (view pass).home) result.items }
{
    for _ in 0..queue.capacity() {
        match queue.pop_as::<Take<T>, R>(rt, &mut pass) {
            Some(item) => push_within(&mut room, item),
            None => unreachable!(),
        }
    }
    queue.learn_as::<Take<T>>(&mut pass);
    room
}

impl<T: Numbered> Pool<T> {
    /// Takes the pool apart and gives its items back, for all the hands that were made, none of which holds one, and room for all.
    ///
    /// It takes no memory.
    pub fn close<R: Wait>(self, rt: &R, hands: Vec<Hand<T>>, room: Room<T>) -> Vec<T>
        requires own { All (IsHandOf T.number T.home self) hands.items }
        requires all { length hands.items ≡ pool_hands self }
        requires none { All (λ hand. hand_held hand ≡ []) hands.items }
        requires room { length (pool_items self) ≤ room_size room }

        // One item of each number, each of which suits the pool.
        ensures once { (n : ℕ) → tally n (map T.number result.items) ≡ tally n (pool_numbers T.number self) }
        ensures count { length result.items ≡ length (pool_items self) }
        ensures suits { All (Suits T.number T.home T.kept (pool_home T.home self)) result.items }
    {
        let pass = self.gather(hands);
        let Pool {
            queue,
            hands: _,
            given: _,
        } = self;
        let Room { items } = room;
        drain(rt, &queue, pass, items)
    }

    // The pass for all hands.
    fn gather(&self, mut hands: Vec<Hand<T>>) -> Pass<T, View<T::Home>>
        requires own { All (IsHandOf T.number T.home self.now) hands.items }
        requires all { length hands.items ≡ pool_hands self.now }
        requires some { 0 < pool_hands self.now }
        requires none { All (λ hand. hand_held hand ≡ []) hands.items }
        ensures own { IsPassOf self.now.queue result }
        ensures stands { StandsFor T.number T.home self.now (pool_hands self.now) (view result) }
        ensures none { (view result).held ≡ [] }
    {
        let Some(Hand { mut pass }) = hands.pop() else {
            unreachable!()
        };
        while let Some(Hand { pass: other }) = hands.pop() {
            self.queue.absorb::<Merge>(&mut pass, other);
        }
        pass
    }
}
