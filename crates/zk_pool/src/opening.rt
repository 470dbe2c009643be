ghost use Rattle.std.specs.Prelude.{◌≡◌, ◌<◌, ◌≤◌, [], length, reverse, All, IfOk, vec_capacity};
ghost use Rattle.crossbeam_queue.specs.Passes.{view, IsPassOf};
ghost use Rattle.zk_pool.specs.Hands.{HaveOneHome, IsNewHand, home_in, pool_hands, pool_items, room_size, undealt};
ghost use Rattle.zk_pool.specs.Rule.{Suits};
ghost use Rattle.zk_pool.specs.Views.{opened};

use crate::hand::Hand;
use crate::numbered::Numbered;
use crate::pool::Pool;
use crate::room::Room;
use crate::rule::{Deal, Fill, Grow, PoolRule};
use crate::views::View;
use crossbeam_queue::{Pass, RuledArrayQueue};
use std::alloc::Global;
use std::snapshot::Snapshot;
use zk_base::{NoMemory, push_within};

/// Puts all items into the queue, the last first.
fn fill<T: Numbered>(
    queue: &RuledArrayQueue<T, View<T::Home>, PoolRule<T>>,
    pass: &mut Pass<T, View<T::Home>>,
    items: &mut Vec<T>,
) -> Result<(), NoMemory>
    requires own { IsPassOf queue.now pass.old }
    requires new { view pass.old ≡ opened }
    requires suits { All (Suits T.number T.home T.kept (home_in T.home (reverse items.old.items))) items.old.items }
    ensures own { IsPassOf queue.now pass.new }
    ensures filled { IfOk result (λ _. view pass.new ≡ undealt T.number T.home 1 (reverse items.old.items)) }
    ensures empty { IfOk result (λ _. items.new.items ≡ []) }
    ensures capacity { vec_capacity items.new ≡ vec_capacity items.old }
{
    while let Some(item) = items.pop() {
        let Ok(()) = queue.try_push_as::<Fill<T>>(pass, item) else {
            return Err(NoMemory);
        };
    }
    Ok(())
}

impl<T: Numbered> Pool<T> {
    /// A pool of these items, which come out in their order, so many hands, and the room for `close`.
    ///
    /// All items are of one home. After want of memory they are dropped.
    pub fn new(
        alloc: Global,
        mut items: Vec<T>,
        hands: u32,
    ) -> Result<(Pool<T>, Vec<Hand<T>>, Room<T>), NoMemory>
        requires items { 0 < length items.items }
        requires hands { 0 < hands }
        requires home { HaveOneHome T.home items.items }
        requires kept { All T.kept items.items }
        ensures pool { IfOk result (λ made. (pool_items made.0 ≡ items.items) × (pool_hands made.0 ≡ hands)) }
        ensures hands { IfOk result (λ made. All (IsNewHand T.number T.home made.0) made.1.items) }
        ensures count { IfOk result (λ made. length made.1.items ≡ hands) }
        ensures room { IfOk result (λ made. length items.items ≤ room_size made.2) }
    {
        let given = Snapshot::of(&items);
        let mut made = Vec::with_capacity(alloc, hands as usize)?;
        let (queue, mut pass) = RuledArrayQueue::<T, View<T::Home>, PoolRule<T>>::ruled(
            alloc,
            items.len(),
        )?;
        items.reverse();
        fill(&queue, &mut pass, &mut items)?;
        let pool = Pool {
            queue,
            hands,
            given,
        };
        pool.grow(&mut pass);
        pool.deal_all(pass, &mut made);
        Ok((pool, made, Room { items }))
    }

    // Makes of a pass for one hand the pass for all.
    fn grow(&self, pass: &mut Pass<T, View<T::Home>>)
        requires own { IsPassOf self.now.queue pass.old }
        requires one { view pass.old ≡ undealt T.number T.home 1 (pool_items self.now) }
        requires some { 0 < pool_hands self.now }
        ensures own { IsPassOf self.now.queue pass.new }
        ensures all { view pass.new ≡ undealt T.number T.home (pool_hands self.now) (pool_items self.now) }
    {
        for made in 1..self.hands {
            let _ = made;
            self.queue.another::<Grow>(pass);
        }
    }

    // A hand for each, of the pass for all.
    fn deal_all(&self, mut pass: Pass<T, View<T::Home>>, made: &mut Vec<Hand<T>>)
        requires own { IsPassOf self.now.queue pass }
        requires all { view pass ≡ undealt T.number T.home (pool_hands self.now) (pool_items self.now) }
        requires some { 0 < pool_hands self.now }
        requires none { made.old.items ≡ [] }
        requires room { pool_hands self.now ≤ vec_capacity made.old }
        ensures made { All (IsNewHand T.number T.home self.now) made.new.items }
        ensures count { length made.new.items ≡ pool_hands self.now }
    {
        for next in 1..self.hands {
            let _ = next;
            let dealt = self.queue.another::<Deal>(&mut pass);
            push_within(made, Hand { pass: dealt });
        }
        push_within(made, Hand { pass });
    }
}
