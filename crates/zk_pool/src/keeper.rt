ghost use Rattle.std.specs.Prelude.{◌≡◌, ◌+◌, ◌<◌, ◌≤◌, Some, [], length, slice_get, swap_remove, MatchOption, IfOk, IfSome, IfNone};
ghost use Rattle.zk_pool.specs.Hands.{IsHandOf, hand_held, pool_home, pool_numbers};
ghost use Rattle.zk_pool.specs.Keepers.{Keeps, Carries, keeper_aside, keeper_empties};
ghost use Rattle.zk_pool.specs.Rule.{Suits};

use crate::hand::Hand;
use crate::numbered::Numbered;
use crate::pool::Pool;
use std::alloc::Global;
use std::sync::Wait;
use zk_base::{NoMemory, push_within};

/// A hand, and the items that its thread keeps out of the queue, so that no other takes them in vain.
#[derive(Drop)]
pub struct Keeper<T: Numbered> {
    pub(crate) hand: Hand<T>,
    pub(crate) aside: Vec<T>,
}

impl<T: Numbered> Keeper<T> {
    /// A hand that keeps nothing, with room for so many items.
    pub fn new(
        alloc: Global,
        pool: &Pool<T>,
        hand: Hand<T>,
        room: usize,
    ) -> Result<Keeper<T>, NoMemory>
        requires own { IsHandOf T.number T.home pool.now hand }
        requires none { hand_held hand ≡ [] }
        requires room { length (pool_numbers T.number pool.now) ≤ room }
        ensures keeps { IfOk result (λ keeper. Keeps T.number T.home T.kept pool.now keeper) }
        ensures none { IfOk result (λ keeper. keeper_aside keeper ≡ []) }
    {
        let _pool = pool;
        let aside = Vec::with_capacity(alloc, room)?;
        Ok(Keeper { hand, aside })
    }

    /// Takes the item that has been in the queue for longest, if there is one.
    pub fn take<R: Wait>(&mut self, rt: &R, pool: &Pool<T>) -> Option<T>
        requires keeps { Keeps T.number T.home T.kept pool.now self.old }
        ensures none { IfNone result (Keeps T.number T.home T.kept pool.now self.new) }
        ensures one { IfSome result (λ x. Carries T.number T.home T.kept pool.now self.new (T.number x)) }
        ensures suits { IfSome result (λ x. Suits T.number T.home T.kept (pool_home T.home pool.now) x) }

        // A take that found nothing is counted.
        ensures empties { MatchOption result (keeper_empties self.new ≡ keeper_empties self.old + 1)
            (λ x. keeper_empties self.new ≡ keeper_empties self.old) }
    {
        pool.take(rt, &mut self.hand)
    }

    /// Gives back the item that was taken.
    pub fn give<R: Wait>(&mut self, rt: &R, pool: &Pool<T>, item: T)
        requires carries { Carries T.number T.home T.kept pool.now self.old (T.number item) }
        requires suits { Suits T.number T.home T.kept (pool_home T.home pool.now) item }
        ensures keeps { Keeps T.number T.home T.kept pool.now self.new }
    {
        pool.give(rt, &mut self.hand, item);
    }

    /// Keeps the item that was taken.
    pub fn keep(&mut self, pool: &Pool<T>, item: T)
        requires carries { Carries T.number T.home T.kept pool.now self.old (T.number item) }
        requires suits { Suits T.number T.home T.kept (pool_home T.home pool.now) item }
        ensures keeps { Keeps T.number T.home T.kept pool.now self.new }
    {
        let _pool = pool;
        push_within(&mut self.aside, item);
    }

    /// How many items it keeps.
    pub fn kept(&self) -> usize
        ensures { result ≡ length (keeper_aside self.now) }
    {
        self.aside.len()
    }

    /// One of the items that it keeps, by its place. The places are other ones after a `recall`.
    pub fn kept_at(&self, at: usize) -> &T
        requires { at < length (keeper_aside self.now) }
        ensures { slice_get (keeper_aside self.now) at ≡ Some result.now }
    {
        &self.aside[at]
    }

    /// Takes up again one of the items that it keeps, by its place. The last one comes to stand there.
    pub fn recall(&mut self, pool: &Pool<T>, at: usize) -> T
        requires keeps { Keeps T.number T.home T.kept pool.now self.old }
        requires within { at < length (keeper_aside self.old) }
        ensures carries { Carries T.number T.home T.kept pool.now self.new (T.number result) }
        ensures suits { Suits T.number T.home T.kept (pool_home T.home pool.now) result }
        ensures one { slice_get (keeper_aside self.old) at ≡ Some result }
        ensures others { keeper_aside self.new ≡ swap_remove (keeper_aside self.old) at result }
    {
        let _pool = pool;
        self.aside.swap_remove(at)
    }

    /// Gives back all that it keeps.
    pub fn give_back<R: Wait>(&mut self, rt: &R, pool: &Pool<T>)
        requires keeps { Keeps T.number T.home T.kept pool.now self.old }
        ensures keeps { Keeps T.number T.home T.kept pool.now self.new }
        ensures none { keeper_aside self.new ≡ [] }
    {
        while let Some(item) = self.aside.pop() {
            pool.give(rt, &mut self.hand, item);
        }
    }

    /// The hand, where nothing is kept.
    pub fn into_hand(self, pool: &Pool<T>) -> Hand<T>
        requires keeps { Keeps T.number T.home T.kept pool.now self }
        requires none { keeper_aside self ≡ [] }
        ensures own { IsHandOf T.number T.home pool.now result }
        ensures none { hand_held result ≡ [] }
    {
        let _pool = pool;
        let Keeper { hand, aside: _ } = self;
        hand
    }
}
