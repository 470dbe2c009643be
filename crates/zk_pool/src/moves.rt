ghost use Rattle.std.specs.Prelude.{◌≡◌, ℕ, ◌+◌, ◌<◌, ◌≤◌, ◌++◌, ◌∷◌, [], length, MatchOption, IfSome, IfNone};
ghost use Rattle.zk_pool.specs.Counts.{tally, without};
ghost use Rattle.zk_pool.specs.Hands.{HoldsAll, IsHandOf, hand_empties, hand_held, pool_hands, pool_home, pool_numbers};
ghost use Rattle.zk_pool.specs.Rule.{Suits};

use crate::hand::Hand;
use crate::numbered::Numbered;
use crate::pool::Pool;
use crate::rule::{FindNothing, Give, Take};
use std::sync::Wait;

impl<T: Numbered> Pool<T> {
    /// Takes the item that has been in the queue for longest; none where the queue was empty at one moment of the call.
    pub fn take<R: Wait>(&self, rt: &R, hand: &mut Hand<T>) -> Option<T>
        requires own { IsHandOf T.number T.home self.now hand.old }
        ensures own { IsHandOf T.number T.home self.now hand.new }

        // The hand holds the item's number too, or has found nothing once more.
        ensures held { MatchOption result (hand_held hand.new ≡ hand_held hand.old)
            (λ x. hand_held hand.new ≡ hand_held hand.old ++ T.number x ∷ []) }
        ensures empties { MatchOption result (hand_empties hand.new ≡ hand_empties hand.old + 1)
            (λ x. hand_empties hand.new ≡ hand_empties hand.old) }

        // The item suits the pool. The hand then holds no number more often than it is among all, and not more than all.
        ensures suits { IfSome result (λ x. Suits T.number T.home T.kept (pool_home T.home self.now) x) }
        ensures once { IfSome result (λ x. (n : ℕ) → tally n (hand_held hand.new) ≤ tally n (pool_numbers T.number self.now)) }
        ensures few { IfSome result (λ x. length (hand_held hand.old) < length (pool_numbers T.number self.now)) }

        // The one hand of a pool finds nothing exactly where it holds all numbers.
        ensures none { IfNone result (pool_hands self.now ≡ 1 → HoldsAll T.number self.now hand.old) }
    {
        match self.queue.pop_as::<Take<T>, R>(rt, &mut hand.pass) {
            Some(item) => Some(item),
            None => {
                self.queue.another::<FindNothing>(&mut hand.pass);
                None
            }
        }
    }

    /// Gives an item back whose number the hand holds. There is always room for it.
    pub fn give<R: Wait>(&self, rt: &R, hand: &mut Hand<T>, item: T)
        requires own { IsHandOf T.number T.home self.now hand.old }
        requires held { 0 < tally (T.number item) (hand_held hand.old) }
        requires suits { Suits T.number T.home T.kept (pool_home T.home self.now) item }
        ensures own { IsHandOf T.number T.home self.now hand.new }
        ensures held { hand_held hand.new ≡ without (T.number item) (hand_held hand.old) }
        ensures empties { hand_empties hand.new ≡ hand_empties hand.old }
    {
        match self.queue.push_as::<Give<T>, R>(rt, &mut hand.pass, item) {
            Ok(()) => {}
            Err(_) => unreachable!(),
        }
    }
}
