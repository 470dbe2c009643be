//! Threads that take items out of one pool and give them back.
ghost use Rattle.std.specs.Prelude.{◌≡◌};
ghost use Rattle.zk_uses.specs.Juggling.{IsFree, HaveTaken, HaveTakenAll, HaveTakenBoth};

use std::sync::Wait;
use std::thread;
use std::thread::Threads;
use zk_pool::{Hand, Numbered, Pool};

/// What can be juggled: it counts how often it was caught, and is the same item for the pool.
pub trait Juggled: Numbered {
    /// Counts that it was caught.
    fn catch(&mut self)
        requires kept { Self.kept self.old }
        ensures number { Self.number self.new ≡ Self.number self.old }
        ensures home { Self.home self.new ≡ Self.home self.old }
        ensures kept { Self.kept self.new };
}

/// Takes an item and gives it back, so many times: the hand, and how often there was one.
pub fn juggle<T: Juggled, R: Wait>(
    rt: &R,
    pool: &Pool<T>,
    mut hand: Hand<T>,
    times: u32,
) -> (Hand<T>, u64)
    requires { IsFree T.number T.home pool.now hand }
    ensures free { IsFree T.number T.home pool.now result.0 }
    ensures taken { HaveTaken times hand result.0 result.1 }
{
    let mut caught = 0u64;
    for _taken in 0..times {
        if let Some(mut item) = pool.take(rt, &mut hand) {
            caught += 1;
            item.catch();
            pool.give(rt, &mut hand, item);
        }
    }
    (hand, caught)
}

/// Two threads juggle the items of a pool.
pub fn juggled_by_two<T: Juggled + Send + Sync, R: Threads + Wait + Sync>(
    rt: &R,
    pool: &Pool<T>,
    hands: (Hand<T>, Hand<T>),
    times: u32,
) -> ((Hand<T>, Hand<T>), u64)
    requires first { IsFree T.number T.home pool.now hands.0 }
    requires second { IsFree T.number T.home pool.now hands.1 }
    ensures first { IsFree T.number T.home pool.now result.0.0 }
    ensures second { IsFree T.number T.home pool.now result.0.1 }
    ensures taken { HaveTakenBoth times hands result.0 result.1 }
{
    let (first, second) = hands;
    let ((first, caught), (second, more)) = thread::join(
        rt,
        move ||
            requires { IsFree T.number T.home pool.now first }
            ensures free { IsFree T.number T.home pool.entry.now result.0 }
            ensures taken { HaveTaken times first result.0 result.1 }
        { juggle(rt, pool, first, times) },
        move ||
            requires { IsFree T.number T.home pool.now second }
            ensures free { IsFree T.number T.home pool.entry.now result.0 }
            ensures taken { HaveTaken times second result.0 result.1 }
        { juggle(rt, pool, second, times) },
    );
    ((first, second), caught + more)
}

/// Four threads juggle them.
pub fn juggled_by_four<T: Juggled + Send + Sync, R: Threads + Wait + Sync>(
    rt: &R,
    pool: &Pool<T>,
    hands: ((Hand<T>, Hand<T>), (Hand<T>, Hand<T>)),
    times: u32,
) -> (((Hand<T>, Hand<T>), (Hand<T>, Hand<T>)), u64)
    requires first { IsFree T.number T.home pool.now hands.0.0 × IsFree T.number T.home pool.now hands.0.1 }
    requires second { IsFree T.number T.home pool.now hands.1.0 × IsFree T.number T.home pool.now hands.1.1 }
    ensures first { IsFree T.number T.home pool.now result.0.0.0 × IsFree T.number T.home pool.now result.0.0.1 }
    ensures second { IsFree T.number T.home pool.now result.0.1.0 × IsFree T.number T.home pool.now result.0.1.1 }
    ensures taken { HaveTakenAll times hands result.0 result.1 }
{
    let (first, second) = hands;
    let ((first, caught), (second, more)) = thread::join(
        rt,
        move ||
            requires { IsFree T.number T.home pool.now first.0 × IsFree T.number T.home pool.now first.1 }
            ensures free { IsFree T.number T.home pool.entry.now result.0.0 × IsFree T.number T.home pool.entry.now result.0.1 }
            ensures taken { HaveTakenBoth times first result.0 result.1 }
        { juggled_by_two(rt, pool, first, times) },
        move ||
            requires { IsFree T.number T.home pool.now second.0 × IsFree T.number T.home pool.now second.1 }
            ensures free { IsFree T.number T.home pool.entry.now result.0.0 × IsFree T.number T.home pool.entry.now result.0.1 }
            ensures taken { HaveTakenBoth times second result.0 result.1 }
        { juggled_by_two(rt, pool, second, times) },
    );
    ((first, second), caught + more)
}
