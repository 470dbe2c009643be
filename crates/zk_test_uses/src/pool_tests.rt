ghost use Rattle.std.specs.Prelude.{◌≡◌, ◌<◌, ◌≤◌, length, All};
ghost use Rattle.zk_pool.specs.Hands.{IsNewHand, pool_hands, pool_items, room_size};
ghost use Rattle.zk_uses.specs.Juggling.{ball_color, ball_number, IsFree};

use std::alloc::Global;
use std::sync::Wait;
use std::test::Fail;
use std::thread::Threads;
use zk_base::{NoMemory, push_within};
use zk_pool::{Hand, Keeper, Pool, Room};
use zk_uses::{Ball, balls, juggled_by_four};

/// Two hands of one pool.
pub type TwoHands = (Hand<Ball>, Hand<Ball>);

/// The two hands of a new pool.
pub fn two_hands(pool: &Pool<Ball>, mut hands: Vec<Hand<Ball>>) -> TwoHands
    requires new { All (IsNewHand ball_number ball_color pool.now) hands.items }
    requires two { length hands.items ≡ 2 }
    ensures first { IsFree ball_number ball_color pool.now result.0 }
    ensures second { IsFree ball_number ball_color pool.now result.1 }
{
    let Some(second) = hands.pop() else {
        unreachable!()
    };
    let Some(first) = hands.pop() else {
        unreachable!()
    };
    (first, second)
}

/// The balls of a pool of two hands.
pub fn closed_by_two<R: Wait>(
    rt: &R,
    alloc: Global,
    pool: Pool<Ball>,
    hands: TwoHands,
    room: Room<Ball>,
) -> Result<Vec<Ball>, NoMemory>
    requires first { IsFree ball_number ball_color pool hands.0 }
    requires second { IsFree ball_number ball_color pool hands.1 }
    requires two { pool_hands pool ≡ 2 }
    requires room { length (pool_items pool) ≤ room_size room }
{
    let (first, second) = hands;
    let mut hands = Vec::with_capacity(alloc, 2)?;
    push_within(&mut hands, first);
    push_within(&mut hands, second);
    Ok(pool.close(rt, hands, room))
}

/// The four hands of a new pool.
fn four_hands(pool: &Pool<Ball>, mut hands: Vec<Hand<Ball>>) -> (TwoHands, TwoHands)
    requires new { All (IsNewHand ball_number ball_color pool.now) hands.items }
    requires four { length hands.items ≡ 4 }
    ensures first { IsFree ball_number ball_color pool.now result.0.0 × IsFree ball_number ball_color pool.now result.0.1 }
    ensures second { IsFree ball_number ball_color pool.now result.1.0 × IsFree ball_number ball_color pool.now result.1.1 }
{
    let Some(d) = hands.pop() else { unreachable!() };
    let Some(c) = hands.pop() else { unreachable!() };
    (two_hands(pool, hands), (c, d))
}

/// The balls of a pool of four hands.
fn closed_by_four<R: Wait>(
    rt: &R,
    alloc: Global,
    pool: Pool<Ball>,
    hands: (TwoHands, TwoHands),
    room: Room<Ball>,
) -> Result<Vec<Ball>, NoMemory>
    requires first { IsFree ball_number ball_color pool hands.0.0 × IsFree ball_number ball_color pool hands.0.1 }
    requires second { IsFree ball_number ball_color pool hands.1.0 × IsFree ball_number ball_color pool hands.1.1 }
    requires four { pool_hands pool ≡ 4 }
    requires room { length (pool_items pool) ≤ room_size room }
{
    let ((a, b), (c, d)) = hands;
    let mut hands = Vec::with_capacity(alloc, 4)?;
    push_within(&mut hands, a);
    push_within(&mut hands, b);
    push_within(&mut hands, c);
    push_within(&mut hands, d);
    Ok(pool.close(rt, hands, room))
}

/// The balls when four threads have juggled them, each so many times, and how often a thread caught one.
pub fn juggled<R: Threads + Wait + Sync>(
    rt: &R,
    alloc: Global,
    count: u32,
    times: u32,
) -> Result<(Vec<Ball>, u64), NoMemory>
    requires { 0 < count }
{
    let (pool, hands, room) = Pool::new(alloc, balls(alloc, count)?, 4)?;
    let hands = four_hands(&pool, hands);
    let (hands, caught) = juggled_by_four(rt, &pool, hands, times);
    let back = closed_by_four(rt, alloc, pool, hands, room)?;
    Ok((back, caught))
}

/// How often these balls were caught.
pub fn caught_in(balls: &[Ball]) -> u64 {
    let mut caught = 0u64;
    for ball in balls {
        caught = caught.saturating_add(u64::from(ball.caught));
    }
    caught
}

/// Whether these are all the balls, each once.
pub fn are_all(balls: &[Ball], count: u32) -> bool {
    let mut each = true;
    for number in 0..count {
        let mut found = 0u64;
        for ball in balls {
            if ball.number == number {
                found = found.saturating_add(1);
            }
        }
        each &= found == 1;
    }
    each && balls.len() == count as usize
}

#[test]
fn three_balls_and_two_hands(rt: HostRuntime) -> Result<(), Fail> {
    let (pool, hands, room) = Pool::new(rt.alloc(), balls(rt.alloc(), 3)?, 2)?;
    let (mut first, mut second) = two_hands(&pool, hands);
    let Some(a) = pool.take(&rt, &mut first) else {
        panic!(rt; "a ball is in the pool");
    };
    let Some(b) = pool.take(&rt, &mut first) else {
        panic!(rt; "a ball is in the pool");
    };
    let Some(c) = pool.take(&rt, &mut second) else {
        panic!(rt; "a ball is in the pool");
    };
    assert!(rt;
        (a.number, b.number, c.number) == (0, 1, 2),
        "in their order"
    );
    assert!(rt;
        pool.take(&rt, &mut second).is_none(),
        "the fourth take finds nothing"
    );
    pool.give(&rt, &mut first, a);
    pool.give(&rt, &mut first, b);
    pool.give(&rt, &mut second, c);
    let back = closed_by_two(&rt, rt.alloc(), pool, (first, second), room)?;
    assert!(rt; are_all(&back, 3));
    Ok(())
}

#[test]
fn four_threads_juggle(rt: HostRuntime) -> Result<(), Fail> {
    let (back, caught) = juggled(&rt, rt.alloc(), 64, 250_000)?;
    assert!(rt; are_all(&back, 64), "all come back, each once");
    assert!(rt; caught == 1_000_000, "there is always a ball in the pool");
    assert!(rt;
        caught_in(&back) == caught,
        "a ball is in one hand at a time"
    );
    Ok(())
}

#[test]
fn what_is_kept_is_back_at_the_end(rt: HostRuntime) -> Result<(), Fail> {
    let (pool, hands, room) = Pool::new(rt.alloc(), balls(rt.alloc(), 3)?, 2)?;
    let (first, mut second) = two_hands(&pool, hands);
    let mut keeper = Keeper::new(rt.alloc(), &pool, first, 3)?;
    let Some(kept) = keeper.take(&rt, &pool) else {
        panic!(rt; "a ball is in the pool");
    };
    keeper.keep(&pool, kept);
    let Some(given) = keeper.take(&rt, &pool) else {
        panic!(rt; "a ball is in the pool");
    };
    keeper.give(&rt, &pool, given);
    let Some(a) = pool.take(&rt, &mut second) else {
        panic!(rt; "a ball is in the pool");
    };
    let Some(b) = pool.take(&rt, &mut second) else {
        panic!(rt; "a ball is in the pool");
    };
    assert!(rt; (a.number, b.number) == (2, 1), "in their order");
    assert!(rt; pool.take(&rt, &mut second).is_none(), "one is kept");
    pool.give(&rt, &mut second, a);
    pool.give(&rt, &mut second, b);
    keeper.give_back(&rt, &pool);
    let first = keeper.into_hand(&pool);
    let back = closed_by_two(&rt, rt.alloc(), pool, (first, second), room)?;
    assert!(rt; are_all(&back, 3));
    Ok(())
}
