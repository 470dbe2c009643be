ghost use Rattle.std.specs.Prelude.{◌≡◌, ◌<◌, Some, All, length, vec_len};
ghost use Rattle.zk_pool.specs.Hands.{pool_home};
ghost use Rattle.zk_pool.specs.Rule.{Suits};
ghost use Rattle.zk_cores.specs.Seats.{seat_number, seat_kernel, IsSeated, IsAtWork, IsCarrying, IsReady};

use crate::barrier::Barrier;
use crate::cores::Core;
use crate::seat::Seat;
use std::hint;
use std::sync::Wait;
use std::thread::{self, Threads};
use zk_base::{Gate, NoMemory};
use zk_kernel::Kernel;
use zk_pool::Pool;
use zk_worker::Stepped;

/// A core goes on after so many rounds in a row in which it made no step, and ends with the next such one.
const STILL_ROUNDS: u32 = 63;

/// How many steps a caller makes at most before another one is taken.
const STEPS: u32 = 8;

/// How often its processor pauses after such a round, times their number so far.
const PAUSES: u32 = 20;

/// It lets other threads run after each so manieth of them.
const STILL_TURNS: u32 = 4;

/// Plays the caller in a seat once, unless it waits and has no news: whether it made a step.
fn play_seat<R: Wait, G: Gate>(
    rt: &R,
    kernel: &Kernel,
    gate: &G,
    core: &mut Core,
    seat: &mut Seat,
) -> Result<bool, NoMemory>
    requires kernel { seat_kernel seat.old ≡ kernel.now }
    requires seated { IsSeated seat.old }
    ensures number { seat_number seat.new ≡ seat_number seat.old }
    ensures kernel { seat_kernel seat.new ≡ seat_kernel seat.old }
    ensures seated { IsSeated seat.new }
    ensures keeper { core.new.keeper ≡ core.old.keeper }
{
    if seat.rests(kernel) {
        return Ok(false);
    }
    gate.pass(core.number, *core.passes);
    *core.passes = core.passes.wrapping_add(1);
    let stepped = seat.step(rt, kernel)?;
    Ok(stepped == Stepped::Did)
}

/// Plays the caller in a seat up to `STEPS` times, as long as it makes steps: whether it made one.
fn play_on<R: Wait, G: Gate>(
    rt: &R,
    kernel: &Kernel,
    gate: &G,
    core: &mut Core,
    seat: &mut Seat,
) -> Result<bool, NoMemory>
    requires kernel { seat_kernel seat.old ≡ kernel.now }
    requires seated { IsSeated seat.old }
    ensures number { seat_number seat.new ≡ seat_number seat.old }
    ensures kernel { seat_kernel seat.new ≡ seat_kernel seat.old }
    ensures seated { IsSeated seat.new }
    ensures keeper { core.new.keeper ≡ core.old.keeper }
{
    let mut moved = false;
    for _ in 0..STEPS {
        if !play_seat(rt, kernel, gate, core, seat)? {
            break;
        }
        moved = true;
    }
    Ok(moved)
}

/// Plays a caller in the core's hand: whether it made a step. One that may go on goes back into the pool, where any core may take
/// it. One that waits, or is through, this core keeps, so that no core takes it in vain.
fn play_held<R: Wait, G: Gate>(
    rt: &R,
    kernel: &Kernel,
    pool: &Pool<Seat>,
    gate: &G,
    core: &mut Core,
    seat: Seat,
) -> Result<bool, NoMemory>
    requires home { pool_home seat_kernel pool.now ≡ Some kernel.now }
    requires carries { IsCarrying pool.now core.old (seat_number seat) }
    requires suits { Suits seat_number seat_kernel IsSeated (pool_home seat_kernel pool.now) seat }
    ensures at_work { IsAtWork pool.now core.new }
{
    let mut seat = seat;
    let made = play_on(rt, kernel, gate, core, &mut seat);
    if seat.goes_on() {
        core.keeper.give(rt, pool, seat);
    } else {
        core.keeper.keep(pool, seat);
    }
    made
}

/// Plays each caller that the core keeps and that has news: whether one of them made a step.
fn play_kept<R: Wait, G: Gate>(
    rt: &R,
    kernel: &Kernel,
    pool: &Pool<Seat>,
    gate: &G,
    core: &mut Core,
) -> Result<bool, NoMemory>
    requires home { pool_home seat_kernel pool.now ≡ Some kernel.now }
    requires at_work { IsAtWork pool.now core.old }
    ensures at_work { IsAtWork pool.now core.new }
{
    let mut moved = false;
    let mut at = 0;
    for _ in 0..core.keeper.kept() {
        if at >= core.keeper.kept() {
            break;
        }
        if core.keeper.kept_at(at).has_news(kernel) {
            let seat = core.keeper.recall(pool, at);
            moved |= play_held(rt, kernel, pool, gate, core, seat)?;
        } else {
            at += 1;
        }
    }
    Ok(moved)
}

/// Plays those whom the core keeps and who have news, and then takes as many callers as there are players, one after the other,
/// or all that are in the pool: whether one of them made a step.
fn play_round<R: Wait, G: Gate>(
    rt: &R,
    kernel: &Kernel,
    pool: &Pool<Seat>,
    gate: &G,
    core: &mut Core,
) -> Result<bool, NoMemory>
    requires home { pool_home seat_kernel pool.now ≡ Some kernel.now }
    requires at_work { IsAtWork pool.now core.old }
    ensures at_work { IsAtWork pool.now core.new }
{
    let mut moved = play_kept(rt, kernel, pool, gate, core)?;
    for _ in 0..kernel.scenario().players() {
        let Some(seat) = core.keeper.take(rt, pool) else {
            break;
        };
        moved |= play_held(rt, kernel, pool, gate, core, seat)?;
    }
    Ok(moved)
}

/// Plays as far as it gets, once the other cores have come too, and then gives back whom it kept. After a round without a step it
/// looks away, the longer the more such rounds there were. Where any core was refused memory it plays no further round.
fn play_core<R: Wait, G: Gate>(
    rt: &R,
    kernel: &Kernel,
    pool: &Pool<Seat>,
    gate: &G,
    barrier: &Barrier,
    core: &mut Core,
)
    requires home { pool_home seat_kernel pool.now ≡ Some kernel.now }
    requires ready { IsReady pool.now core.old }
    ensures ready { IsReady pool.now core.new }
{
    barrier.wait();
    let mut still = 0;
    for _ in rt.forever() {
        if barrier.is_refused() {
            break;
        }
        match play_round(rt, kernel, pool, gate, core) {
            Ok(true) => still = 0,
            Ok(false) if still < STILL_ROUNDS => {
                still += 1;
                pause(still);
            }
            Ok(false) => break,
            Err(NoMemory) => {
                core.refused = true;
                barrier.refuse();
                break;
            }
        }
    }
    core.keeper.give_back(rt, pool);
}

/// Looks away after a round without a step, which was that of this number, and now and then lets other threads run: each time it
/// does, a program beside that wants the processor may keep it for milliseconds.
fn pause(number: u32) {
    for _ in 0..number {
        for _ in 0..PAUSES {
            hint::spin_loop();
        }
    }
    if number % STILL_TURNS == 0 {
        thread::yield_now();
    }
}

/// Plays the callers of a pool on all these cores. Where fewer threads can be made, some cores play one after the other.
pub fn play_cores<R: Threads + Wait + Sync, G: Gate + Sync>(
    rt: &R,
    kernel: &Kernel,
    pool: &Pool<Seat>,
    gate: &G,
    core_list: &mut Vec<Core>,
)
    requires some { 0 < vec_len core_list.old }
    requires home { pool_home seat_kernel pool.now ≡ Some kernel.now }
    requires ready { All (IsReady pool.now) core_list.old.items }
    ensures ready { All (IsReady pool.now) core_list.new.items }
    ensures count { length core_list.new.items ≡ length core_list.old.items }
{
    let cores = core_list.len();
    let barrier = Barrier::new(cores);
    let barrier = &barrier;
    let part = move |_place: usize, core: &mut Core|
        requires { (pool_home seat_kernel pool.now ≡ Some kernel.now) × IsReady pool.now core.now }
        ensures { IsReady pool.entry.now core.exit.now }
    { play_core(rt, kernel, pool, gate, barrier, core) };
    thread::for_each_mut(rt, core_list.as_mut_slice(), cores, &part);
}
