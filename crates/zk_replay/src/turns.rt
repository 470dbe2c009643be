ghost use Rattle.std.specs.Prelude.{◌≡◌, ℕ, ◌+◌, ◌-◌, ◌^◌, ◌<◌, ◌≤◌, true, false, Some, None, length, is_some, vec_len, IfOk, OnErr};
ghost use Rattle.zk_scenario.specs.Steps.{steps_of};
ghost use Rattle.zk_scenario.specs.Valid.{IsValid};
ghost use Rattle.zk_worker.specs.Follows.{is_spent_at};
ghost use Rattle.zk_worker.specs.Ranges.{IsFit};
ghost use Rattle.zk_worker.specs.Machines.{machines_of};
ghost use Rattle.zk_worker.specs.Shown.{ShowsLog, AreShort};
ghost use Rattle.zk_worker.specs.Right.{LooksRight};
ghost use Rattle.zk_worker.specs.Choosing.{chosen};
ghost use Rattle.zk_world.specs.Ready.{IsReady};
ghost use Rattle.zk_world.specs.World.{world, is_spent};
ghost use Rattle.zk_replay.specs.RoundRobin.{turn, round, rounds};
ghost use Rattle.zk_replay.specs.Turning.{has_moved, has_spent, made_step, IsAlone, IsTurn, Turned, Rounded};
ghost use Rattle.zk_replay.specs.LastTurns.{IsKept, AreKept};
ghost use Rattle.zk_replay.specs.Sleeping.{is_asleep, AreAsleep};

use crate::last_turn::{LastTurn, is_in_vain, keep, no_turns};
use crate::sleepers::{Sleepers, asleep_from, fall_asleep, no_sleepers, wake};
use std::alloc::Global;
use zk_base::NoMemory;
use zk_scenario::Scenario;
use zk_services::Counted;
use zk_worker::{Player, Services, Stepped};

/// What a turn did.
#[derive(Clone, Copy)]
pub enum Turn {
    /// The player made no step.
    Rested,
    /// It made a step, and may make more.
    Moved,
    /// It made the last step that it may make.
    Spent,
}

/// How the run goes on after a round.
#[derive(Clone, Copy)]
pub enum RoundEnd {
    /// No player made a step.
    Still,
    /// Some player did.
    Goes,
    /// Some player has made all its steps.
    Spent,
}

fn made_step(stepped: Stepped) -> bool
    ensures { result ≡ made_step stepped }
{
    match stepped {
        Stepped::Did => true,
        _ => false,
    }
}

/// Whether a turn made a step.
#[inline(always)]
fn has_moved(turn: Turn) -> bool
    ensures { result ≡ has_moved turn }
{
    match turn {
        Turn::Rested => false,
        Turn::Moved | Turn::Spent => true,
    }
}

/// Whether it was the last one that the player may make.
#[inline(always)]
fn has_spent(turn: Turn) -> bool
    ensures { result ≡ has_spent turn }
{
    match turn {
        Turn::Rested | Turn::Moved => false,
        Turn::Spent => true,
    }
}

/// The turn in which a step was made or not, behind which the player is spent or not.
#[inline(always)]
fn turn_of(moved: bool, spent: bool) -> Turn
    requires { moved ≡ false → spent ≡ false }
    ensures moved { has_moved result ≡ moved }
    ensures spent { has_spent result ≡ spent }
{
    if !moved {
        return Turn::Rested;
    }
    if spent { Turn::Spent } else { Turn::Moved }
}

/// A turn of a player that has steps left, of at most so many.
fn play<V: Services>(
    services: &mut V,
    scenario: &Scenario,
    most: u32,
    player: &mut Player,
) -> Result<Turn, NoMemory>
    requires valid { IsValid scenario.now }
    requires most { most ≡ steps_of scenario.now }
    requires alone { IsAlone scenario.now (V.alone services.old) (V.machines services.old) (V.serves services.old) }
    requires fits { IsFit scenario.now player.old }
    requires log { ShowsLog (V.shown services.old) player.old.who.number player.old.spots }
    requires looks { LooksRight (V.machines services.old) (V.shown services.old) player.old.spots }
    requires short { AreShort (V.shown services.old) }
    requires unspent { is_spent_at scenario.now player.old ≡ false }
    ensures turn { IfOk result (λ turn.
        IsTurn (V.machines services.old) scenario.now player.old player.new
        (V.shown services.old) (V.shown services.new) (has_moved turn)) }
    ensures spent { IfOk result (λ turn. has_spent turn ≡ is_spent_at scenario.now player.new) }
    ensures alone { IsAlone scenario.now (V.alone services.new) (V.machines services.new) (V.serves services.new) }
{
    let stepped = player.step(scenario, services)?;
    let moved = made_step(stepped);
    let spent = most <= player.steps();
    Ok(turn_of(moved, spent))
}

/// A turn of a player that has steps left. Where its last one was in vain, and what it asked for then is in vain still, it
/// isn't asked again.
fn play_or_pass<V: Counted>(
    services: &mut V,
    scenario: &Scenario,
    most: u32,
    player: &mut Player,
    kept: &mut LastTurn,
) -> Result<Turn, NoMemory>
    requires valid { IsValid scenario.now }
    requires most { most ≡ steps_of scenario.now }
    requires alone { IsAlone scenario.now (V.alone services.old) (V.machines services.old) (V.serves services.old) }
    requires fits { IsFit scenario.now player.old }
    requires log { ShowsLog (V.shown services.old) player.old.who.number player.old.spots }
    requires looks { LooksRight (V.machines services.old) (V.shown services.old) player.old.spots }
    requires short { AreShort (V.shown services.old) }
    requires unspent { is_spent_at scenario.now player.old ≡ false }
    requires kept { IsKept (V.machines services.old) scenario.now (V.shown services.old) player.old kept.old }
    ensures turn { IfOk result (λ turn.
        IsTurn (V.machines services.old) scenario.now player.old player.new
        (V.shown services.old) (V.shown services.new) (has_moved turn)) }
    ensures spent { IfOk result (λ turn. has_spent turn ≡ is_spent_at scenario.now player.new) }
    ensures kept { IfOk result (λ turn.
        IsKept (V.machines services.old) scenario.now (V.shown services.new) player.new kept.new) }
    ensures alone { IsAlone scenario.now (V.alone services.new) (V.machines services.new) (V.serves services.new) }
{
    if is_in_vain(services, player.who(), kept) {
        return Ok(Turn::Rested);
    }
    let turn = play(services, scenario, most, player)?;
    keep(services, scenario, player, has_moved(turn), kept)?;
    Ok(turn)
}

/// A turn of the player of this number, which is awake. It falls asleep where the turn was in vain, and else wakes others by its
/// step.
fn take_turn<V: Counted>(
    services: &mut V,
    scenario: &Scenario,
    most: u32,
    players: &mut Vec<Player>,
    waiting: &mut Vec<LastTurn>,
    sleepers: &mut Sleepers,
    number: usize,
) -> Result<Turn, NoMemory>
    requires valid { IsValid scenario.now }
    requires most { most ≡ steps_of scenario.now }
    requires alone { IsAlone scenario.now (V.alone services.old) (V.machines services.old) (V.serves services.old) }
    requires ready { IsReady scenario.now (world (V.shown services.old) players.old.items) }
    requires unspent { is_spent scenario.now (world (V.shown services.old) players.old.items) ≡ false }
    requires kept { AreKept (machines_of scenario.now) scenario.now
        (world (V.shown services.old) players.old.items) waiting.old.items }
    requires asleep { AreAsleep (machines_of scenario.now) scenario.now
        (world (V.shown services.old) players.old.items) sleepers.old }
    requires awake { is_asleep sleepers.old number ≡ false }
    requires places { vec_len waiting.old ≡ vec_len players.old }
    requires number { number < vec_len players.old }
    ensures turned { IfOk result (λ turn.
        Turned (machines_of scenario.now) scenario.now
        (world (V.shown services.old) players.old.items)
        (world (V.shown services.new) players.new.items) number turn) }
    ensures kept { IfOk result (λ turn. AreKept (machines_of scenario.now) scenario.now
        (world (V.shown services.new) players.new.items) waiting.new.items) }
    ensures asleep { IfOk result (λ turn. AreAsleep (machines_of scenario.now) scenario.now
        (world (V.shown services.new) players.new.items) sleepers.new) }
    ensures alone { IsAlone scenario.now (V.alone services.new) (V.machines services.new) (V.serves services.new) }
    ensures players { vec_len players.new ≡ vec_len players.old }
    ensures places { vec_len waiting.new ≡ vec_len waiting.old }
{
    let player = &mut players[number];
    let kept = &mut waiting[number];
    let turn = play_or_pass(services, scenario, most, player, kept)?;
    if has_moved(turn) {
        wake(services, player, sleepers);
        return Ok(turn);
    }
    fall_asleep(kept, number, sleepers);
    Ok(turn)
}

/// A turn of each player in order, but not beyond one that is spent by its turn. Who sleeps isn't asked: most of the time most
/// do.
fn play_round<V: Counted>(
    services: &mut V,
    scenario: &Scenario,
    players: &mut Vec<Player>,
    waiting: &mut Vec<LastTurn>,
    sleepers: &mut Sleepers,
) -> Result<RoundEnd, NoMemory>
    requires valid { IsValid scenario.now }
    requires alone { IsAlone scenario.now (V.alone services.old) (V.machines services.old) (V.serves services.old) }
    requires ready { IsReady scenario.now (world (V.shown services.old) players.old.items) }
    requires unspent { is_spent scenario.now (world (V.shown services.old) players.old.items) ≡ false }
    requires kept { AreKept (machines_of scenario.now) scenario.now
        (world (V.shown services.old) players.old.items) waiting.old.items }
    requires asleep { AreAsleep (machines_of scenario.now) scenario.now
        (world (V.shown services.old) players.old.items) sleepers.old }
    requires places { vec_len waiting.old ≡ vec_len players.old }
    ensures rounded { IfOk result (λ course.
        Rounded (machines_of scenario.now) scenario.now
        (world (V.shown services.old) players.old.items)
        (world (V.shown services.new) players.new.items) course) }
    ensures kept { IfOk result (λ course. AreKept (machines_of scenario.now) scenario.now
        (world (V.shown services.new) players.new.items) waiting.new.items) }
    ensures asleep { IfOk result (λ course. AreAsleep (machines_of scenario.now) scenario.now
        (world (V.shown services.new) players.new.items) sleepers.new) }
    ensures places { vec_len waiting.new ≡ vec_len players.new }
    ensures alone { IsAlone scenario.now (V.alone services.new) (V.machines services.new) (V.serves services.new) }
{
    let most = scenario.steps();
    let mut moved = false;
    let mut number = 0;
    while number < players.len() {
        let asleep = asleep_from(sleepers, number);
        if asleep > 0 {
            number += asleep;
        } else {
            let turn = take_turn(services, scenario, most, players, waiting, sleepers, number)?;
            if has_spent(turn) {
                return Ok(RoundEnd::Spent);
            }
            moved |= has_moved(turn);
            number += 1;
        }
    }
    Ok(if moved {
        RoundEnd::Goes
    } else {
        RoundEnd::Still
    })
}

/// Rounds until one has no step, or until a player is spent.
pub fn play_rounds<V: Counted>(
    alloc: Global,
    services: &mut V,
    scenario: &Scenario,
    players: &mut Vec<Player>,
) -> Result<(), NoMemory>
    requires valid { IsValid scenario.now }
    requires alone { IsAlone scenario.now (V.alone services.old) (V.machines services.old) (V.serves services.old) }
    requires ready { IsReady scenario.now (world (V.shown services.old) players.old.items) }
    requires unspent { is_spent scenario.now (world (V.shown services.old) players.old.items) ≡ false }
    ensures ready { IfOk result (λ _. IsReady scenario.now (world (V.shown services.new) players.new.items)) }
    ensures rounds { IfOk result (λ _. (n : ℕ) × (world (V.shown services.new) players.new.items
        ≡ rounds (machines_of scenario.now) scenario.now n
        (world (V.shown services.old) players.old.items))) }
    ensures over { IfOk result (λ _.
        round (machines_of scenario.now) scenario.now (world (V.shown services.new) players.new.items)
        ≡ world (V.shown services.new) players.new.items) }
    ensures alone { IsAlone scenario.now (V.alone services.new) (V.machines services.new) (V.serves services.new) }
{
    let mut sleepers = no_sleepers(alloc, scenario)?;
    let mut waiting = no_turns(alloc, players.len())?;
    loop {
        match play_round(services, scenario, players, &mut waiting, &mut sleepers)? {
            RoundEnd::Goes => {}
            RoundEnd::Still => return Ok(()),
            RoundEnd::Spent => return Ok(()),
        }
    }
}
