ghost use Rattle.std.specs.Prelude.{◌≡◌, ℕ, ◌+◌, ◌<◌, ◌≤◌, true, false, IfOk};
ghost use Rattle.std.specs.Option.{option_map_or};
ghost use Rattle.zk_base.specs.Limits.{most_players};
ghost use Rattle.zk_player_set.specs.declared.player_set.PlayerSet.{PlayerSet};
ghost use Rattle.zk_player_set.specs.Players.{has};
ghost use Rattle.zk_replay.specs.Sleeping.{is_asleep, list_of, listed_at, entered_at, last_entered, serving, AreListed, StandStill, FellAsleep, SleepOn};

use crate::last_turn::{Asked, LastTurn};
use std::alloc::Global;
use zk_base::{MOST_PLAYERS, NoMemory};
use zk_player_set::PlayerSet;
use zk_scenario::Scenario;
use zk_services::{Counted, ServiceId, service_of};
use zk_worker::{Player, Spot};

/// Who sleeps, and who is woken by an entry of which service.
#[derive(Drop)]
pub struct Sleepers {
    /// Who sleeps, once somebody has: none of the steps that such a player may make next is possible, and that stays so as long
    /// as none of the services that it asked has a further entry.
    pub asleep: Option<PlayerSet>,
    /// For each service those who sleep and asked it, by the number of its list. Others may be among them.
    pub lists: Vec<PlayerSet>,
}

/// The number of the list of a service: an object's stands behind those of the services of which there is one.
#[inline(always)]
fn list_of(service: ServiceId) -> usize
    ensures { result ≡ list_of service }
{
    match service {
        ServiceId::Work => 0,
        ServiceId::Clock => 1,
        ServiceId::Table => 2,
        ServiceId::Sem(object) => object as usize + 3,
        ServiceId::Msgq(object) => object as usize + 3,
        ServiceId::Signal(object) => object as usize + 3,
        ServiceId::Chan(object) => object as usize + 3,
        ServiceId::Obs(object) => object as usize + 3,
    }
}

/// The service that has the entry of this spot. A look has none.
#[inline(always)]
fn entered_at(spot: Spot) -> Option<ServiceId>
    ensures { result ≡ entered_at spot }
{
    match spot {
        Spot::Work(_) => Some(ServiceId::Work),
        Spot::Clock(_) => Some(ServiceId::Clock),
        Spot::Table(_) => Some(ServiceId::Table),
        Spot::Sem(object, _) => Some(ServiceId::Sem(object)),
        Spot::Msgq(object, _) => Some(ServiceId::Msgq(object)),
        Spot::Signal(object, _) => Some(ServiceId::Signal(object)),
        Spot::Chan(object, _) => Some(ServiceId::Chan(object)),
        Spot::Obs(object, _) => Some(ServiceId::Obs(object)),
        Spot::LookItem(_, _, _) => None,
        Spot::LookSignal(_, _) => None,
    }
}

/// The service that has the entry of a player's last step.
#[inline(always)]
fn last_entered(player: &Player) -> Option<ServiceId>
    ensures { result ≡ last_entered player.now.spots }
{
    match player.spots().last() {
        Some(spot) => entered_at(*spot),
        None => None,
    }
}

/// All players are awake, and there is a list for each service of the scenario.
pub fn no_sleepers(alloc: Global, scenario: &Scenario) -> Result<Sleepers, NoMemory>
    ensures { IfOk result (λ sleepers. (player : ℕ) → is_asleep sleepers player ≡ false) }
{
    Ok(Sleepers {
        asleep: None,
        lists: vec![in alloc; PlayerSet::none(); scenario.decls().len() + 3]?,
    })
}

/// How many players sleep that follow each other, from this one on: none where this one is awake.
#[inline(always)]
pub fn asleep_from(sleepers: &Sleepers, number: usize) -> usize
    requires { number < most_players }
    ensures all { (player : ℕ) → number ≤ player → player < number + result → is_asleep sleepers.now player ≡ true }
    ensures none { result ≡ 0 → is_asleep sleepers.now number ≡ false }
    ensures few { result ≤ most_players }
{
    let Some(asleep) = &sleepers.asleep else {
        return 0;
    };
    if number >= MOST_PLAYERS as usize {
        return 0;
    }
    asleep.consecutive_from(number as u32) as usize
}

/// Puts a player into a list, if there is such a list.
fn join(lists: &mut Vec<PlayerSet>, list: usize, player: u32) -> bool
    requires { player < most_players }
    ensures joined { result ≡ true → listed_at lists.new.items list player ≡ true }
    ensures kept { StandStill lists.old.items lists.new.items }
{
    if list >= lists.len() {
        return false;
    }
    lists[list].insert(player);
    true
}

/// Puts a player into the lists of the services that it asked, if there are such lists.
fn join_all(lists: &mut Vec<PlayerSet>, asked: &[Asked], player: u32) -> bool
    requires { player < most_players }
    ensures joined { result ≡ true → AreListed lists.new.items asked.now player }
    ensures kept { StandStill lists.old.items lists.new.items }
{
    for one in asked {
        if !join(lists, list_of(service_of(&one.step)), player) {
            return false;
        }
    }
    true
}

/// Whether nobody is in the set. Where it answers so of some, they are awake, which costs time alone.
fn is_nobody(players: &PlayerSet) -> bool {
    let mut number = 0;
    while number < MOST_PLAYERS {
        let absent = players.absent_from(number);
        if absent == 0 || absent % u64::BITS != 0 {
            return false;
        }
        number += absent;
    }
    true
}

/// The set, if somebody is in it.
fn some_of(players: PlayerSet) -> Option<PlayerSet>
    ensures { (player : ℕ) →
        option_map_or (λ (some : PlayerSet). has some player) result false ≡ true → has players player ≡ true }
{
    if is_nobody(&players) {
        None
    } else {
        Some(players)
    }
}

/// Lets a player sleep whose last turn was in vain.
// Out of line: most turns aren't in vain.
#[inline(never)]
pub fn fall_asleep(kept: &LastTurn, number: usize, sleepers: &mut Sleepers)
    requires { is_asleep sleepers.old number ≡ false }
    ensures { FellAsleep kept.now number sleepers.old sleepers.new }
{
    if !kept.waits || number >= MOST_PLAYERS as usize {
        return;
    }
    let player = number as u32;
    if join_all(&mut sleepers.lists, &kept.asked, player) {
        let mut asleep = match &sleepers.asleep {
            Some(asleep) => *asleep,
            None => PlayerSet::none(),
        };
        asleep.insert(player);
        sleepers.asleep = Some(asleep);
    }
}

/// Wakes those whose steps may have come to be possible by the last step of a player: those who asked its service, where the
/// entry may serve somebody.
#[inline(always)]
pub fn wake<V: Counted>(services: &V, player: &Player, sleepers: &mut Sleepers)
    ensures { SleepOn (serving (V.shown services.now) player.now.spots) sleepers.old sleepers.new }
{
    let Some(_) = &sleepers.asleep else {
        return;
    };
    wake_some(services, player, sleepers);
}

/// The same where somebody sleeps.
// Out of line, so that a run in which nobody does has short turns.
#[inline(never)]
fn wake_some<V: Counted>(services: &V, player: &Player, sleepers: &mut Sleepers)
    ensures { SleepOn (serving (V.shown services.now) player.now.spots) sleepers.old sleepers.new }
{
    let Some(asleep) = &sleepers.asleep else {
        return;
    };
    let Some(service) = last_entered(player) else {
        return;
    };
    let list = list_of(service);
    if list >= sleepers.lists.len() || !services.may_serve(service) {
        return;
    }
    let left = asleep.without(&sleepers.lists[list]);
    sleepers.asleep = some_of(left);
    sleepers.lists[list] = PlayerSet::none();
}
