ghost use Rattle.std.specs.Prelude.{◌≡◌, true, false, map, vec_len, IfOk, All};
ghost use Rattle.zk_base.specs.declared.ids.Who.{Who};
ghost use Rattle.zk_worker.specs.Protocol.{attempts};
ghost use Rattle.zk_replay.specs.LastTurns.{asked_at, counted_again, HaveAsked, IsFutile, AreFutile};

use std::alloc::Global;
use zk_base::{NoMemory, Who};
use zk_scenario::Scenario;
use zk_services::{Counted, service_of};
use zk_worker::{MOST_ATTEMPTS, Player, Step};

/// A step that a player asked for in vain, and how many entries its service had then.
#[derive(Clone, Copy)]
pub struct Asked {
    /// The step.
    pub step: Step,
    /// How many entries the service had that it asks.
    pub entries: u64,
}

/// What is kept of a player's last turn. Where it was in vain the next one is too, as long as each service that it asked has
/// as many entries as it had, or says that asking again is in vain.
#[derive(Drop)]
pub struct LastTurn {
    /// Whether its last turn was in vain.
    pub waits: bool,
    /// The steps that it asked for then.
    pub asked: Vec<Asked>,
}

/// Nothing is kept of so many players, none of which had a turn.
pub fn no_turns(alloc: Global, players: usize) -> Result<Vec<LastTurn>, NoMemory>
    ensures none { IfOk result (λ all. All (λ kept. kept.waits ≡ false) all.items) }
    ensures count { IfOk result (λ all. vec_len all ≡ players) }
{
    let mut all = Vec::new(alloc);
    for _ in 0..players {
        all.push(LastTurn {
            waits: false,
            asked: Vec::new(alloc),
        })?;
    }
    Ok(all)
}

/// Whether a step that was asked for in vain is in vain still: its service says so, or has as many entries as it had.
// Out of line: it looks at one service, and in line the lists of all are loaded first.
#[inline(never)]
fn is_futile<V: Counted>(services: &V, who: Who, asked: &Asked) -> bool
    ensures { result ≡ true → IsFutile (V.machines services.now) (V.shown services.now) who asked.now }
{
    services.is_futile(who, &asked.step)
        || services.entries(service_of(&asked.step)) == asked.entries
}

/// Whether all of these steps are in vain still.
fn are_futile<V: Counted>(services: &V, who: Who, asked: &[Asked]) -> bool
    ensures { result ≡ true → AreFutile (V.machines services.now) (V.shown services.now) who asked.now }
{
    for step in asked {
        if !is_futile(services, who, step) {
            return false;
        }
    }
    true
}

/// Whether a player's next turn is in vain by what is kept of its last one.
pub fn is_in_vain<V: Counted>(services: &V, who: Who, kept: &LastTurn) -> bool
    ensures { result ≡ true → (kept.now.waits ≡ true)
        × AreFutile (V.machines services.now) (V.shown services.now) who kept.now.asked.items }
{
    kept.waits && are_futile(services, who, &kept.asked)
}

/// Puts the steps that a player asks for next, with how many entries their services have, behind none.
fn ask<V: Counted>(
    services: &V,
    scenario: &Scenario,
    player: &Player,
    asked: &mut Vec<Asked>,
) -> Result<(), NoMemory>
    ensures { IfOk result (λ _. asked.new.items
        ≡ map (asked_at (V.shown services.now)) (attempts scenario.now player.now)) }
{
    asked.clear();
    for index in 0..MOST_ATTEMPTS {
        let Some(step) = player.ahead(scenario, index) else {
            return Ok(());
        };
        let entries = services.entries(service_of(&step));
        asked.push(Asked { step, entries })?;
    }
    Ok(())
}

/// A step that was asked for, with how many entries its service has now.
fn counted_again<V: Counted>(services: &V, asked: Asked) -> Asked
    ensures { result ≡ counted_again (V.shown services.now) asked }
{
    let entries = services.entries(service_of(&asked.step));
    Asked { entries, ..asked }
}

/// Counts anew how many entries the services of these steps have.
fn count_again<V: Counted>(services: &V, asked: &mut [Asked])
    ensures { asked.new ≡ map (counted_again (V.shown services.now)) asked.old }
{
    for asked in asked.iter_mut() {
        *asked = counted_again(services, *asked);
    }
}

/// Keeps of a player's turn in vain what it asked for. Where the one before was in vain too, it asked for the same.
// Out of line: most turns aren't in vain.
#[inline(never)]
fn keep_vain<V: Counted>(
    services: &V,
    scenario: &Scenario,
    player: &Player,
    kept: &mut LastTurn,
) -> Result<(), NoMemory>
    requires { kept.old.waits ≡ true → HaveAsked kept.old.asked.items (attempts scenario.now player.now) }
    ensures { IfOk result (λ _. kept.new.asked.items
        ≡ map (asked_at (V.shown services.now)) (attempts scenario.now player.now)) }
{
    if kept.waits {
        count_again(services, &mut kept.asked);
        return Ok(());
    }
    kept.waits = true;
    ask(services, scenario, player, &mut kept.asked)
}

/// Keeps of a player's turn whether it was in vain, and what it asked for then.
#[inline(always)]
pub fn keep<V: Counted>(
    services: &V,
    scenario: &Scenario,
    player: &Player,
    moved: bool,
    kept: &mut LastTurn,
) -> Result<(), NoMemory>
    requires again { moved ≡ false → kept.old.waits ≡ true →
        HaveAsked kept.old.asked.items (attempts scenario.now player.now) }
    ensures moved { IfOk result (λ _. moved ≡ true → kept.new.waits ≡ false) }
    ensures asked { IfOk result (λ _. moved ≡ false → kept.new.asked.items
        ≡ map (asked_at (V.shown services.now)) (attempts scenario.now player.now)) }
{
    if moved {
        kept.waits = false;
        return Ok(());
    }
    keep_vain(services, scenario, player, kept)
}
