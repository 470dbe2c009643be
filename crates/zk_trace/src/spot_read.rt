ghost use Rattle.std.specs.Prelude.{◌≡◌, ◌↔◌, ◌<◌, true, IsTrue, ◌+◌, length};
ghost use Rattle.zk_line.specs.Objects.{is_at, is_thread, is_queue, places, number_of};
ghost use Rattle.zk_scenario.specs.Players.{players};
ghost use Rattle.zk_trace.specs.Names.{player_name};
ghost use Rattle.zk_trace.specs.SpotRead.{player_at, player_of, step_of, spot_of};

use crate::halves::halves;
use crate::hints::Hints;
use crate::lined::POINT;
use crate::names::player_name;
use crate::numerals::narrow_of;
use zk_base::Who;
use zk_scenario::{Decl, Scenario};
use zk_words::is_same;

/// The player of a name: a thread's own, or a worker's queue's.
pub fn player_of(scenario: &Scenario, hints: &Hints, name: &[u8]) -> Option<u32>
    ensures { result ≡ player_of scenario.now.decls name.now }
{
    let _named = scenario.decls();
    let player = hints.player(name);
    if is_named(scenario, player, name) {
        return Some(player);
    }
    player_at(scenario, scenario.find(name)?)
}

/// Whether there is a player of this number, and it has this name.
fn is_named(scenario: &Scenario, player: u32, name: &[u8]) -> bool
    ensures { IsTrue result ↔ (player < length (players scenario.now.decls)) × (name.now ≡ player_name scenario.now.decls player) }
{
    player < scenario.players() && is_same(name, player_name(scenario, player as usize))
}

fn player_at(scenario: &Scenario, object: u32) -> Option<u32>
    ensures { result ≡ player_at scenario.now.decls object }
{
    match scenario.decls().get(object as usize) {
        Some(Decl::Thread(..)) => Some(scenario.number(object)),
        Some(Decl::Queue(..)) => Some(worker_at(scenario, object)),
        _ => None,
    }
}

fn worker_at(scenario: &Scenario, object: u32) -> u32
    requires { is_at is_queue scenario.now.decls object ≡ true }
    ensures { result ≡ length (places is_thread scenario.now.decls) + number_of scenario.now.decls object }
{
    let _decls = scenario.decls();
    scenario.threads().len() as u32 + scenario.number(object)
}

/// A player, by its name, and the number of one of its steps.
pub fn step_of(scenario: &Scenario, hints: &Hints, word: &[u8]) -> Option<(u32, u32)>
    ensures { result ≡ step_of scenario.now.decls word.now }
{
    let (name, step) = halves(POINT, word)?;
    let player = player_of(scenario, hints, name)?;
    Some((player, narrow_of(step)?))
}

/// The same, with the player as the services know it.
pub fn spot_of(scenario: &Scenario, hints: &Hints, word: &[u8]) -> Option<(Who, u32)>
    ensures { result ≡ spot_of scenario.now.decls word.now }
{
    let (player, step) = step_of(scenario, hints, word)?;
    Some((scenario.who(player)?, step))
}
