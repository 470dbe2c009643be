ghost use Rattle.std.specs.Prelude.{◌≡◌, slice_get, length};
ghost use Rattle.zk_line.specs.Objects.{name_at};
ghost use Rattle.zk_scenario.specs.Players.{players};
ghost use Rattle.zk_trace.specs.Names.{object_name, player_name};

use zk_line::name_of;
use zk_scenario::{Decl, Scenario};

/// The name of an object, and no character where there is none of this number.
pub fn name_at(decls: &[Decl], object: u32) -> &[u8]
    ensures { result.now ≡ name_at decls.now object }
{
    match decls.get(object as usize) {
        Some(decl) => name_of(decl),
        None => &[],
    }
}

fn player_object(scenario: &Scenario, player: usize) -> Option<u32>
    ensures { result ≡ slice_get (players scenario.now.decls) player }
{
    let threads = scenario.threads();
    if player < threads.len() {
        return threads.get(player).copied();
    }
    scenario.queues().get(player - threads.len()).copied()
}

/// The name of a player: a thread's own, and a worker's queue's.
pub fn player_name(scenario: &Scenario, player: u32) -> &[u8]
    ensures { result.now ≡ player_name scenario.now.decls player }
{
    match player_object(scenario, player as usize) {
        Some(object) => name_at(scenario.decls(), object),
        None => &[],
    }
}
