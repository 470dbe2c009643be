ghost use Rattle.std.specs.Prelude.{◌≡◌, slice_get};
ghost use Rattle.zk_scenario.specs.Players.{players};
ghost use Rattle.zk_show_why.specs.Players.{name_of_object, player_name};

use crate::words::{NO_KIND, kind_words};
use zk_line::{kind_of, name_of};
use zk_scenario::{Ref, Scenario};

/// The object of a player: a thread, or the queue of a worker.
pub fn player_object(scenario: &Scenario, player: usize) -> Option<u32>
    ensures { result ≡ slice_get (players scenario.now.decls) player }
{
    let threads = scenario.threads();
    if player < threads.len() {
        return threads.get(player).copied();
    }
    scenario.queues().get(player - threads.len()).copied()
}

/// The worker of a queue, by the number of the queue among the queues.
pub fn worker_of(scenario: &Scenario, queue: u32) -> usize {
    let threads = scenario.threads().len();
    threads.saturating_add(queue as usize)
}

/// The name of an object, or `?` where there is none.
pub fn name_at(scenario: &Scenario, object: u32) -> &[u8]
    ensures { result.now ≡ name_of_object scenario.now.decls object }
{
    match scenario.decls().get(object as usize) {
        Some(decl) => name_of(decl),
        None => b"?",
    }
}

/// The name of a player. A worker has that of its queue.
pub fn player_name(scenario: &Scenario, player: usize) -> &[u8]
    ensures { result.now ≡ player_name scenario.now.decls player }
{
    match player_object(scenario, player) {
        Some(object) => name_at(scenario, object),
        None => b"?",
    }
}

/// The name that a call says.
pub fn name_said<'a>(scenario: &'a Scenario, named: &'a Ref) -> &'a [u8] {
    match named {
        Ref::Known(object) => name_at(scenario, *object),
        Ref::Unknown(name) => name.bytes(),
    }
}

/// The object that a call names, if it is declared.
pub fn known(named: Ref) -> Option<u32> {
    match named {
        Ref::Known(object) => Some(object),
        Ref::Unknown(_) => None,
    }
}

/// What an object is, in words.
pub fn kind_at(scenario: &Scenario, named: Ref) -> &'static [u8] {
    let Some(object) = known(named) else {
        return NO_KIND;
    };
    match scenario.decls().get(object as usize) {
        Some(decl) => kind_words(kind_of(decl)),
        None => NO_KIND,
    }
}
