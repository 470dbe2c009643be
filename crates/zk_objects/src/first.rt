ghost use Rattle.std.specs.Prelude.{◌≡◌, ℕ, ◌&&◌, ◌≤◌, nat_lt, Some, [], length, set, slice_get, IfOk};
ghost use Rattle.zk_base.specs.Limits.{most_players};
ghost use Rattle.zk_model_bus.specs.Table.{IsSetup, new_table};
ghost use Rattle.zk_objects.specs.Kept.{IsObject};
ghost use Rattle.zk_objects.specs.First.{AreFirst, ArePlayers, allowing, declares_user, IsFirstThread};
ghost use Rattle.zk_player_set.specs.Players.{has};

use crate::object::{Object, grant};
use std::alloc::Global;
use zk_base::{MOST_PLAYERS, NoMemory};
use zk_model_bus::{Kind, TableSetup};
use zk_player_set::PlayerSet;

/// The player is a user at first.
fn begins_as_user(threads: &[(u32, bool)], player: u32) -> bool
    ensures { result ≡ declares_user threads.now player }
{
    match threads.get(player as usize) {
        Some(declared) => declared.1,
        None => false,
    }
}

/// The players that are users at first.
pub fn first_users(threads: &[(u32, bool)]) -> PlayerSet
    ensures { (player : ℕ) → has result player ≡ (nat_lt player most_players && declares_user threads.now player) }
{
    let mut users = PlayerSet::none();
    for player in 0..MOST_PLAYERS {
        if begins_as_user(threads, player) {
            users.insert(player);
        }
    }
    users
}

/// Notes the player of a thread at its object's number.
fn note_player(players: &mut Vec<u32>, object: usize, player: u32)
    ensures { players.new.items ≡ set players.old.items object player }
{
    if object < players.len() {
        players[object] = player;
    }
}

/// The player of each object's thread, by object number. `MOST_PLAYERS` where there is none.
fn thread_players(
    alloc: Global,
    threads: &[(u32, bool)],
    objects: usize,
) -> Result<Vec<u32>, NoMemory>
    requires { length threads.now ≤ most_players }
    ensures { IfOk result (λ players. ArePlayers threads.now objects players.items) }
{
    let mut players = vec![in alloc; MOST_PLAYERS; objects]?;
    for (player, thread) in threads.iter().enumerate() {
        note_player(&mut players, thread.0 as usize, player as u32);
    }
    Ok(players)
}

/// What is kept of an object of this kind before any permission is given. The player is its thread's, if it is one.
fn first_object(setup: &TableSetup, object: usize, kind: Kind, player: u32) -> Object
    requires setup { IsSetup setup.now }
    requires kind { slice_get setup.now.kinds object ≡ Some kind }
    requires player { IsFirstThread setup.now.threads object player }
    ensures { IsObject (new_table (allowing [] setup.now)) object result }
{
    Object {
        kind,
        granted: PlayerSet::none(),
        public: false,
        ready: setup.ready[object],
        player,
    }
}

/// What is kept of each object before any permission is given.
fn bare_objects(alloc: Global, setup: &TableSetup) -> Result<Vec<Object>, NoMemory>
    requires { IsSetup setup.now }
    ensures { IfOk result (λ objects. AreFirst (allowing [] setup.now) objects.items) }
{
    let players = thread_players(alloc, &setup.threads, setup.kinds.len())?;
    let mut objects = Vec::new(alloc);
    for (object, kind) in setup.kinds.iter().enumerate() {
        objects.push(first_object(setup, object, *kind, players[object]))?;
    }
    Ok(objects)
}

/// What is kept of each object at first: each declared permission is given once.
pub fn first_objects(alloc: Global, setup: &TableSetup) -> Result<Vec<Object>, NoMemory>
    requires { IsSetup setup.now }
    ensures { IfOk result (λ objects. AreFirst setup.now objects.items) }
{
    let mut objects = bare_objects(alloc, setup)?;
    for permission in &setup.allowed {
        grant(&mut objects, permission.0, permission.1);
    }
    Ok(objects)
}
