ghost use Rattle.std.specs.Prelude.{◌≡◌, ◌∷◌, ◌++◌, slice_get, option_copied, OnOk};
ghost use Rattle.std.specs.List.{flat_map};
ghost use Rattle.zk_line.specs.Objects.{places, is_item, is_queue, name_at};
ghost use Rattle.zk_scenario.specs.Players.{players};
ghost use Rattle.zk_trace.specs.Names.{object_name, item_name, queue_name, target_name, checked_name, name_behind, names_word, player_name};

use zk_base::NoMemory;
use zk_line::name_of;
use zk_paper::Paper;
use zk_scenario::{Decl, Scenario};

/// What stands for no name.
pub const NO_NAME: &[u8] = b"-";

/// The name of an item, by its number among the items.
pub fn item_name(scenario: &Scenario, item: u32) -> &[u8]
    ensures { result.now ≡ item_name scenario.now.decls item }
{
    object_name(scenario.decls(), number_at(scenario.items(), item))
}

/// The name of a queue, by its number among the queues.
pub fn queue_name(scenario: &Scenario, queue: u32) -> &[u8]
    ensures { result.now ≡ queue_name scenario.now.decls queue }
{
    object_name(scenario.decls(), number_at(scenario.queues(), queue))
}

/// The name of the queue that a submission names, and a dash for none.
pub fn target_name(scenario: &Scenario, queue: Option<u32>) -> &[u8]
    ensures { result.now ≡ target_name scenario.now.decls queue }
{
    match queue {
        None => NO_NAME,
        Some(queue) => queue_name(scenario, queue),
    }
}

/// The name of the object that a check asks of, and a question mark for none.
pub fn checked_name(scenario: &Scenario, object: Option<u32>) -> &[u8]
    ensures { result.now ≡ checked_name scenario.now.decls object }
{
    match object {
        None => b"?",
        Some(object) => name_at(scenario.decls(), object as usize),
    }
}

/// The name of a player: a thread's own, and a worker's queue's.
pub fn player_name(scenario: &Scenario, player: usize) -> &[u8]
    ensures { result.now ≡ player_name scenario.now.decls player }
{
    object_name(scenario.decls(), player_object(scenario, player))
}

fn player_object(scenario: &Scenario, player: usize) -> Option<u32>
    ensures { result ≡ slice_get (players scenario.now.decls) player }
{
    let threads = scenario.threads();
    if player < threads.len() {
        return threads.get(player).copied();
    }
    scenario.queues().get(player - threads.len()).copied()
}

fn number_at(numbers: &[u32], place: u32) -> Option<u32>
    ensures { result ≡ slice_get numbers.now place }
{
    numbers.get(place as usize).copied()
}

fn object_name(decls: &[Decl], object: Option<u32>) -> &[u8]
    ensures { result.now ≡ object_name decls.now object }
{
    match object {
        Some(object) => name_at(decls, object as usize),
        None => &[],
    }
}

/// The name of an object, and no byte where there is none of this number.
pub fn name_at(decls: &[Decl], object: usize) -> &[u8]
    ensures { result.now ≡ name_at decls.now object }
{
    match decls.get(object) {
        Some(decl) => name_of(decl),
        None => &[],
    }
}

/// Appends the names of objects with a space between two, and a dash for none.
pub fn put_names(out: &mut Paper, scenario: &Scenario, objects: &[u32]) -> Result<(), NoMemory>
    ensures text { OnOk result (out.new.put ≡ out.old.put ++ names_word scenario.now.decls objects.now) }
    ensures front { out.new.front ≡ out.old.front }
{
    match objects {
        [] => out.put(NO_NAME),
        [object, more @ ..] => put_some_names(out, scenario, *object, more),
    }
}

fn put_some_names(
    out: &mut Paper,
    scenario: &Scenario,
    first: u32,
    more: &[u32],
) -> Result<(), NoMemory>
    ensures text { OnOk result (out.new.put ≡ out.old.put ++ names_word scenario.now.decls (first ∷ more.now)) }
    ensures front { out.new.front ≡ out.old.front }
{
    out.put(name_at(scenario.decls(), first as usize))?;
    put_names_behind(out, scenario, more)
}

fn put_names_behind(out: &mut Paper, scenario: &Scenario, objects: &[u32]) -> Result<(), NoMemory>
    ensures text { OnOk result (out.new.put ≡ out.old.put ++ flat_map (name_behind scenario.now.decls) objects.now) }
    ensures front { out.new.front ≡ out.old.front }
{
    for object in objects {
        put_name_behind(out, scenario, *object)?;
    }
    Ok(())
}

fn put_name_behind(out: &mut Paper, scenario: &Scenario, object: u32) -> Result<(), NoMemory>
    ensures text { OnOk result (out.new.put ≡ out.old.put ++ name_behind scenario.now.decls object) }
    ensures front { out.new.front ≡ out.old.front }
{
    out.put(b" ")?;
    out.put(name_at(scenario.decls(), object as usize))
}
