ghost use Rattle.std.specs.Prelude.{◌≡◌, ◌++◌, false, OnOk};
ghost use Rattle.zk_line.specs.Objects.{name_at};
ghost use Rattle.zk_scenario.specs.Players.{players};
ghost use Rattle.zk_show_json.specs.Arrays.{array, parts};
ghost use Rattle.zk_show_json.specs.Values.{player_value};

use crate::array::put_comma;
use crate::escape::put_quoted;
use zk_base::NoMemory;
use zk_line::name_of;
use zk_paper::Paper;
use zk_scenario::{Decl, Scenario};

/// The name of an object, and no byte where there is none of this number.
pub fn name_at(decls: &[Decl], object: u32) -> &[u8]
    ensures { result.now ≡ name_at decls.now object }
{
    match decls.get(object as usize) {
        Some(decl) => name_of(decl),
        None => &[],
    }
}

/// Appends the names of the players, in player order.
pub fn put_players(out: &mut Paper, scenario: &Scenario) -> Result<(), NoMemory>
    ensures text { OnOk result (out.new.put ≡ out.old.put ++ array (player_value scenario.now.decls) (players scenario.now.decls)) }
    ensures front { out.new.front ≡ out.old.front }
{
    out.push(b'[')?;
    put_both(out, scenario)?;
    out.push(b']')
}

/// Appends the names of the threads, and then those of the workers' queues.
fn put_both(out: &mut Paper, scenario: &Scenario) -> Result<(), NoMemory>
    ensures text { OnOk result (out.new.put ≡
        out.old.put ++ parts (player_value scenario.now.decls) false (players scenario.now.decls)) }
    ensures front { out.new.front ≡ out.old.front }
{
    let decls = scenario.decls();
    let threads = scenario.threads();
    put_names(out, decls, false, threads)?;
    put_names(out, decls, 0 < threads.len(), scenario.queues())
}

fn put_names(out: &mut Paper, decls: &[Decl], begun: bool, objects: &[u32]) -> Result<(), NoMemory>
    ensures text { OnOk result (out.new.put ≡ out.old.put ++ parts (player_value decls.now) begun objects.now) }
    ensures front { out.new.front ≡ out.old.front }
{
    let mut begun = begun;
    for object in objects {
        put_comma(out, begun)?;
        put_quoted(out, name_at(decls, *object))?;
        begun = true;
    }
    Ok(())
}
