ghost use Rattle.std.specs.Prelude.{◌≡◌, ◌++◌, not, [], map, IfOk};
ghost use Rattle.zk_line.specs.Objects.{kind_of, is_raw};
ghost use Rattle.zk_model_bus.specs.Table.{new_table};
ghost use Rattle.zk_objects.specs.Seen.{objects_start, objects_history};
ghost use Rattle.zk_scenario.specs.Valid.{IsValid};
ghost use Rattle.zk_scenario.specs.Written.{permission_in, allowed};
ghost use Rattle.zk_worker.specs.TableSetup.{thread_of, permission_of, setup_of};

use std::alloc::Global;
use zk_base::NoMemory;
use zk_line::kind_of;
use zk_model_bus::{Kind, TableSetup};
use zk_objects::Objects;
use zk_scenario::{Decl, Declared, Scenario};

/// What each object is.
fn kinds_of(alloc: Global, decls: &[Decl]) -> Result<Vec<Kind>, NoMemory>
    ensures { IfOk result (λ kinds. kinds.items ≡ map kind_of decls.now) }
{
    let kinds = decls.iter().map(|decl| kind_of(decl)).collect(alloc)?;
    Ok(kinds)
}

/// What is declared is initialised from the start.
fn is_ready(decl: &Decl) -> bool
    ensures { result ≡ not (is_raw decl.now) }
{
    match decl {
        Decl::Sem(_, _, _, raw) => !*raw,
        Decl::Msgq(_, _, _, raw) => !*raw,
        Decl::Signal(_, raw) => !*raw,
        _ => true,
    }
}

/// Whether each object is initialised from the start.
fn ready_of(alloc: Global, decls: &[Decl]) -> Result<Vec<bool>, NoMemory>
    ensures { IfOk result (λ ready. ready.items ≡ map (λ decl. not (is_raw decl)) decls.now) }
{
    let ready = decls.iter().map(|decl| is_ready(decl)).collect(alloc)?;
    Ok(ready)
}

/// A thread, as the number of its object and whether it is a user.
fn thread_of(decls: &[Decl], object: u32) -> (u32, bool)
    ensures { result ≡ thread_of decls.now object }
{
    match decls.get(object as usize) {
        Some(Decl::Thread(_, _, user)) => (object, *user),
        _ => (object, false),
    }
}

/// Each of these threads.
fn threads_of(alloc: Global, decls: &[Decl], objects: &[u32]) -> Result<Vec<(u32, bool)>, NoMemory>
    ensures { IfOk result (λ threads. threads.items ≡ map (thread_of decls.now) objects.now) }
{
    let threads = objects
        .iter()
        .map(|object| thread_of(decls, *object))
        .collect(alloc)?;
    Ok(threads)
}

/// Adds the permission that a line says, if it says one: the number of the thread among the players, and that of the object.
fn add_permission(
    all: &mut Vec<(u32, u32)>,
    scenario: &Scenario,
    line: &Declared,
) -> Result<(), NoMemory>
    ensures { IfOk result (λ _. all.new.items
        ≡ all.old.items ++ map (permission_of scenario.now.decls) (permission_in line.now)) }
{
    match *line {
        Declared::Object(_) => Ok(()),
        Declared::Allow(thread, object) => {
            all.push((scenario.number(thread), object))?;
            Ok(())
        }
    }
}

/// The permissions of a scenario.
fn permissions_of(alloc: Global, scenario: &Scenario) -> Result<Vec<(u32, u32)>, NoMemory>
    ensures { IfOk result (λ all. all.items ≡ map (permission_of scenario.now.decls) (allowed scenario.now)) }
{
    let mut all = Vec::new(alloc);
    let mut lines = scenario.written();
    while let [line, rest @ ..] = lines {
        add_permission(&mut all, scenario, line)?;
        lines = rest;
    }
    Ok(all)
}

/// What a scenario declares of objects, threads and permissions.
fn table_setup(alloc: Global, scenario: &Scenario) -> Result<TableSetup, NoMemory>
    ensures { IfOk result (λ setup. setup ≡ setup_of scenario.now) }
{
    let decls = scenario.decls();
    Ok(TableSetup {
        kinds: kinds_of(alloc, decls)?,
        ready: ready_of(alloc, decls)?,
        threads: threads_of(alloc, decls, scenario.threads())?,
        allowed: permissions_of(alloc, scenario)?,
    })
}

/// The object table of a scenario, at which nothing was done.
pub fn first_table(alloc: Global, scenario: &Scenario) -> Result<Objects, NoMemory>
    requires { IsValid scenario.now }
    ensures start { IfOk result (λ table. objects_start table ≡ new_table (setup_of scenario.now)) }
    ensures none { IfOk result (λ table. objects_history table ≡ []) }
{
    let setup = table_setup(alloc, scenario)?;
    Objects::new(alloc, &setup)
}
