ghost use Rattle.std.specs.Prelude.{◌≡◌, ℕ, ◌≤◌, ◌++◌, [], List, IfOk, length};
ghost use Rattle.zk_scenario.specs.declared.scenario.TheConstants.{MOST_STEPS};
ghost use Rattle.zk_trace.specs.declared.looks.SignalLook.{SignalLook};
ghost use Rattle.zk_trace.specs.Looked.{item_look_at, signal_look_at, looks_from, item_looks_of, signal_looks_of};
ghost use Rattle.zk_gathering.specs.Looks.{AreShort, by_number, with_look, named_look, with_found};

use std::alloc::Global;
use zk_base::{Listed, NoMemory};
use zk_trace::{ItemLook, ItemLooks, SignalLook, SignalLooks};
use zk_worker::{Log, Spot};

/// All looks at items, by player and then by step.
pub fn item_looks(alloc: Global, logs: &[Log]) -> Result<ItemLooks, NoMemory>
    requires { AreShort logs.now }
    ensures { IfOk result (λ looks. looks ≡ item_looks_of logs.now) }
{
    let mut looks = Listed::new(alloc);
    for (player, log) in logs.iter().enumerate() {
        add_item_looks(&mut looks, player as u32, log.steps.items())?;
    }
    Ok(looks)
}

/// Adds the looks at items of a player.
fn add_item_looks(looks: &mut ItemLooks, player: u32, steps: &[Spot]) -> Result<(), NoMemory>
    requires { length steps.now ≤ MOST_STEPS }
    ensures { IfOk result (λ _. looks.new ≡ looks.old ++ looks_from item_look_at player 0 steps.now) }
{
    for (step, spot) in steps.iter().enumerate() {
        match *spot {
            Spot::LookItem(item, flags, at) => looks.push(ItemLook {
                player,
                step: step as u32,
                item,
                flags,
                at,
            })?,
            _ => {}
        }
    }
    Ok(())
}

/// The looks at each of so many objects, by object number; each by player and then by step.
pub fn signal_looks(alloc: Global, objects: usize, logs: &[Log]) -> Result<SignalLooks, NoMemory>
    requires { AreShort logs.now }
    ensures { IfOk result (λ looks. looks ≡ signal_looks_of objects logs.now) }
{
    let mut all = no_looks(alloc, objects)?;
    for (player, log) in logs.iter().enumerate() {
        add_signal_looks(&mut all, player as u32, log.steps.items())?;
    }
    Ok(SignalLooks::from_vec(all))
}

/// No looks at so many objects.
fn no_looks(alloc: Global, objects: usize) -> Result<Vec<Listed<SignalLook>>, NoMemory>
    ensures { IfOk result (λ all. all.items ≡ by_number (λ object. []) objects) }
{
    let mut all = Vec::new(alloc);
    while all.len() < objects {
        all.push(Listed::new(alloc))?;
    }
    Ok(all)
}

/// Adds the looks at signals of a player.
fn add_signal_looks(
    all: &mut [Listed<SignalLook>],
    player: u32,
    steps: &[Spot],
) -> Result<(), NoMemory>
    requires { length steps.now ≤ MOST_STEPS }
    ensures { IfOk result (λ _. (before : ℕ → List SignalLook) (n : ℕ) → all.old ≡ by_number before n →
        all.new ≡ by_number (λ object. before object ++ looks_from (signal_look_at object) player 0 steps.now) n) }
{
    for (step, spot) in steps.iter().enumerate() {
        add_found(all, look_of(player, step as u32, *spot))?;
    }
    Ok(())
}

/// The look at a signal that a step is, with the signal's object number.
fn look_of(player: u32, step: u32, spot: Spot) -> Option<(u32, SignalLook)>
    ensures { result ≡ named_look player step spot }
{
    match spot {
        Spot::LookSignal(object, seen) => Some((object, SignalLook { player, step, seen })),
        _ => None,
    }
}

/// Adds a look, if there is one.
fn add_found(
    all: &mut [Listed<SignalLook>],
    found: Option<(u32, SignalLook)>,
) -> Result<(), NoMemory>
    ensures { IfOk result (λ _. (before : ℕ → List SignalLook) (n : ℕ) → all.old ≡ by_number before n →
        all.new ≡ by_number (with_found before found) n) }
{
    match found {
        Some((object, look)) => add_look(all, object, look),
        None => Ok(()),
    }
}

/// Adds a look at the object of a number, if there are so many objects.
fn add_look(all: &mut [Listed<SignalLook>], object: u32, look: SignalLook) -> Result<(), NoMemory>
    ensures { IfOk result (λ _. (before : ℕ → List SignalLook) (n : ℕ) → all.old ≡ by_number before n →
        all.new ≡ by_number (with_look before object look) n) }
{
    let at = object as usize;
    if at < all.len() {
        all[at].push(look)?;
    }
    Ok(())
}
