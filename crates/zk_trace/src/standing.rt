ghost use Rattle.std.specs.Prelude.{◌≡◌, ◌++◌, ◌^◌, ◌<◌, OnOk, IfOk, length, map};
ghost use Rattle.zk_trace.specs.Stood.{AreFew, spot_at, spot_in, entries_stood, histories_stood, item_look_stood, signal_look_stood, signals_stood, stood};

use crate::looks::{ItemLook, SignalLook};
use crate::sections::looks_at;
use crate::stood::{Family, Home, Stood};
use crate::{History, Trace};
use std::alloc::Global;
use zk_base::{Entry, Listed, NoMemory};
use zk_worker::Spot;

/// Where the entry at a place of a service's history stands.
fn spot_at(home: Home, place: u64) -> Spot
    ensures { result ≡ spot_at home place }
{
    match home {
        Home::Work => Spot::Work(place),
        Home::Clock => Spot::Clock(place),
        Home::Table => Spot::Table(place),
        Home::Object(family, object) => spot_in(family, object, place),
    }
}

fn spot_in(family: Family, object: u32, place: u64) -> Spot
    ensures { result ≡ spot_in family object place }
{
    match family {
        Family::Sem => Spot::Sem(object, place),
        Family::Msgq => Spot::Msgq(object, place),
        Family::Signal => Spot::Signal(object, place),
        Family::Chan => Spot::Chan(object, place),
        Family::Obs => Spot::Obs(object, place),
    }
}

/// Adds the lines of a history.
fn put_entries<O, R>(
    lines: &mut Vec<Stood>,
    home: Home,
    entries: &[Entry<O, R>],
) -> Result<(), NoMemory>
    ensures { OnOk result (lines.new.items ≡ lines.old.items ++ entries_stood home 0 entries.now) }
{
    for (place, entry) in entries.iter().enumerate() {
        lines.push(Stood {
            player: entry.who.number,
            step: entry.step,
            spot: spot_at(home, place as u64),
        })?;
    }
    Ok(())
}

/// Adds the lines of the histories of a kind.
fn put_histories<O, R>(
    lines: &mut Vec<Stood>,
    family: Family,
    histories: &[History<O, R>],
) -> Result<(), NoMemory>
    requires { length histories.now < 2 ^ 32 }
    ensures { OnOk result (lines.new.items ≡ lines.old.items ++ histories_stood family 0 histories.now) }
{
    for (object, history) in histories.iter().enumerate() {
        put_entries(lines, Home::Object(family, object as u32), history.items())?;
    }
    Ok(())
}

/// Adds the lines of the looks at items.
fn put_item_looks(lines: &mut Vec<Stood>, looks: &[ItemLook]) -> Result<(), NoMemory>
    ensures { OnOk result (lines.new.items ≡ lines.old.items ++ map item_look_stood looks.now) }
{
    for look in looks {
        lines.push(item_look_stood(look))?;
    }
    Ok(())
}

fn item_look_stood(look: &ItemLook) -> Stood
    ensures { result ≡ item_look_stood look.now }
{
    Stood {
        player: look.player,
        step: look.step,
        spot: Spot::LookItem(look.item, look.flags, look.at),
    }
}

fn signal_look_stood(object: u32, look: &SignalLook) -> Stood
    ensures { result ≡ signal_look_stood object look.now }
{
    Stood {
        player: look.player,
        step: look.step,
        spot: Spot::LookSignal(object, look.seen),
    }
}

/// Adds the lines of the looks at a signal.
fn put_signal_looks(
    lines: &mut Vec<Stood>,
    object: u32,
    looks: &[SignalLook],
) -> Result<(), NoMemory>
    ensures { OnOk result (lines.new.items ≡ lines.old.items ++ map (signal_look_stood object) looks.now) }
{
    for look in looks {
        lines.push(signal_look_stood(object, look))?;
    }
    Ok(())
}

/// Adds the lines of the signals: of each the writes, and then the looks.
fn put_signals<O, R>(
    lines: &mut Vec<Stood>,
    histories: &[History<O, R>],
    looks: &[Listed<SignalLook>],
) -> Result<(), NoMemory>
    requires { length histories.now < 2 ^ 32 }
    ensures { OnOk result (lines.new.items ≡ lines.old.items ++ signals_stood looks.now 0 histories.now) }
{
    for (object, history) in histories.iter().enumerate() {
        let number = object as u32;
        put_entries(lines, Home::Object(Family::Signal, number), history.items())?;
        put_signal_looks(lines, number, looks_at(looks, object))?;
    }
    Ok(())
}

/// All lines of entries and looks of a trace, in the order of the text.
pub fn stood_lines(alloc: Global, trace: &Trace) -> Result<Vec<Stood>, NoMemory>
    requires { AreFew trace.now }
    ensures { IfOk result (λ lines. lines.items ≡ stood trace.now) }
{
    let mut lines = Vec::new(alloc);
    put_entries(&mut lines, Home::Work, trace.work.items())?;
    put_item_looks(&mut lines, trace.looks.items.items())?;
    put_entries(&mut lines, Home::Clock, trace.clock.items())?;
    put_entries(&mut lines, Home::Table, trace.table.items())?;
    put_histories(&mut lines, Family::Sem, trace.sems.items())?;
    put_histories(&mut lines, Family::Msgq, trace.msgqs.items())?;
    put_signals(
        &mut lines,
        trace.signals.items(),
        trace.looks.signals.items(),
    )?;
    put_histories(&mut lines, Family::Chan, trace.chans.items())?;
    put_histories(&mut lines, Family::Obs, trace.observers.items())?;
    Ok(lines)
}
