ghost use Rattle.std.specs.Prelude.{◌≡◌, ◌++◌, OnOk, OnErr, IfOk};
ghost use Rattle.zk_scenario.specs.Spelling.{text_of};
ghost use Rattle.zk_trace.specs.declared.format.Format.TheVariants.{Two};
ghost use Rattle.zk_trace.specs.Text.{single_sections, service_sections, trace_text};

use crate::Trace;
use crate::format::{Format, first_row};
use crate::sections::{put_looked, put_looked_objects, put_objects, put_players, put_service};
use crate::words::ending_word;
use std::alloc::Global;
use std::mem;
use zk_base::NoMemory;
use zk_paper::Paper;
use zk_scenario::{Scenario, print_scenario};

/// Appends the trace part of the output in format 2: the head, the ending, the sections of the services and of the players.
pub fn put_trace(out: &mut Vec<u8>, scenario: &Scenario, trace: &Trace) -> Result<(), NoMemory>
    ensures text { OnOk result (out.new.items ≡ out.old.items ++ trace_text Two scenario.now trace.now) }
    ensures unchanged { OnErr result (out.new.items ≡ out.old.items) }
{
    let alloc = *out.allocator();
    let mut paper = Paper::behind(mem::replace(out, Vec::new(alloc)));
    if let Err(error) = put_all(&mut paper, scenario, trace) {
        *out = paper.front();
        return Err(error);
    }
    let (whole, put) = paper.whole();
    *out = whole;
    put
}

fn put_all(out: &mut Paper, scenario: &Scenario, trace: &Trace) -> Result<(), NoMemory>
    ensures text { OnOk result (out.new.put ≡ out.old.put ++ trace_text Two scenario.now trace.now) }
    ensures front { out.new.front ≡ out.old.front }
{
    out.put(first_row(Format::Two))?;
    out.push(b'\n')?;
    out.put(ending_word(trace.ending))?;
    out.push(b'\n')?;
    put_services(out, scenario, trace)?;
    put_players(out, scenario, trace.logs.items())
}

fn put_services(out: &mut Paper, scenario: &Scenario, trace: &Trace) -> Result<(), NoMemory>
    ensures text { OnOk result (out.new.put ≡ out.old.put ++ service_sections Two scenario.now trace.now) }
    ensures front { out.new.front ≡ out.old.front }
{
    put_single_services(out, scenario, trace)?;
    put_objects(out, scenario, trace.sems.items())?;
    put_objects(out, scenario, trace.msgqs.items())?;
    put_looked_objects(
        out,
        scenario,
        trace.signals.items(),
        trace.looks.signals.items(),
    )?;
    put_objects(out, scenario, trace.chans.items())?;
    put_objects(out, scenario, trace.observers.items())
}

/// The name of the work service.
pub const WORK: &[u8] = b"work";

/// The name of the clock.
pub const CLOCK: &[u8] = b"clock";

/// The name of the object table.
pub const TABLE: &[u8] = b"table";

/// The sections of the services of which there is one.
fn put_single_services(out: &mut Paper, scenario: &Scenario, trace: &Trace) -> Result<(), NoMemory>
    ensures text { OnOk result (out.new.put ≡ out.old.put ++ single_sections Two scenario.now trace.now) }
    ensures front { out.new.front ≡ out.old.front }
{
    put_looked(
        out,
        scenario,
        WORK,
        trace.work.items(),
        trace.looks.items.items(),
    )?;
    put_service(out, scenario, CLOCK, trace.clock.items())?;
    put_service(out, scenario, TABLE, trace.table.items())
}

/// The scenario's text and then the trace part in format 2.
pub fn print_trace(alloc: Global, scenario: &Scenario, trace: &Trace) -> Result<Vec<u8>, NoMemory>
    ensures { IfOk result (λ out. out.items ≡ text_of scenario.now ++ trace_text Two scenario.now trace.now) }
{
    let mut out = print_scenario(alloc, scenario)?;
    put_trace(&mut out, scenario, trace)?;
    Ok(out)
}
