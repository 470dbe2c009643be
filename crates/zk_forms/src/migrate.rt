ghost use Rattle.std.specs.Prelude.{◌≡◌, ◌≤◌, ◌++◌, length, IfOk, Ok};
ghost use Rattle.zk_scenario.specs.Grammar.{scenario_of};
ghost use Rattle.zk_scenario.specs.Spelling.{text_of};
ghost use Rattle.zk_trace.specs.Parting.{AreParts};
ghost use Rattle.zk_forms.specs.CheckAnswer.{IsMigrateOutput};
ghost use Rattle.zk_forms.specs.declared.form.TheConstants.{LONGEST_TRACE};

use crate::answer::refusal;
use crate::check::trace_refusal;
use crate::form::LONGEST_TRACE;
use std::alloc::Global;
use zk_base::{NoMemory, Status};
use zk_scenario::{Scenario, ScenarioRefused, Why, read_scenario};
use zk_trace::{Formats, TraceRefused, line_count, print_trace, read_trace, split_text};

/// The whole output of `migrate` for this input, and the status that goes with it.
pub fn migrate_output(alloc: Global, input: Vec<u8>) -> Result<(Vec<u8>, Status), NoMemory>
    ensures { IfOk result (λ made. IsMigrateOutput made.1 input.items made.0.items) }
{
    if LONGEST_TRACE < input.len() {
        return Ok((refusal(alloc, 0, Why::Length)?, Status::Refused));
    }
    let (front, trace) = split_text(&input);
    match read_scenario(alloc, front) {
        Ok(scenario) => migrated(alloc, &scenario, front, trace),
        Err(ScenarioRefused::At(line, why)) => Ok((refusal(alloc, line, why)?, Status::Refused)),
        Err(ScenarioRefused::NoMemory) => Err(NoMemory),
    }
}

/// The output for a scenario, its text, and the trace part behind that.
fn migrated(
    alloc: Global,
    scenario: &Scenario,
    front: &[u8],
    trace: &[u8],
) -> Result<(Vec<u8>, Status), NoMemory>
    requires read { scenario_of front.now ≡ Ok scenario.now }
    requires spelled { front.now ≡ text_of scenario.now }
    requires parts { AreParts (front.now ++ trace.now) front.now trace.now }
    requires short { length (front.now ++ trace.now) ≤ LONGEST_TRACE }
    ensures { IfOk result (λ made. IsMigrateOutput made.1 (front.now ++ trace.now) made.0.items) }
{
    let first_line = line_count(front) as u32 + 1;
    match read_trace(alloc, scenario, Formats::First, trace, first_line) {
        Ok(trace) => Ok((print_trace(alloc, scenario, &trace)?, Status::Success)),
        Err(TraceRefused::At(line)) => Ok((trace_refusal(alloc, line)?, Status::Refused)),
        Err(TraceRefused::NoMemory) => Err(NoMemory),
    }
}
