ghost use Rattle.std.specs.Prelude.{◌≡◌, ◌+◌, ◌^◌, ◌<◌, ◌≤◌, ◌++◌, length, IfOk, Ok, OnOk};
ghost use Rattle.zk_scenario.specs.Grammar.{scenario_of};
ghost use Rattle.zk_scenario.specs.Spelling.{text_of};
ghost use Rattle.zk_trace.specs.Parting.{AreParts};
ghost use Rattle.zk_forms.specs.CheckAnswer.{IsCheckOutput, Says, fail_word, lawful_text, unlawful_text, trace_refused};
ghost use Rattle.zk_forms.specs.declared.form.TheConstants.{LONGEST_TRACE};

use crate::answer::refusal;
use crate::form::LONGEST_TRACE;
use std::alloc::Global;
use zk_base::{NoMemory, Status, put, put_decimal};
use zk_check::{Checked, Fail, check};
use zk_scenario::{Scenario, ScenarioRefused, Why, read_scenario};
use zk_trace::{Formats, TraceRefused, line_count, read_trace, split_text};

/// The whole output of `check` for this input, and the status that goes with it.
pub fn check_output(alloc: Global, input: Vec<u8>) -> Result<(Vec<u8>, Status), NoMemory>
    ensures { IfOk result (λ made. IsCheckOutput made.1 input.items made.0.items) }
{
    if LONGEST_TRACE < input.len() {
        return Ok((refusal(alloc, 0, Why::Length)?, Status::Refused));
    }
    let (front, trace) = split_text(&input);
    match read_scenario(alloc, front) {
        Ok(scenario) => checked(alloc, &scenario, front, trace),
        Err(ScenarioRefused::At(line, why)) => Ok((refusal(alloc, line, why)?, Status::Refused)),
        Err(ScenarioRefused::NoMemory) => Err(NoMemory),
    }
}

/// The output for a scenario, its text, and the trace part behind that.
fn checked(
    alloc: Global,
    scenario: &Scenario,
    front: &[u8],
    trace: &[u8],
) -> Result<(Vec<u8>, Status), NoMemory>
    requires read { scenario_of front.now ≡ Ok scenario.now }
    requires spelled { front.now ≡ text_of scenario.now }
    requires parts { AreParts (front.now ++ trace.now) front.now trace.now }
    requires short { length (front.now ++ trace.now) ≤ LONGEST_TRACE }
    ensures { IfOk result (λ made. IsCheckOutput made.1 (front.now ++ trace.now) made.0.items) }
{
    let first_line = line_count(front) as u32 + 1;
    match read_trace(alloc, scenario, Formats::Both, trace, first_line) {
        Ok(trace) => said(alloc, check(alloc, scenario, &trace)?),
        Err(TraceRefused::At(line)) => Ok((trace_refusal(alloc, line)?, Status::Refused)),
        Err(TraceRefused::NoMemory) => Err(NoMemory),
    }
}

/// What a check says.
fn said(alloc: Global, checked: Checked) -> Result<(Vec<u8>, Status), NoMemory>
    ensures { IfOk result (λ made. Says checked made.1 made.0.items) }
{
    match checked {
        Checked::Lawful => Ok((lawful(alloc)?, Status::Success)),
        Checked::Not(line, fail) => Ok((unlawful(alloc, line, fail)?, Status::Unlawful)),
    }
}

/// The line of a lawful trace.
fn lawful(alloc: Global) -> Result<Vec<u8>, NoMemory>
    ensures { IfOk result (λ text. text.items ≡ lawful_text) }
{
    let mut text = Vec::new(alloc);
    put(&mut text, b"lawful\n")?;
    Ok(text)
}

/// The word of a reason.
pub fn fail_word(fail: Fail) -> &'static [u8]
    ensures { result.now ≡ fail_word fail }
{
    match fail {
        Fail::Place => b"place",
        Fail::History => b"history",
        Fail::Log => b"log",
        Fail::Look => b"look",
        Fail::Ending => b"ending",
    }
}

/// Appends the line of a trace that isn't lawful.
pub fn put_unlawful(out: &mut Vec<u8>, line: u32, fail: Fail) -> Result<(), NoMemory>
    ensures { OnOk result (out.new.items ≡ out.old.items ++ unlawful_text line fail) }
{
    put(out, b"unlawful ")?;
    put_decimal(out, u64::from(line))?;
    put(out, b" ")?;
    put(out, fail_word(fail))?;
    put(out, b"\n")
}

/// That line.
fn unlawful(alloc: Global, line: u32, fail: Fail) -> Result<Vec<u8>, NoMemory>
    ensures { IfOk result (λ text. text.items ≡ unlawful_text line fail) }
{
    let mut text = Vec::new(alloc);
    put_unlawful(&mut text, line, fail)?;
    Ok(text)
}

/// The line with which a trace part is refused, at the line of this number.
pub fn trace_refusal(alloc: Global, line: u32) -> Result<Vec<u8>, NoMemory>
    ensures { IfOk result (λ text. text.items ≡ trace_refused line) }
{
    let mut text = Vec::new(alloc);
    put(&mut text, b"refused ")?;
    put_decimal(&mut text, u64::from(line))?;
    put(&mut text, b" trace\n")?;
    Ok(text)
}
