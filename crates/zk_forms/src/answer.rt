ghost use Rattle.std.specs.Prelude.{◌≡◌, ◌≤◌, IfOk, Ok};
ghost use Rattle.zk_scenario.specs.Grammar.{scenario_of};
ghost use Rattle.zk_scenario.specs.Spelling.{text_of};
ghost use Rattle.zk_scenario.specs.Valid.{IsValid};
ghost use Rattle.zk_trace.specs.Form.{IsInForm};
ghost use Rattle.zk_trace.specs.Lawful.{IsLawful};
ghost use Rattle.zk_world.specs.Over.{IsOver};
ghost use Rattle.zk_replay.specs.Replay.{IsReplay};
ghost use Rattle.zk_forms.specs.Refusal.{refusal_text};
ghost use Rattle.zk_forms.specs.Answer.{IsPrinted, IsOutput, status_of};

use std::alloc::Global;
use std::sync::Wait;
use std::thread::Threads;
use zk_base::{Gate, NoMemory, Status, put, put_decimal};
use zk_cores::play;
use zk_model_bus::{keeps_channel_laws, keeps_observer_laws, keeps_table_laws};
use zk_model_wait::{keeps_clock_laws, keeps_msgq_laws, keeps_sem_laws, keeps_signal_laws};
use zk_model_work::keeps_laws;
use zk_replay::replay;
use zk_scenario::{Scenario, ScenarioRefused, Why, read_scenario};
use zk_trace::{Ending, Trace, put_trace};

/// The whole output of `replay` for this input, and the status that goes with it. The input's own memory holds the output.
pub fn output_of(alloc: Global, input: Vec<u8>) -> Result<(Vec<u8>, Status), NoMemory>
    ensures { IfOk result (λ made. IsOutput IsReplay made.1 input.items made.0.items) }
{
    match read_scenario(alloc, &input) {
        Ok(scenario) => run(alloc, input, &scenario),
        Err(ScenarioRefused::At(line, why)) => Ok((refusal(alloc, line, why)?, Status::Refused)),
        Err(ScenarioRefused::NoMemory) => Err(NoMemory),
    }
}

/// The whole output of `run` for this input on so many cores, and the status that goes with it.
pub fn cores_output<R: Threads + Wait + Sync, G: Gate + Sync>(
    rt: &R,
    alloc: Global,
    input: Vec<u8>,
    cores: u32,
    gate: &G,
) -> Result<(Vec<u8>, Status), NoMemory>
    requires cores { 1 ≤ cores }
    ensures output { IfOk result (λ made. IsOutput IsLawful made.1 input.items made.0.items) }
{
    match read_scenario(alloc, &input) {
        Ok(scenario) => run_on_cores(rt, alloc, input, &scenario, cores, gate),
        Err(ScenarioRefused::At(line, why)) => Ok((refusal(alloc, line, why)?, Status::Refused)),
        Err(ScenarioRefused::NoMemory) => Err(NoMemory),
    }
}

/// The round robin run of the scenario behind its text.
fn run(alloc: Global, text: Vec<u8>, scenario: &Scenario) -> Result<(Vec<u8>, Status), NoMemory>
    requires read { scenario_of text.items ≡ Ok scenario.now }
    requires spelled { text.items ≡ text_of scenario.now }
    ensures output { IfOk result (λ made. IsOutput IsReplay made.1 text.items made.0.items) }
{
    let trace = replay(alloc, scenario)?;
    print_run(text, scenario, &trace)
}

/// A run of the scenario on so many cores behind its text.
fn run_on_cores<R: Threads + Wait + Sync, G: Gate + Sync>(
    rt: &R,
    alloc: Global,
    text: Vec<u8>,
    scenario: &Scenario,
    cores: u32,
    gate: &G,
) -> Result<(Vec<u8>, Status), NoMemory>
    requires read { scenario_of text.items ≡ Ok scenario.now }
    requires spelled { text.items ≡ text_of scenario.now }
    requires cores { 1 ≤ cores }
    ensures output { IfOk result (λ made. IsOutput IsLawful made.1 text.items made.0.items) }
{
    let trace = play(rt, alloc, scenario, cores, gate)?;
    print_run(text, scenario, &trace)
}

/// A lawful trace of the scenario behind its text.
fn print_run(
    text: Vec<u8>,
    scenario: &Scenario,
    trace: &Trace,
) -> Result<(Vec<u8>, Status), NoMemory>
    requires read { scenario_of text.items ≡ Ok scenario.now }
    requires spelled { text.items ≡ text_of scenario.now }
    requires valid { IsValid scenario.now }
    requires lawful { IsLawful scenario.now trace.now }
    requires over { IsOver scenario.now trace.now }
    requires form { IsInForm scenario.now trace.now }
    ensures status { IfOk result (λ made. made.1 ≡ status_of trace.now.ending) }
    ensures prints { IfOk result (λ made. IsPrinted scenario.now trace.now text.items made.0.items) }
{
    keeps_laws();
    keeps_clock_laws();
    keeps_table_laws();
    keeps_sem_laws();
    keeps_msgq_laws();
    keeps_signal_laws();
    keeps_channel_laws();
    keeps_observer_laws();
    let mut output = text;
    put_trace(&mut output, scenario, trace)?;
    Ok((output, status_of(trace.ending)))
}

/// The status of a run with this ending.
pub fn status_of(ending: Ending) -> Status
    ensures { result ≡ status_of ending }
{
    match ending {
        Ending::Ended => Status::Success,
        Ending::Stuck => Status::Stuck,
        Ending::Spent => Status::Spent,
    }
}

/// The line of a refusal.
pub fn refusal(alloc: Global, line: u32, why: Why) -> Result<Vec<u8>, NoMemory>
    ensures { IfOk result (λ text. text.items ≡ refusal_text line why) }
{
    let mut text = Vec::new(alloc);
    put(&mut text, b"refused ")?;
    put_decimal(&mut text, u64::from(line))?;
    put(&mut text, b" ")?;
    put(&mut text, why.word().as_bytes())?;
    put(&mut text, b"\n")?;
    Ok(text)
}
