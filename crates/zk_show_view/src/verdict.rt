ghost use Rattle.std.specs.Prelude.{◌≡◌, ◌++◌, [], IfOk, OnOk};
ghost use Rattle.zk_trace.specs.Form.{IsInForm};
ghost use Rattle.zk_trace.specs.Lawful.{IsLawful};
ghost use Rattle.zk_show_why.specs.Sentences.{TellsWhy};
ghost use Rattle.zk_show_view.specs.Shown.{TellsEnd};
ghost use Rattle.zk_show_view.specs.Verdict.{fail_sentence, verdict_text};

use std::alloc::Global;
use zk_base::{NoMemory, Status, put};
use zk_check::{Checked, Fail, check};
use zk_forms::put_unlawful;
use zk_scenario::Scenario;
use zk_show_why::put_why;
use zk_trace::Trace;

/// Why a trace isn't lawful, in a sentence.
fn fail_sentence(fail: Fail) -> &'static [u8]
    ensures { result.now ≡ fail_sentence fail }
{
    match fail {
        Fail::Place => {
            b"The steps of that player aren't 0, 1, 2 and on, each once, or don't rise there.\n"
        }
        Fail::History => b"That isn't what the service answers behind the entries before it.\n",
        Fail::Log =>
            b"That isn't what the player does or is answered by its script, or how it ends.\n",
        Fail::Look =>
            b"That isn't what there was to see then, or is older than what its player has seen.\n",
        Fail::Ending => b"The run doesn't end so.\n",
    }
}

/// What is told of a trace that isn't lawful.
fn verdict(alloc: Global, line: u32, fail: Fail) -> Result<Vec<u8>, NoMemory>
    ensures { IfOk result (λ told. told.items ≡ verdict_text line fail) }
{
    let mut told = Vec::new(alloc);
    put_unlawful(&mut told, line, fail)?;
    put(&mut told, fail_sentence(fail))?;
    Ok(told)
}

/// Why a run ended so, in sentences.
pub fn why_of_run(alloc: Global, scenario: &Scenario, trace: &Trace) -> Result<Vec<u8>, NoMemory>
    ensures { IfOk result (λ end. TellsWhy scenario.now.decls trace.now [] end.items) }
{
    let mut end = Vec::new(alloc);
    put_why(&mut end, scenario, trace)?;
    Ok(end)
}

/// What is told of the end of a run, and the status that goes with it.
pub fn end_of_run(
    alloc: Global,
    scenario: &Scenario,
    trace: &Trace,
) -> Result<(Vec<u8>, Status), NoMemory>
    requires form { IsInForm scenario.now trace.now }
    ensures { IfOk result (λ made. TellsEnd made.1 scenario.now trace.now made.0.items) }
{
    match check(alloc, scenario, trace)? {
        Checked::Lawful => Ok((why_of_run(alloc, scenario, trace)?, Status::Success)),
        Checked::Not(line, fail) => Ok((verdict(alloc, line, fail)?, Status::Unlawful)),
    }
}
