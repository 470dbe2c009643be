ghost use Rattle.std.specs.Prelude.{◌≡◌, ◌++◌, OnOk};
ghost use Rattle.zk_show_why.specs.Oops.{check_failed, failed_at, failed_in, failed_words, log_oops, oops_words, step_words, told_failure, why_words};

use crate::waits::put_object;
use zk_base::{NoMemory, put, put_decimal};
use zk_model_bus::{OopsWhy, TableOp, TableReply};
use zk_scenario::Scenario;
use zk_trace::Trace;
use zk_words::Need;
use zk_worker::{Log, Spot};

/// A check that failed.
#[derive(Clone, Copy)]
pub struct FailedCheck {
    /// There is none where the name is no object's.
    pub object: Option<u32>,
    pub need: Need,
    pub why: OopsWhy,
}

fn check_failed(op: TableOp, reply: TableReply) -> Option<FailedCheck>
    ensures { result ≡ check_failed op reply }
{
    match (op, reply) {
        (TableOp::Check(object, need), TableReply::Oops(why)) => Some(FailedCheck {
            object,
            need,
            why,
        }),
        _ => None,
    }
}

fn failed_at(trace: &Trace, spot: Spot) -> Option<FailedCheck>
    ensures { result ≡ failed_at trace.now spot }
{
    match spot {
        Spot::Table(place) => match trace.table.items().get(place as usize) {
            Some(entry) => check_failed(entry.op, entry.reply),
            None => None,
        },
        _ => None,
    }
}

/// The check that a log's last step made, if it failed.
pub fn failed_in(trace: &Trace, log: &Log) -> Option<FailedCheck>
    ensures { result ≡ failed_in trace.now log.now }
{
    let steps = log.steps.items();
    match steps.get(steps.len().saturating_sub(1)) {
        Some(spot) => failed_at(trace, *spot),
        None => None,
    }
}

fn why_words(why: OopsWhy) -> &'static [u8]
    ensures { result.now ≡ why_words why }
{
    match why {
        OopsWhy::NoObject => b" isn't there",
        OopsWhy::WrongKind => b" is of another kind",
        OopsWhy::NotGranted => b" isn't granted to it",
        OopsWhy::NotInit => b" isn't initialised",
    }
}

fn put_failed(out: &mut Vec<u8>, scenario: &Scenario, failed: FailedCheck) -> Result<(), NoMemory>
    ensures { OnOk result (out.new.items ≡ out.old.items ++ failed_words scenario.now.decls failed.object failed.why) }
{
    match failed.object {
        Some(object) => {
            put_object(out, scenario, b": ", object)?;
            put(out, why_words(failed.why))
        }
        None => put(out, b": no object has the name that it says"),
    }
}

/// Appends at which step it was.
pub fn put_step(out: &mut Vec<u8>, step: u64) -> Result<(), NoMemory>
    ensures { OnOk result (out.new.items ≡ out.old.items ++ step_words step) }
{
    put(out, b"at its step ")?;
    put_decimal(out, step)
}

fn put_failure(
    out: &mut Vec<u8>,
    scenario: &Scenario,
    step: u64,
    failed: FailedCheck,
) -> Result<(), NoMemory>
    ensures { OnOk result (out.new.items ≡ out.old.items ++ told_failure scenario.now.decls step failed) }
{
    put_step(out, step)?;
    put_failed(out, scenario, failed)
}

fn put_oops_in(
    out: &mut Vec<u8>,
    scenario: &Scenario,
    trace: &Trace,
    log: &Log,
) -> Result<(), NoMemory>
    ensures { OnOk result (out.new.items ≡ out.old.items ++ log_oops scenario.now.decls trace.now log.now) }
{
    let step = log.steps.items().len().saturating_sub(1) as u64;
    match failed_in(trace, log) {
        Some(failed) => put_failure(out, scenario, step, failed),
        None => Ok(()),
    }
}

/// Appends at which of its steps a player made a check that failed, and why, where its last step says so.
pub fn put_oops(
    out: &mut Vec<u8>,
    scenario: &Scenario,
    trace: &Trace,
    player: usize,
) -> Result<(), NoMemory>
    ensures { OnOk result (out.new.items ≡ out.old.items ++ oops_words scenario.now.decls trace.now player) }
{
    match trace.logs.items().get(player) {
        Some(log) => put_oops_in(out, scenario, trace, log),
        None => Ok(()),
    }
}
