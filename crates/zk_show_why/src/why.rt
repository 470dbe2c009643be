ghost use Rattle.std.specs.Prelude.{◌≡◌, IfOk, OnOk};
ghost use Rattle.zk_base.specs.Fronts.{StaysInFront};
ghost use Rattle.zk_show_why.specs.Sentences.{IsStuckText, TellsStuck, TellsWhy};

use crate::circle::tell_circles;
use crate::leavings::put_leavings;
use crate::run::Run;
use crate::sentences::put_sentences;
use crate::still::tell_ticks;
use crate::story::Story;
use crate::times::time_line;
use crate::words::ending_words;
use std::alloc::Global;
use zk_base::{NoMemory, put};
use zk_scenario::Scenario;
use zk_trace::{Ending, Trace};
use zk_worker::PlayerState;

/// Appends how a run ended and why, in sentences, one a line: of each player that has made all its steps, that stands, or that
/// an oops has ended; of what a run that has ended leaves behind; of players that wait for each other; and of time, where it
/// stands still.
pub fn put_why(out: &mut Vec<u8>, scenario: &Scenario, trace: &Trace) -> Result<(), NoMemory>
    ensures told { OnOk result (TellsWhy scenario.now.decls trace.now out.old.items out.new.items) }
    ensures kept { StaysInFront out.old.items out.new.items }
{
    let run = Run::of(*out.allocator(), scenario, trace)?;
    put_told(out, &run)
}

fn put_told(out: &mut Vec<u8>, run: &Run<'_>) -> Result<(), NoMemory>
    ensures told { OnOk result (TellsWhy run.now.scenario.now.decls run.now.trace.now out.old.items out.new.items) }
    ensures kept { StaysInFront out.old.items out.new.items }
{
    put(out, ending_words(run.trace.ending))?;
    put_sentences(out, run, PlayerState::Spent)?;
    put_sentences(out, run, PlayerState::Standing)?;
    put_sentences(out, run, PlayerState::Oops)?;
    match run.trace.ending {
        Ending::Ended => put_leavings(out, run),
        Ending::Stuck => put_stuck(out, run),
        Ending::Spent => Ok(()),
    }
}

// Of a run that is stuck: who waits for each other, the time with what it would end, and whether a `tick` is left for that.
fn stuck_text(alloc: Global, run: &Run<'_>) -> Result<Vec<u8>, NoMemory>
    ensures { IfOk result (λ said. IsStuckText run.now.scenario.now.decls run.now.trace.now said.items) }
{
    let open = run.players_in(alloc, PlayerState::Standing)?;
    let circles = circles_told(alloc, run, &open)?;
    let time = time_line(alloc, run.scenario, run.trace, &open)?;
    let ticks = ticks_told(alloc, run, &open, !time.is_empty())?;
    let mut said = Vec::new(alloc);
    put(&mut said, &circles)?;
    put(&mut said, &time)?;
    put(&mut said, &ticks)?;
    Ok(said)
}

fn put_stuck(out: &mut Vec<u8>, run: &Run<'_>) -> Result<(), NoMemory>
    ensures told { OnOk result (TellsStuck run.now.scenario.now.decls run.now.trace.now out.old.items out.new.items) }
    ensures kept { StaysInFront out.old.items out.new.items }
{
    let said = stuck_text(*out.allocator(), run)?;
    put(out, &said)
}

// Who waits for each other.
fn circles_told(alloc: Global, run: &Run<'_>, open: &[usize]) -> Result<Vec<u8>, NoMemory> {
    let mut story = Story::new(alloc);
    tell_circles(alloc, &mut story, run, open)?;
    story.text(alloc, run.scenario)
}

// Whether a `tick` is left, where time would end something.
fn ticks_told(
    alloc: Global,
    run: &Run<'_>,
    open: &[usize],
    would_end: bool,
) -> Result<Vec<u8>, NoMemory> {
    let mut story = Story::new(alloc);
    if would_end {
        tell_ticks(&mut story, run, open);
    }
    story.text(alloc, run.scenario)
}
