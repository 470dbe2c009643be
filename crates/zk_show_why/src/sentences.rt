ghost use Rattle.std.specs.Prelude.{◌≡◌, ◌++◌, IfOk, OnOk};
ghost use Rattle.zk_base.specs.Fronts.{StaysInFront};
ghost use Rattle.zk_show_why.specs.Players.{players_in};
ghost use Rattle.zk_show_why.specs.Sentences.{facts, IsSentence, steps_words, Tells, TellsEach};

use crate::failed::put_oops;
use crate::oops::{tell_oops, tell_oops_place};
use crate::open::{tell_place, tell_wait};
use crate::people::player_name;
use crate::run::Run;
use crate::spent::tell_spent;
use crate::story::{Saying, Story};
use crate::waits::put_wait;
use crate::words::{END, Told, state_words};
use std::alloc::Global;
use zk_base::{NoMemory, put, put_decimal};
use zk_scenario::Scenario;
use zk_trace::Trace;
use zk_worker::PlayerState;

// Where a player stands in its scripts.
fn place_of(
    alloc: Global,
    run: &Run<'_>,
    state: PlayerState,
    player: usize,
) -> Result<Vec<u8>, NoMemory> {
    let mut story = Story::new(alloc);
    match state {
        PlayerState::Spent => {}
        PlayerState::Oops => tell_oops_place(&mut story, run, player),
        PlayerState::Done => {}
        PlayerState::Standing => tell_place(&mut story, run, player),
    }
    story.text(alloc, run.scenario)
}

// How many steps a player has made.
fn put_steps(out: &mut Vec<u8>, trace: &Trace, player: usize) -> Result<(), NoMemory>
    ensures { OnOk result (out.new.items ≡ out.old.items ++ steps_words trace.now player) }
{
    match trace.logs.items().get(player) {
        Some(log) => put_decimal(out, log.steps.items().len() as u64),
        None => Ok(()),
    }
}

// What the trace says of a player that stands so.
fn facts_of(
    alloc: Global,
    scenario: &Scenario,
    trace: &Trace,
    state: PlayerState,
    player: usize,
) -> Result<Vec<u8>, NoMemory>
    ensures { IfOk result (λ said. said.items ≡ facts scenario.now.decls trace.now state player) }
{
    let mut said = Vec::new(alloc);
    match state {
        PlayerState::Spent => put_steps(&mut said, trace, player)?,
        PlayerState::Oops => put_oops(&mut said, scenario, trace, player)?,
        PlayerState::Done => {}
        PlayerState::Standing => put_wait(&mut said, scenario, trace, player)?,
    }
    Ok(said)
}

// What is told behind that.
fn more_of(
    alloc: Global,
    run: &Run<'_>,
    state: PlayerState,
    player: usize,
) -> Result<Vec<u8>, NoMemory> {
    let mut story = Story::new(alloc);
    match state {
        PlayerState::Spent => tell_spent(&mut story, run, player),
        PlayerState::Oops => tell_oops(alloc, &mut story, run, player)?,
        PlayerState::Done => {}
        PlayerState::Standing => tell_wait(alloc, &mut story, run, player)?,
    }
    if is_astray(run, state, player) {
        story.say(Saying::of(Told::RunCheck));
    }
    story.text(alloc, run.scenario)
}

// Whether a player is in a call, and its log doesn't follow its scripts.
fn is_astray(run: &Run<'_>, state: PlayerState, player: usize) -> bool {
    match state {
        PlayerState::Spent => false,
        PlayerState::Done => false,
        PlayerState::Oops => run.stand(player).is_none(),
        PlayerState::Standing => run.stand(player).is_none(),
    }
}

/// Appends a sentence on each player that stands so, in order.
pub fn put_sentences(out: &mut Vec<u8>, run: &Run<'_>, state: PlayerState) -> Result<(), NoMemory>
    ensures told { OnOk result (TellsEach run.now.scenario.now.decls run.now.trace.now state
        (players_in state run.now.trace.now) out.old.items out.new.items) }
    ensures kept { StaysInFront out.old.items out.new.items }
{
    let players = run.players_in(*out.allocator(), state)?;
    put_each(out, run, state, &players)
}

fn put_each(
    out: &mut Vec<u8>,
    run: &Run<'_>,
    state: PlayerState,
    players: &[usize],
) -> Result<(), NoMemory>
    ensures told { OnOk result (TellsEach run.now.scenario.now.decls run.now.trace.now state
        players.now out.old.items out.new.items) }
    ensures kept { StaysInFront out.old.items out.new.items }
{
    for player in players {
        put_sentence(out, run, state, *player)?;
    }
    Ok(())
}

// The sentence on a player.
fn sentence_of(
    alloc: Global,
    run: &Run<'_>,
    state: PlayerState,
    player: usize,
) -> Result<Vec<u8>, NoMemory>
    ensures { IfOk result (λ said. IsSentence run.now.scenario.now.decls run.now.trace.now state player said.items) }
{
    let place = place_of(alloc, run, state, player)?;
    let facts = facts_of(alloc, run.scenario, run.trace, state, player)?;
    let more = more_of(alloc, run, state, player)?;
    let mut said = Vec::new(alloc);
    put(&mut said, player_name(run.scenario, player))?;
    put(&mut said, state_words(state))?;
    put(&mut said, &place)?;
    put(&mut said, &facts)?;
    put(&mut said, &more)?;
    put(&mut said, END)?;
    Ok(said)
}

fn put_sentence(
    out: &mut Vec<u8>,
    run: &Run<'_>,
    state: PlayerState,
    player: usize,
) -> Result<(), NoMemory>
    ensures told { OnOk result (Tells run.now.scenario.now.decls run.now.trace.now state player
        out.old.items out.new.items) }
    ensures kept { StaysInFront out.old.items out.new.items }
{
    let said = sentence_of(*out.allocator(), run, state, player)?;
    put(out, &said)
}
