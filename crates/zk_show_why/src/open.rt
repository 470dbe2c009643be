use crate::awaited::Keeper;
use crate::run::Run;
use crate::servers::{Server, servers_of};
use crate::serving::{Wait, first_in_handlers, first_named, nobody_for, wait_in};
use crate::stand::Stand;
use crate::story::{Saying, Story};
use crate::waits::awaited_in;
use crate::words::Told;
use std::alloc::Global;
use zk_base::NoMemory;
use zk_scenario::{Call, Decl, Ref, word_of};
use zk_trace::Ending;
use zk_words::Word;
use zk_worker::PlayerState;

// How many who could end a wait are named at most.
const MOST_NAMED: usize = 3;

/// Tells where a player stands.
pub fn tell_place(story: &mut Story, run: &Run<'_>, player: usize) {
    let Some(stand) = run.stand(player) else {
        return story.say(Saying::of(Told::NowhereLed));
    };
    let Some(place) = stand.top() else {
        // A worker whose handler is through.
        return match stand.run {
            Some(item) => story.say(Saying::of(Told::AtRunEnd).object(Ref::Known(item))),
            None => story.say(Saying::of(Told::NowhereLed)),
        };
    };
    let told = if run.waiting(player).is_some() || stand.begun < run.steps(player) {
        Told::InLine
    } else {
        Told::BeforeLine
    };
    story.say(Saying::of(told).line(place));
    tell_around(story, run, stand);
}

// In which handler or listener's script a call is.
fn tell_around(story: &mut Story, run: &Run<'_>, stand: &Stand) {
    let [around @ .., place] = stand.places.as_slice() else {
        return;
    };
    let owner = Ref::Known(place.owner);
    match run.scenario.decls().get(place.owner as usize) {
        Some(Decl::Item(_)) => story.say(Saying::of(Told::InHandler).object(owner)),
        Some(Decl::Listener(_)) => {
            story.say(Saying::of(Told::InListener).object(owner));
            if let Some(outer) = around.last() {
                story.say(Saying::of(Told::WithinLine).line(*outer));
            }
        }
        _ => {}
    }
}

/// Tells what a player waits for, where its last step doesn't say it, and who could end that.
pub fn tell_wait(
    alloc: Global,
    story: &mut Story,
    run: &Run<'_>,
    player: usize,
) -> Result<(), NoMemory> {
    let Some(call) = run.waiting(player) else {
        return Ok(());
    };
    match word_of(call) {
        Word::CancelSync => tell_kept(story, run, player, call),
        Word::Flush => tell_kept(story, run, player, call),
        Word::Drain => tell_kept(story, run, player, call),
        _ => return tell_ends(alloc, story, run, player, call),
    }
    Ok(())
}

// Whether the last step of a player says what it waits for.
fn is_said(run: &Run<'_>, player: usize) -> bool {
    match run.log(player) {
        Some(log) => awaited_in(run.trace, log).is_some(),
        None => false,
    }
}

fn tell_awaited(story: &mut Story, run: &Run<'_>, player: usize, call: &Call) {
    story.say(Saying::of(Told::SinceStep).number(run.last_step(player)));
    let mut awaited = Saying::of(wait_in(call).awaited);
    awaited.object = first_named(call);
    if let Some(place) = run.stand(player).and_then(|stand| stand.top()) {
        awaited.line = place;
    }
    story.say(awaited);
}

// What a call waits for that another player does, and who that is.
fn tell_kept(story: &mut Story, run: &Run<'_>, player: usize, call: &Call) {
    tell_awaited(story, run, player, call);
    let wait = wait_in(call);
    match run.keeper(player) {
        Some(keeper) if keeper.player == player => story.say(Saying::of(wait.own)),
        Some(keeper) => tell_keeper(story, run, wait, keeper),
        None => {}
    }
}

// What a call waits for that another one does, and who could make that.
fn tell_ends(
    alloc: Global,
    story: &mut Story,
    run: &Run<'_>,
    player: usize,
    call: &Call,
) -> Result<(), NoMemory> {
    if !is_said(run, player) {
        tell_awaited(story, run, player, call);
    }
    // Where the run isn't stuck, whoever isn't done could go on.
    if run.trace.ending != Ending::Stuck || run.keeper(player).is_some() {
        return Ok(());
    }
    let servers = servers_of(alloc, run, player, call)?;
    tell_servers(story, player, &servers);
    if servers.is_empty() {
        tell_nobody(story, run, call);
    }
    Ok(())
}

// Who keeps it waiting, and what may be hoped for of that player.
fn tell_keeper(story: &mut Story, run: &Run<'_>, wait: Wait, keeper: Keeper) {
    story.say(Saying::of(wait.kept).player(keeper.player));
    if let Some(step) = keeper.since {
        story.say(Saying::of(Told::RunsSince).number(u64::from(step)));
    }
    match run.state(keeper.player) {
        Some(PlayerState::Standing) => story.say(Saying::of(Told::InCall)),
        Some(PlayerState::Oops) => story.say(Saying::of(Told::WasEnded)),
        Some(PlayerState::Done) => story.say(Saying::of(Told::IsThrough)),
        Some(PlayerState::Spent) => story.say(Saying::of(Told::IsSpent)),
        None => {}
    }
}

// Who could end the wait, the first few.
fn tell_servers(story: &mut Story, player: usize, servers: &[Server]) {
    for (named, server) in servers.iter().enumerate() {
        if MOST_NAMED <= named {
            return story.say(Saying::of(Told::OthersServe));
        }
        let joint = if named == 0 {
            Told::First
        } else {
            Told::Further
        };
        story.say(Saying::of(joint));
        tell_server(story, player, *server);
    }
}

fn tell_server(story: &mut Story, player: usize, server: Server) {
    match server {
        Server::Player(other, place) => {
            story.say(Saying::of(Told::StillToDo).player(other).line(place));
        }
        Server::Lacks(other, place, object) => {
            story.say(Saying::of(Told::StillToDo).player(other).line(place));
            story.say(Saying::of(Told::ButLacks).object(Ref::Known(object)));
        }
        Server::Silenced(other, place, object) => {
            story.say(Saying::of(Told::StillToDo).player(other).line(place));
            story.say(Saying::of(Told::ButSilenced).object(Ref::Known(object)));
        }
        Server::Admitted(item, worker, place) => {
            let mut saying = Saying::of(Told::Behind).object(Ref::Known(item));
            saying.line = place;
            saying.player = worker;
            let told = if worker == player {
                Told::BehindItself
            } else {
                Told::Behind
            };
            story.say(saying.telling(told));
        }
        Server::Delayed(item, place) => {
            story.say(
                Saying::of(Told::Delayed)
                    .object(Ref::Known(item))
                    .line(place),
            );
        }
    }
}

fn tell_nobody(story: &mut Story, run: &Run<'_>, call: &Call) {
    let saying = match first_in_handlers(run.scenario, call) {
        Some(place) => Saying::of(Told::NobodyPlays)
            .line(place)
            .object(Ref::Known(place.owner)),
        None => Saying::of(nobody_for(call)),
    };
    story.say(saying);
}
