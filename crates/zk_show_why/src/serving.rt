use crate::lines::Place;
use crate::run::Run;
use crate::stand::Stand;
use crate::words::Told;
use zk_line::{Arg, Event, said_of, word_of};
use zk_model_bus::{ChanOp, ChanReply, ObsOp};
use zk_scenario::{Call, Decl, Ref, Scenario};
use zk_words::Word;

/// Whether two calls name the same object.
fn is_same(one: Ref, other: Ref) -> bool {
    match (one, other) {
        (Ref::Known(one), Ref::Known(other)) => one == other,
        _ => false,
    }
}

/// Whether a call could end the wait of another one, if its player may make it, and the observer isn't masked or disabled.
pub fn serves(scenario: &Scenario, waiting: &Call, call: &Call) -> bool {
    match (waiting, call) {
        (Call::Take(sem, _), Call::Give(other)) => is_same(*sem, *other),
        (Call::Take(sem, _), Call::Reset(other)) => is_same(*sem, *other),
        (Call::Get(queue, _), Call::Put(other, _, _)) => is_same(*queue, *other),
        (Call::Get(queue, _), Call::PutFront(other, _)) => is_same(*queue, *other),
        (Call::Put(queue, _, _), Call::Get(other, _)) => is_same(*queue, *other),
        (Call::Put(queue, _, _), Call::Purge(other)) => is_same(*queue, *other),
        (Call::SubWait(sub, _), Call::Publish(chan, _, _)) => tells(scenario, *chan, *sub),
        (Call::SubWait(sub, _), Call::Notify(chan, _)) => tells(scenario, *chan, *sub),
        (Call::Poll(_, events), _) => readies(events.items(), call),
        _ => false,
    }
}

// Whether a call makes one of these events ready.
fn readies(events: &[Event], call: &Call) -> bool {
    for event in events {
        let ready = match (event, call) {
            (Event::Sem(sem), Call::Give(other)) => is_same(*sem, *other),
            (Event::Msgq(queue), Call::Put(other, _, _)) => is_same(*queue, *other),
            (Event::Msgq(queue), Call::PutFront(other, _)) => is_same(*queue, *other),
            (Event::Sig(signal), Call::Raise(other, _)) => is_same(*signal, *other),
            _ => false,
        };
        if ready {
            return true;
        }
    }
    false
}

// Whether an observer stands in the line of a channel.
fn tells(scenario: &Scenario, chan: Ref, observer: Ref) -> bool {
    let (Ref::Known(chan), Ref::Known(observer)) = (chan, observer) else {
        return false;
    };
    let Some(Decl::Chan(_, _, _, observers)) = scenario.decls().get(chan as usize) else {
        return false;
    };
    for at in observers.numbers() {
        if *at == observer {
            return true;
        }
    }
    false
}

/// Whether whoever waits in a call is told of what this call publishes: a subscriber that is masked or disabled isn't.
pub fn is_told(run: &Run<'_>, waiting: &Call, call: &Call) -> bool {
    match (waiting, call) {
        (Call::SubWait(sub, _), Call::Publish(chan, _, _)) => hears(run, *chan, *sub),
        (Call::SubWait(sub, _), Call::Notify(chan, _)) => hears(run, *chan, *sub),
        _ => true,
    }
}

/// Whether an observer is told of the messages of a channel, at the end of the run.
pub fn hears(run: &Run<'_>, chan: Ref, observer: Ref) -> bool {
    let (Ref::Known(chan), Ref::Known(observer)) = (chan, observer) else {
        return false;
    };
    !is_masked(run, chan, observer) && !is_disabled(run, observer)
}

fn is_masked(run: &Run<'_>, chan: u32, observer: u32) -> bool {
    let Some(history) = run.trace.chans.items().get(chan as usize) else {
        return false;
    };
    let mut masked = false;
    for entry in history.items() {
        match (entry.op, entry.reply) {
            (ChanOp::Mask(other, on), ChanReply::Done) if other == observer => masked = on,
            _ => {}
        }
    }
    masked
}

fn is_disabled(run: &Run<'_>, observer: u32) -> bool {
    let Some(history) = run.trace.observers.items().get(observer as usize) else {
        return false;
    };
    let mut disabled = false;
    for entry in history.items() {
        if let ObsOp::Enable(on) = entry.op {
            disabled = !on;
        }
    }
    disabled
}

/// What may be said of a wait in a call that its last step doesn't say.
#[derive(Clone, Copy)]
pub struct Wait {
    /// What it waits for.
    pub awaited: Told,
    /// That the waiting player itself, or another one, keeps it so.
    pub own: Told,
    pub kept: Told,
}

/// What may be said of a wait in this call.
pub fn wait_in(call: &Call) -> Wait {
    match word_of(call) {
        Word::CancelSync => kept(Told::AwaitsRunEnd, Told::OwnRun, Told::Runs),
        Word::Flush => kept(Told::AwaitsRun, Told::OwnSubmission, Told::HasToRun),
        Word::Drain => kept(Told::AwaitsAll, Told::OwnQueue, Told::IsItsWorker),
        _ => kept(Told::AwaitsEvent, Told::OwnRun, Told::Runs),
    }
}

fn kept(awaited: Told, own: Told, kept: Told) -> Wait {
    Wait { awaited, own, kept }
}

/// That nobody has a call for a wait in this call.
pub fn nobody_for(call: &Call) -> Told {
    match word_of(call) {
        Word::Take => Told::NobodyGives,
        Word::Get => Told::NobodyPuts,
        Word::Put => Told::NobodyGets,
        Word::SubWait => Told::NobodyPublishes,
        Word::Poll => Told::NobodyMakesReady,
        _ => Told::NobodyCalls,
    }
}

/// The object that a call names first.
pub fn first_named(call: &Call) -> Option<Ref> {
    match said_of(call).args {
        [Some(Arg::Object(object)), ..] => Some(object),
        _ => None,
    }
}

/// The first `tick` that a player has still to make: in its innermost script, and then in those around it.
pub fn tick_ahead(scenario: &Scenario, stand: &Stand) -> Option<Place> {
    let mut innermost = None;
    for place in &stand.places {
        let found = first_tick(scenario, *place);
        if found.is_some() {
            innermost = found;
        }
    }
    innermost
}

fn first_tick(scenario: &Scenario, from: Place) -> Option<Place> {
    for (next, call) in scenario.calls(from.owner).iter().enumerate() {
        if let Call::Tick(_) = call {
            if from.next <= next {
                return Some(Place {
                    owner: from.owner,
                    next,
                });
            }
        }
    }
    None
}

/// The first call that would end the wait in this call, in the script of an item or a listener.
pub fn first_in_handlers(scenario: &Scenario, waiting: &Call) -> Option<Place> {
    for script in scenario.scripts() {
        let owner = script.owner;
        if let Some(Decl::Thread(_, _, _)) = scenario.decls().get(owner as usize) {
            continue;
        }
        for (next, call) in script.calls.items().iter().enumerate() {
            if serves(scenario, waiting, call) {
                return Some(Place { owner, next });
            }
        }
    }
    None
}
