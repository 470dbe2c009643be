use crate::leads::Leads;
use crate::lines::Place;
use crate::people::{known, worker_of};
use crate::permission::{is_user, permission_of};
use crate::run::Run;
use crate::serving::{first_named, is_told};
use crate::stand::Stand;
use crate::times::{deadline_of, due_of};
use crate::whereabouts::place_of_item;
use std::alloc::Global;
use zk_base::NoMemory;
use zk_scenario::{Call, Ref};
use zk_worker::PlayerState;

/// Whoever could end a wait.
#[derive(Clone, Copy)]
pub enum Server {
    /// A player in a call, which has this call still to make.
    Player(usize, Place),
    /// The same, but the object isn't granted to it.
    Lacks(usize, Place, u32),
    /// The same, but the observer isn't told of that channel's messages, or of none.
    Silenced(usize, Place, u32),
    /// An item that waits for its run by this worker, and has this call in its script.
    Admitted(u32, usize, Place),
    /// An item that is delayed, and has this call in its script.
    Delayed(u32, Place),
}

/// All who could end a player's wait in a call: the players in a call, then the items, each in order.
pub fn servers_of(
    alloc: Global,
    run: &Run<'_>,
    player: usize,
    waiting: &Call,
) -> Result<Vec<Server>, NoMemory> {
    let leads = Leads::of(alloc, run, waiting)?;
    let mut servers = Vec::new(alloc);
    for other in 0..run.players() {
        if let Some(server) = player_server(run, &leads, player, other, waiting) {
            servers.push(server)?;
        }
    }
    for (item, object) in run.scenario.items().iter().enumerate() {
        if let Some(server) = item_server(run, &leads, item, *object) {
            servers.push(server)?;
        }
    }
    Ok(servers)
}

// How another player could end the wait.
fn player_server(
    run: &Run<'_>,
    leads: &Leads<'_>,
    player: usize,
    other: usize,
    waiting: &Call,
) -> Option<Server> {
    if player == other || run.state(other)? != PlayerState::Standing {
        return None;
    }
    let place = first_ahead(run, leads, run.stand(other)?)?;
    let call = place.call(run.scenario)?;
    if !is_told(run, waiting, call) {
        return Some(Server::Silenced(other, place, silenced(waiting)?));
    }
    match lacking(run, other, call) {
        Some(object) => Some(Server::Lacks(other, place, object)),
        None => Some(Server::Player(other, place)),
    }
}

// The observer that a call waits with.
fn silenced(waiting: &Call) -> Option<u32> {
    match waiting {
        Call::SubWait(Ref::Known(sub), _) => Some(*sub),
        _ => None,
    }
}

// The object of a call that a player, a user, may not use.
fn lacking(run: &Run<'_>, player: usize, call: &Call) -> Option<u32> {
    let object = known(first_named(call)?)?;
    if is_user(run, player) && !permission_of(run, player, object).granted {
        return Some(object);
    }
    None
}

// How an item could end the wait.
fn item_server(run: &Run<'_>, leads: &Leads<'_>, item: usize, object: u32) -> Option<Server> {
    if !leads.has(object) {
        return None;
    }
    let start = Place {
        owner: object,
        next: 0,
    };
    let place = leads.first_from(run, start)?;
    if let Some(waiting) = place_of_item(run.trace, item).waiting {
        let worker = worker_of(run.scenario, waiting.queue);
        return Some(Server::Admitted(object, worker, place));
    }
    match due_of(run.trace, item) {
        Some(_) => Some(Server::Delayed(object, place)),
        None => None,
    }
}

// The first such call that a player has still to make: in its innermost script, and then in those around it.
fn first_ahead(run: &Run<'_>, leads: &Leads<'_>, stand: &Stand) -> Option<Place> {
    let mut innermost = None;
    for place in &stand.places {
        let found = leads.first_from(run, *place);
        if found.is_some() {
            innermost = found;
        }
    }
    innermost
}

/// The only player who could end the wait of another, if there is just one, and time wouldn't end it.
pub fn ender(alloc: Global, run: &Run<'_>, player: usize) -> Result<Option<usize>, NoMemory> {
    if deadline_of(run.trace, player).is_some() {
        return Ok(None);
    }
    if let Some(keeper) = run.keeper(player) {
        return Ok(Some(keeper.player));
    }
    let Some(call) = run.waiting(player) else {
        return Ok(None);
    };
    let servers = servers_of(alloc, run, player, call)?;
    match servers.as_slice() {
        [Server::Player(other, _)] => Ok(Some(*other)),
        [Server::Admitted(_, worker, _)] => Ok(Some(*worker)),
        _ => Ok(None),
    }
}
