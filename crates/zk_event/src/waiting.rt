ghost use Rattle.std.specs.Prelude.{◌≡◌, ◌+◌, ◌^◌, ◌<◌, ◌≤◌, true, [], ◌∷◌};
ghost use Rattle.zk_base.specs.History.{IsAbove};
ghost use Rattle.zk_base.specs.Legal.{IsLegal};
ghost use Rattle.zk_turn.specs.Passes.{IsPassOf, pass_players, pass_who, pass_mine, pass_room, given_to};
ghost use Rattle.zk_event.specs.Event.{event_machine, new_event};
ghost use Rattle.zk_event.specs.Seen.{event_start};
ghost use Rattle.zk_event.specs.Waiting.{HasAsked, HasEnded, HasTried, HasGot, told_by, is_told, ended_by, may_end, pass_of};

use crate::{Event, EventOp, EventReply, Wanted};
use std::sync::Wait;
use zk_base::NoMemory;
use zk_turn::{Cell, Pass};

/// What one is told that asks for bits.
#[derive(Clone, Copy)]
enum Told {
    /// They are there: these.
    Bits(u16),
    /// They aren't, and it waits, at this place.
    Waits(u64),
}

/// What the answer to one says that asks for bits.
fn told_by(made: Option<(EventReply, u64)>) -> Told
    requires { is_told made ≡ true }
    ensures { result ≡ told_by made }
{
    match made {
        Some((EventReply::Bits(bits), _)) => Told::Bits(bits),
        Some((EventReply::Wait, place)) => Told::Waits(place),
        _ => unreachable!(),
    }
}

/// The bits that the end of a wait answers, if it could end.
fn ended_by(made: Option<(EventReply, u64)>) -> Option<u16>
    requires { may_end made ≡ true }
    ensures { result ≡ ended_by made }
{
    match made {
        Some((EventReply::Bits(bits), _)) => Some(bits),
        None => None,
        _ => unreachable!(),
    }
}

/// Asks for bits, by a turn of its own.
fn ask<R: Wait>(
    rt: &R,
    cell: &Cell<Event>,
    pass: Pass<Event>,
    step: u32,
    wanted: Wanted,
    reset: bool,
) -> (Pass<Event>, Result<Told, NoMemory>)
    requires own { IsPassOf (IsLegal event_machine) event_start cell.now pass }
    requires alone { pass_players pass ≡ pass_who pass ∷ [] }
    requires room { 0 < pass_room pass }
    requires later { IsAbove (pass_mine pass) (pass_who pass).number step }
    requires start { event_start (given_to cell.now) ≡ new_event }
    requires mask { 0 < wanted.mask }
    ensures own { IsPassOf (IsLegal event_machine) event_start cell.now result.0 }
    ensures players { pass_players result.0 ≡ pass_players pass }
    ensures who { pass_who result.0 ≡ pass_who pass }
    ensures asked { HasAsked (pass_who pass) step wanted reset pass result.0 result.1 }
{
    let op = EventOp::Wait(wanted.mask, wanted.all, reset, true);
    let (pass, answer) = cell.call(rt, pass, step, op);
    match answer {
        Ok(made) => (pass, Ok(told_by(made))),
        Err(e) => (pass, Err(e)),
    }
}

/// Ends the wait of a place, where it is decided, by a turn of its own. Where nothing is new it isn't, and no turn is taken. An end
/// takes no memory, so want of it doesn't come.
fn try_end<R: Wait>(
    rt: &R,
    cell: &Cell<Event>,
    pass: Pass<Event>,
    step: u32,
    place: u64,
) -> (Pass<Event>, Option<u16>)
    requires own { IsPassOf (IsLegal event_machine) event_start cell.now pass }
    requires alone { pass_players pass ≡ pass_who pass ∷ [] }
    requires room { 0 < pass_room pass }
    requires later { IsAbove (pass_mine pass) (pass_who pass).number step }
    requires start { event_start (given_to cell.now) ≡ new_event }
    ensures own { IsPassOf (IsLegal event_machine) event_start cell.now result.0 }
    ensures players { pass_players result.0 ≡ pass_players pass }
    ensures who { pass_who result.0 ≡ pass_who pass }
    ensures tried { HasTried (pass_who pass) step place pass result.0 result.1 }
{
    if !cell.has_grown(&pass) {
        return (pass, None);
    }
    let (pass, answer) = cell.call(rt, pass, step, EventOp::WaitEnd(place));
    match answer {
        Ok(made) => (pass, ended_by(made)),
        Err(_) => (pass, None),
    }
}

/// Waits for the end of the wait of a place: tries where the history has grown, and sleeps else.
fn await_end<R: Wait>(
    rt: &R,
    cell: &Cell<Event>,
    pass: Pass<Event>,
    step: u32,
    place: u64,
) -> (Pass<Event>, u16)
    requires own { IsPassOf (IsLegal event_machine) event_start cell.now pass }
    requires alone { pass_players pass ≡ pass_who pass ∷ [] }
    requires room { 0 < pass_room pass }
    requires later { IsAbove (pass_mine pass) (pass_who pass).number step }
    requires start { event_start (given_to cell.now) ≡ new_event }
    ensures own { IsPassOf (IsLegal event_machine) event_start cell.now result.0 }
    ensures players { pass_players result.0 ≡ pass_players pass }
    ensures who { pass_who result.0 ≡ pass_who pass }
    ensures ended { HasEnded (pass_who pass) step place pass result.0 result.1 }
{
    let mut pass = pass;
    for _ in rt.forever() {
        cell.await_news(rt, &pass);
        let (next, bits) = try_end(rt, cell, pass, step, place);
        pass = next;
        if let Some(bits) = bits {
            return (pass, bits);
        }
    }
    unreachable!()
}

/// Waits until a bit of the mask is there, or all of them, and answers those that were there. With a reset it takes all bits away
/// before. Zephyr's `k_event_wait` and `k_event_wait_all` with `K_FOREVER`.
///
/// It asks at the step of this number, and, where it has to wait, ends its wait at the next. The answer is what the post
/// or set left that decided it: they may be gone by now. It may wait for others, and nothing is promised of when; a post or
/// set that comes after its opening wakes it. `Err` is want of memory at the opening, and no entry was added.
pub fn wait_event<R: Wait>(
    rt: &R,
    cell: &Cell<Event>,
    pass: Pass<Event>,
    step: u32,
    mask: u16,
    all: bool,
    reset: bool,
) -> Result<(Pass<Event>, u16), Pass<Event>>
    requires own { IsPassOf (IsLegal event_machine) event_start cell.now pass }
    requires alone { pass_players pass ≡ pass_who pass ∷ [] }
    requires room { 2 ≤ pass_room pass }
    requires later { IsAbove (pass_mine pass) (pass_who pass).number step }
    requires next { step + 1 < 2 ^ 32 }
    requires start { event_start (given_to cell.now) ≡ new_event }
    requires mask { 0 < mask }

    // It is a pass of this cell for the same player.
    ensures own { IsPassOf (IsLegal event_machine) event_start cell.now (pass_of result) }
    ensures players { pass_players (pass_of result) ≡ pass_players pass }
    ensures who { pass_who (pass_of result) ≡ pass_who pass }

    // What it has seen goes on from what it had seen with entries of others and its own one or two, whose replies say the bits.
    ensures got { HasGot (pass_who pass) step (record { mask = mask; all = all }) reset pass result }
{
    let wanted = Wanted { mask, all };
    let (pass, asked) = ask(rt, cell, pass, step, wanted, reset);
    let told = match asked {
        Ok(told) => told,
        Err(_) => return Err(pass),
    };
    match told {
        Told::Bits(bits) => Ok((pass, bits)),
        Told::Waits(place) => Ok(await_end(rt, cell, pass, step + 1, place)),
    }
}
