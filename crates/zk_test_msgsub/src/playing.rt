ghost use Rattle.std.specs.Prelude.{◌≡◌, ◌<◌, [], ◌∷◌, All, IfOk, length};
ghost use Rattle.zk_base.specs.Legal.{IsLegal};
ghost use Rattle.zk_turn.specs.Passes.{IsPassOf, pass_players};
ghost use Rattle.zk_msgsub.specs.Fan.{fan_machine};
ghost use Rattle.zk_msgsub.specs.FanSeen.{fan_start};
ghost use Rattle.zk_test_msgsub.specs.Parts.{AreFreshSeats, AreTakers, HasSeatsOf, IsDone, IsFresh, IsOpen, IsReady};

use crate::parts::{Part, ROUNDS, Shared, play_each};
use crate::seats::two_seats;
use std::alloc::Global;
use std::sync::Wait;
use std::thread::Threads;
use zk_base::{Entry, Few, NoMemory, Service, Who};
use zk_msgsub::{Fan, FanOp, FanReply, MsgSub, Note, PubSeat, Publisher, Sent, SubSeat};
use zk_turn::{Cell, Pass, last_pass};

const FIRST: Who = Who { number: 0, prio: 0 };

const SECOND: Who = Who { number: 1, prio: 0 };

const THIRD: Who = Who { number: 2, prio: 0 };

const FOURTH: Who = Who { number: 3, prio: 0 };

/// What two parts share, both parts, and what takes at each subscriber.
#[derive(Drop)]
struct Opened {
    shared: Shared,
    parts: Vec<Part>,
    first: SubSeat,
    second: SubSeat,
}

/// What two parts did: the fan's history, whom each send reached, by part, and what each subscriber got.
#[derive(Drop)]
pub struct Outcome {
    pub history: Vec<Entry<FanOp, FanReply>>,
    pub sent: (Vec<Sent>, Vec<Sent>),
    pub notes: (Vec<Note>, Vec<Note>),
}

/// Two publishers on threads, with the numbers 0 and 1, send to two subscribers that have room for so many notes. Meanwhile the
/// player 2, on the thread of publisher 0, takes subscriber 0 off the list and puts it back, and player 3, on the other thread,
/// subscriber 1.
pub fn play_two<R: Threads + Wait + Sync>(
    rt: &R,
    alloc: Global,
    capacity: u32,
) -> Result<Outcome, NoMemory>
    requires { 0 < capacity }
{
    let Opened {
        shared,
        mut parts,
        first,
        second,
    } = open_two(alloc, capacity)?;
    play_each(rt, &shared, &mut parts);
    close_two(rt, alloc, shared, parts, first, second)
}

fn both() -> Few
    ensures { result ≡ 0 ∷ 1 ∷ [] }
{
    let mut listed = Few::none();
    listed.push(0);
    listed.push(1);
    listed
}

fn open_two(alloc: Global, capacity: u32) -> Result<Opened, NoMemory>
    requires { 0 < capacity }
    ensures open { IfOk result (λ opened. IsOpen opened.shared) }
    ensures ready { IfOk result (λ opened. All (IsReady opened.shared) opened.parts.items) }
    ensures two { IfOk result (λ opened. length opened.parts.items ≡ 2) }
    ensures takers { IfOk result (λ opened. AreTakers opened.shared opened.first opened.second) }
{
    let (first, seats, first_taker) = MsgSub::new(alloc, capacity, 2, ROUNDS)?;
    let (a, b) = two_seats(&first, seats);
    let (second, seats, second_taker) = MsgSub::new(alloc, capacity, 2, ROUNDS)?;
    let (c, d) = two_seats(&second, seats);
    let service = Fan::new(alloc, both());
    let (fan, mut passes) = Cell::new(alloc, service, &[FIRST, SECOND, THIRD, FOURTH])?;
    let fourth = last_pass(&fan, FOURTH, &mut passes);
    let third = last_pass(&fan, THIRD, &mut passes);
    let other = last_pass(&fan, SECOND, &mut passes);
    let one = last_pass(&fan, FIRST, &mut passes);
    let seats = vec![in alloc; a, c]?;
    let others = vec![in alloc; b, d]?;
    let shared = Shared {
        fan,
        subs: vec![in alloc; first, second]?,
    };
    let one = part_of(alloc, &shared, one, third, seats, 0);
    let other = part_of(alloc, &shared, other, fourth, others, 1);
    Ok(Opened {
        shared,
        parts: vec![in alloc; one, other]?,
        first: first_taker,
        second: second_taker,
    })
}

fn part_of(
    alloc: Global,
    shared: &Shared,
    pass: Pass<Fan>,
    changer: Pass<Fan>,
    seats: Vec<PubSeat>,
    subscriber: u32,
) -> Part
    requires pass { IsFresh shared.now.fan pass }
    requires changer { IsFresh shared.now.fan changer }
    requires seats { AreFreshSeats shared.now seats.items }
    requires range { subscriber < 8 }
    ensures { IsReady shared.now result }
{
    Part {
        publisher: Publisher::new(pass, seats),
        changer: Some(changer),
        subscriber,
        sent: Vec::new(alloc),
    }
}

fn close_two<R: Wait>(
    rt: &R,
    alloc: Global,
    shared: Shared,
    mut parts: Vec<Part>,
    first_taker: SubSeat,
    second_taker: SubSeat,
) -> Result<Outcome, NoMemory>
    requires open { IsOpen shared }
    requires done { All (IsDone shared) parts.items }
    requires two { length parts.items ≡ 2 }
    requires takers { AreTakers shared first_taker second_taker }
{
    let Some(other) = parts.pop() else {
        unreachable!()
    };
    let Some(one) = parts.pop() else {
        unreachable!()
    };
    let (mut pass, a, c, sent) = take_apart(&shared, one);
    let (all, b, d, others) = take_apart(&shared, other);
    shared.fan.join(&mut pass, all);
    let Shared { fan, mut subs } = shared;
    let Some(second) = subs.pop() else {
        unreachable!()
    };
    let Some(first) = subs.pop() else {
        unreachable!()
    };
    let first = first.close(rt, alloc, vec![in alloc; a, b]?, first_taker)?;
    let second = second.close(rt, alloc, vec![in alloc; c, d]?, second_taker)?;
    Ok(Outcome {
        history: fan.close(pass).into_history(),
        sent: (sent, others),
        notes: (first, second),
    })
}

/// A pass for both players of a part, its publisher's seats at the two subscribers, and whom its sends reached.
fn take_apart(shared: &Shared, part: Part) -> (Pass<Fan>, PubSeat, PubSeat, Vec<Sent>)
    requires open { IsOpen shared.now }
    requires done { IsDone shared.now part }
    ensures own { IsPassOf (IsLegal fan_machine) fan_start shared.now.fan result.0 }
    ensures players { length (pass_players result.0) ≡ 2 }
    ensures seats { HasSeatsOf shared.now result.1 result.2 }
{
    let Part {
        publisher,
        changer,
        subscriber: _,
        sent,
    } = part;
    let (mut pass, mut seats) = publisher.finish();
    let Some(changer) = changer else {
        unreachable!()
    };
    shared.fan.join(&mut pass, changer);
    let Some(second) = seats.pop() else {
        unreachable!()
    };
    let Some(first) = seats.pop() else {
        unreachable!()
    };
    (pass, first, second, sent)
}
