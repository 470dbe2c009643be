ghost use Rattle.std.specs.Prelude.{◌≡◌, ◌<◌, ◌+◌, All, length};
ghost use Rattle.zk_test_msgsub.specs.Parts.{IsChanger, IsDone, IsReady};

use crate::seats::message_of;
use std::sync::Wait;
use std::thread::{self, Threads};
use zk_base::Few;
use zk_msgsub::{Fan, FanOp, MsgSub, Publisher, Sent};
use zk_turn::{Cell, Pass};

/// How many messages each part sends.
pub const ROUNDS: u32 = 100;

/// What all parts use: the fan, and its subscribers by number.
#[derive(Drop)]
pub struct Shared {
    pub fan: Cell<Fan>,
    pub subs: Vec<MsgSub>,
}

/// A publisher, the pass of a player who takes a subscriber off the list and puts it back between the sends, and whom each send
/// reached.
#[derive(Drop)]
pub struct Part {
    pub publisher: Publisher,
    pub changer: Option<Pass<Fan>>,
    pub subscriber: u32,
    pub sent: Vec<Sent>,
}

/// Plays each part in a thread of its own. Where fewer threads can be made some play one after the other.
pub fn play_each<R: Threads + Wait + Sync>(rt: &R, shared: &Shared, parts: &mut Vec<Part>)
    requires ready { All (IsReady shared.now) parts.old.items }
    ensures done { All (IsDone shared.now) parts.new.items }
    ensures count { length parts.new.items ≡ length parts.old.items }
{
    let threads = parts.len();
    if threads == 0 {
        return;
    }
    let play = move |_place: usize, part: &mut Part|
        requires { IsReady shared.now part.now }
        ensures { IsDone shared.entry.now part.exit.now }
    { play_part(rt, shared, part) };
    thread::for_each_mut(rt, parts.as_mut_slice(), threads, &play);
}

/// Sends all messages. Behind each it takes its subscriber off the list, or puts it back.
fn play_part<R: Wait>(rt: &R, shared: &Shared, part: &mut Part)
    requires ready { IsReady shared.now part.old }
    ensures done { IsDone shared.now part.new }
{
    let Some(mut pass) = part.changer.take() else {
        unreachable!()
    };
    for round in 0..ROUNDS {
        let message = message_of(round as u8);
        let sent = match part.publisher.send(rt, &shared.fan, &shared.subs, message) {
            Ok(sent) => sent,
            Err(_) => nobody(),
        };
        let _ = part.sent.push(sent);
        pass = change(rt, &shared.fan, pass, round, part.subscriber);
    }
    part.changer = Some(pass);
}

fn nobody() -> Sent {
    Sent {
        pushed: Few::none(),
        full: Few::none(),
    }
}

/// Takes the subscriber off the list in an even round, and puts it back in an odd one.
fn change<R: Wait>(
    rt: &R,
    fan: &Cell<Fan>,
    pass: Pass<Fan>,
    round: u32,
    subscriber: u32,
) -> Pass<Fan>
    requires pass { IsChanger fan.now round pass }
    requires few { round < 1000 }
    requires range { subscriber < 8 }
    ensures { IsChanger fan.now (round + 1) result }
{
    let op = if round % 2 == 0 {
        FanOp::Remove(subscriber)
    } else {
        FanOp::Add(subscriber)
    };
    let (pass, _) = fan.call(rt, pass, round, op);
    pass
}
