ghost use Rattle.std.specs.Prelude.{◌≡◌, ◌<◌, length};
ghost use Rattle.zk_feed.specs.Feeding.{AreFed, AreReady, IsFed, IsOpen, IsReady};
ghost use Rattle.zk_feed.specs.Output.{message};

use crate::feeder::Feeder;
use crate::shared::Shared;
use std::sync::Wait;
use std::thread::{self, Threads};
use zk_base::{Gate, Msg, NoMemory};

/// The message of this number.
fn message_of(number: u32) -> Msg
    requires { number < 65536 }
    ensures { result ≡ message number }
{
    let Some(message) = Msg::new(&[(number / 256) as u8, (number % 256) as u8]) else {
        unreachable!()
    };
    message
}

/// The publisher of this number sends all its messages, and asks the gate before each. Where it finds no memory it sends no
/// more.
fn send_all<R: Wait, G: Gate>(rt: &R, shared: &Shared, gate: &G, number: usize, feeder: &mut Feeder)
    requires open { IsOpen shared.now }
    requires ready { IsReady shared.now number feeder.old }
    ensures fed { IsFed shared.now number feeder.new }
{
    for sent in 0..shared.size.messages {
        gate.pass(number as u32, u64::from(sent));
        match feeder
            .publisher
            .send(rt, &shared.fan, &shared.subs, message_of(sent))
        {
            Ok(_) => {}
            Err(NoMemory) => {
                feeder.refused = true;
                return;
            }
        }
    }
}

/// All publishers send their messages, each on a thread of its own where one can be made.
pub fn send_each<R: Threads + Wait + Sync, G: Gate + Sync>(
    rt: &R,
    shared: &Shared,
    gate: &G,
    feeders: &mut Vec<Feeder>,
)
    requires open { IsOpen shared.now }
    requires ready { AreReady shared.now shared.now.size.publishers feeders.old.items }
    ensures fed { AreFed shared.now shared.now.size.publishers feeders.new.items }
{
    let threads = feeders.len();
    let part = move |number: usize, feeder: &mut Feeder|
        requires { IsOpen shared.now × IsReady shared.now number feeder.now }
        ensures { IsFed shared.entry.now number feeder.exit.now }
    { send_all(rt, shared, gate, number, feeder) };
    thread::for_each_mut(rt, feeders.as_mut_slice(), threads, &part);
}
