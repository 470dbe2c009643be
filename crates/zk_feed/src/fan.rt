ghost use Rattle.std.specs.Prelude.{◌≡◌, IfOk};
ghost use Rattle.zk_base.specs.Legal.{IsLegal};
ghost use Rattle.zk_turn.specs.Passes.{AreNewPasses, given_to, players_in};
ghost use Rattle.zk_msgsub.specs.Fan.{fan_machine, new_fan};
ghost use Rattle.zk_msgsub.specs.FanSeen.{fan_start};
ghost use Rattle.zk_msgsub.specs.Notes.{upto};
ghost use Rattle.zk_feed.specs.Feeding.{IsInRange, players_upto};

use crate::size::FeedSize;
use std::alloc::Global;
use zk_base::{Few, NoMemory, Who, push_within};
use zk_msgsub::Fan;
use zk_turn::{Cell, Pass};

/// The numbers of all subscribers.
fn all_subscribers(size: FeedSize) -> Few
    requires { IsInRange size }
    ensures { result ≡ upto size.subscribers }
{
    let mut listed = Few::none();
    for number in 0..size.subscribers {
        listed.push(number);
    }
    listed
}

/// The publishers as players: each has its number.
fn players_of(alloc: Global, size: FeedSize) -> Result<Vec<Who>, NoMemory>
    ensures { IfOk result (λ players. players.items ≡ players_upto size.publishers) }
{
    let mut players = Vec::with_capacity(alloc, size.publishers as usize)?;
    for number in 0..size.publishers {
        push_within(&mut players, Who { number, prio: 0 });
    }
    Ok(players)
}

/// A fan that lists all subscribers, and a pass for each publisher.
pub fn fan_of(alloc: Global, size: FeedSize) -> Result<(Cell<Fan>, Vec<Pass<Fan>>), NoMemory>
    requires { IsInRange size }
    ensures start { IfOk result (λ made. fan_start (given_to made.0) ≡ new_fan (upto size.subscribers)) }
    ensures players { IfOk result (λ made. players_in made.0 ≡ players_upto size.publishers) }
    ensures passes { IfOk result (λ made. AreNewPasses (IsLegal fan_machine) fan_start made.0 (players_upto size.publishers)
        made.1.items) }
{
    let fan = Fan::new(alloc, all_subscribers(size));
    let players = players_of(alloc, size)?;
    Cell::new(alloc, fan, &players)
}
