ghost use Rattle.std.specs.Prelude.{◌≡◌, ℕ, ◌+◌, ◌<◌, ◌≤◌, true, [], ◌∷◌, Some, IsSome, IfOk, OnErr, All, List, length};
ghost use Rattle.zk_base.specs.declared.ids.Who.{Who};
ghost use Rattle.zk_base.specs.Legal.{IsLegal};
ghost use Rattle.zk_base.specs.Limits.{most_few};
ghost use Rattle.zk_turn.specs.Passes.{IsNewPass};
ghost use Rattle.zk_msgsub.specs.declared.msg_sub.MsgSub.{MsgSub};
ghost use Rattle.zk_msgsub.specs.Fan.{are_subscribers, fan_machine, is_once_each};
ghost use Rattle.zk_msgsub.specs.FanSeen.{fan_start};
ghost use Rattle.zk_msgsub.specs.Publishers.{FanCell, AreSeatsOf, HasPassOf, IsPublisherOf, HasOpened, HasNotOpened, HasPushed, HasSent, PushesOne, members, publisher_pass, publisher_room, publisher_seats, publisher_step};
ghost use Rattle.zk_msgsub.specs.Seats.{IsSeatOf, seat_room};

use crate::fan::Fan;
use crate::fan_state::FanOp;
use crate::msg_sub::{Full, MsgSub};
use crate::seats::PubSeat;
use std::sync::Wait;
use zk_base::{Few, Msg, NoMemory};
use zk_turn::{Cell, Pass};

/// To whom a message was sent: the members of the fan's list for whom there is a subscriber, each in one of the two, in the
/// order of that list.
#[derive(Clone, Copy, PartialEq, Eq)]
pub struct Sent {
    /// Whose queue took the copy.
    pub pushed: Few,
    /// Whose queue was full.
    pub full: Few,
}

/// What sends messages to the subscribers of a fan: a pass of the fan, and a seat at each subscriber. Zephyr's publisher of a
/// channel that has message subscribers.
#[derive(Drop)]
pub struct Publisher {
    // It is away only while a call of the fan goes on.
    pub(crate) pass: Option<Pass<Fan>>,
    // By subscriber.
    pub(crate) seats: Vec<PubSeat>,
    // The number of its next step.
    pub(crate) step: u32,
}

impl Publisher {
    /// A publisher with a new pass, and a seat at each of the subscribers 0 and on. It has 20,000 sends, as far as the seats have
    /// room.
    pub fn new(pass: Pass<Fan>, seats: Vec<PubSeat>) -> Publisher
        ensures pass { publisher_pass result ≡ Some pass }
        ensures seats { publisher_seats result ≡ seats.items }
        ensures step { publisher_step result ≡ 0 }

        // It is a publisher of the fan whose pass this is, to the subscribers whose seats these are.
        ensures own { (fan : FanCell) (subs : List MsgSub) (who : Who) → IsNewPass (IsLegal fan_machine) fan_start fan who pass →
            AreSeatsOf subs seats.items → IsPublisherOf fan subs result }
    {
        Publisher {
            pass: Some(pass),
            seats,
            step: 0,
        }
    }

    /// How many sends its pass has room for: 20,000 at first.
    pub fn room(&self) -> u64
        ensures { result ≡ publisher_room self.now }
    {
        match &self.pass {
            Some(pass) => pass.room(),
            None => 0,
        }
    }

    /// Sends a copy to each subscriber that is listed now: asks the fan by a turn of its own, and then pushes to each member of
    /// that list, in its order. Zephyr's `zbus_chan_pub` to a channel's message subscribers.
    ///
    /// A subscriber that is full gets no copy, and the others get theirs. A member that has no subscriber here is passed over.
    /// After want of memory nothing was pushed and no entry added. It may wait for others at the fan.
    pub fn send<R: Wait>(
        &mut self,
        rt: &R,
        fan: &Cell<Fan>,
        subs: &[MsgSub],
        message: Msg,
    ) -> Result<Sent, NoMemory>
        requires own { IsPublisherOf fan.now subs.now self.old }
        requires room { 0 < publisher_room self.old }
        requires seats { All (λ seat. 0 < seat_room seat) (publisher_seats self.old) }
        ensures own { IsPublisherOf fan.now subs.now self.new }

        // The one entry that it made, and one push for just the members of its reply.
        ensures sent { IfOk result (λ sent. HasSent fan.now subs.now message self.old self.new sent) }
        ensures unopened { OnErr result (HasNotOpened self.old self.new) }
        ensures unchanged { OnErr result (publisher_seats self.new ≡ publisher_seats self.old) }

        // Its room, and that of each seat, falls by one at most.
        ensures room { publisher_room self.old ≤ publisher_room self.new + 1 }
        ensures rooms { (n : ℕ) → All (λ seat. n < seat_room seat) (publisher_seats self.old) →
            All (λ seat. n ≤ seat_room seat) (publisher_seats self.new) }
    {
        let listed = self.open(rt, fan)?;
        Ok(push_all(rt, &mut self.seats, subs, &listed, message))
    }

    // Asks the fan who is listed.
    fn open<R: Wait>(&mut self, rt: &R, fan: &Cell<Fan>) -> Result<Few, NoMemory>
        requires own { HasPassOf fan.now self.old }
        requires room { 0 < publisher_room self.old }
        ensures own { HasPassOf fan.now self.new }
        ensures falls { publisher_room self.old ≤ publisher_room self.new + 1 }
        ensures seats { publisher_seats self.new ≡ publisher_seats self.old }
        ensures opened { IfOk result (λ listed. HasOpened fan.now self.old self.new listed) }
        ensures once { IfOk result (λ listed. are_subscribers listed ≡ true) }
        ensures unopened { OnErr result (HasNotOpened self.old self.new) }
    {
        let Some(pass) = self.pass.take() else {
            unreachable!()
        };
        let (pass, answer) = fan.call(rt, pass, self.step, FanOp::Open);
        self.pass = Some(pass);
        match answer {
            Ok(Some((reply, _))) => {
                let Some(listed) = reply.subs() else {
                    unreachable!()
                };
                self.step += 1;
                Ok(listed)
            }
            Ok(None) => unreachable!(),
            Err(e) => Err(e),
        }
    }

    /// The pass and the seats, by subscriber.
    pub fn finish(self) -> (Pass<Fan>, Vec<PubSeat>)
        requires there { IsSome (publisher_pass self) }
        ensures pass { Some result.0 ≡ publisher_pass self }
        ensures seats { result.1.items ≡ publisher_seats self }
    {
        let Publisher {
            pass,
            seats,
            step: _,
        } = self;
        let Some(pass) = pass else { unreachable!() };
        (pass, seats)
    }
}

// One push for each of these for whom there is a subscriber, in order.
fn push_all<R: Wait>(
    rt: &R,
    seats: &mut Vec<PubSeat>,
    subs: &[MsgSub],
    listed: &Few,
    message: Msg,
) -> Sent
    requires own { AreSeatsOf subs.now seats.old.items }
    requires room { All (λ seat. 0 < seat_room seat) seats.old.items }
    requires once { is_once_each listed.now ≡ true }
    ensures own { AreSeatsOf subs.now seats.new.items }
    ensures pushed { HasPushed subs.now (members subs.now listed.now) message seats.old.items seats.new.items
        result.pushed result.full }
{
    let mut sent = Sent {
        pushed: Few::none(),
        full: Few::none(),
    };
    let numbers = listed.numbers();
    for number in numbers {
        let index = *number as usize;
        if index < subs.len() {
            push_one(
                rt,
                &subs[index],
                &mut seats[index],
                *number,
                message,
                &mut sent,
            );
        }
    }
    sent
}

// One push, and a note whether it was full.
fn push_one<R: Wait>(
    rt: &R,
    sub: &MsgSub,
    seat: &mut PubSeat,
    number: u32,
    message: Msg,
    sent: &mut Sent,
)
    requires own { IsSeatOf sub.now seat.old }
    requires room { 0 < seat_room seat.old }
    requires pushed { length sent.old.pushed < most_few }
    requires full { length sent.old.full < most_few }
    ensures own { IsSeatOf sub.now seat.new }
    ensures one { PushesOne sub.now number message seat.old seat.new sent.old sent.new }
{
    match sub.push(rt, seat, message) {
        Ok(_) => sent.pushed.push(number),
        Err(Full) => sent.full.push(number),
    }
}
