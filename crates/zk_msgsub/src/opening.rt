ghost use Rattle.std.specs.Prelude.{◌≡◌, ◌<◌, ◌≤◌, [], length, map, All, IfOk, vec_capacity};
ghost use Rattle.crossbeam_queue.specs.Passes.{view, IsPassOf};
ghost use Rattle.zk_msgsub.specs.Notes.{upto};
ghost use Rattle.zk_msgsub.specs.Seats.{IsNewSeat, IsTakerOf, seat_publisher, sub_capacity, sub_each, sub_empties, sub_publishers, sub_taken};
ghost use Rattle.zk_msgsub.specs.Views.{opened, undealt};

use crate::msg_sub::MsgSub;
use crate::note::Note;
use crate::rule::{AddPublisher, AddSend, Deal, DoubleSends, SubRule};
use crate::seats::{PubSeat, SubSeat};
use crate::views::View;
use crossbeam_queue::{Pass, RuledArrayQueue};
use std::alloc::Global;
use zk_base::{NoMemory, push_within};

type Queue = RuledArrayQueue<Note, View, SubRule>;

// So many messages for each publisher, by halves: as many steps as the number has bits.
fn set_each(queue: &Queue, pass: &mut Pass<Note, View>, each: u32)
    requires own { IsPassOf queue.now pass.old }
    requires new { view pass.old ≡ opened }
    ensures own { IsPassOf queue.now pass.new }
    ensures set { view pass.new ≡ undealt 0 each }
{
    if each == 0 {
        return;
    }
    set_each(queue, pass, each / 2);
    queue.another::<DoubleSends>(pass);
    if each % 2 == 1 {
        queue.another::<AddSend>(pass);
    }
}

// So many publishers.
fn set_publishers(queue: &Queue, pass: &mut Pass<Note, View>, publishers: u32)
    requires own { IsPassOf queue.now pass.old }
    requires new { (view pass.old).publishers ≡ 0 }
    requires undealt { view pass.old ≡ undealt 0 (view pass.old).each }
    ensures own { IsPassOf queue.now pass.new }
    ensures set { view pass.new ≡ undealt publishers (view pass.old).each }
{
    for made in 0..publishers {
        let _ = made;
        queue.another::<AddPublisher>(pass);
    }
}

impl MsgSub {
    /// An empty queue for so many notes, a seat for each of its publishers, in the order of their numbers, with `each` pushes,
    /// and the seat that takes. `zk` makes them with a capacity of 1 to 8,000, 1 to 8 publishers and 1 to 1,000,000 pushes each.
    pub fn new(
        alloc: Global,
        capacity: u32,
        publishers: u32,
        each: u32,
    ) -> Result<(MsgSub, Vec<PubSeat>, SubSeat), NoMemory>
        requires capacity { 0 < capacity }
        ensures capacity { IfOk result (λ made. sub_capacity made.0 ≡ capacity) }
        ensures publishers { IfOk result (λ made. sub_publishers made.0 ≡ publishers) }
        ensures each { IfOk result (λ made. sub_each made.0 ≡ each) }

        // Publisher k has seat k. Nobody has pushed or taken anything.
        ensures seats { IfOk result (λ made. All (IsNewSeat made.0) made.1.items) }
        ensures order { IfOk result (λ made. map seat_publisher made.1.items ≡ upto publishers) }
        ensures taker { IfOk result (λ made. IsTakerOf made.0 made.2) }
        ensures taken { IfOk result (λ made. sub_taken made.2 ≡ []) }
        ensures empties { IfOk result (λ made. sub_empties made.2 ≡ 0) }
    {
        let mut seats = Vec::with_capacity(alloc, publishers as usize)?;
        let (queue, mut pass) = Queue::ruled(alloc, capacity as usize)?;
        set_each(&queue, &mut pass, each);
        set_publishers(&queue, &mut pass, publishers);
        let sub = MsgSub {
            queue,
            publishers,
            each,
        };
        sub.deal_all(&mut pass, &mut seats);
        Ok((sub, seats, SubSeat { pass }))
    }

    // A seat for each publisher. What is left of the pass takes.
    fn deal_all(&self, pass: &mut Pass<Note, View>, seats: &mut Vec<PubSeat>)
        requires own { IsPassOf self.now.queue pass.old }
        requires new { view pass.old ≡ undealt (sub_publishers self.now) (sub_each self.now) }
        requires none { seats.old.items ≡ [] }
        requires room { sub_publishers self.now ≤ vec_capacity seats.old }
        ensures taker { IsTakerOf self.now (record { pass = pass.new }) }
        ensures taken { (view pass.new).taken ≡ [] }
        ensures empties { (view pass.new).empties ≡ 0 }
        ensures seats { All (IsNewSeat self.now) seats.new.items }
        ensures order { map seat_publisher seats.new.items ≡ upto (sub_publishers self.now) }
    {
        for publisher in 0..self.publishers {
            let dealt = self.queue.another::<Deal>(pass);
            push_within(
                seats,
                PubSeat {
                    pass: dealt,
                    publisher,
                    next: 0,
                    room: self.each,
                },
            );
        }
    }
}
