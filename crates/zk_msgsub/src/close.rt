ghost use Rattle.std.specs.Prelude.{◌≡◌, ◌<◌, ◌++◌, All, IfOk};
ghost use Rattle.crossbeam_queue.specs.Passes.{view};
ghost use Rattle.zk_msgsub.specs.Notes.{numbered, part};
ghost use Rattle.zk_msgsub.specs.Seats.{IsSeatOf, IsTakerOf, IsTakerPass, Gathers, seat_publisher, seat_sent, sub_publishers, sub_taken};
ghost use Rattle.zk_msgsub.specs.Steps.{HasParts};

use crate::msg_sub::MsgSub;
use crate::note::Note;
use crate::rule::{Merge, Take};
use crate::seats::{PubSeat, SubSeat};
use crate::views::View;
use crossbeam_queue::Pass;
use std::alloc::Global;
use std::sync::Wait;
use zk_base::NoMemory;

impl MsgSub {
    /// Takes the queue apart, for its publishers' seats in any order and the seat that takes, and gives what is left, oldest
    /// first. After want of memory it is given up.
    pub fn close<R: Wait>(
        self,
        rt: &R,
        alloc: Global,
        seats: Vec<PubSeat>,
        sub: SubSeat,
    ) -> Result<Vec<Note>, NoMemory>
        requires own { All (IsSeatOf self) seats.items }
        requires taker { IsTakerOf self sub }

        // Of each publisher, what was taken and then what is left has the numbers 0, 1, 2 and on, and the messages of its seat.
        ensures parts { IfOk result (λ left. All (λ seat. part (seat_publisher seat) (sub_taken sub ++ left.items)
            ≡ numbered (seat_publisher seat) (seat_sent seat)) seats.items) }
        ensures known { IfOk result (λ left.
            All (λ note. note.publisher < sub_publishers self) (sub_taken sub ++ left.items)) }
    {
        let pass = self.gather(seats, sub);
        self.drain(rt, alloc, pass)
    }

    // The taker's pass, with the lists of all these seats.
    fn gather(&self, mut seats: Vec<PubSeat>, sub: SubSeat) -> Pass<Note, View>
        requires own { All (IsSeatOf self.now) seats.items }
        requires taker { IsTakerOf self.now sub }
        ensures all { Gathers self.now seats.items (sub_taken sub) result }
    {
        let SubSeat { mut pass } = sub;
        while let Some(seat) = seats.pop() {
            self.queue.absorb::<Merge>(&mut pass, seat.pass);
        }
        pass
    }

    // All that is left. That it is all, the queue says alone to a pop with a handle.
    fn drain<R: Wait>(
        &self,
        rt: &R,
        alloc: Global,
        mut pass: Pass<Note, View>,
    ) -> Result<Vec<Note>, NoMemory>
        requires takes { IsTakerPass self.now pass }
        ensures left { IfOk result (λ left. HasParts (view pass) left.items) }
    {
        let mut left = Vec::new(alloc);
        for _ in rt.forever() {
            match self.queue.pop_as::<Take, R>(rt, &mut pass) {
                Some(note) => left.push(note)?,
                None => return Ok(left),
            }
        }
        unreachable!()
    }
}
