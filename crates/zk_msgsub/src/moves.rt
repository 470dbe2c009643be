ghost use Rattle.std.specs.Prelude.{◌≡◌, ◌+◌, ◌*◌, ◌<◌, ◌≤◌, ◌++◌, ◌∷◌, [], length, MatchOption, MatchResult, IfErr};
ghost use Rattle.zk_msgsub.specs.Seats.{IsSeatOf, IsTakerOf, seat_fulls, seat_publisher, seat_room, seat_sent, sub_capacity, sub_each, sub_publishers, sub_taken, sub_empties};

use crate::msg_sub::{Full, MsgSub};
use crate::note::Note;
use crate::rule::{FindFull, FindNothing, Push, Take};
use crate::seats::{PubSeat, SubSeat};
use std::sync::Wait;
use zk_base::Msg;

impl MsgSub {
    /// Pushes a copy of a message and answers its number among the seat's, from 0. It doesn't wait for room.
    ///
    /// `Full` says that the queue held its capacity at one moment of the call. After it only the seat's count of refused
    /// pushes and its room have changed.
    pub fn push<R: Wait>(&self, rt: &R, seat: &mut PubSeat, message: Msg) -> Result<u32, Full>
        requires own { IsSeatOf self.now seat.old }
        requires room { 0 < seat_room seat.old }
        ensures own { IsSeatOf self.now seat.new }
        ensures publisher { seat_publisher seat.new ≡ seat_publisher seat.old }
        ensures room { seat_room seat.new + 1 ≡ seat_room seat.old }

        // The number is that of the messages pushed before. A refused message isn't listed, and the refusal is counted.
        ensures number { MatchResult result (λ n. n ≡ length (seat_sent seat.old))
            (λ _. length (seat_sent seat.old) < sub_each self.now) }
        ensures sent { MatchResult result (λ _. seat_sent seat.new ≡ seat_sent seat.old ++ message ∷ [])
            (λ _. seat_sent seat.new ≡ seat_sent seat.old) }
        ensures fulls { MatchResult result (λ _. seat_fulls seat.new ≡ seat_fulls seat.old)
            (λ _. seat_fulls seat.new ≡ seat_fulls seat.old + 1) }

        // The one publisher is refused only where so many of its messages are listed, and nobody where there is room for all.
        ensures alone { IfErr result (λ _. sub_publishers self.now ≡ 1 → sub_capacity self.now ≤ length (seat_sent seat.old)) }
        ensures never { IfErr result (λ _. sub_capacity self.now < sub_publishers self.now * sub_each self.now) }
    {
        let number = seat.next;
        seat.room -= 1;
        let note = Note {
            publisher: seat.publisher,
            number,
            message,
        };
        match self.queue.push_as::<Push, R>(rt, &mut seat.pass, note) {
            Ok(()) => {
                seat.next = number + 1;
                Ok(number)
            }
            Err(_) => {
                self.queue.another::<FindFull>(&mut seat.pass);
                Err(Full)
            }
        }
    }

    /// Takes the oldest note; none where the queue was empty at one moment of the call. It doesn't wait for one.
    pub fn take<R: Wait>(&self, rt: &R, sub: &mut SubSeat) -> Option<Note>
        requires own { IsTakerOf self.now sub.old }
        ensures own { IsTakerOf self.now sub.new }

        // The note stands behind those that were taken before, or the take has found nothing once more.
        ensures taken { MatchOption result (sub_taken sub.new ≡ sub_taken sub.old)
            (λ note. sub_taken sub.new ≡ sub_taken sub.old ++ note ∷ []) }
        ensures empties { MatchOption result (sub_empties sub.new ≡ sub_empties sub.old + 1)
            (λ note. sub_empties sub.new ≡ sub_empties sub.old) }
    {
        match self.queue.pop_as::<Take, R>(rt, &mut sub.pass) {
            Some(note) => Some(note),
            None => {
                self.queue.another::<FindNothing>(&mut sub.pass);
                None
            }
        }
    }
}
