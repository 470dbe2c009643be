ghost use Rattle.std.specs.Prelude.{◌≡◌, ◌<◌, All, map};
ghost use Rattle.zk_msgsub.specs.Notes.{upto};
ghost use Rattle.zk_msgsub.specs.Seats.{IsNewSeat, seat_publisher};

use zk_base::Msg;
use zk_msgsub::{MsgSub, PubSeat};

/// A message of one byte.
pub fn message_of(byte: u8) -> Msg {
    let Some(message) = Msg::new(&[byte]) else {
        unreachable!()
    };
    message
}

/// The seats of two publishers.
pub fn two_seats(sub: &MsgSub, mut seats: Vec<PubSeat>) -> (PubSeat, PubSeat)
    requires fresh { All (IsNewSeat sub.now) seats.items }
    requires order { map seat_publisher seats.items ≡ upto 2 }
    ensures fresh { IsNewSeat sub.now result.0 × IsNewSeat sub.now result.1 }
    ensures order { (seat_publisher result.0 ≡ 0) × (seat_publisher result.1 ≡ 1) }
{
    let Some(second) = seats.pop() else {
        unreachable!()
    };
    let Some(first) = seats.pop() else {
        unreachable!()
    };
    (first, second)
}

/// The seat of the only publisher.
pub fn one_seat(sub: &MsgSub, mut seats: Vec<PubSeat>) -> PubSeat
    requires fresh { All (IsNewSeat sub.now) seats.items }
    requires order { map seat_publisher seats.items ≡ upto 1 }
    ensures fresh { IsNewSeat sub.now result }
{
    let Some(seat) = seats.pop() else {
        unreachable!()
    };
    seat
}
