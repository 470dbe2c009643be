ghost use Rattle.std.specs.Prelude.{◌≡◌};
ghost use Rattle.zk_msgsub.specs.Seats.{seat_publisher, seat_room};

use crate::note::Note;
use crate::views::View;
use crossbeam_queue::Pass;

/// What one publisher pushes with at one subscriber.
#[derive(Drop)]
pub struct PubSeat {
    pub(crate) pass: Pass<Note, View>,
    pub(crate) publisher: u32,
    // The number of its next copy.
    pub(crate) next: u32,
    pub(crate) room: u32,
}

impl PubSeat {
    /// The publisher's number: its place among the seats that `MsgSub::new` made.
    pub fn publisher(&self) -> u32
        ensures { result ≡ seat_publisher self.now }
    {
        self.publisher
    }

    /// How many pushes it still has: at first as many as `MsgSub::new` gave each. Every push takes one, also one that is refused.
    pub fn room(&self) -> u32
        ensures { result ≡ seat_room self.now }
    {
        self.room
    }
}

/// What the subscriber takes with. It has no bytes.
#[derive(Drop)]
pub struct SubSeat {
    pub(crate) pass: Pass<Note, View>,
}
