ghost use Rattle.std.specs.Prelude.{◌≡◌};
ghost use Rattle.zk_signal.specs.Passes.{pass_room};

use crate::views::View;
use atomic_table::Seat;

/// A caller's token for a signal. It stands for one player at first, and for those of both where it was joined with another.
///
/// The seat has no bytes, so a pass has 4.
#[derive(Drop)]
pub struct SigPass {
    pub(crate) seat: Seat<u64, View>,
    pub(crate) room: u32,
}

impl SigPass {
    /// How many writes it may still make: 20,000 at first.
    pub fn room(&self) -> u32
        ensures { result ≡ pass_room self.now }
    {
        self.room
    }
}
