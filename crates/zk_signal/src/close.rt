ghost use Rattle.std.specs.Prelude.{◌≡◌, ◌++◌, length, max, All};
ghost use Rattle.zk_signal.specs.Counts.{EachOnceTo};
ghost use Rattle.zk_signal.specs.Passes.{IsPassOf, pass_players, pass_writes, pass_stamps, pass_looks, pass_top, pass_room, players_in};
ghost use Rattle.zk_signal.specs.Words.{IsValueIn};

use crate::pass::SigPass;
use crate::rule::Merge;
use crate::signal::{COUNTER, SharedSignal};

impl SharedSignal {
    /// Puts two passes together: `into` stands for the players of both from then on.
    ///
    /// It keeps the room of `into`.
    pub fn join(&self, into: &mut SigPass, other: SigPass)
        requires into { IsPassOf self.now into.old }
        requires other { IsPassOf self.now other }
        ensures own { IsPassOf self.now into.new }
        ensures players { pass_players into.new ≡ pass_players into.old ++ pass_players other }
        ensures writes { pass_writes into.new ≡ pass_writes into.old ++ pass_writes other }
        ensures looks { pass_looks into.new ≡ pass_looks into.old ++ pass_looks other }
        ensures top { pass_top into.new ≡ max (pass_top into.old) (pass_top other) }
        ensures room { pass_room into.new ≡ pass_room into.old }
    {
        let SigPass { seat, room: _ } = other;
        self.table.shared.join_seat::<Merge>(&mut into.seat, seat);
    }

    /// How many writes there were, for a pass into which those of all players were joined.
    pub fn close(self, pass: SigPass) -> u32
        requires own { IsPassOf self pass }
        requires all { length (pass_players pass) ≡ length (players_in self) }

        // Its writes are all: their stamps are 1 to the answer, each once. Each of its looks found the value of its stamp.
        ensures stamps { EachOnceTo result (pass_stamps pass) }
        ensures count { length (pass_writes pass) ≡ result }
        ensures looks { All (IsValueIn (pass_writes pass)) (pass_looks pass) }
    {
        let SigPass { seat, room: _ } = pass;
        let SharedSignal { table } = self;
        let closed = table.close_with(seat);
        let count = closed.word(COUNTER);
        closed.free();
        count as u32
    }
}
