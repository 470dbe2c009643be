ghost use Rattle.std.specs.Prelude.{◌≡◌, [], ◌∷◌, ◌++◌, List};
ghost use Rattle.zk_base.specs.declared.ids.Who.{Who};
ghost use Rattle.zk_base.specs.Legal.{IsLegal};
ghost use Rattle.zk_turn.specs.Passes.{pass_room, AreNewPasses, IsNewPass};

use crate::cell::Cell;
use crate::views::View;
use atomic_table::Seat;
use zk_base::{Service, Who};

/// A caller's token for a cell. It stands for one player at first, and for those of both where it was joined with another.
#[derive(Drop)]
pub struct Pass<S: Service> {
    pub(crate) seat: Seat<Option<S>, View<S::Op, S::Reply, S::State>>,
    pub(crate) who: Who,
    pub(crate) room: u64,
    pub(crate) front: u64,
}

impl<S: Service> Pass<S> {
    /// How many entries it may still add: 20,000 at first.
    pub fn room(&self) -> u64
        ensures { result ≡ pass_room self.now }
    {
        self.room
    }

    /// How many entries of the history it has seen.
    pub fn front(&self) -> u64
        ensures { result ≡ self.now.front }
    {
        self.front
    }
}

/// The last of the passes that a new cell gave, which is this player's.
pub fn last_pass<S: Service>(cell: &Cell<S>, who: Who, passes: &mut Vec<Pass<S>>) -> Pass<S>
    requires { (others : List Who) × AreNewPasses (IsLegal S.machine) S.start cell.now (others ++ who ∷ []) passes.old.items }
    ensures pass { IsNewPass (IsLegal S.machine) S.start cell.now who result }
    ensures others { (others : List Who) →
        AreNewPasses (IsLegal S.machine) S.start cell.now (others ++ who ∷ []) passes.old.items →
        AreNewPasses (IsLegal S.machine) S.start cell.now others passes.new.items }
{
    let Some(pass) = passes.pop() else {
        unreachable!()
    };
    pass
}
