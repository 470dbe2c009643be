ghost use Rattle.std.specs.Prelude.{◌≡◌, ◌+◌, ◌≤◌, ◌<◌, true, [], ◌∷◌};
ghost use Rattle.zk_base.specs.History.{IsAbove};
ghost use Rattle.zk_base.specs.Legal.{IsLegal};
ghost use Rattle.zk_turn.specs.Calls.{HasCalled, entries_made};
ghost use Rattle.zk_turn.specs.Passes.{IsPassOf, pass_players, pass_who, pass_seen, pass_mine, pass_holds, pass_room, given_to};

use crate::cell::Cell;
use crate::pass::Pass;
use std::sync::Wait;
use zk_base::{NoMemory, Service};

impl<S: Service> Cell<S> {
    /// One call by a turn of its own: waits for the turn, makes the call, and gives the turn back.
    ///
    /// The answer has the reply and the place of the entry in the history; `None` says that the operation isn't possible.
    /// Only an entry takes room of the pass, so whoever is refused may ask as often as it likes.
    pub fn call<R: Wait>(
        &self,
        rt: &R,
        pass: Pass<S>,
        step: u32,
        op: S::Op,
    ) -> (Pass<S>, Result<Option<(S::Reply, u64)>, NoMemory>)
        requires own { IsPassOf (IsLegal S.machine) S.start self.now pass }
        requires alone { pass_players pass ≡ pass_who pass ∷ [] }
        requires room { 0 < pass_room pass }
        requires later { IsAbove (pass_mine pass) (pass_who pass).number step }
        requires range { S.machine.in_range (S.start (given_to self.now)) op ≡ true }
        ensures own { IsPassOf (IsLegal S.machine) S.start self.now result.0 }
        ensures players { pass_players result.0 ≡ pass_players pass }
        ensures who { pass_who result.0 ≡ pass_who pass }
        ensures holds { pass_holds result.0 ≡ pass_holds pass + 1 }
        ensures room { pass_room result.0 + entries_made result.1 ≡ pass_room pass }
        ensures called { HasCalled S.machine (S.start (given_to self.now)) (pass_who pass) step op
            (pass_seen pass) (pass_seen result.0) result.1 }
        ensures later { IsAbove (pass_mine result.0) (pass_who pass).number (step + 1) }
    {
        let mut held = self.enter(rt, pass);
        let place = held.at();
        match held.act(step, op) {
            Ok(Some(reply)) => (self.leave(held), Ok(Some((reply, place)))),
            Ok(None) => (self.leave(held), Ok(None)),
            Err(refused) => (self.leave(held), Err(refused)),
        }
    }
}
