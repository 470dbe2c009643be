ghost use Rattle.std.specs.Prelude.{◌≡◌, [], ◌∷◌, ◌++◌, List};
ghost use Rattle.zk_base.specs.declared.ids.Who.{Who};
ghost use Rattle.zk_base.specs.Legal.{IsLegal};
ghost use Rattle.zk_turn.specs.Passes.{AreNewPasses, IsNewPass};
ghost use Rattle.zk_uses.specs.Callers.{AreNew};

use crate::often::Caller;
use zk_base::{Service, Who};
use zk_turn::{Cell, Pass, last_pass};

/// The caller for the last of the passes that a new cell gave.
pub fn last_caller<S: Service>(cell: &Cell<S>, who: Who, passes: &mut Vec<Pass<S>>) -> Caller<S>
    requires { (others : List Who) × AreNewPasses (IsLegal S.machine) S.start cell.now (others ++ who ∷ []) passes.old.items }
    ensures caller { IsNewPass (IsLegal S.machine) S.start cell.now who result.pass }
    ensures who { result.who ≡ who }
    ensures others { (others : List Who) →
        AreNewPasses (IsLegal S.machine) S.start cell.now (others ++ who ∷ []) passes.old.items →
        AreNewPasses (IsLegal S.machine) S.start cell.now others passes.new.items }
{
    let pass = last_pass(cell, who, passes);
    Caller { who, pass }
}

/// The callers of a new cell for two players.
pub fn two_callers<S: Service>(
    cell: &Cell<S>,
    first: Who,
    second: Who,
    mut passes: Vec<Pass<S>>,
) -> (Caller<S>, Caller<S>)
    requires { AreNewPasses (IsLegal S.machine) S.start cell.now (first ∷ second ∷ []) passes.items }
    ensures new { AreNew (IsLegal S.machine) S.start cell.now result.0 result.1 }
    ensures players { (result.0.who ≡ first) × (result.1.who ≡ second) }
{
    let other = last_caller(cell, second, &mut passes);
    let one = last_caller(cell, first, &mut passes);
    (one, other)
}

/// The callers of a new cell for four players, two and two.
pub fn four_callers<S: Service>(
    cell: &Cell<S>,
    players: (Who, Who, Who, Who),
    mut passes: Vec<Pass<S>>,
) -> ((Caller<S>, Caller<S>), (Caller<S>, Caller<S>))
    requires { AreNewPasses (IsLegal S.machine) S.start cell.now
        (players.0 ∷ players.1 ∷ players.2 ∷ players.3 ∷ []) passes.items }
    ensures first { AreNew (IsLegal S.machine) S.start cell.now result.0.0 result.0.1 }
    ensures second { AreNew (IsLegal S.machine) S.start cell.now result.1.0 result.1.1 }
    ensures players { (result.0.0.who ≡ players.0) × (result.0.1.who ≡ players.1)
        × (result.1.0.who ≡ players.2) × (result.1.1.who ≡ players.3) }
{
    let fourth = last_caller(cell, players.3, &mut passes);
    let third = last_caller(cell, players.2, &mut passes);
    let second = last_caller(cell, players.1, &mut passes);
    let first = last_caller(cell, players.0, &mut passes);
    ((first, second), (third, fourth))
}
