ghost use Rattle.std.specs.Prelude.{◌≡◌, ◌+◌, ◌≤◌, true, [], ◌∷◌, ◌++◌, IfOk, IsOk};
ghost use Rattle.zk_base.specs.Legal.{IsLegal};
ghost use Rattle.zk_turn.specs.Passes.{IsNewPass, IsPassOf, pass_holds, pass_players, pass_seen, given_to};
ghost use Rattle.zk_turn.specs.Players.{GoesOn};
ghost use Rattle.zk_uses.specs.Callers.{HadTurns, HaveCalled, in_turn};

use std::sync::Wait;
use zk_base::{NoMemory, Service, Who};
use zk_turn::{Cell, Pass};

/// A player and its pass.
#[derive(Drop)]
pub struct Caller<S: Service> {
    pub who: Who,
    pub pass: Pass<S>,
}

// Whether two callers have both made all their calls.
fn both_made(one: Result<(), NoMemory>, other: Result<(), NoMemory>) -> Result<(), NoMemory>
    ensures { IfOk result (λ _. IsOk one × IsOk other) }
{
    one?;
    other
}

/// Puts together the passes of callers, and whether all of them have made all their calls.
pub(crate) fn put_together<S: Service>(
    cell: &Cell<S>,
    one: (Pass<S>, Result<(), NoMemory>),
    other: (Pass<S>, Result<(), NoMemory>),
) -> (Pass<S>, Result<(), NoMemory>)
    requires one { IsPassOf (IsLegal S.machine) S.start cell.now one.0 }
    requires other { IsPassOf (IsLegal S.machine) S.start cell.now other.0 }
    ensures own { IsPassOf (IsLegal S.machine) S.start cell.now result.0 }
    ensures players { pass_players result.0 ≡ pass_players one.0 ++ pass_players other.0 }
    ensures holds { pass_holds result.0 ≡ pass_holds one.0 + pass_holds other.0 }
    ensures first { GoesOn (pass_players one.0) (pass_seen one.0) (pass_seen result.0) }
    ensures second { GoesOn (pass_players other.0) (pass_seen other.0) (pass_seen result.0) }
    ensures made { IfOk result.1 (λ _. IsOk one.1 × IsOk other.1) }
{
    let (mut both, made) = one;
    let (pass, too) = other;
    cell.join(&mut both, pass);
    (both, both_made(made, too))
}

/// Makes one call so many times, each by a turn of its own, with the steps from 0 on: the pass, and whether all were made. It
/// leaves off at want of memory.
pub fn call_often<S: Service, R: Wait>(
    rt: &R,
    cell: &Cell<S>,
    caller: Caller<S>,
    op: S::Op,
    times: u32,
) -> (Pass<S>, Result<(), NoMemory>)
where
    S::Op: Copy,
    S::Reply: Drop,
    requires new { IsNewPass (IsLegal S.machine) S.start cell.now caller.who caller.pass }
    requires times { times ≤ 20000 }
    requires range { S.machine.in_range (S.start (given_to cell.now)) op ≡ true }
    ensures own { IsPassOf (IsLegal S.machine) S.start cell.now result.0 }
    ensures players { pass_players result.0 ≡ caller.who ∷ [] }
    ensures called { HaveCalled S.machine (S.start (given_to cell.now)) caller.who (λ step. op) times result.1 (pass_seen result.0) }
    ensures turns { HadTurns times result.1 result.0 }
{
    let mut pass = caller.pass;
    for step in 0..times {
        let (next, answer) = cell.call(rt, pass, step, op);
        pass = next;
        match answer {
            Ok(_) => {}
            Err(e) => return (pass, Err(e)),
        }
    }
    (pass, Ok(()))
}

/// Makes two calls in turn, so many in all, each by a turn of its own, with the steps from 0 on: the pass, and whether all were
/// made. It leaves off at want of memory.
pub fn call_in_turn<S: Service, R: Wait>(
    rt: &R,
    cell: &Cell<S>,
    caller: Caller<S>,
    ops: (S::Op, S::Op),
    times: u32,
) -> (Pass<S>, Result<(), NoMemory>)
where
    S::Op: Copy,
    S::Reply: Drop,
    requires new { IsNewPass (IsLegal S.machine) S.start cell.now caller.who caller.pass }
    requires times { times ≤ 20000 }
    requires first { S.machine.in_range (S.start (given_to cell.now)) ops.0 ≡ true }
    requires second { S.machine.in_range (S.start (given_to cell.now)) ops.1 ≡ true }
    ensures own { IsPassOf (IsLegal S.machine) S.start cell.now result.0 }
    ensures players { pass_players result.0 ≡ caller.who ∷ [] }
    ensures called { HaveCalled S.machine (S.start (given_to cell.now)) caller.who (in_turn ops) times result.1 (pass_seen result.0) }
    ensures turns { HadTurns times result.1 result.0 }
{
    let mut pass = caller.pass;
    let (mut op, mut other) = ops;
    for step in 0..times {
        let (next, answer) = cell.call(rt, pass, step, op);
        pass = next;
        (op, other) = (other, op);
        match answer {
            Ok(_) => {}
            Err(e) => return (pass, Err(e)),
        }
    }
    (pass, Ok(()))
}
