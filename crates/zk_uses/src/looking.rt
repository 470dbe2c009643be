//! A caller that looks at the word of an index, and what its looks say once the cell is closed.
ghost use Rattle.std.specs.Prelude.{◌≡◌, ◌+◌, ◌<◌, ◌≤◌, All, length};
ghost use Rattle.zk_base.specs.Legal.{IsLegal};
ghost use Rattle.zk_turn.specs.Passes.{IsPassOf, given_to, pass_players, players_in};
ghost use Rattle.zk_uses.specs.Looks.{HasLooked, IsLookAt, IsReady, KeptLooks};

use zk_base::{Entry, Service, Who, push_within};
use zk_turn::{Cell, Look, Pass};

/// A player that looks, its pass, and its looks.
#[derive(Drop)]
pub struct Looker<S: Service> {
    pub who: Who,
    pub pass: Pass<S>,
    pub looks: Vec<Look>,
}

/// Looks at the word of an index so many times, without pause. There is room for the looks.
pub fn look_often<S: Service>(
    cell: &Cell<S>,
    looker: Looker<S>,
    index: u32,
    times: u32,
) -> Looker<S>
    requires index { index < S.WORDS }
    requires times { times ≤ 20000 }
    requires ready { IsReady (IsLegal S.machine) S.start cell.now times looker }
    ensures found { HasLooked S.machine S.start S.word cell.now index looker.who result }
    ensures looked { KeptLooks times result }
{
    let Looker {
        who,
        mut pass,
        mut looks,
    } = looker;
    for _round in 0..times {
        let look = cell.look(&mut pass, index);
        push_within(&mut looks, look);
    }
    Looker { who, pass, looks }
}

/// Closes the cell of two lookers and of others that have one pass: the history, and the looks of both.
///
/// Each look has found the word after as many entries of the history as it says.
pub fn closed_after_looks<S: Service>(
    cell: Cell<S>,
    lookers: (Looker<S>, Looker<S>),
    others: Pass<S>,
    index: u32,
) -> (Vec<Entry<S::Op, S::Reply>>, Vec<Look>, Vec<Look>)
    requires first { HasLooked S.machine S.start S.word cell index lookers.0.who lookers.0 }
    requires second { HasLooked S.machine S.start S.word cell index lookers.1.who lookers.1 }
    requires own { IsPassOf (IsLegal S.machine) S.start cell others }
    requires all { length (players_in cell) ≡ 2 + length (pass_players others) }
    ensures legal { IsLegal S.machine (S.start (given_to cell)) result.0.items }
    ensures first { All (IsLookAt S.machine S.start S.word cell index result.0.items) result.1.items }
    ensures second { All (IsLookAt S.machine S.start S.word cell index result.0.items) result.2.items }
{
    let (first, second) = lookers;
    let mut pass = first.pass;
    cell.join(&mut pass, second.pass);
    cell.join(&mut pass, others);
    (cell.close(pass).into_history(), first.looks, second.looks)
}
