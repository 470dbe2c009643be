//! A cell over the work service: an entry of one player, and the looks of another.
use std::test::Fail;
use zk_base::{Service, Who};
use zk_model_work::WorkOp;
use zk_turn::{Cell, Look};
use zk_uses::{Caller, two_callers};
use zk_work::Work;

const PLAYER: Who = Who { number: 7, prio: 0 };

const OTHER: Who = Who { number: 8, prio: 0 };

#[test]
fn a_look_shows_what_another_submitted(rt: HostRuntime) -> Result<(), Fail> {
    let work = Work::new(rt.alloc(), 2, &[9], &[true])?;
    let (cell, passes) = Cell::new(rt.alloc(), work, &[PLAYER, OTHER])?;
    let (first, second) = two_callers(&cell, PLAYER, OTHER, passes);
    let Caller { who: _, mut pass } = second;
    let mut held = cell.enter(&rt, first.pass);
    let before = held.at();
    let answer = held.act(0, WorkOp::Submit(1, Some(0)));
    let after = held.at();
    let within = cell.look(&mut pass, 1);
    let mut first = cell.leave(held);
    assert!(rt; answer?.is_some());
    assert!(rt; (before, after) == (0, 1));
    assert!(rt;
        within == Look { word: 0, at: 0 },
        "an entry isn't shown before its turn is over"
    );
    assert!(rt; cell.has_grown(&pass) && pass.room() == 19_999);
    assert!(rt; cell.look(&mut pass, 1) == Look { word: 4, at: 1 });
    assert!(rt; !cell.has_grown(&pass) && pass.room() == 19_998);
    assert!(rt; pass.front() == 1, "what the look has shown is seen");
    assert!(rt;
        cell.look(&mut pass, 0) == Look { word: 0, at: 1 },
        "no look goes back behind that"
    );
    cell.join(&mut first, pass);
    let history = cell.close(first).into_history();
    assert!(rt; history.len() == 1);
    Ok(())
}

#[test]
fn a_turn_reads_what_an_earlier_one_submitted(rt: HostRuntime) -> Result<(), Fail> {
    let work = Work::new(rt.alloc(), 2, &[9], &[true])?;
    let (cell, passes) = Cell::new(rt.alloc(), work, &[PLAYER, OTHER])?;
    let (first, second) = two_callers(&cell, PLAYER, OTHER, passes);
    let mut held = cell.enter(&rt, first.pass);
    let answer = held.act(0, WorkOp::Submit(1, Some(0)));
    let mut first = cell.leave(held);
    assert!(rt; answer?.is_some());
    let mut held = cell.enter(&rt, second.pass);
    let found = (held.at(), held.service().word(1), held.word(1));
    let second = cell.leave(held);
    assert!(rt; found == (1, 4, 4));
    cell.join(&mut first, second);
    let history = cell.close(first).into_history();
    assert!(rt; history.len() == 1);
    Ok(())
}
