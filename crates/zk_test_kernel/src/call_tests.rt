//! Single attempts and whole calls, played by hand on one thread, and calls in threads of their own.
use crate::moves::Move;
use crate::played::played;
use crate::scenarios::{hundred_gives, raised, spender, taken};
use crate::texts::{has, rising_steps};
use std::test::Fail;

#[test]
fn attempts_are_made_by_hand(rt: HostRuntime) -> Result<(), Fail> {
    // It isn't served at once and begins to wait, whose end isn't possible before the give: until then it has no news.
    let moves = [
        Move::Step(0),
        Move::Attempt(0, 0),
        Move::News(0),
        Move::Attempt(1, 0),
        Move::News(0),
        Move::Steps(0),
    ];
    let report = played(&rt, rt.alloc(), taken(), &moves)?;
    assert!(rt;
        report.moves.as_slice() == b"ynnyyy".as_slice()
            && report.stand.as_slice() == b"tt".as_slice()
    );
    assert!(rt; has(&report.text, b"player taker done 1\n1 take = 0\n"));
    Ok(())
}

#[test]
fn a_raise_is_seen_by_another_caller(rt: HostRuntime) -> Result<(), Fail> {
    // The second attempt of the first caller is a give, which takes a turn.
    let moves = [Move::Quick(0, 0), Move::Quick(1, 0), Move::Quick(0, 0)];
    let report = played(&rt, rt.alloc(), raised(), &moves)?;
    assert!(rt; report.moves.as_slice() == b"yyn".as_slice());
    assert!(rt; has(&report.text, b"player second done 1\n0 check = raised 7\n"));
    Ok(())
}

/// As many steps as a player may make, and a poll behind them.
#[test]
fn a_player_that_is_spent_stops(rt: HostRuntime) -> Result<(), Fail> {
    let report = played(&rt, rt.alloc(), &spender(rt.alloc())?, &[Move::Calls(0)])?;
    assert!(rt;
        report.moves.as_slice() == b"s".as_slice() && report.stand.as_slice() == b"o".as_slice()
    );
    assert!(rt; report.steps.as_slice() == [20_000].as_slice());
    assert!(rt; has(&report.text, b"zt 2\nspent\n"));
    Ok(())
}

#[test]
fn two_threads_give_a_hundred_times_each(rt: HostRuntime) -> Result<(), Fail> {
    let report = played(
        &rt,
        rt.alloc(),
        &hundred_gives(rt.alloc())?,
        &[Move::Each(true)],
    )?;
    assert!(rt; report.stand.as_slice() == b"tt".as_slice());
    assert!(rt; rising_steps(&report.text, b"t0.") == Some(100));
    assert!(rt; rising_steps(&report.text, b"t1.") == Some(100));
    Ok(())
}
