//! The order in which the steps of a trace are drawn.
use std::alloc::Global;
use std::test::Fail;
use zk_base::{NoMemory, Seen};
use zk_show_order::order_of;
use zk_trace::Stood;
use zk_worker::Spot;

fn line(player: u32, step: u32, spot: Spot) -> Stood {
    Stood { player, step, spot }
}

/// Signal 0 with its first so many writes.
fn seen(stamp: u32) -> Spot {
    let seen = Seen {
        raised: true,
        result: 7,
        stamp,
    };
    Spot::LookSignal(0, seen)
}

/// Whether the lines are drawn in this order, or in none.
fn is_drawn(alloc: Global, lines: &[Stood], wanted: Option<&[usize]>) -> Result<bool, NoMemory> {
    Ok(order_of(alloc, lines)?.as_deref() == wanted)
}

#[test]
fn draws(rt: HostRuntime) -> Result<(), Fail> {
    let alloc = rt.alloc();
    assert!(rt; is_drawn(alloc, &[], Some(&[]))?);
    // Two players and two semaphores: the second player's steps wait for the first one's.
    let crossing = [
        line(0, 0, Spot::Sem(0, 0)),
        line(1, 1, Spot::Sem(0, 1)),
        line(1, 0, Spot::Sem(1, 0)),
        line(0, 1, Spot::Sem(1, 1)),
    ];
    assert!(rt; is_drawn(alloc, &crossing, Some(&[0, 2, 3, 1]))?);
    // Each player's first step stands behind the other one's second.
    let circle = [
        line(1, 1, Spot::Sem(0, 0)),
        line(0, 0, Spot::Sem(0, 1)),
        line(0, 1, Spot::Sem(1, 0)),
        line(1, 0, Spot::Sem(1, 1)),
    ];
    assert!(rt; is_drawn(alloc, &circle, None)?);
    // Looks stand below what they show.
    let looks = [
        line(1, 0, Spot::Work(0)),
        line(0, 0, Spot::LookItem(3, 0, 1)),
        line(1, 1, Spot::Signal(0, 0)),
        line(0, 5, seen(1)),
        line(2, 0, seen(0)),
    ];
    assert!(rt; is_drawn(alloc, &looks, Some(&[0, 4, 1, 2, 3]))?);
    // An entry waits for a look that doesn't show it.
    let waits = [
        line(0, 0, Spot::Work(0)),
        line(0, 1, Spot::Work(1)),
        line(1, 1, Spot::LookItem(3, 0, 1)),
        line(1, 0, Spot::Sem(0, 0)),
    ];
    assert!(rt; is_drawn(alloc, &waits, Some(&[0, 3, 2, 1]))?);
    // A step twice, and a place that no entry has.
    let twice = [line(0, 0, Spot::Clock(0)), line(0, 0, Spot::Table(0))];
    assert!(rt; is_drawn(alloc, &twice, None)?);
    assert!(rt; is_drawn(alloc, &[line(0, 0, Spot::Chan(4, 1))], None)?);
    Ok(())
}
