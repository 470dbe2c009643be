//! Waits that a test decides.
ghost use Rattle.std.specs.Prelude.{◌≡◌};

use std::alloc::Global;
use std::process::Abort;
use std::test::Fail;
use zk_base::{NoMemory, WaitList, Waiter, Who};

/// A wait for a number.
fn wait(place: u64, number: u32, prio: i8, payload: u32) -> Waiter<u32>
    ensures { result.place ≡ place }
{
    Waiter {
        place,
        who: Who { number, prio },
        payload,
    }
}

/// Three wait: who came last is served first.
fn three(alloc: Global) -> Result<WaitList<u32, u32>, NoMemory> {
    let mut list = WaitList::new(alloc);
    list.join(wait(0, 7, 5, 10))?;
    list.join(wait(1, 8, 5, 21))?;
    list.join(wait(2, 9, -1, 30))?;
    Ok(list)
}

/// What an even number is answered: its half.
fn half(number: &u32) -> Option<u32> {
    if *number % 2 == 0 {
        Some(*number / 2)
    } else {
        None
    }
}

/// Where nobody is decided, all wait on.
fn none<R: Abort>(rt: &R, list: &mut WaitList<u32, u32>) {
    let waiting = list.waiting();
    list.decide_by(|_number| None);
    assert!(rt; list.waiting() == waiting);
}

/// Two of them are decided, and the third waits on.
fn ends<R: Abort>(rt: &R, list: &mut WaitList<u32, u32>) {
    list.decide_by(|number| half(number));
    assert!(rt; list.waiting() == 1);
    assert!(rt; list.open() == 3);
    for (player, place, answer) in [
        (8, 1, None),
        (9, 2, Some(15)),
        (7, 0, Some(5)),
        (7, 0, None),
    ] {
        assert!(rt; list.is_decided(player, place) == answer.is_some());
        assert!(rt; list.end(player, place) == answer);
    }
    assert!(rt; list.first() == Some(wait(1, 8, 5, 21)));
}

#[test]
fn decided_by_a_test(rt: HostRuntime) -> Result<(), Fail> {
    let mut list = three(rt.alloc())?;
    none(&rt, &mut list);
    ends(&rt, &mut list);
    none(&rt, &mut list);
    list.decide_by(|number| Some(*number));
    assert!(rt; list.end(8, 1) == Some(21));
    assert!(rt; list.open() == 0);
    Ok(())
}
