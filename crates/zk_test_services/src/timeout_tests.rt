//! The items that are armed: each call once.
use std::alloc::Global;
use std::process::Abort;
use std::test::Fail;
use zk_base::NoMemory;
use zk_time::TimeoutList;

/// Three of four items are armed.
fn armed(alloc: Global) -> Result<TimeoutList, NoMemory> {
    let mut list = TimeoutList::new(alloc, 4)?;
    list.arm(2, 7, 30);
    list.arm(0, 8, u64::MAX);
    list.arm(3, 9, 30);
    Ok(list)
}

/// What they are asked, while all three are armed.
fn seen<R: Abort>(rt: &R, list: &TimeoutList) {
    assert!(rt; list.len() == 3);
    for (item, deadline, queue) in [
        (3, Some(30), Some(9)),
        (0, Some(u64::MAX), Some(8)),
        (1, None, None),
    ] {
        assert!(rt; list.deadline(item) == deadline);
        assert!(rt; list.queue(item) == queue);
    }
    for (now, count) in [(29, 0), (30, 2)] {
        assert!(rt; list.count_due(now) == count);
    }
}

/// Two expire, and the third is disarmed.
fn ends<R: Abort>(rt: &R, list: &mut TimeoutList) {
    for (now, due) in [
        (29, None),
        (30, Some((2, 7))),
        (30, Some((3, 9))),
        (30, None),
    ] {
        assert!(rt; list.due(now) == due);
    }
    for armed in [true, false] {
        assert!(rt; list.is_armed(0) == armed);
        assert!(rt; list.disarm(0) == armed);
    }
    assert!(rt; list.len() == 0);
}

#[test]
fn each_call(rt: HostRuntime) -> Result<(), Fail> {
    let mut list = armed(rt.alloc())?;
    seen(&rt, &list);
    ends(&rt, &mut list);
    Ok(())
}
