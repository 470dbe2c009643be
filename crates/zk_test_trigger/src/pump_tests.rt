//! The pump: what it admits, and when it has nothing to submit.
use crate::both::{Both, ask, open_both, pumped};
use std::test::Fail;
use zk_base::Few;
use zk_model_work::Submitted;
use zk_trigger::TriggerOp;

/// An arm of this item for this queue, by event 2.
fn armed_by_two(item: u32, queue: u32, ticks: Option<u32>) -> TriggerOp {
    match Few::new(&[2]) {
        Some(events) => TriggerOp::Arm(item, queue, events, ticks),
        None => TriggerOp::Next,
    }
}

#[test]
fn both_items_are_admitted_in_order(rt: HostRuntime) -> Result<(), Fail> {
    let Both {
        triggers,
        work,
        armer,
        mut pump,
    } = open_both(rt.alloc())?;
    let none = pumped(&rt, &mut pump, &triggers, &work, 0)?;
    assert!(rt; none.is_none(), "nothing has fired");
    let (armer, made) = ask(&rt, &triggers, armer, 0, armed_by_two(1, 0, Some(10)));
    made?;
    let (armer, made) = ask(&rt, &triggers, armer, 1, armed_by_two(2, 1, Some(10)));
    made?;
    let none = pumped(&rt, &mut pump, &triggers, &work, 1)?;
    assert!(rt; none.is_none(), "both wait");
    let (_armer, made) = ask(&rt, &triggers, armer, 2, TriggerOp::Tick(10));
    made?;
    let first = pumped(&rt, &mut pump, &triggers, &work, 2)?;
    assert!(rt; first == Some(Submitted::Fresh(0, 0)));
    let second = pumped(&rt, &mut pump, &triggers, &work, 3)?;
    assert!(rt; second == Some(Submitted::Fresh(1, 1)));
    let none = pumped(&rt, &mut pump, &triggers, &work, 4)?;
    assert!(rt; none.is_none(), "each fires once");
    assert!(rt; !pump.owes());
    Ok(())
}

/// An event that is posted again fires nothing more, and what was armed before it was unposted is admitted.
#[test]
fn an_item_is_admitted_once(rt: HostRuntime) -> Result<(), Fail> {
    let Both {
        triggers,
        work,
        armer,
        mut pump,
    } = open_both(rt.alloc())?;
    let (armer, made) = ask(&rt, &triggers, armer, 0, TriggerOp::Post(2));
    made?;
    let (armer, made) = ask(&rt, &triggers, armer, 1, armed_by_two(3, 7, None));
    made?;
    let (armer, made) = ask(&rt, &triggers, armer, 2, TriggerOp::Post(2));
    made?;
    let (_armer, made) = ask(&rt, &triggers, armer, 3, TriggerOp::Unpost(2));
    made?;
    let admitted = pumped(&rt, &mut pump, &triggers, &work, 0)?;
    assert!(rt; admitted == Some(Submitted::Fresh(0, 7)));
    let none = pumped(&rt, &mut pump, &triggers, &work, 1)?;
    assert!(rt; none.is_none());
    Ok(())
}
