ghost use Rattle.std.specs.Prelude.{◌≡◌, ◌==◌};
ghost use Rattle.std.specs.List.{list_any, find};
ghost use Rattle.zk_model_trigger.specs.Arms.{is_among, is_reached, meets, has_live, has_waiting, first_cause, passes, told_fire};

use crate::{Arm, Armed, Cause, Fire, Occasion, TriggerReply};

/// Whether this event is one of these.
pub fn is_among(events: &[u32], event: u32) -> bool
    ensures { result ≡ is_among events.now event }
{
    events.iter().any(|e| *e == event)
}

/// Whether there is a deadline, and it isn't above this time.
pub fn is_reached(time: u64, deadline: Option<u64>) -> bool
    ensures { result ≡ is_reached time deadline }
{
    match deadline {
        None => false,
        Some(deadline) => deadline <= time,
    }
}

/// Whether this is what the arm waits for.
pub fn meets(occasion: Occasion, arm: &Arm) -> bool
    ensures { result ≡ meets occasion arm.now }
{
    match occasion {
        Occasion::Posted(event) => is_among(arm.events.numbers(), event),
        Occasion::Reached(time) => is_reached(time, arm.deadline),
    }
}

/// Whether the arm waits, and for this.
pub fn passes(occasion: Occasion, armed: &Armed) -> bool
    ensures { result ≡ passes occasion armed.now }
{
    armed.life.is_waiting() && meets(occasion, &armed.arm)
}

/// Whether the item has an arm that waits, or that has fired and isn't taken.
pub fn has_live(arms: &[Armed], item: u32) -> bool
    ensures { result ≡ has_live arms.now item }
{
    arms.iter().any(|a| a.arm.item == item && a.life.is_live())
}

/// Whether the item has an arm that waits.
pub fn has_waiting(arms: &[Armed], item: u32) -> bool
    ensures { result ≡ has_waiting arms.now item }
{
    arms.iter()
        .any(|a| a.arm.item == item && a.life.is_waiting())
}

/// The first of these events that is ready.
fn first_ready(ready: &[u32], events: &[u32]) -> Option<u32>
    ensures { result ≡ find (is_among ready.now) events.now }
{
    for event in events {
        if is_among(ready, *event) {
            return Some(*event);
        }
    }
    None
}

/// Why an arm would fire now: the first of its events that is ready, else its deadline.
pub fn first_cause(ready: &[u32], now: u64, arm: &Arm) -> Option<Cause>
    ensures { result ≡ first_cause (is_among ready.now) now arm.now }
{
    match first_ready(ready, arm.events.numbers()) {
        Some(event) => Some(Cause::Event(event)),
        None => {
            if is_reached(now, arm.deadline) {
                Some(Cause::Time)
            } else {
                None
            }
        }
    }
}

/// What the taking of a fire is answered.
pub fn told_fire(fire: &Fire) -> TriggerReply
    ensures { result ≡ told_fire fire.now }
{
    TriggerReply::Fire(fire.arm.number, fire.arm.item, fire.arm.queue, fire.cause)
}
