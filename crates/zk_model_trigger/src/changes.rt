ghost use Rattle.std.specs.Prelude.{◌≡◌, ◌+◌, ◌-◌, ◌^◌, ◌<◌, ◌≤◌, ◌++◌, nat_lt, position, option_map, length, map, vec_len, vec_capacity, IfOk, OnOk, OnErr};
ghost use Rattle.zk_model_trigger.specs.Arms.{cause_by, deadline_of, chosen, fire_of, life_after, change_all, born, fires_with};
ghost use Rattle.zk_model_trigger.specs.Machine.{posted, unposted};
ghost use Rattle.zk_model_trigger.specs.Putting.{put_in};

use crate::questions::{is_among, passes};
use crate::{Arm, Armed, Cause, Change, Fire, Life, Occasion};
use std::alloc::Global;
use zk_base::{NoMemory, push_within};

/// The life of an arm after a change.
fn life_after(change: Change, armed: &Armed) -> Life
    ensures { result ≡ life_after change armed.now }
{
    match change {
        Change::Fire(occasion) if passes(occasion, armed) => Life::Fired(occasion.cause()),
        Change::Cancel(item) if armed.arm.item == item && armed.life.is_waiting() =>
            Life::Cancelled,
        Change::Take(item) if armed.arm.item == item && armed.life.is_fired() => Life::Taken,
        _ => armed.life,
    }
}

/// The arms are changed.
pub fn change_all(arms: &mut [Armed], change: Change)
    ensures { arms.new ≡ change_all change arms.old }
{
    for index in 0..arms.len() {
        let life = life_after(change, &arms[index]);
        arms[index].life = life;
    }
}

/// The time of an arm's deadline; 0 where it has none.
fn deadline_of(arm: &Arm) -> u64
    ensures { result ≡ deadline_of arm.now }
{
    arm.deadline.unwrap_or(0)
}

/// The place of the first arm whose deadline is above this one.
fn later(arms: &[Arm], deadline: u64) -> Option<usize>
    ensures { result ≡ position (λ a. nat_lt deadline (deadline_of a)) arms.now }
{
    arms.iter().position(|a| deadline < deadline_of(a))
}

/// One more that waited for this, where it fires in order.
fn put_in(arms: &mut Vec<Arm>, occasion: Occasion, arm: &Arm) -> Result<(), NoMemory>
    ensures { IfOk result (λ _. arms.new.items ≡ put_in occasion arm.now arms.old.items) }
{
    let place = match occasion {
        Occasion::Posted(_) => arms.len(),
        Occasion::Reached(_) => later(arms, deadline_of(arm)).unwrap_or(arms.len()),
    };
    arms.insert(place, *arm)?;
    Ok(())
}

/// Those that wait for this, in the order in which they fire.
pub fn chosen(alloc: Global, arms: &[Armed], occasion: Occasion) -> Result<Vec<Arm>, NoMemory>
    ensures { IfOk result (λ found. found.items ≡ chosen occasion arms.now) }
{
    let mut found = Vec::new(alloc);
    for index in 0..arms.len() {
        if passes(occasion, &arms[index]) {
            put_in(&mut found, occasion, &arms[index].arm)?;
        }
    }
    Ok(found)
}

/// These have fired with this cause. There is room.
pub fn add_fires(fires: &mut Vec<Fire>, arms: &[Arm], cause: Cause)
    requires { vec_len fires.old + length arms.now ≤ vec_capacity fires.old }
    ensures { fires.new.items ≡ fires.old.items ++ map (fire_of cause) arms.now }
{
    for arm in arms {
        push_within(fires, Fire { arm: *arm, cause });
    }
}

/// The life of an arm that has this cause to fire at once.
pub fn born(cause: Option<Cause>) -> Life
    ensures { result ≡ born cause }
{
    match cause {
        None => Life::Waiting,
        Some(cause) => Life::Fired(cause),
    }
}

/// The arm has fired where it has a cause.
pub fn add_fire(fires: &mut Vec<Fire>, arm: &Arm, cause: Option<Cause>) -> Result<(), NoMemory>
    ensures ok { OnOk result (fires.new.items ≡ fires.old.items ++ fires_with arm.now cause) }
    ensures err { OnErr result (fires.new.items ≡ fires.old.items) }
{
    let Some(cause) = cause else {
        return Ok(());
    };
    fires.push(Fire { arm: *arm, cause })?;
    Ok(())
}

/// The event is ready.
pub fn add_event(ready: &mut Vec<u32>, event: u32) -> Result<(), NoMemory>
    ensures ok { OnOk result (ready.new.items ≡ posted ready.old.items event) }
    ensures err { OnErr result (ready.new.items ≡ ready.old.items) }
{
    if is_among(ready, event) {
        return Ok(());
    }
    ready.push(event)?;
    Ok(())
}

/// The event isn't ready.
pub fn remove_event(ready: &mut Vec<u32>, event: u32)
    ensures { ready.new.items ≡ unposted ready.old.items event }
{
    ready.retain(|e| *e != event);
}

/// The time of a deadline so many ticks from now on, if a number is given.
pub fn deadline_after(now: u64, ticks: Option<u32>) -> Option<u64>
    requires { now + 2 ^ 32 ≤ 2 ^ 64 }
    ensures { result ≡ option_map (λ t. now + t) ticks }
{
    match ticks {
        None => None,
        Some(ticks) => Some(now + u64::from(ticks)),
    }
}
