use crate::failed::{FailedCheck, failed_in};
use crate::permission::permission_of;
use crate::run::Run;
use crate::stand::{Stand, call_at};
use crate::story::{Saying, Story};
use crate::words::Told;
use std::alloc::Global;
use zk_base::NoMemory;
use zk_line::need_at;
use zk_model_bus::OopsWhy;
use zk_scenario::Ref;

/// Tells in which call an oops has ended a player.
pub fn tell_oops_place(story: &mut Story, run: &Run<'_>, player: usize) {
    let Some(stand) = run.stand(player) else {
        return story.say(Saying::of(Told::NowhereLed));
    };
    if let Some(place) = stand.top() {
        story.say(Saying::of(Told::CalledIn).line(place));
    }
}

/// Tells more of the check that has ended a player, and what would mend it.
pub fn tell_oops(
    alloc: Global,
    story: &mut Story,
    run: &Run<'_>,
    player: usize,
) -> Result<(), NoMemory> {
    match (run.stand(player), failed_check(run, player)) {
        (Some(stand), Some(failed)) => tell_failed(alloc, story, run, player, stand, failed),
        _ => Ok(()),
    }
}

fn failed_check(run: &Run<'_>, player: usize) -> Option<FailedCheck> {
    failed_in(run.trace, run.log(player)?)
}

fn tell_failed(
    alloc: Global,
    story: &mut Story,
    run: &Run<'_>,
    player: usize,
    stand: &Stand,
    failed: FailedCheck,
) -> Result<(), NoMemory> {
    let Some(object) = failed.object else {
        tell_no_object(story, run, player, stand);
        return Ok(());
    };
    let mut saying = Saying::of(Told::OtherKind)
        .player(player)
        .object(Ref::Known(object));
    saying.need = failed.need;
    match failed.why {
        OopsWhy::NoObject => {}
        OopsWhy::WrongKind => story.say(saying),
        OopsWhy::NotGranted => return tell_not_granted(alloc, story, run, player, object),
        OopsWhy::NotInit => story.say(saying.telling(Told::InitWould)),
    }
    Ok(())
}

// Who took the permission away and where, or what would have given it.
fn tell_not_granted(
    alloc: Global,
    story: &mut Story,
    run: &Run<'_>,
    player: usize,
    object: u32,
) -> Result<(), NoMemory> {
    let saying = Saying::of(Told::AllowWould)
        .player(player)
        .object(Ref::Known(object));
    let Some((other, step)) = permission_of(run, player, object).lost else {
        story.say(saying);
        story.say(saying.telling(Told::GrantWould));
        return Ok(());
    };
    let told = if other == player {
        Told::GaveUp
    } else {
        Told::Revoked
    };
    story.say(saying.telling(told).player(other));
    if let Some(log) = run.log(other) {
        let place = call_at(alloc, run.scenario, run.trace, other, log, step as usize)?;
        if let Some(place) = place {
            story.say(Saying::of(Told::InThisLine).line(place));
        }
    }
    story.say(Saying::of(Told::AtItsStep).number(u64::from(step)));
    story.say(saying.telling(Told::GrantAgain));
    Ok(())
}

// The name is that of the need that the last step checked.
fn tell_no_object(story: &mut Story, run: &Run<'_>, player: usize, stand: &Stand) {
    let passed = run
        .steps(player)
        .saturating_sub(stand.begun)
        .saturating_sub(1);
    if let Some(named) = named_behind(run, stand, passed) {
        story.say(Saying::of(Told::NotDeclared).object(named));
    }
}

// What the need behind so many that are passed names.
fn named_behind(run: &Run<'_>, stand: &Stand, passed: usize) -> Option<Ref> {
    let call = stand.top()?.call(run.scenario)?;
    let passed = u32::try_from(passed).ok()?;
    Some(need_at(call, passed)?.object)
}
