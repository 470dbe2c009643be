ghost use Rattle.std.specs.Prelude.{◌≡◌, ◌↔◌, ℕ, Some, [], IsTrue, IfOk, IfSome, IfNone, MatchOption, length, slice_get};
ghost use Rattle.zk_worker.specs.declared.steps.Step.{Step};
ghost use Rattle.zk_worker.specs.Follows.{StepMade, Stands, log_of, state_at};
ghost use Rattle.zk_worker.specs.Protocol.{IsAhead, start_at};
ghost use Rattle.zk_worker.specs.Ranges.{HasRoomIn};
ghost use Rattle.zk_trace.specs.declared.stood.Stood.{Stood};
ghost use Rattle.zk_trace.specs.declared.trace.Trace.{Trace};
ghost use Rattle.zk_trace.specs.Form.{IsInForm};
ghost use Rattle.zk_trace.specs.Log.{AreLogged};
ghost use Rattle.zk_trace.specs.Place.{IsPlaced};
ghost use Rattle.zk_trace.specs.Shown.{trace_shown};
ghost use Rattle.zk_trace.specs.Stood.{stood};
ghost use Rattle.zk_failures.specs.First.{IsFirst};
ghost use Rattle.zk_failures.specs.Found.{IsFor};
ghost use Rattle.zk_failures.specs.LogFailure.{IsLed, IsAstray, FailsLog, IsLogFailure};
ghost use Rattle.zk_failures.specs.OtherAnswers.{HasAt, HaveAll, IsOtherAt};
ghost use Rattle.zk_failures.specs.Played.{ArePlayedOut};

use crate::Site;
use crate::found::{Made, found_at};
use crate::same::{is_same_answer, is_same_step};
use std::alloc::Global;
use zk_base::NoMemory;
use zk_scenario::Scenario;
use zk_trace::{Stood, Trace};
use zk_worker::{Answered, Answers, Log, MOST_ATTEMPTS, Player, Spot, Step};

/// Whether an attempt can be the step that was found: a look needn't have had to find the signal raised.
fn is_for(attempt: &Step, step: &Step) -> bool
    ensures { IsTrue result ↔ IsFor attempt.now step.now }
{
    match (attempt, step) {
        (Step::LookSignal(object, must), Step::LookSignal(at, raised)) => {
            object == at && (!*must || *raised)
        }
        _ => is_same_step(attempt, step),
    }
}

/// The first of a player's next attempts that can be the step that was found.
fn attempt_for(scenario: &Scenario, player: &Player, step: &Step) -> Option<Step>
    ensures { MatchOption result
        ((attempt : Step) → IsAhead scenario.now player.now attempt → IsFor attempt step.now → ⊥)
        (λ attempt. IsAhead scenario.now player.now attempt × IsFor attempt step.now) }
{
    for index in 0..MOST_ATTEMPTS {
        let Some(attempt) = player.ahead(scenario, index) else {
            return None;
        };
        if is_for(&attempt, step) {
            return Some(attempt);
        }
    }
    None
}

/// The next attempt of a player that stands at this spot, with its reply.
fn made_at(
    alloc: Global,
    scenario: &Scenario,
    trace: &Trace,
    player: &Player,
    spot: &Spot,
) -> Result<Option<Made>, NoMemory>
    ensures { IfOk result (λ made. MatchOption made
        ((made : StepMade) → Stands (trace_shown trace.now) spot.now made → IsAhead scenario.now player.now made.0 → ⊥)
        (λ made. Stands (trace_shown trace.now) spot.now made × IsAhead scenario.now player.now made.0)) }
{
    let Some((step, reply)) = found_at(alloc, trace, spot)? else {
        return Ok(None);
    };
    match attempt_for(scenario, player, &step) {
        Some(attempt) => Ok(Some((attempt, reply))),
        None => Ok(None),
    }
}

/// Leads a player from its start by the steps of its log, up to the first that it doesn't make there.
fn astray(
    alloc: Global,
    scenario: &Scenario,
    trace: &Trace,
    log: &Log,
    player: &mut Player,
) -> Result<Option<usize>, NoMemory>
    requires { HasRoomIn scenario.now player.old }
    ensures { IfOk result (λ step. (number : ℕ) →
        slice_get trace.now.logs number ≡ Some log.now → start_at scenario.now number ≡ Some player.old →
        MatchOption step (IsLed scenario.now trace.now number log.now (length log.now.steps) player.new)
        (λ step. IsAstray scenario.now trace.now number step)) }
{
    for (step, spot) in log.steps.items().iter().enumerate() {
        let Some((attempt, reply)) = made_at(alloc, scenario, trace, player, spot)? else {
            return Ok(Some(step));
        };
        player.made(scenario, &attempt, &reply);
    }
    Ok(None)
}

/// Whether a player has this answer at a place.
fn has_at(player: &Player, place: usize, answer: &Answered) -> bool
    ensures { IsTrue result ↔ HasAt player.now.answers place answer.now }
{
    match player.answered(place) {
        Some(own) => is_same_answer(&own, answer),
        None => false,
    }
}

/// The first place of a log's answers where a player has another one, or none.
fn other_answer(player: &Player, logged: &Answers) -> Option<usize>
    ensures { MatchOption result (HaveAll player.now.answers logged.now)
        (λ place. IsFirst (IsOtherAt player.now.answers logged.now) place) }
{
    for place in 0..logged.len() {
        let Some(answer) = logged.get(place) else {
            unreachable!()
        };
        if !has_at(player, place, &answer) {
            return Some(place);
        }
    }
    None
}

/// Whether a player has as many answers as its log and stands so.
fn stands_so(scenario: &Scenario, player: &Player, log: &Log) -> bool
    ensures { IsTrue result ↔
        ((length player.now.answers ≡ length log.now.answers) × (state_at scenario.now player.now ≡ log.now.state)) }
{
    player.answer_count() == log.answers.len() && player.state(scenario) == log.state
}

/// Where a player whom all steps of its log lead here has another answer, or else doesn't stand so.
fn other_end(scenario: &Scenario, number: u32, log: &Log, player: &Player) -> Option<Site>
    ensures { (trace : Trace) → IsLed scenario.now trace number log.now (length log.now.steps) player.now →
        MatchOption result (log_of scenario.now player.now ≡ log.now)
        (λ site. FailsLog scenario.now trace number site) }
{
    if let Some(place) = other_answer(player, &log.answers) {
        return Some(Site::Answer(number, place as u64));
    }
    if stands_so(scenario, player, log) {
        None
    } else {
        Some(Site::Player(number))
    }
}

/// The place of the line of a player's step.
fn row_of(rows: &[Stood], player: u32, step: usize) -> Option<usize>
    ensures some { IfSome result (λ place.
        (line : Stood) × (slice_get rows.now place ≡ Some line) × (line.player ≡ player) × (line.step ≡ step)) }
    ensures none { IfNone result ((place : ℕ) (line : Stood) →
        slice_get rows.now place ≡ Some line → line.player ≡ player → line.step ≡ step → ⊥) }
{
    for (place, line) in rows.iter().enumerate() {
        if line.player == player && line.step as usize == step {
            return Some(place);
        }
    }
    None
}

/// The first line of a log that isn't so, by player: a step that its player doesn't make there, another answer, or how the
/// player stands. Where there is none, all players, each where its log leads it.
pub fn log_failure(
    alloc: Global,
    scenario: &Scenario,
    trace: &Trace,
    rows: &[Stood],
    players: &mut Vec<Player>,
) -> Result<Option<Site>, NoMemory>
    requires form { IsInForm scenario.now trace.now }
    requires placed { IsPlaced scenario.now trace.now }
    requires rows { rows.now ≡ stood trace.now }
    requires none { players.old.items ≡ [] }
    ensures { IfOk result (λ site. MatchOption site
        (AreLogged scenario.now trace.now × ArePlayedOut scenario.now trace.now players.new.items)
        (λ site. IsLogFailure scenario.now trace.now site)) }
{
    let _readable = scenario.decls();
    for (place, log) in trace.logs.items().iter().enumerate() {
        let number = place as u32;
        let mut player = Player::new(alloc, scenario, number)?;
        if let Some(step) = astray(alloc, scenario, trace, log, &mut player)? {
            let Some(row) = row_of(rows, number, step) else {
                unreachable!()
            };
            return Ok(Some(Site::Row(row as u64)));
        }
        if let Some(site) = other_end(scenario, number, log, &player) {
            return Ok(Some(site));
        }
        players.push(player)?;
    }
    Ok(None)
}
