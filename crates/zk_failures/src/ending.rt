ghost use Rattle.std.specs.Prelude.{◌≡◌, ◌↔◌, false, IsTrue, IfOk};
ghost use Rattle.std.specs.List.{list_any, list_all};
ghost use Rattle.zk_worker.specs.Machines.{machines_of};
ghost use Rattle.zk_worker.specs.Shown.{AreShort};
ghost use Rattle.zk_services.specs.Alone.{plain_machines, plain_shown};
ghost use Rattle.zk_trace.specs.Ending.{is_spent_state, is_done_state, lawful_ending, EndsSo};
ghost use Rattle.zk_trace.specs.Form.{IsInForm};
ghost use Rattle.zk_trace.specs.History.{AreLegal};
ghost use Rattle.zk_trace.specs.Place.{IsPlaced};
ghost use Rattle.zk_trace.specs.Shown.{trace_shown};
ghost use Rattle.zk_failures.specs.CanStep.{CanTry, EachCanTry, Steps, NoneSteps};
ghost use Rattle.zk_failures.specs.Played.{ArePlayedOut};

use zk_base::NoMemory;
use zk_gathering::none_waits;
use zk_scenario::Scenario;
use zk_services::Plain;
use zk_trace::{Ending, Trace};
use zk_worker::{Log, MOST_ATTEMPTS, Player, PlayerState, Services};

fn is_spent(log: &Log) -> bool
    ensures { result ≡ is_spent_state log.now.state }
{
    log.state == PlayerState::Spent
}

fn is_done(log: &Log) -> bool
    ensures { result ≡ is_done_state log.now.state }
{
    match log.state {
        PlayerState::Done => true,
        PlayerState::Oops => true,
        PlayerState::Spent => false,
        PlayerState::Standing => false,
    }
}

fn any_spent(logs: &[Log]) -> bool
    ensures { result ≡ list_any (λ log. is_spent_state log.state) logs.now }
{
    logs.iter().any(|log| is_spent(log))
}

fn all_done(logs: &[Log]) -> bool
    ensures { result ≡ list_all (λ log. is_done_state log.state) logs.now }
{
    logs.iter().all(|log| is_done(log))
}

/// How a run ends that ends as these services and logs stand.
fn ending_of(services: &Plain, scenario: &Scenario, trace: &Trace) -> Ending
    requires machines { plain_machines services.now ≡ machines_of scenario.now }
    requires shown { plain_shown services.now ≡ trace_shown trace.now }
    ensures { result ≡ lawful_ending scenario.now trace.now }
{
    let logs = trace.logs.items();
    if any_spent(logs) {
        return Ending::Spent;
    }
    if all_done(logs) && none_waits(services, scenario) {
        Ending::Ended
    } else {
        Ending::Stuck
    }
}

/// Whether a player can make one of its next attempts; if so the first such is made.
fn can_step(services: &mut Plain, scenario: &Scenario, player: &Player) -> Result<bool, NoMemory>
    requires can_try { CanTry (plain_machines services.old) scenario.now (plain_shown services.old) player.now }
    requires short { AreShort (plain_shown services.old) }
    ensures steps { IfOk result (λ steps.
        Steps (plain_machines services.old) scenario.now (plain_shown services.old) player.now steps) }
    ensures still { IfOk result (λ steps. steps ≡ false → plain_shown services.new ≡ plain_shown services.old) }
    ensures machines { plain_machines services.new ≡ plain_machines services.old }
{
    for index in 0..MOST_ATTEMPTS {
        let Some(step) = player.ahead(scenario, index) else {
            return Ok(false);
        };
        if services
            .attempt(player.who(), player.steps(), &step)?
            .is_some()
        {
            return Ok(true);
        }
    }
    Ok(false)
}

/// Whether none of these players can make one of its next attempts.
fn none_steps(
    services: &mut Plain,
    scenario: &Scenario,
    players: &[Player],
) -> Result<bool, NoMemory>
    requires can_try { EachCanTry (plain_machines services.old) scenario.now (plain_shown services.old) players.now }
    requires short { AreShort (plain_shown services.old) }
    ensures { IfOk result (λ none.
        NoneSteps (plain_machines services.old) scenario.now (plain_shown services.old) players.now none) }
{
    for player in players {
        if can_step(services, scenario, player)? {
            return Ok(false);
        }
    }
    Ok(true)
}

/// Whether the run ends as the trace says.
///
/// The services have been played to the end of the trace, and each player stands where its log leads it.
pub fn ends_so(
    services: &mut Plain,
    scenario: &Scenario,
    trace: &Trace,
    players: &[Player],
) -> Result<bool, NoMemory>
    requires form { IsInForm scenario.now trace.now }
    requires placed { IsPlaced scenario.now trace.now }
    requires legal { AreLegal scenario.now trace.now }
    requires machines { plain_machines services.old ≡ machines_of scenario.now }
    requires shown { plain_shown services.old ≡ trace_shown trace.now }
    requires players { ArePlayedOut scenario.now trace.now players.now }
    ensures { IfOk result (λ so. IsTrue so ↔ EndsSo scenario.now trace.now) }
{
    let _valid = scenario.decls();
    if trace.ending != ending_of(services, scenario, trace) {
        return Ok(false);
    }
    if trace.ending == Ending::Spent {
        return Ok(true);
    }
    none_steps(services, scenario, players)
}
