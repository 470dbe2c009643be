ghost use Rattle.std.specs.Prelude.{◌≡◌};
ghost use Rattle.std.specs.List.{list_any};
ghost use Rattle.zk_worker.specs.Follows.{is_spent_at};
ghost use Rattle.zk_worker.specs.Machines.{machines_of};
ghost use Rattle.zk_services.specs.Alone.{plain_machines, plain_shown};
ghost use Rattle.zk_world.specs.Traces.{all_done, ending_at};
ghost use Rattle.zk_world.specs.World.{world};

use zk_gathering::none_waits;
use zk_scenario::Scenario;
use zk_services::Plain;
use zk_trace::Ending;
use zk_worker::Player;

fn is_any_spent(scenario: &Scenario, players: &[Player]) -> bool
    ensures { result ≡ list_any (is_spent_at scenario.now) players.now }
{
    players.iter().any(|player| player.is_spent(scenario))
}

fn are_all_done(players: &[Player]) -> bool
    ensures { result ≡ all_done players.now }
{
    players.iter().all(|player| player.is_done())
}

/// How it ended that came to these services and players. Ask it once no player can go on: stuck is told of any that could
/// as well.
pub fn ending_of(services: &Plain, scenario: &Scenario, players: &[Player]) -> Ending
    requires { plain_machines services.now ≡ machines_of scenario.now }
    ensures { result ≡ ending_at scenario.now (world (plain_shown services.now) players.now) }
{
    if is_any_spent(scenario, players) {
        return Ending::Spent;
    }
    if are_all_done(players) && none_waits(services, scenario) {
        Ending::Ended
    } else {
        Ending::Stuck
    }
}
