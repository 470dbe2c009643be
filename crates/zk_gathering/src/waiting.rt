ghost use Rattle.std.specs.Prelude.{◌≡◌};
ghost use Rattle.zk_base.specs.Legal.{state_after};
ghost use Rattle.zk_model_work.specs.Machine.{work_machine};
ghost use Rattle.zk_worker.specs.Machines.{work_start_of, machines_of};
ghost use Rattle.zk_trace.specs.Ending.{none_waits};
ghost use Rattle.zk_services.specs.Alone.{plain_machines, plain_shown};

use zk_base::Service;
use zk_scenario::Scenario;
use zk_services::Plain;

/// The busy flag of an item that stands in a queue's line.
const QUEUED: u32 = 4;

/// Whether no admission waits, by the items' busy flags.
pub fn none_waits(services: &Plain, scenario: &Scenario) -> bool
    requires { plain_machines services.now ≡ machines_of scenario.now }
    ensures { result ≡ none_waits
        (state_after work_machine (work_start_of scenario.now) (plain_shown services.now).work) }
{
    let _valid = scenario.decls();
    let _legal = services.work.history();
    for item in 0..scenario.items().len() {
        if services.work.word(item as u32) & QUEUED != 0 {
            return false;
        }
    }
    true
}
