ghost use Rattle.std.specs.Prelude.{◌≡◌, ◌<◌, length, IfOk, OnErr};
ghost use Rattle.zk_scenario.specs.Valid.{IsValid};
ghost use Rattle.zk_services.specs.Alone.{plain_machines, plain_shown};
ghost use Rattle.zk_trace.specs.Ending.{lawful_ending};
ghost use Rattle.zk_trace.specs.Form.{IsInForm};
ghost use Rattle.zk_worker.specs.Machines.{machines_of};
ghost use Rattle.zk_world.specs.Over.{IsOver};
ghost use Rattle.zk_world.specs.Traces.{ending_at, world_trace, IsFaithful};
ghost use Rattle.zk_world.specs.World.{world};
ghost use Rattle.zk_world.specs.Sound.{IsSound};
ghost use Rattle.zk_kernel.specs.Rests.{HasGoneOn, HasWantedThere};

use std::alloc::Global;
use std::marker::Model;
use zk_base::NoMemory;
use zk_scenario::Scenario;
use zk_services::Plain;
use zk_trace::Trace;
use zk_worker::{Player, Stepped};
use zk_world::{ending_of, trace_of};

/// What is left of a kernel after its callers: the services on one thread, and each player with its log.
#[derive(Drop)]
pub struct Rest {
    services: Plain,
    players: Vec<Player>,
    scenario: Scenario,
}

impl Model for Rest {
    ghost use Rattle.std.specs.Prelude.{◌≡◌};
    ghost use Rattle.zk_services.specs.Alone.{plain_machines, plain_shown};
    ghost use Rattle.zk_worker.specs.Machines.{machines_of};
    ghost use Rattle.zk_world.specs.World.{world};
    ghost use Rattle.zk_world.specs.Sound.{IsSound};
    ghost use Rattle.zk_kernel.specs.Rests.{Left};

    ghost Value = { Left };

    ghost view = { λ r. record { scenario = r.scenario; world = world (plain_shown r.services) r.players.items } };

    ghost invariant = { λ r. (plain_machines r.services ≡ machines_of r.scenario)
        × IsSound r.scenario (world (plain_shown r.services) r.players.items) };
}

impl Rest {
    /// These services and players, which have come as far as each other.
    pub(crate) fn of(services: Plain, players: Vec<Player>, scenario: Scenario) -> Rest
        requires machines { plain_machines services ≡ machines_of scenario }
        requires sound { IsSound scenario (world (plain_shown services) players.items) }
        ensures rest { result ≡ record { scenario = scenario; world = world (plain_shown services) players.items } }
        ensures sound { IsSound result.scenario result.world }
    {
        Rest {
            services,
            players,
            scenario,
        }
    }

    /// How many players there are.
    pub fn players(&self) -> u32
        ensures { result ≡ length self.now.world.players }
    {
        self.players.len() as u32
    }

    /// Makes the next step of the player of this number: the first of its attempts that is possible.
    ///
    /// Nobody else uses the services any more, so `NotYet` says that none is possible as they stand.
    pub fn step(&mut self, number: u32) -> Result<Stepped, NoMemory>
        requires player { number < length self.old.world.players }
        ensures does { IfOk result (λ stepped. HasGoneOn self.old self.new number stepped) }
        ensures unchanged { OnErr result (self.new ≡ self.old) }
        ensures memory { OnErr result (HasWantedThere self.old number) }
    {
        let player = &mut self.players[number as usize];
        player.step(&self.scenario, &mut self.services)
    }

    /// The trace of all that was done: the histories, the looks and the logs. A refusal of memory gives all of it up.
    ///
    /// Its ending is spent where a player is, ended where all are done and no admission waits, and else stuck; that no
    /// player can go on then isn't said.
    pub fn trace(self, alloc: Global) -> Result<Trace, NoMemory>
        ensures trace { IfOk result (λ trace. trace ≡ world_trace self.scenario (ending_at self.scenario self.world) self.world) }

        // It is a lawful one, but for what its ending says of who could go on, and its ending is what it says itself.
        ensures faithful { IfOk result (λ trace. IsFaithful self.scenario trace) }
        ensures ending { IfOk result (λ trace. trace.ending ≡ lawful_ending self.scenario trace) }
        ensures over { IfOk result (λ trace. IsOver self.scenario trace) }
        ensures form { IfOk result (λ trace. IsInForm self.scenario trace) }
    {
        let Rest {
            services,
            players,
            scenario,
        } = self;
        let ending = ending_of(&services, &scenario, &players);
        trace_of(alloc, &scenario, ending, services, players)
    }
}
