ghost use Rattle.std.specs.Prelude.{◌≡◌, ◌<◌, length, map, IfOk};
ghost use Rattle.zk_scenario.specs.Players.{players};
ghost use Rattle.zk_kernel.specs.Opened.{AreNewCallers};

use crate::caller::Caller;
use crate::dealing::deal_all;
use crate::kernel::Kernel;
use std::alloc::Global;
use zk_base::{NoMemory, Who};
use zk_cells::open_cells;
use zk_scenario::Scenario;
use zk_services::{first_players, first_services};
use zk_worker::Player;

/// Who these players are.
fn whos_of(alloc: Global, players: &[Player]) -> Result<Vec<Who>, NoMemory>
    ensures { IfOk result (λ made. made.items ≡ map (λ at. at.who) players.now) }
{
    let mut made = Vec::new(alloc);
    for player in players {
        made.push(player.who())?;
    }
    Ok(made)
}

impl Kernel {
    /// A kernel with the services of a scenario, at which nothing was done, and one caller for each of its players, in order.
    ///
    /// The scenario has at least one player. The kernel keeps a copy of it.
    pub fn new(alloc: Global, scenario: &Scenario) -> Result<(Kernel, Vec<Caller>), NoMemory>
        requires some { 0 < length (players scenario.now.decls) }
        ensures scenario { IfOk result (λ made. made.0.scenario ≡ scenario.now) }
        ensures callers { IfOk result (λ made. AreNewCallers made.0 made.1.items) }
    {
        let own = scenario.copy(alloc)?;
        let services = first_services(alloc, &own)?;
        let players = first_players(alloc, &own)?;
        let whos = whos_of(alloc, &players)?;
        let (cells, undealt) = open_cells(alloc, services, &whos)?;
        let kernel = Kernel::of(cells, own);
        let callers = deal_all(alloc, &kernel, players, undealt)?;
        Ok((kernel, callers))
    }
}
