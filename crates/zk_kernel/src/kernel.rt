ghost use Rattle.std.specs.Prelude.{◌≡◌};
ghost use Rattle.zk_scenario.specs.Valid.{IsValid};
ghost use Rattle.zk_cells.specs.Kernels.{IsMadeFor};

use crate::news::News;
use std::marker::Model;
use zk_cells::Cells;
use zk_scenario::Scenario;

/// The services of a scenario, which the threads of its players share by reference.
///
/// Each service has a cell, and a caller one turn at one of them at a time; the signals take no turn. A kernel takes the
/// callers that it was made with, and no others.
#[derive(Drop)]
pub struct Kernel {
    cells: Cells,
    scenario: Scenario,
    news: News,
}

impl Model for Kernel {
    ghost use Rattle.zk_cells.specs.Kernels.{Shared, IsMadeFor};

    ghost Value = { Shared };

    ghost view = { λ k. record { cells = k.cells; scenario = k.scenario } };

    ghost invariant = { λ k. IsMadeFor k.cells k.scenario };
}

impl Kernel {
    /// These services, which are those of this scenario.
    pub(crate) fn of(cells: Cells, scenario: Scenario) -> Kernel
        requires { IsMadeFor cells scenario }
        ensures { result ≡ record { cells = cells; scenario = scenario } }
    {
        Kernel {
            cells,
            scenario,
            news: News::new(),
        }
    }

    /// The services.
    pub(crate) fn cells(&self) -> &Cells
        ensures cells { result.now ≡ self.now.cells }
        ensures made { IsMadeFor self.now.cells self.now.scenario }
    {
        &self.cells
    }

    /// The scenario that the kernel was made for.
    pub fn scenario(&self) -> &Scenario
        ensures scenario { result.now ≡ self.now.scenario }
        ensures valid { IsValid self.now.scenario }
    {
        &self.scenario
    }

    /// For callers that wait for one another.
    pub(crate) fn news(&self) -> &News {
        &self.news
    }

    /// The services and the scenario.
    pub(crate) fn into_parts(self) -> (Cells, Scenario)
        ensures cells { result.0 ≡ self.cells }
        ensures scenario { result.1 ≡ self.scenario }
        ensures made { IsMadeFor self.cells self.scenario }
    {
        (self.cells, self.scenario)
    }
}
