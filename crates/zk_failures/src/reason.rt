ghost use Rattle.std.specs.Prelude.{MatchOption, IfOk};
ghost use Rattle.zk_trace.specs.Form.{IsInForm};
ghost use Rattle.zk_trace.specs.Lawful.{IsLawful};
ghost use Rattle.zk_failures.specs.Failure.{IsFailure};

use crate::ending::ends_so;
use crate::history::history_failure;
use crate::log::log_failure;
use crate::looks::look_failure;
use crate::place::place_failure;
use crate::site::{Fail, Site};
use std::alloc::Global;
use zk_base::NoMemory;
use zk_scenario::Scenario;
use zk_services::first_services;
use zk_trace::{Trace, stood_lines};

/// The first reason why a trace isn't lawful, and where.
pub fn failure(
    alloc: Global,
    scenario: &Scenario,
    trace: &Trace,
) -> Result<Option<(Fail, Site)>, NoMemory>
    requires form { IsInForm scenario.now trace.now }
    ensures { IfOk result (λ found. MatchOption found (IsLawful scenario.now trace.now)
        (λ f. IsFailure scenario.now trace.now f.0 f.1 × (IsLawful scenario.now trace.now → ⊥))) }
{
    let _valid = scenario.decls();
    let rows = stood_lines(alloc, trace)?;
    if let Some(site) = place_failure(alloc, scenario, &rows)? {
        return Ok(Some((Fail::Place, site)));
    }
    let mut services = first_services(alloc, scenario)?;
    if let Some(row) = history_failure(&mut services, scenario, trace)? {
        return Ok(Some((Fail::History, Site::Row(row))));
    }
    let mut players = Vec::new(alloc);
    if let Some(site) = log_failure(alloc, scenario, trace, &rows, &mut players)? {
        return Ok(Some((Fail::Log, site)));
    }
    if let Some(row) = look_failure(alloc, scenario, trace, &rows)? {
        return Ok(Some((Fail::Look, Site::Row(row))));
    }
    if ends_so(&mut services, scenario, trace, &players)? {
        Ok(None)
    } else {
        Ok(Some((Fail::Ending, Site::Ending)))
    }
}
