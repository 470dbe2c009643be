ghost use Rattle.std.specs.Prelude.{◌≡◌, ◌↔◌, IfOk};
ghost use Rattle.zk_trace.specs.Form.{IsInForm};
ghost use Rattle.zk_trace.specs.Lawful.{IsLawful};
ghost use Rattle.zk_check.specs.declared.verdict.Checked.TheVariants.{Lawful};
ghost use Rattle.zk_check.specs.Checking.{IfNot, IsNamed};

use std::alloc::Global;
use zk_base::NoMemory;
use zk_failures::{Fail, failure, line_at};
use zk_scenario::Scenario;
use zk_trace::Trace;

/// What a check answers.
#[derive(Clone, Copy, PartialEq, Eq)]
pub enum Checked {
    /// The trace is lawful for its scenario.
    Lawful,
    /// It isn't: the number of the line that fails, from 1, in the scenario's text followed by the trace's, and why. The
    /// reasons are tested in the order of `Fail`, and the line is the first that the first of them names.
    Not(u32, Fail),
}

/// Whether a trace in form is lawful for its scenario.
///
/// It works from what the trace says alone: the services play its entries again, and the players the steps of their logs.
pub fn check(alloc: Global, scenario: &Scenario, trace: &Trace) -> Result<Checked, NoMemory>
    requires form { IsInForm scenario.now trace.now }
    ensures lawful { IfOk result (λ checked. (checked ≡ Lawful) ↔ IsLawful scenario.now trace.now) }
    ensures named { IfOk result (λ checked. IfNot checked (IsNamed scenario.now trace.now)) }
{
    match failure(alloc, scenario, trace)? {
        None => Ok(Checked::Lawful),
        Some((fail, site)) => {
            let line = line_at(alloc, scenario, trace, site)?;
            Ok(Checked::Not(line, fail))
        }
    }
}
