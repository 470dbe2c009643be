ghost use Rattle.std.specs.Prelude.{◌≡◌};
ghost use Rattle.zk_scenario.specs.Says.{AlwaysSays};
ghost use Rattle.zk_scenario.specs.Spelling.{text_of};

use crate::Scenario;

/// Scenarios with one text are equal.
pub fn tells_them_apart(first: &Scenario, second: &Scenario)
    ensures { text_of first.now ≡ text_of second.now → first.now ≡ second.now }
{
    first.decls();
    second.decls();
}

/// A line to which no reason applies says something, so no line is refused but for a reason that applies to it.
pub fn always_says()
    ensures { AlwaysSays }
{}
