ghost use Rattle.std.specs.Prelude.{◌≡◌, map, IfOk};
ghost use Rattle.zk_trace.specs.Form.{IsInForm};
ghost use Rattle.zk_show_chart.specs.Bars.{start, AreInOrder};
ghost use Rattle.zk_show_chart.specs.Charts.{IsChart};

use crate::lines::entry_lines;
use crate::rows::{drawn_order, lines_at, rows_of};
use crate::{Chart, arrows_of, bars_of, ticks_of};
use std::alloc::Global;
use zk_base::NoMemory;
use zk_scenario::Scenario;
use zk_trace::{Trace, stood_lines};

/// The chart of a trace, whose text begins at this line of the whole input, counted from 1.
pub fn chart_of<'a>(
    alloc: Global,
    scenario: &Scenario,
    trace: &Trace,
    text: &'a [u8],
    first_line: u32,
) -> Result<Chart<'a>, NoMemory>
    requires { IsInForm scenario.now trace.now }
    ensures chart { IfOk result (λ chart. IsChart scenario.now trace.now text.now first_line chart) }
    ensures order { IfOk result (λ chart. AreInOrder (map start chart.bars.items)) }
{
    let _readable = scenario.decls();
    let stood = stood_lines(alloc, trace)?;
    let (order, agrees) = drawn_order(alloc, &stood)?;
    let drawn = lines_at(alloc, &stood, &order)?;
    let lines = entry_lines(alloc, &stood, text, first_line)?;
    let rows = rows_of(alloc, &stood, &lines, &order)?;
    let bars = bars_of(alloc, scenario, trace, &drawn)?;
    let arrows = arrows_of(alloc, scenario, trace, &drawn)?;
    let ticks = ticks_of(alloc, trace, &drawn)?;
    Ok(Chart {
        ending: trace.ending,
        agrees,
        rows,
        bars,
        arrows,
        ticks,
    })
}
