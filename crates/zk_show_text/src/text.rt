ghost use Rattle.std.specs.Prelude.{◌≡◌, ◌++◌, map, IfOk, OnOk, OnErr};
ghost use Rattle.zk_show_chart.specs.Bars.{AreInOrder, start};
ghost use Rattle.zk_show_text.specs.Chart.{chart_text};

use crate::header::put_header;
use crate::layout::layout_of;
use crate::rows::put_rows;
use std::alloc::Global;
use zk_base::{NoMemory, put};
use zk_scenario::Scenario;
use zk_show_chart::Chart;

/// A chart as lines of text.
fn text_of(alloc: Global, scenario: &Scenario, chart: &Chart<'_>) -> Result<Vec<u8>, NoMemory>
    requires { AreInOrder (map start chart.now.bars.items) }
    ensures { IfOk result (λ text. text.items ≡ chart_text scenario.now.decls chart.now) }
{
    let mut text = Vec::new(alloc);
    let layout = layout_of(scenario, &chart.rows);
    put_header(&mut text, scenario, &layout, chart.agrees)?;
    put_rows(&mut text, scenario, &layout, &chart.rows, &chart.bars)?;
    Ok(text)
}

/// Appends a chart as lines of text: what the marks mean, the names of the players, and a line for each row.
pub fn put_text(out: &mut Vec<u8>, scenario: &Scenario, chart: &Chart<'_>) -> Result<(), NoMemory>
    // The bars stand by their first rows.
    requires { AreInOrder (map start chart.now.bars.items) }

    ensures text { OnOk result (out.new.items ≡ out.old.items ++ chart_text scenario.now.decls chart.now) }
    ensures unchanged { OnErr result (out.new.items ≡ out.old.items) }
{
    let text = text_of(*out.allocator(), scenario, chart)?;
    put(out, &text)
}
