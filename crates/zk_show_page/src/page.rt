ghost use Rattle.std.specs.Prelude.{◌≡◌, ◌++◌, OnOk};
ghost use Rattle.zk_show_page.specs.Pages.{page_text};

use crate::head::HEAD;
use crate::script::SCRIPT;
use zk_base::{NoMemory, put};
use zk_scenario::Scenario;
use zk_show_chart::Chart;
use zk_show_json::put_json;
use zk_worker::Log;

/// Appends the page of a run: the run as `put_json` has it, between what stands in each page.
#[tactic(auto, unfolding(crate::specs::Pages::page_text))]
pub fn put_page(
    out: &mut Vec<u8>,
    scenario: &Scenario,
    logs: &[Log],
    chart: &Chart<'_>,
    told: &[u8],
    source: &[u8],
) -> Result<(), NoMemory>
    ensures { OnOk result (out.new.items ≡ out.old.items ++ page_text scenario.now.decls logs.now chart.now told.now source.now) }
{
    put(out, HEAD)?;
    put_json(out, scenario, logs, chart, told, source)?;
    put(out, SCRIPT)
}
