ghost use Rattle.std.specs.Prelude.{◌≡◌, ◌++◌, OnOk, OnErr};
ghost use Rattle.zk_show_json.specs.Values.{headed, ended, json_text};

use crate::answers::put_answers;
use crate::chart::put_chart;
use crate::escape::put_quoted;
use crate::names::put_players;
use crate::told::put_told;
use std::alloc::Global;
use std::mem;
use zk_base::NoMemory;
use zk_paper::Paper;
use zk_scenario::Scenario;
use zk_show_chart::Chart;
use zk_trace::{ending_word, truth_word};
use zk_worker::Log;

/// Appends a run as one value in JSON on a line of its own: its chart, its players' answered calls, these lines about how it ended,
/// each of which ends with a line feed, and the text of its scenario.
pub fn put_json(
    out: &mut Vec<u8>,
    scenario: &Scenario,
    logs: &[Log],
    chart: &Chart<'_>,
    told: &[u8],
    source: &[u8],
) -> Result<(), NoMemory>
    ensures text { OnOk result (out.new.items ≡ out.old.items ++ json_text scenario.now.decls logs.now chart.now told.now source.now) }
    ensures unchanged { OnErr result (out.new.items ≡ out.old.items) }
{
    let alloc = *out.allocator();
    let mut paper = Paper::behind(mem::replace(out, Vec::new(alloc)));
    if let Err(error) = put_value(&mut paper, alloc, scenario, logs, chart, told, source) {
        *out = paper.front();
        return Err(error);
    }
    let (whole, put) = paper.whole();
    *out = whole;
    put
}

#[tactic(auto, unfolding(crate::specs::Values::json_text))]
fn put_value(
    out: &mut Paper,
    alloc: Global,
    scenario: &Scenario,
    logs: &[Log],
    chart: &Chart<'_>,
    told: &[u8],
    source: &[u8],
) -> Result<(), NoMemory>
    ensures text { OnOk result (out.new.put ≡ out.old.put ++ json_text scenario.now.decls logs.now chart.now told.now source.now) }
    ensures front { out.new.front ≡ out.old.front }
{
    put_head(out, scenario, chart)?;
    put_chart(out, chart)?;
    put_end(out, alloc, scenario, logs, told, source)
}

/// Appends how the run ended, whether its rows agree with all, and its players.
#[tactic(auto, unfolding(crate::specs::Values::headed))]
fn put_head(out: &mut Paper, scenario: &Scenario, chart: &Chart<'_>) -> Result<(), NoMemory>
    ensures text { OnOk result (out.new.put ≡ out.old.put ++ headed scenario.now.decls chart.now) }
    ensures front { out.new.front ≡ out.old.front }
{
    out.put(b"{\"ending\":\"")?;
    out.put(ending_word(chart.ending))?;
    out.put(b"\",\"agrees\":")?;
    out.put(truth_word(chart.agrees))?;
    out.put(b",\"players\":")?;
    put_players(out, scenario)
}

/// Appends what was answered, what is told, and the text of the scenario.
#[tactic(auto, unfolding(crate::specs::Values::ended))]
fn put_end(
    out: &mut Paper,
    alloc: Global,
    scenario: &Scenario,
    logs: &[Log],
    told: &[u8],
    source: &[u8],
) -> Result<(), NoMemory>
    ensures text { OnOk result (out.new.put ≡ out.old.put ++ ended scenario.now.decls logs.now told.now source.now) }
    ensures front { out.new.front ≡ out.old.front }
{
    out.put(b",\"answers\":")?;
    put_answers(out, alloc, scenario, logs)?;
    out.put(b",\"told\":")?;
    put_told(out, told)?;
    out.put(b",\"scenario\":")?;
    put_quoted(out, source)?;
    out.put(b"}\n")
}
