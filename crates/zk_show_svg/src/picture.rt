ghost use Rattle.std.specs.Prelude.{◌≡◌, length, OnOk, OnErr};
ghost use Rattle.zk_scenario.specs.Players.{players};
ghost use Rattle.zk_show_svg.specs.Pictures.{AppendsPicture};

use crate::arrows::put_arrows;
use crate::bars::put_bars;
use crate::frame::put_head;
use crate::lanes::{longest_name, put_lanes, put_names};
use crate::notes::{notes_height, put_notes};
use crate::plan::{MARGIN, Plan};
use crate::rows::{number_of, put_rows};
use crate::ticks::put_ticks;
use std::mem;
use zk_base::NoMemory;
use zk_paper::Paper;
use zk_scenario::Scenario;
use zk_show_chart::Chart;

/// Appends the picture of a chart, with these lines about how the run ended, each of which ends with a line feed.
pub fn put_svg(
    out: &mut Vec<u8>,
    scenario: &Scenario,
    chart: &Chart<'_>,
    notes: &[u8],
) -> Result<(), NoMemory>
    ensures picture { OnOk result (AppendsPicture (length (players scenario.now.decls)) chart.now out.old.items out.new.items) }
    ensures unchanged { OnErr result (out.new.items ≡ out.old.items) }
{
    let alloc = *out.allocator();
    let mut paper = Paper::behind(mem::replace(out, Vec::new(alloc)));
    if let Err(error) = put_picture(&mut paper, scenario, chart, notes) {
        *out = paper.front();
        return Err(error);
    }
    let (whole, put) = paper.whole();
    *out = whole;
    put
}

fn put_picture(
    out: &mut Paper,
    scenario: &Scenario,
    chart: &Chart<'_>,
    notes: &[u8],
) -> Result<(), NoMemory>
    ensures picture { OnOk result (AppendsPicture (length (players scenario.now.decls)) chart.now out.old.put out.new.put) }
    ensures front { out.new.front ≡ out.old.front }
{
    let rows = chart.rows.as_slice();
    let plan = Plan::new(
        scenario.players(),
        number_of(rows.len()),
        longest_name(scenario),
    );
    let height = plan.bottom() + 16 + notes_height(&plan, notes) + u64::from(MARGIN);
    put_head(out, &plan, chart, height)?;
    put_lanes(out, &plan)?;
    put_bars(out, &plan, &chart.bars)?;
    put_ticks(out, &plan, &chart.ticks)?;
    put_arrows(out, &plan, rows, &chart.arrows)?;
    put_names(out, &plan, scenario)?;
    put_rows(out, &plan, rows)?;
    put_notes(out, &plan, notes)?;
    out.put(b"</svg>\n")
}
