ghost use Rattle.std.specs.Prelude.{◌≡◌, OnOk};
ghost use Rattle.zk_base.specs.Fronts.{StaysInFront};

use crate::attrs::{put_placed, put_sized};
use crate::legend::put_legend;
use crate::plan::{MARGIN, Plan, TOP};
use crate::style::{DEFS, STYLE};
use zk_base::NoMemory;
use zk_paper::Paper;
use zk_show_chart::Chart;
use zk_trace::ending_word;

/// Appends what stands before the lanes: what the picture is, its style, its legend. It is so many pixels high.
pub fn put_head(
    out: &mut Paper,
    plan: &Plan,
    chart: &Chart<'_>,
    height: u64,
) -> Result<(), NoMemory>
    ensures more { OnOk result (StaysInFront out.old.put out.new.put) }
    ensures front { out.new.front ≡ out.old.front }
{
    put_opening(out, plan.width(), height)?;
    put_title(out, plan, chart)?;
    put_ground(out, plan, height)?;
    put_heading(out, plan, chart)?;
    put_warning(out, chart.agrees)
}

/// Appends what the picture is, for who can't see it.
fn put_title(out: &mut Paper, plan: &Plan, chart: &Chart<'_>) -> Result<(), NoMemory>
    ensures more { OnOk result (StaysInFront out.old.put out.new.put) }
    ensures front { out.new.front ≡ out.old.front }
{
    out.put(b"<title id=\"title\">A run of zk, ")?;
    put_outcome(out, plan, chart)?;
    out.put(b"</title>\n<desc id=\"desc\">")?;
    out.put(b"A lane for each player and a row for each step; time goes down.</desc>\n")
}

/// Appends the style, and the ground on which all else stands.
fn put_ground(out: &mut Paper, plan: &Plan, height: u64) -> Result<(), NoMemory>
    ensures more { OnOk result (StaysInFront out.old.put out.new.put) }
    ensures front { out.new.front ≡ out.old.front }
{
    out.put(STYLE)?;
    out.put(DEFS)?;
    put_placed(out, b"<rect class=\"g\"", 0, 0)?;
    put_sized(out, plan.width(), height)?;
    out.put(b"/>\n")
}

/// Appends how the run ended, and the legend.
fn put_heading(out: &mut Paper, plan: &Plan, chart: &Chart<'_>) -> Result<(), NoMemory>
    ensures more { OnOk result (StaysInFront out.old.put out.new.put) }
    ensures front { out.new.front ≡ out.old.front }
{
    out.put(b"<text class=\"h\" x=\"16\" y=\"30\">")?;
    put_outcome(out, plan, chart)?;
    out.put(b"</text>\n")?;
    put_legend(out, chart)
}

fn put_opening(out: &mut Paper, width: u64, height: u64) -> Result<(), NoMemory>
    ensures more { OnOk result (StaysInFront out.old.put out.new.put) }
    ensures front { out.new.front ≡ out.old.front }
{
    out.put(
        b"<svg xmlns=\"http://www.w3.org/2000/svg\" role=\"img\" aria-labelledby=\"title desc\"",
    )?;
    put_sized(out, width, height)?;
    out.put(b" viewBox=\"0 0 ")?;
    out.put_number(width)?;
    out.push(b' ')?;
    out.put_number(height)?;
    out.put(b"\">\n")
}

/// Appends how the run ended, and how large it is.
fn put_outcome(out: &mut Paper, plan: &Plan, chart: &Chart<'_>) -> Result<(), NoMemory>
    ensures more { OnOk result (StaysInFront out.old.put out.new.put) }
    ensures front { out.new.front ≡ out.old.front }
{
    out.put(ending_word(chart.ending))?;
    out.put(b": ")?;
    put_count(out, chart.rows.len() as u64, b" step")?;
    out.put(b" of ")?;
    put_count(out, u64::from(plan.lanes), b" player")
}

/// Appends how many there are, and what.
fn put_count(out: &mut Paper, count: u64, what: &[u8]) -> Result<(), NoMemory>
    ensures more { OnOk result (StaysInFront out.old.put out.new.put) }
    ensures front { out.new.front ≡ out.old.front }
{
    out.put_number(count)?;
    out.put(what)?;
    if count != 1 {
        out.push(b's')?;
    }
    Ok(())
}

/// Appends that no order of the rows agrees, where it is so.
fn put_warning(out: &mut Paper, agrees: bool) -> Result<(), NoMemory>
    ensures more { OnOk result (StaysInFront out.old.put out.new.put) }
    ensures front { out.new.front ≡ out.old.front }
{
    if agrees {
        return Ok(());
    }
    put_placed(
        out,
        b"<text class=\"w\"",
        u64::from(MARGIN),
        u64::from(TOP) - 12,
    )?;
    out.put(
        b">No order of the steps agrees with each service and each player: they stand service by service.</text>\n",
    )
}
