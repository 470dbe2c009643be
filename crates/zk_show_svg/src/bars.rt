ghost use Rattle.std.specs.Prelude.{◌≡◌, ◌<◌, ◌^◌, ◌++◌, OnOk};
ghost use Rattle.std.specs.List.{flat_map};
ghost use Rattle.zk_show_svg.specs.Bars.{inset, bar_element, bar_left, bar_width, bar_top, bar_bottom, bar_mark};

use crate::attrs::{put_placed, put_sized};
use crate::plan::{Plan, ROW};
use zk_base::NoMemory;
use zk_paper::Paper;
use zk_show_chart::{Bar, BarKind};

/// Runs and scripts that lie in more than so many others stand where the last one does.
const MOST_DEPTH: u32 = 2;

/// Appends the bars.
pub fn put_bars(out: &mut Paper, plan: &Plan, bars: &[Bar]) -> Result<(), NoMemory>
    ensures text { OnOk result (out.new.put ≡ out.old.put ++ flat_map (bar_mark plan.now) bars.now) }
    ensures front { out.new.front ≡ out.old.front }
{
    for bar in bars {
        put_bar(out, plan, bar)?;
    }
    Ok(())
}

#[tactic(auto, unfolding(crate::specs::Bars::bar_mark))]
fn put_bar(out: &mut Paper, plan: &Plan, bar: &Bar) -> Result<(), NoMemory>
    ensures text { OnOk result (out.new.put ≡ out.old.put ++ bar_mark plan.now bar.now) }
    ensures front { out.new.front ≡ out.old.front }
{
    let (x, width) = across(plan, bar);
    let (top, bottom) = along(plan, bar);
    put_placed(out, class_of(bar), x, top)?;
    put_sized(out, width, bottom.saturating_sub(top).max(2))?;
    out.put(b" rx=\"3\"/>\n")
}

fn class_of(bar: &Bar) -> &'static [u8]
    ensures { result.now ≡ bar_element bar.now bar.now.kind }
{
    let is_deep = MOST_DEPTH < bar.depth;
    match bar.kind {
        BarKind::Wait => b"<rect class=\"wait\"",
        BarKind::Run => b"<rect class=\"run\"",
        BarKind::Script if is_deep => b"<rect class=\"script deep\"",
        BarKind::Script => b"<rect class=\"script\"",
    }
}

/// The left edge of a bar, and its width.
fn across(plan: &Plan, bar: &Bar) -> (u64, u64)
    ensures left { result.0 ≡ bar_left plan.now bar.now bar.now.kind }
    ensures width { result.1 ≡ bar_width plan.now bar.now bar.now.kind }
{
    let lane = plan.lane(bar.player);
    let shape = &plan.shape;
    if bar.kind == BarKind::Wait {
        return (
            lane + u64::from(shape.wait_left),
            u64::from(shape.wait_width),
        );
    }
    let inset = inset_of(plan, bar);
    (
        lane + u64::from(shape.run_left) + inset,
        u64::from(shape.run_width).saturating_sub(inset),
    )
}

/// How much further in a run or a script begins than one that lies in no other.
fn inset_of(plan: &Plan, bar: &Bar) -> u64
    ensures exact { result ≡ inset plan.now bar.now }
    ensures small { result < 2 ^ 20 }
{
    u64::from(bar.depth.min(MOST_DEPTH)) * u64::from(plan.shape.run_inset)
}

/// The top of a bar, and its bottom. A wait leaves the boxes free where it begins and ends.
fn along(plan: &Plan, bar: &Bar) -> (u64, u64)
    ensures top { result.0 ≡ bar_top plan.now bar.now bar.now.kind }
    ensures bottom { result.1 ≡ bar_bottom plan.now bar.now bar.now.last }
{
    let first = plan.row_top(bar.first);
    let box_top = u64::from(plan.shape.box_top);
    let box_bottom = box_top + u64::from(plan.shape.box_height);
    let is_wait = bar.kind == BarKind::Wait;
    let top = first + if is_wait { box_bottom } else { 1 };
    match bar.last {
        None => (top, plan.bottom() + 6),
        Some(last) if is_wait => (top, plan.row_top(last) + box_top),
        Some(last) if bar.kind == BarKind::Script => (top, plan.row_top(last).saturating_sub(1)),
        Some(last) => (top, plan.row_top(last) + u64::from(ROW) - 1),
    }
}
