ghost use Rattle.std.specs.Prelude.{◌≡◌, ◌<◌, ◌^◌, ◌++◌, min, drop, OnOk};
ghost use Rattle.zk_show_svg.specs.Steps.{last_row, tip_front, tip, box_element, box_mark, cross, cross_mark, who_mark, served, said, words_mark, line_mark, step_mark, step_marks};

use crate::attrs::{put_placed, put_sized};
use crate::escape::{put_cut, put_escaped};
use crate::plan::{GUTTER, MARGIN, Plan};
use crate::words::{parted, shown_service};
use zk_base::{LONGEST_NAME, NoMemory};
use zk_paper::Paper;
use zk_show_chart::{Row, has_died, has_failed};

/// From the top of a row to the foot of its letters.
const FOOT: u64 = 15;

/// Appends a box for each step, in order.
pub fn put_rows(out: &mut Paper, plan: &Plan, rows: &[Row<'_>]) -> Result<(), NoMemory>
    ensures text { OnOk result (out.new.put ≡ out.old.put ++ step_marks plan.now 0 rows.now) }
    ensures front { out.new.front ≡ out.old.front }
{
    for (place, row) in rows.iter().enumerate() {
        put_row(out, plan, number_of(place), row)?;
    }
    Ok(())
}

/// A place as a number, and the highest one where it is higher.
pub fn number_of(place: usize) -> u32
    ensures { result ≡ min place last_row }
{
    place.min(u32::MAX as usize) as u32
}

/// Appends the box of a step, with its words, and its line.
#[tactic(auto, unfolding(crate::specs::Steps::step_mark))]
fn put_row(out: &mut Paper, plan: &Plan, place: u32, row: &Row<'_>) -> Result<(), NoMemory>
    ensures text { OnOk result (out.new.put ≡ out.old.put ++ step_mark plan.now place row.now) }
    ensures front { out.new.front ≡ out.old.front }
{
    let top = plan.row_top(place);
    put_tip(out, row)?;
    let words = parted(row.text).1;
    put_box(out, plan, row.player, top, has_failed(words))?;
    put_cross(out, plan, row.player, top, has_died(words))?;
    put_who(out, plan, row.text, top)?;
    put_words(out, plan, row, top)?;
    put_line(out, row.line, top)
}

/// What begins a step.
#[tactic(auto, unfolding(crate::specs::Steps::tip_front))]
fn tip_front() -> &'static [u8]
    ensures { result.now ≡ tip_front }
{
    b"<g class=\"r\"><title>line "
}

/// Appends what is shown where the pointer rests on a step.
#[tactic(auto, unfolding(crate::specs::Steps::tip))]
fn put_tip(out: &mut Paper, row: &Row<'_>) -> Result<(), NoMemory>
    ensures text { OnOk result (out.new.put ≡ out.old.put ++ tip row.now) }
    ensures front { out.new.front ≡ out.old.front }
{
    out.put(tip_front())?;
    out.put_number(u64::from(row.line))?;
    out.put(b", ")?;
    put_escaped(out, row.service)?;
    out.put(b": ")?;
    put_escaped(out, row.text)?;
    out.put(b"</title>")
}

#[tactic(auto, unfolding(crate::specs::Steps::box_mark))]
fn put_box(
    out: &mut Paper,
    plan: &Plan,
    player: u32,
    top: u64,
    failed: bool,
) -> Result<(), NoMemory>
    requires { top < 2 ^ 60 }
    ensures text { OnOk result (out.new.put ≡ out.old.put ++ box_mark plan.now player top failed) }
    ensures front { out.new.front ≡ out.old.front }
{
    let shape = &plan.shape;
    let y = top + u64::from(shape.box_top);
    put_placed(
        out,
        box_element(shape.is_wide, failed),
        plan.box_left(player),
        y,
    )?;
    put_sized(out, u64::from(shape.box_width), u64::from(shape.box_height))?;
    out.put(b" rx=\"")?;
    out.put_number(u64::from(shape.box_round))?;
    out.put(b"\"/>")
}

/// What begins a step's box, or its dot.
fn box_element(is_wide: bool, failed: bool) -> &'static [u8]
    ensures { result.now ≡ box_element is_wide failed }
{
    match (is_wide, failed) {
        (true, false) => b"<rect class=\"b\"",
        (true, true) => b"<rect class=\"b f\"",
        (false, false) => b"<rect class=\"d\"",
        (false, true) => b"<rect class=\"d f\"",
    }
}

/// Appends a cross below a step that ended its player.
fn put_cross(
    out: &mut Paper,
    plan: &Plan,
    player: u32,
    top: u64,
    died: bool,
) -> Result<(), NoMemory>
    requires { top < 2 ^ 60 }
    ensures text { OnOk result (out.new.put ≡ out.old.put ++ cross_mark plan.now player top died) }
    ensures front { out.new.front ≡ out.old.front }
{
    if !died {
        return Ok(());
    }
    put_lines_across(out, plan.box_left(player), top + 25)
}

#[tactic(auto, unfolding(crate::specs::Steps::cross))]
fn put_lines_across(out: &mut Paper, left: u64, top: u64) -> Result<(), NoMemory>
    ensures text { OnOk result (out.new.put ≡ out.old.put ++ cross left top) }
    ensures front { out.new.front ≡ out.old.front }
{
    out.put(b"<path class=\"x\" d=\"M")?;
    out.put_number(left)?;
    out.push(b' ')?;
    out.put_number(top)?;
    out.put(b"l8 8m0 -8l-8 8\"/>")
}

/// Appends whose step it is, where the words stand beside the lanes.
#[tactic(auto, unfolding(crate::specs::Steps::who_mark))]
fn put_who(out: &mut Paper, plan: &Plan, text: &[u8], top: u64) -> Result<(), NoMemory>
    requires { top < 2 ^ 60 }
    ensures text { OnOk result (out.new.put ≡ out.old.put ++ who_mark plan.now text.now top) }
    ensures front { out.new.front ≡ out.old.front }
{
    if plan.shape.is_wide {
        return Ok(());
    }
    put_placed(out, b"<text", u64::from(MARGIN + GUTTER), top + FOOT)?;
    out.push(b'>')?;
    put_escaped(out, parted(text).0)?;
    out.put(b"</text>")
}

/// Appends what was done and answered, and at which service.
#[tactic(auto, unfolding(crate::specs::Steps::words_mark))]
fn put_words(out: &mut Paper, plan: &Plan, row: &Row<'_>, top: u64) -> Result<(), NoMemory>
    requires { top < 2 ^ 60 }
    ensures text { OnOk result (out.new.put ≡ out.old.put ++ words_mark plan.now row.now top) }
    ensures front { out.new.front ≡ out.old.front }
{
    put_placed(out, b"<text", plan.words_left(row.player), top + FOOT)?;
    out.push(b'>')?;
    put_said(
        out,
        shown_service(row.service),
        parted(row.text).1,
        plan.letters(),
    )?;
    out.put(b"</text>")
}

#[tactic(auto, unfolding(crate::specs::Steps::said))]
fn put_said(out: &mut Paper, service: &[u8], words: &[u8], letters: usize) -> Result<(), NoMemory>
    ensures text { OnOk result (out.new.put ≡ out.old.put ++ said service.now words.now letters) }
    ensures front { out.new.front ≡ out.old.front }
{
    if service.is_empty() {
        return put_cut(out, words, letters);
    }
    put_served(out, service, words, letters)
}

#[tactic(auto, unfolding(crate::specs::Steps::served))]
fn put_served(out: &mut Paper, service: &[u8], words: &[u8], letters: usize) -> Result<(), NoMemory>
    ensures text { OnOk result (out.new.put ≡ out.old.put ++ served service.now words.now letters) }
    ensures front { out.new.front ≡ out.old.front }
{
    let room = letters.saturating_sub(service.len()).saturating_sub(1);
    out.put(b"<tspan class=\"s\">")?;
    put_cut(out, service, LONGEST_NAME)?;
    out.put(b"</tspan> ")?;
    put_cut(out, words, room)
}

/// Appends the number of a step's line, and ends the step.
#[tactic(auto, unfolding(crate::specs::Steps::line_mark))]
fn put_line(out: &mut Paper, line: u32, top: u64) -> Result<(), NoMemory>
    requires { top < 2 ^ 60 }
    ensures text { OnOk result (out.new.put ≡ out.old.put ++ line_mark line top) }
    ensures front { out.new.front ≡ out.old.front }
{
    put_placed(
        out,
        b"<text class=\"n\"",
        u64::from(MARGIN + GUTTER - 8),
        top + FOOT,
    )?;
    out.push(b'>')?;
    out.put_number(u64::from(line))?;
    out.put(b"</text></g>\n")
}
