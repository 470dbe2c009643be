ghost use Rattle.std.specs.Prelude.{◌≡◌, ◌<◌, ◌≤◌, ◌^◌, ◌++◌, OnOk};
ghost use Rattle.std.specs.List.{flat_map};
ghost use Rattle.zk_show_svg.specs.Arrows.{arrow_element, kind_number, level, track, way, path_front, path_end, path, arrow_mark};

use crate::plan::Plan;
use zk_base::NoMemory;
use zk_paper::Paper;
use zk_show_chart::{Arrow, ArrowKind, Row};

/// Appends the arrows between these rows.
pub fn put_arrows(
    out: &mut Paper,
    plan: &Plan,
    rows: &[Row<'_>],
    arrows: &[Arrow],
) -> Result<(), NoMemory>
    ensures text { OnOk result (out.new.put ≡ out.old.put ++ flat_map (arrow_mark plan.now rows.now) arrows.now) }
    ensures front { out.new.front ≡ out.old.front }
{
    for arrow in arrows {
        put_arrow(out, plan, rows, arrow)?;
    }
    Ok(())
}

fn put_arrow(out: &mut Paper, plan: &Plan, rows: &[Row<'_>], arrow: &Arrow) -> Result<(), NoMemory>
    ensures text { OnOk result (out.new.put ≡ out.old.put ++ arrow_mark plan.now rows.now arrow.now) }
    ensures front { out.new.front ≡ out.old.front }
{
    let (Some(from), Some(to)) = (rows.get(arrow.from as usize), rows.get(arrow.to as usize)) else {
        return Ok(());
    };
    let way = way_of(plan, arrow, from.player, to.player);
    put_path(out, arrow.kind, &way)
}

#[tactic(auto, unfolding(crate::specs::Arrows::path))]
fn put_path(out: &mut Paper, kind: ArrowKind, way: &Way) -> Result<(), NoMemory>
    ensures text { OnOk result (out.new.put ≡ out.old.put ++ path kind way.now) }
    ensures front { out.new.front ≡ out.old.front }
{
    put_path_front(out, kind, way)?;
    put_path_end(out, way)
}

#[tactic(auto, unfolding(crate::specs::Arrows::path_front))]
fn put_path_front(out: &mut Paper, kind: ArrowKind, way: &Way) -> Result<(), NoMemory>
    ensures text { OnOk result (out.new.put ≡ out.old.put ++ path_front kind way.now) }
    ensures front { out.new.front ≡ out.old.front }
{
    out.put(class_of(kind))?;
    out.put_number(way.from_x)?;
    out.push(b' ')?;
    out.put_number(way.from_y)
}

#[tactic(auto, unfolding(crate::specs::Arrows::path_end))]
fn put_path_end(out: &mut Paper, way: &Way) -> Result<(), NoMemory>
    ensures text { OnOk result (out.new.put ≡ out.old.put ++ path_end way.now) }
    ensures front { out.new.front ≡ out.old.front }
{
    out.push(b'H')?;
    out.put_number(way.beside)?;
    out.push(b'V')?;
    out.put_number(way.to_y)?;
    out.push(b'H')?;
    out.put_number(way.to_x)?;
    out.put(b"\"/>\n")
}

/// What begins the path of an arrow.
pub fn class_of(kind: ArrowKind) -> &'static [u8]
    ensures { result.now ≡ arrow_element kind }
{
    match kind {
        ArrowKind::Admission => b"<path class=\"a a0\" d=\"M",
        ArrowKind::Give => b"<path class=\"a a1\" d=\"M",
        ArrowKind::Message => b"<path class=\"a a2\" d=\"M",
        ArrowKind::Visit => b"<path class=\"a a3\" d=\"M",
        ArrowKind::Completion => b"<path class=\"a a4\" d=\"M",
        ArrowKind::Note => b"<path class=\"a a5\" d=\"M",
        ArrowKind::Raise => b"<path class=\"a a6\" d=\"M",
        ArrowKind::Handover => b"<path class=\"a a7\" d=\"M",
        ArrowKind::Wake => b"<path class=\"a a8\" d=\"M",
        ArrowKind::Delay => b"<path class=\"a a9\" d=\"M",
        ArrowKind::Drop => b"<path class=\"a a10\" d=\"M",
    }
}

/// The way of an arrow: from a box across to where nothing stands beside its lane, down or up there, and across to the other box.
/// A row has one box, so that it crosses none.
#[derive(Clone, Copy, PartialEq, Eq)]
struct Way {
    from_x: u64,
    from_y: u64,
    beside: u64,
    to_y: u64,
    to_x: u64,
}

fn way_of(plan: &Plan, arrow: &Arrow, from: u32, to: u32) -> Way
    ensures { result ≡ way plan.now arrow.now from to }
{
    let level = level_of(plan, arrow.kind);
    let beside = u64::from(plan.shape.gap) + track_of(plan, arrow);
    Way {
        from_x: if to < from {
            plan.box_left(from)
        } else {
            plan.box_right(from)
        },
        from_y: plan.row_top(arrow.from) + level,
        beside: beside + plan.box_right(if to < from { from - 1 } else { from }),
        to_y: plan.row_top(arrow.to) + level,
        to_x: if from < to {
            plan.box_left(to)
        } else {
            plan.box_right(to)
        },
    }
}

/// From the top of a row to where an arrow of a kind begins or ends.
fn level_of(plan: &Plan, kind: ArrowKind) -> u64
    ensures exact { result ≡ level plan.now kind }
    ensures small { result < 2 ^ 20 }
{
    u64::from(plan.shape.arrow_top) + kind_number(kind) * u64::from(plan.shape.arrow_step)
}

/// From the first place where an arrow goes down to the one where this arrow does, so that not all have the same.
fn track_of(plan: &Plan, arrow: &Arrow) -> u64
    ensures exact { result ≡ track plan.now arrow.now }
    ensures small { result < 2 ^ 50 }
{
    let tracks = u32::from(plan.shape.tracks.max(1));
    u64::from(arrow.from % tracks) * u64::from(plan.shape.track)
}

fn kind_number(kind: ArrowKind) -> u64
    ensures number { result ≡ kind_number kind }
    ensures few { result ≤ 4 }
{
    match kind {
        ArrowKind::Admission | ArrowKind::Delay | ArrowKind::Drop => 0,
        ArrowKind::Give | ArrowKind::Note => 1,
        ArrowKind::Message | ArrowKind::Raise => 2,
        ArrowKind::Visit | ArrowKind::Handover => 3,
        ArrowKind::Completion | ArrowKind::Wake => 4,
    }
}
