ghost use Rattle.std.specs.Prelude.{◌≡◌, ℕ, ◌<◌, length, map, All, IfOk};
ghost use Rattle.std.specs.List.{range_with_len};
ghost use Rattle.zk_show_order.specs.Order.{lines_at};
ghost use Rattle.zk_show_chart.specs.Lines.{line_said};
ghost use Rattle.zk_show_chart.specs.Rows.{AreDrawn, row_said, said_of};

use crate::Row;
use crate::lines::Line;
use std::alloc::Global;
use zk_base::NoMemory;
use zk_show_order::order_of;
use zk_trace::Stood;

/// The places of some lines in the order in which they are drawn, and whether it agrees with all: where none does, it is that of
/// the text.
pub fn drawn_order(alloc: Global, stood: &[Stood]) -> Result<(Vec<usize>, bool), NoMemory>
    ensures { IfOk result (λ drawn. AreDrawn stood.now drawn.1 drawn.0.items) }
{
    match order_of(alloc, stood)? {
        Some(order) => Ok((order, true)),
        None => Ok((text_order(alloc, stood.len())?, false)),
    }
}

/// So many places, from the first on.
fn text_order(alloc: Global, count: usize) -> Result<Vec<usize>, NoMemory>
    ensures { IfOk result (λ places. places.items ≡ range_with_len 0 count) }
{
    let mut places = Vec::with_capacity(alloc, count)?;
    for place in 0..count {
        places.push(place)?;
    }
    Ok(places)
}

/// The lines at these places.
pub fn lines_at(alloc: Global, stood: &[Stood], order: &[usize]) -> Result<Vec<Stood>, NoMemory>
    requires { All (λ place. place < length stood.now) order.now }
    ensures { IfOk result (λ drawn. drawn.items ≡ lines_at stood.now order.now) }
{
    let mut drawn = Vec::with_capacity(alloc, order.len())?;
    for place in order {
        drawn.push(stood[*place])?;
    }
    Ok(drawn)
}

/// The row of the step at a place, by its line in the text.
#[tactic(auto, using(crate::proofs::SaidLines::said_at_place))]
fn row_at<'a>(stood: &[Stood], lines: &[Line<'a>], place: usize) -> Row<'a>
    requires within { place < length stood.now }
    requires lines { length lines.now ≡ length stood.now }
    ensures { row_said result ≡ said_of stood.now (map line_said lines.now) place }
{
    let step = stood[place];
    let line = lines[place];
    Row {
        player: step.player,
        step: step.step,
        line: line.number,
        service: line.service,
        text: line.text,
    }
}

/// A row for each of these places.
pub fn rows_of<'a>(
    alloc: Global,
    stood: &[Stood],
    lines: &[Line<'a>],
    order: &[usize],
) -> Result<Vec<Row<'a>>, NoMemory>
    requires within { All (λ place. place < length stood.now) order.now }
    requires lines { length lines.now ≡ length stood.now }
    ensures { IfOk result (λ rows. map row_said rows.items ≡ map (said_of stood.now (map line_said lines.now)) order.now) }
{
    let mut rows = Vec::with_capacity(alloc, order.len())?;
    for place in order {
        rows.push(row_at(stood, lines, *place))?;
    }
    Ok(rows)
}
