ghost use Rattle.std.specs.Prelude.{MatchOption, IfOk};
ghost use Rattle.zk_show_order.specs.Order.{HasNoOrder, IsOrder};

use crate::drawing::Drawing;
use crate::lanes::lanes_of;
use std::alloc::Global;
use zk_base::NoMemory;
use zk_trace::Stood;

/// The places of all lines, each once, in an order that each player's steps and each service's history agree with; none exactly
/// where there is no such order.
///
/// The players go round robin, as in a run that `replay` plays, so that the lines of its trace come out as they were played.
pub fn order_of(alloc: Global, lines: &[Stood]) -> Result<Option<Vec<usize>>, NoMemory>
    ensures { IfOk result (λ found. MatchOption found (HasNoOrder lines.now) (λ order. IsOrder lines.now order.items)) }
{
    let Some(lanes) = lanes_of(alloc, lines)? else {
        return Ok(None);
    };
    let mut drawing = Drawing::new(alloc, lines, lanes)?;
    drawing.draw_all()?;
    Ok(drawing.order())
}
