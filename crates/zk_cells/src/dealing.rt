ghost use Rattle.std.specs.Prelude.{IfOk};
ghost use Rattle.zk_cells.specs.Dealt.{AllTaken, IsDealt};

use crate::cells::Cells;
use crate::passes::Passes;
use std::alloc::Global;
use zk_base::{NoMemory, push_within};
use zk_bus::Channel;
use zk_msgq::Msgq;
use zk_objects::Objects;
use zk_sem::Sem;
use zk_signal::SigPass;
use zk_subq::Observer;
use zk_time::Clock;
use zk_turn::Pass;
use zk_work::Work;

/// The passes that no caller has yet.
#[derive(Drop)]
pub struct Undealt {
    // One for each player that has none, in order.
    pub(crate) work: Vec<Pass<Work>>,
    pub(crate) clock: Vec<Pass<Clock>>,
    pub(crate) table: Vec<Pass<Objects>>,
    // Those of each semaphore, by object number; an object of another kind has none. The others likewise.
    pub(crate) sems: Vec<Vec<Pass<Sem>>>,
    pub(crate) msgqs: Vec<Vec<Pass<Msgq>>>,
    pub(crate) signals: Vec<Vec<SigPass>>,
    pub(crate) chans: Vec<Vec<Pass<Channel>>>,
    pub(crate) observers: Vec<Vec<Pass<Observer>>>,
}

/// Takes the last pass out of each list of a kind.
fn deal_row<P: Drop>(alloc: Global, lists: &mut Vec<Vec<P>>) -> Result<Vec<Option<P>>, NoMemory>
    ensures { IfOk result (λ row. AllTaken lists.old.items row.items lists.new.items) }
{
    let mut row = Vec::with_capacity(alloc, lists.len())?;
    for index in 0..lists.len() {
        push_within(&mut row, lists[index].pop());
    }
    Ok(row)
}

/// Takes out the passes of these cells for the last player that has none.
pub fn deal_passes(alloc: Global, cells: &Cells, undealt: &mut Undealt) -> Result<Passes, NoMemory>
    ensures { IfOk result (λ passes. IsDealt cells.now.most undealt.old passes undealt.new) }
{
    Ok(Passes {
        work: undealt.work.pop(),
        looked: 0,
        clock: undealt.clock.pop(),
        table: undealt.table.pop(),
        sems: deal_row(alloc, &mut undealt.sems)?,
        msgqs: deal_row(alloc, &mut undealt.msgqs)?,
        signals: deal_row(alloc, &mut undealt.signals)?,
        chans: deal_row(alloc, &mut undealt.chans)?,
        observers: deal_row(alloc, &mut undealt.observers)?,
        notes: Vec::with_capacity(alloc, cells.most as usize)?,
    })
}
