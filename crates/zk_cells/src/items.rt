ghost use Rattle.std.specs.Prelude.{◌≡◌, true, Some};
ghost use Rattle.zk_worker.specs.Attempt.{is_in_range};
ghost use Rattle.zk_worker.specs.declared.steps.Step.TheVariants.{LookItem};
ghost use Rattle.zk_worker.specs.Machines.{item_of};
ghost use Rattle.zk_cells.specs.Desks.{cells_machines};

use crate::cells::Cells;

/// The number of an item at the work service, by its object number.
pub fn item_at(cells: &Cells, object: u32) -> u32
    requires { is_in_range (cells_machines cells.now) (LookItem object) ≡ true }
    ensures { item_of (cells_machines cells.now) object ≡ Some result }
{
    let Some(Some(item)) = cells.items.get(object as usize) else {
        unreachable!()
    };
    *item
}
