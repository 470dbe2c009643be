ghost use Rattle.std.specs.Prelude.{◌≡◌, ◌≤◌};

use crate::rule::{Beginning, TurnRule};
use crate::views::View;
use atomic_table::Table;
use std::alloc::Global;
use std::sync::atomic::AtomicU64;
use zk_base::Service;

/// A service that one caller at a time may use: whoever draws a ticket gets its turn when that number is served.
///
/// Every call of a cell takes passes and turns of that cell alone. A cell is shared by reference; `close` takes it apart.
#[derive(Drop)]
pub struct Cell<S: Service> {
    // The words are the tickets drawn, the ticket served, the length of the history, and those that the service publishes;
    // the slot holds the service.
    pub(crate) table: Table<
        Option<S>,
        View<S::Op, S::Reply, S::State>,
        Beginning<S>,
        TurnRule<S>,
        Global,
    >,
    // How many callers sleep, or are about to.
    pub(crate) sleepers: AtomicU64,
    ghost shape: { (3 ≤ table.shared.table_id.words) × (table.shared.table_id.slots ≡ 1) },
}
