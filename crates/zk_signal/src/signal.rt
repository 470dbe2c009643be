ghost use Rattle.std.specs.Prelude.{◌≡◌};

use crate::rule::{Beginning, SignalRule};
use crate::views::View;
use atomic_table::Table;
use std::alloc::Global;

// The words of a signal: that of the newest write which has settled, and the number of stamps that were drawn.
pub(crate) const WORD: usize = 0;

pub(crate) const COUNTER: usize = 1;

/// A signal whose writes and looks take no turn. Whoever has a pass writes and looks by one call, which waits for nobody.
///
/// Every call of a signal takes passes of that signal alone. A signal is shared by reference; `close` takes it apart.
#[derive(Drop)]
pub struct SharedSignal {
    // There is no slot, so what one would hold is of any type.
    pub(crate) table: Table<u64, View, Beginning, SignalRule, Global>,
    ghost shape: { (table.shared.table_id.words ≡ 2) × (table.shared.table_id.slots ≡ 0) },
}
