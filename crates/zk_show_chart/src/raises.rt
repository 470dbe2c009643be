use crate::ArrowKind;
use crate::waits::Source;
use std::alloc::Global;
use zk_base::{NoMemory, Seen};

/// The rows in which a signal was written.
#[derive(Drop)]
pub struct Raises {
    rows: Vec<u32>,
}

impl Raises {
    /// Before the first write. It takes no memory.
    pub fn new(alloc: Global) -> Raises {
        Raises {
            rows: Vec::new(alloc),
        }
    }

    /// A write in this row.
    pub fn write(&mut self, row: u32) -> Result<(), NoMemory> {
        self.rows.push(row)?;
        Ok(())
    }

    /// Where a look comes from that saw this: from the write by which the signal was raised, if it was.
    pub fn look(&self, seen: &Seen) -> Source {
        if !seen.raised || seen.stamp == 0 {
            return None;
        }
        let row = self.rows.get(seen.stamp as usize - 1)?;
        Some((ArrowKind::Raise, *row))
    }
}
