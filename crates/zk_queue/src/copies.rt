ghost use Rattle.std.specs.Prelude.{◌≡◌, replicate, IfOk};

use std::alloc::Global;
use zk_base::NoMemory;

/// So many copies of the value.
pub fn copies<T: Copy + Drop>(alloc: Global, value: T, count: u32) -> Result<Vec<T>, NoMemory>
    ensures { IfOk result (λ copies. copies.items ≡ replicate count value) }
{
    let mut copies = Vec::new(alloc);
    copies.resize(count as usize, value)?;
    Ok(copies)
}
