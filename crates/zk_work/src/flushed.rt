ghost use Rattle.std.specs.Prelude.{◌≡◌, ◌<◌, None, false, length, replicate, IfOk};
ghost use Rattle.std.specs.Option.{option_map_or};
ghost use Rattle.zk_work.specs.Engine.{is_number};
ghost use Rattle.zk_work.specs.Flushed.{no_numbers, holds, beside_run, noted};

use std::alloc::Global;
use zk_base::NoMemory;

/// The numbers of the admissions of an item that flushes wait for: of those that wait or run.
/// There are two of these at most.
#[derive(Clone, Copy)]
pub struct Flushed {
    first: Option<u64>,
    second: Option<u64>,
}

/// No number of any item.
pub fn no_flushed(alloc: Global, items: u32) -> Result<Vec<Flushed>, NoMemory>
    ensures { IfOk result (λ flushed. flushed.items ≡ replicate items no_numbers) }
{
    let mut flushed = Vec::new(alloc);
    flushed.resize(
        items as usize,
        Flushed {
            first: None,
            second: None,
        },
    )?;
    Ok(flushed)
}

/// Whether it is this number.
fn is_number(number: u64, found: Option<u64>) -> bool
    ensures { result ≡ is_number number found }
{
    match found {
        None => false,
        Some(it) => it == number,
    }
}

/// Whether a flush waits for the admission of this number.
pub fn holds(flushed: Flushed, number: Option<u64>) -> bool
    ensures { result ≡ option_map_or (holds flushed) number false }
{
    match number {
        None => false,
        Some(number) => is_number(number, flushed.first) || is_number(number, flushed.second),
    }
}

/// Whether the first number is that of the run.
fn keeps_first(flushed: Flushed, running: Option<u64>) -> bool
    ensures { result ≡ option_map_or (λ n. is_number n flushed.first) running false }
{
    match running {
        None => false,
        Some(number) => is_number(number, flushed.first),
    }
}

/// One number more: it takes the place of one that isn't that of the run.
fn beside_run(flushed: Flushed, running: Option<u64>, number: u64) -> Flushed
    ensures { result ≡ beside_run flushed running number }
{
    if keeps_first(flushed, running) {
        Flushed {
            second: Some(number),
            ..flushed
        }
    } else {
        Flushed {
            first: Some(number),
            ..flushed
        }
    }
}

/// A flush waits for the item's admission of this number, if there is one.
pub fn note(flushed: &mut Vec<Flushed>, item: u32, running: Option<u64>, number: Option<u64>)
    requires { item < length flushed.old.items }
    ensures { flushed.new.items ≡ noted flushed.old.items item running number }
{
    if let Some(number) = number {
        flushed[item as usize] = beside_run(flushed[item as usize], running, number);
    }
}
