ghost use Rattle.std.specs.Prelude.{◌≡◌, ◌+◌, ◌<◌, ◌≤◌, [], ◌∷◌, ◌++◌, vec_len, vec_capacity, OnOk};

use crate::NoMemory;

/// Room for one item more.
pub fn make_room_for_one<T>(items: &mut Vec<T>) -> Result<(), NoMemory>
    ensures room { OnOk result (vec_len items.new < vec_capacity items.new) }
    ensures unchanged { items.new.items ≡ items.old.items }
{
    items.reserve(1)?;
    Ok(())
}

/// One item more, for which there is room: it takes no memory.
pub fn push_within<T: Drop>(items: &mut Vec<T>, item: T)
    requires { vec_len items.old < vec_capacity items.old }
    ensures items { items.new.items ≡ items.old.items ++ item ∷ [] }
    ensures len { vec_len items.new ≡ vec_len items.old + 1 }
    ensures capacity { vec_capacity items.old ≤ vec_capacity items.new }
{
    match items.push(item) {
        Ok(()) => {}
        Err(_) => unreachable!(),
    }
}
