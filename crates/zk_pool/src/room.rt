ghost use Rattle.std.specs.Prelude.{◌≡◌, []};

/// The room in which a pool's items come back. It stays with whoever made the pool: the threads that share the pool don't see it.
#[derive(Drop)]
pub struct Room<T: Drop> {
    pub(crate) items: Vec<T>,
    ghost empty: { items.items ≡ [] },
}
