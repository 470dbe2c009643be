ghost use Rattle.std.specs.Prelude.{◌≡◌, ◌+◌, ◌<◌, ◌≤◌, ◌≢◌, length, vec_len, vec_capacity, All, HoldsAt, IfSome, IfNone, nat_lt, position};
ghost use Rattle.std.specs.List.{list_any, position_or_len};
ghost use Rattle.zk_base.specs.Slots.{is_of, led};

/// The first of those who wait with one priority.
#[derive(Clone, Copy)]
pub struct First {
    /// The priority as a number from 0 on.
    pub rank: u8,
    /// The place of the entry that began the wait.
    pub place: u64,
}

/// Where the first of this rank stands, if one of it waits.
pub fn place_of_rank(firsts: &[First], rank: u8) -> Option<usize>
    ensures within { IfSome result (λ at. at < length firsts.now) }
    ensures found { IfSome result (HoldsAt (λ f. f.rank ≡ rank) firsts.now) }
    ensures none { IfNone result (All (λ f. f.rank ≢ rank) firsts.now) }
{
    firsts.iter().position(|first| first.rank == rank)
}

/// Whether somebody waits with this rank.
fn has_rank(firsts: &[First], rank: u8) -> bool
    ensures { result ≡ list_any (is_of rank) firsts.now }
{
    firsts.iter().any(|first| first.rank == rank)
}

/// Where the first stands whose rank is above this one, if there is one.
fn first_above(firsts: &[First], rank: u8) -> Option<usize>
    ensures { result ≡ position (λ f. nat_lt rank f.rank) firsts.now }
{
    firsts.iter().position(|first| rank < first.rank)
}

/// Where one of this rank is put in, behind all whose rank isn't above it.
fn place_above(firsts: &[First], rank: u8) -> usize
    ensures place { result ≡ position_or_len (λ f. nat_lt rank f.rank) firsts.now }
    ensures within { result ≤ length firsts.now }
{
    match first_above(firsts, rank) {
        Some(at) => at,
        None => firsts.len(),
    }
}

/// One waits with this rank at this place, behind all so far: it is the first where none of its rank waits. There is room.
pub fn lead(firsts: &mut Vec<First>, rank: u8, place: u64)
    requires { vec_len firsts.old < vec_capacity firsts.old }
    ensures items { firsts.new.items ≡ led rank place firsts.old.items }
    ensures len { vec_len firsts.new ≤ vec_len firsts.old + 1 }
    ensures capacity { vec_capacity firsts.old ≤ vec_capacity firsts.new }
{
    if has_rank(firsts, rank) {
        return;
    }
    let at = place_above(firsts, rank);
    match firsts.insert(at, First { rank, place }) {
        Ok(()) => {}
        Err(_) => unreachable!(),
    }
}
