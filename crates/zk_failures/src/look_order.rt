ghost use Rattle.std.specs.Prelude.{◌≡◌, ℕ, ◌<◌, max, List, [], ◌∷◌, ◌++◌, length, set, get_or, IfOk, All};
ghost use Rattle.zk_worker.specs.Right.{work_front};
ghost use Rattle.zk_failures.specs.LookOrder.{IsWithin, IsFloor, IsCeiling, named_stamp, lower_of, is_up_to, is_late, is_early, earlies_of, orders_of};

use std::alloc::Global;
use zk_base::NoMemory;
use zk_worker::Spot;

/// What a player has seen in its steps so far.
#[derive(Drop)]
pub struct Floor {
    // How many entries of the work service.
    front: u64,
    // The stamp of each signal, by object number.
    stamps: Vec<u64>,
}

impl Floor {
    /// Nothing was seen, at so many objects.
    fn new(alloc: Global, objects: usize) -> Result<Floor, NoMemory>
        ensures objects { IfOk result (λ floor. length floor.stamps.items ≡ objects) }
        ensures floor { IfOk result (λ floor. IsFloor floor []) }
    {
        let mut stamps = Vec::new(alloc);
        stamps.resize(objects, 0)?;
        Ok(Floor { front: 0, stamps })
    }

    /// Whether a step has seen nothing older, where it is a look.
    fn is_late(&self, spot: Spot) -> bool
        requires { IsWithin (length self.now.stamps.items) spot }
        ensures { (earlier : List Spot) → IsFloor self.now earlier → result ≡ is_late earlier spot }
    {
        match spot {
            Spot::LookItem(_, _, at) => self.front <= at,
            Spot::LookSignal(object, seen) => {
                self.stamps[object as usize] <= u64::from(seen.stamp)
            }
            _ => true,
        }
    }

    /// A step more.
    fn add(&mut self, spot: Spot)
        requires { IsWithin (length self.old.stamps.items) spot }
        ensures objects { length self.new.stamps.items ≡ length self.old.stamps.items }
        ensures floor { (earlier : List Spot) → IsFloor self.old earlier → IsFloor self.new (earlier ++ spot ∷ []) }
    {
        self.front = self.front.max(work_front(spot));
        if let Some((object, stamp)) = named_stamp(spot) {
            raise(&mut self.stamps, object, stamp);
        }
    }
}

/// How many entries of the work service a step shows.
fn work_front(spot: Spot) -> u64
    requires { (objects : ℕ) × IsWithin objects spot }
    ensures { result ≡ work_front spot }
{
    match spot {
        Spot::Work(place) => place + 1,
        Spot::LookItem(_, _, at) => at,
        _ => 0,
    }
}

/// The signal that a step reads or writes, with the stamp.
fn named_stamp(spot: Spot) -> Option<(u32, u64)>
    requires { (objects : ℕ) × IsWithin objects spot }
    ensures { result ≡ named_stamp spot }
{
    match spot {
        Spot::Signal(object, place) => Some((object, place + 1)),
        Spot::LookSignal(object, seen) => Some((object, u64::from(seen.stamp))),
        _ => None,
    }
}

/// Raises the number of an object to this one, where it is lower.
fn raise(numbers: &mut [u64], object: u32, number: u64)
    requires { object < length numbers.old }
    ensures { numbers.new ≡ set numbers.old object (max (get_or numbers.old object 0) number) }
{
    let at = object as usize;
    numbers[at] = numbers[at].max(number);
}

/// The lower of two places, where there are both.
fn lower_of(place: u64, other: Option<u64>) -> u64
    ensures { Some result ≡ lower_of (Some place) other }
{
    match other {
        None => place,
        Some(other) => place.min(other),
    }
}

/// Whether a stamp isn't above that of a write at a place, where there is one.
fn is_up_to(stamp: u32, place: Option<u64>) -> bool
    ensures { result ≡ is_up_to stamp place }
{
    match place {
        None => true,
        Some(place) => u64::from(stamp).saturating_sub(1) <= place,
    }
}

/// Whether a step has seen nothing newer than what its player wrote later, where it is a look.
fn is_early(places: &[Option<u64>], spot: Spot) -> bool
    requires { IsWithin (length places.now) spot }
    ensures { (later : List Spot) → IsCeiling places.now later → result ≡ is_early later spot }
{
    match spot {
        Spot::LookSignal(object, seen) => is_up_to(seen.stamp, places[object as usize]),
        _ => true,
    }
}

/// A step in front of the others.
fn lower(places: &mut [Option<u64>], spot: Spot)
    requires { IsWithin (length places.old) spot }
    ensures objects { length places.new ≡ length places.old }
    ensures ceiling { (later : List Spot) → IsCeiling places.old later → IsCeiling places.new (spot ∷ later) }
{
    if let Spot::Signal(object, place) = spot {
        let at = object as usize;
        places[at] = Some(lower_of(place, places[at]));
    }
}

/// Whether each step of a player has seen nothing newer than what the player wrote later.
fn earlies_of(alloc: Global, objects: usize, spots: &[Spot]) -> Result<Vec<bool>, NoMemory>
    requires { All (IsWithin objects) spots.now }
    ensures { IfOk result (λ earlies. earlies.items ≡ earlies_of spots.now) }
{
    let mut places = Vec::new(alloc);
    places.resize(objects, None)?;
    let mut earlies = Vec::with_capacity(alloc, spots.len())?;
    for step in (0..spots.len()).rev() {
        earlies.push(is_early(&places, spots[step]))?;
        lower(&mut places, spots[step]);
    }
    earlies.reverse();
    Ok(earlies)
}

/// Whether each step of a player has seen nothing older than the earlier ones, and nothing newer than what the player
/// wrote later.
pub fn orders_of(alloc: Global, objects: usize, spots: &[Spot]) -> Result<Vec<bool>, NoMemory>
    requires { All (IsWithin objects) spots.now }
    ensures { IfOk result (λ orders. orders.items ≡ orders_of spots.now) }
{
    let earlies = earlies_of(alloc, objects, spots)?;
    let mut floor = Floor::new(alloc, objects)?;
    let mut orders = Vec::with_capacity(alloc, spots.len())?;
    for (step, spot) in spots.iter().enumerate() {
        orders.push(floor.is_late(*spot) && earlies[step])?;
        floor.add(*spot);
    }
    Ok(orders)
}
