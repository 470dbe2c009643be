//! How a ring is closed up: its dead entries go, and who waits has another place in it.
ghost use Rattle.std.specs.Prelude.{◌≡◌, ◌*◌, ◌<◌, ◌≤◌, Some, length, map, All};
ghost use Rattle.zk_queue.specs.Places.{IsHome, StandsIn, LeavesPlaces};
ghost use Rattle.zk_queue.specs.Ring.{living, turned};

use crate::Ticket;
use crate::place::Place;
use crate::ring::Ring;

/// The first entry goes to the end, unless it is dead. There has to be one.
fn turn(ring: &mut Ring, places: &mut [Option<Place>], queue: u32)
    requires some { 0 < length ring.old.entries }
    requires homes { All (IsHome places.old queue) (living ring.old.entries) }
    requires stands { StandsIn places.old queue ring.old }
    ensures next { ring.new.entries ≡ turned ring.old.entries }
    ensures capacity { ring.new.capacity ≡ ring.old.capacity }
    ensures stands { StandsIn places.new queue ring.new }
    ensures places { LeavesPlaces queue places.old places.new }
{
    match ring.pop_entry() {
        Some(ticket) => {
            let position = ring.push(ticket);
            places[ticket.item as usize] = Some(Place { queue, position });
        }
        None => {}
    }
}

/// Takes the dead entries out.
fn close_up(ring: &mut Ring, places: &mut [Option<Place>], queue: u32)
    requires homes { All (IsHome places.old queue) (living ring.old.entries) }
    requires stands { StandsIn places.old queue ring.old }
    ensures next { ring.new.entries ≡ map Some (living ring.old.entries) }
    ensures capacity { ring.new.capacity ≡ ring.old.capacity }
    ensures stands { StandsIn places.new queue ring.new }
    ensures places { LeavesPlaces queue places.old places.new }
{
    for _ in 0..ring.len() {
        turn(ring, places, queue);
    }
}

/// Closes up a ring more than half of whose entries are dead. What waits stays the same.
pub fn make_room(ring: &mut Ring, places: &mut [Option<Place>], queue: u32)
    requires homes { All (IsHome places.old queue) (living ring.old.entries) }
    requires stands { StandsIn places.old queue ring.old }
    ensures line { living ring.new.entries ≡ living ring.old.entries }
    ensures dense { length ring.new.entries ≤ 2 * length (living ring.new.entries) }
    ensures capacity { ring.new.capacity ≡ ring.old.capacity }
    ensures stands { StandsIn places.new queue ring.new }
    ensures places { LeavesPlaces queue places.old places.new }
{
    if ring.is_sparse() {
        close_up(ring, places, queue);
    }
}
