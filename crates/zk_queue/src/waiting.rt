ghost use Rattle.std.specs.Prelude.{◌≡◌, ◌<◌, ◌==◌, None, [], ◌∷◌, ◌++◌, length, map, replicate, set, slice_index_or, All, IfOk, IfSome};
ghost use Rattle.std.specs.List.{list_any};
ghost use Rattle.std.specs.Option.{option_map_or};
ghost use Rattle.zk_model_work.specs.Lists.{first};
ghost use Rattle.zk_queue.specs.Line.{has_number, without, number_among};
ghost use Rattle.zk_queue.specs.Ring.{living};

use crate::Ticket;
use crate::close_up::make_room;
use crate::copies::copies;
use crate::place::Place;
use crate::ring::Ring;
use std::alloc::Global;
use std::marker::Model;
use zk_base::NoMemory;

/// What waits for each queue, where an item waits at most once.
///
/// The ring without its dead entries is the line, and an item's place is where its entry stands.
#[derive(Drop)]
pub struct Waiting {
    rings: Vec<Ring>,
    places: Vec<Option<Place>>,
}

impl Model for Waiting {
    ghost use Rattle.std.specs.Prelude.{length};
    ghost use Rattle.zk_queue.specs.Line.{InLine};
    ghost use Rattle.zk_queue.specs.Places.{lines_of, IsKept};

    ghost Value = { InLine };

    ghost view = { λ a. record { items = length a.places.items; lines = lines_of a.rings.items } };

    ghost invariant = { λ a. IsKept a.places.items a.rings.items };
}

/// So many empty rings, each of this capacity.
fn empty_rings(alloc: Global, capacity: usize, queues: u32) -> Result<Vec<Ring>, NoMemory>
    ensures { IfOk result (λ rings. rings.items
        ≡ replicate queues (record { entries = []; front = 0; capacity = capacity })) }
{
    let mut rings = Vec::new(alloc);
    for queue in 0..queues {
        let ring = Ring::new(alloc, capacity)?;
        rings.push(ring)?;
    }
    Ok(rings)
}

/// Whether a ticket that waits in one of these rings has this number.
fn has_number(rings: &[Ring], number: u64) -> bool
    ensures { result
        ≡ list_any (λ ring. list_any (has_number number) (living ring.entries)) rings.now }
{
    rings.iter().any(|ring| ring.has_number(number))
}

impl Waiting {
    /// Nothing waits, of so many items, for so many queues.
    pub fn new(alloc: Global, items: u32, queues: u32) -> Result<Waiting, NoMemory>
        ensures { IfOk result (λ w. w ≡ record { items = items; lines = replicate queues [] }) }
    {
        let rings = empty_rings(alloc, 2 * items as usize, queues)?;
        let places = copies(alloc, None, items)?;
        Ok(Waiting { rings, places })
    }

    /// The number of the admission by which the item waits, if it waits.
    pub fn number(&self, item: u32) -> Option<u64>
        requires { item < self.now.items }
        ensures { result ≡ number_among item self.now.lines }
    {
        let place = self.places[item as usize]?;
        let ring = &self.rings[place.queue as usize];
        let ticket = ring.ticket(place.position)?;
        Some(ticket.number)
    }

    /// Whether the admission of this number waits.
    pub fn has_number(&self, number: u64) -> bool
        ensures { result ≡ list_any (list_any (has_number number)) self.now.lines }
    {
        has_number(&self.rings, number)
    }

    /// Whether nothing waits for the queue.
    pub fn is_empty(&self, queue: u32) -> bool
        requires { queue < length self.now.lines }
        ensures { result ≡ (length (slice_index_or self.now.lines queue []) == 0) }
    {
        let ring = &self.rings[queue as usize];
        ring.is_empty()
    }

    /// The lowest that waits for the queue.
    pub fn first(&self, queue: u32) -> Option<Ticket>
        requires { queue < length self.now.lines }
        ensures { result ≡ first (slice_index_or self.now.lines queue []) }
    {
        let ring = &self.rings[queue as usize];
        ring.first()
    }

    /// The item waits for the queue, behind all that wait already.
    pub fn admit(&mut self, item: u32, queue: u32, number: u64)
        requires item { item < self.old.items }
        requires queue { queue < length self.old.lines }
        requires free { number_among item self.old.lines ≡ None }
        requires above { All (λ t. t.number < number) (slice_index_or self.old.lines queue []) }
        ensures next { self.new.lines ≡ set self.old.lines queue
            (slice_index_or self.old.lines queue [] ++ record { item = item; number = number } ∷ []) }
        ensures items { self.new.items ≡ self.old.items }
    {
        let ring = &mut self.rings[queue as usize];
        make_room(ring, &mut self.places, queue);
        let position = ring.push(Ticket { item, number });
        self.places[item as usize] = Some(Place { queue, position });
    }

    /// The item waits no longer. The number of its admission, if it waited.
    pub fn drop_item(&mut self, item: u32) -> Option<u64>
        requires { item < self.old.items }
        ensures reply { result ≡ number_among item self.old.lines }
        ensures next { self.new.lines ≡ map (without item) self.old.lines }
        ensures gone { number_among item self.new.lines ≡ None }
        ensures items { self.new.items ≡ self.old.items }
    {
        let place = self.places[item as usize]?;
        self.places[item as usize] = None;
        let ring = &mut self.rings[place.queue as usize];
        Some(ring.drop_at(place.position))
    }

    /// The lowest that waits for the queue waits no longer.
    pub fn begin(&mut self, queue: u32) -> Option<Ticket>
        requires { queue < length self.old.lines }
        ensures lowest { result ≡ first (slice_index_or self.old.lines queue []) }
        ensures next { self.new.lines
            ≡ option_map_or (λ t. map (without t.item) self.old.lines) result self.old.lines }
        ensures gone { IfSome result (λ t. number_among t.item self.new.lines ≡ None) }
        ensures rising { IfSome result (λ t. All (λ later. t.number < later.number)
            (slice_index_or self.new.lines queue [])) }
        ensures item { IfSome result (λ t. t.item < self.old.items) }
        ensures items { self.new.items ≡ self.old.items }
    {
        let ring = &mut self.rings[queue as usize];
        let ticket = ring.pop()?;
        self.places[ticket.item as usize] = None;
        Some(ticket)
    }
}
