ghost use Rattle.std.specs.Prelude.{◌≡◌, ◌<◌, false, option_map, length, IfOk, IfSome};
ghost use Rattle.zk_time.specs.Timeouts.{nothing_armed, is_armed, deadline_of, queue_of, count_due, arm, disarm, due_first, drop_due, pair_of, IsOrdered};

use crate::arm::Arm;
use crate::deltas::{lengthen, place_for, place_of, shorten, span};
use std::alloc::Global;
use std::marker::Model;
use zk_base::NoMemory;

/// The items that are armed, in the order in which they expire. Zephyr's timeout queue.
///
/// The arms are kept latest first, so that the one that expires next is at the end. Each has the
/// ticks from the deadline before it. There is room for each item, since none is armed twice.
#[derive(Drop)]
pub struct TimeoutList {
    arms: Vec<Arm>,
}

impl Model for TimeoutList {
    ghost use Rattle.std.specs.Prelude.{vec_capacity};
    ghost use Rattle.zk_time.specs.Timeouts.{Timeouts};
    ghost use Rattle.zk_time.specs.Deltas.{seen_of, IsKept};

    ghost Value = { Timeouts };

    ghost view = { λ a. seen_of (vec_capacity a.arms) a.arms.items };

    ghost invariant = { λ a. IsKept (vec_capacity a.arms) a.arms.items };
}

impl TimeoutList {
    /// Nothing is armed, of so many items.
    ///
    /// It takes all the memory that the later calls need.
    pub fn new(alloc: Global, items: u32) -> Result<TimeoutList, NoMemory>
        ensures made { IfOk result (λ t. t ≡ nothing_armed items) }
        ensures ordered { IfOk result IsOrdered }
    {
        let arms = Vec::with_capacity(alloc, items as usize)?;
        Ok(TimeoutList { arms })
    }

    /// How many items are armed.
    pub fn len(&self) -> usize
        ensures count { result ≡ length self.now.live }
        ensures ordered { IsOrdered self.now }
    {
        self.arms.len()
    }

    /// Whether the item is armed.
    pub fn is_armed(&self, item: u32) -> bool
        ensures { result ≡ is_armed self.now item }
    {
        place_of(&self.arms, item).is_some()
    }

    /// The deadline of the item, if it is armed.
    pub fn deadline(&self, item: u32) -> Option<u64>
        ensures { result ≡ deadline_of self.now item }
    {
        let index = place_of(&self.arms, item)?;
        Some(span(&self.arms[index..]))
    }

    /// The queue that the item is to be submitted to, if it is armed.
    pub fn queue(&self, item: u32) -> Option<u32>
        ensures { result ≡ queue_of self.now item }
    {
        let index = place_of(&self.arms, item)?;
        Some(self.arms[index].queue)
    }

    /// How many items have expired by now and are still armed. It looks at no others.
    pub fn count_due(&self, now: u64) -> usize
        ensures { result ≡ count_due self.now now }
    {
        self.arms.len() - place_for(&self.arms, now).index
    }

    /// Arms the item, behind all whose deadline isn't later. Zephyr's `z_add_timeout`.
    ///
    /// When it expires it is to be submitted to the queue.
    pub fn arm(&mut self, item: u32, queue: u32, deadline: u64)
        requires item { item < self.old.items }
        requires free { is_armed self.old item ≡ false }
        ensures next { self.new ≡ arm self.old item queue deadline }
        ensures ordered { IsOrdered self.new }
    {
        let place = place_for(&self.arms, deadline);
        shorten(&mut self.arms, place.index, place.delta);
        let arm = Arm {
            item,
            queue,
            delta: place.delta,
        };
        match self.arms.insert(place.index, arm) {
            Ok(()) => {}
            Err(_) => unreachable!(),
        }
    }

    /// Disarms the item. Whether it was armed. Zephyr's `z_abort_timeout`.
    pub fn disarm(&mut self, item: u32) -> bool
        ensures reply { result ≡ is_armed self.old item }
        ensures next { self.new ≡ disarm self.old item }
        ensures ordered { IsOrdered self.new }
    {
        let Some(index) = place_of(&self.arms, item) else {
            return false;
        };
        let arm = self.arms.remove(index);
        lengthen(&mut self.arms, index, arm.delta);
        true
    }

    /// Takes out what expires next, if its deadline isn't after now: the item and the queue.
    pub fn due(&mut self, now: u64) -> Option<(u32, u32)>
        ensures reply { result ≡ option_map pair_of (due_first now self.old.live) }
        ensures next { self.new ≡ drop_due self.old now }
        ensures ordered { IsOrdered self.new }
    {
        let arm = self.arms.last().copied()?;
        let deadline = arm.delta;
        if now < deadline {
            return None;
        }
        self.arms.pop();
        let end = self.arms.len();
        lengthen(&mut self.arms, end, deadline);
        Some((arm.item, arm.queue))
    }
}
