ghost use Rattle.std.specs.Prelude.{◌≡◌, Some, None, map, replicate, slice_get, slice_set, IsTrue, IfOk, IfSome};

use std::alloc::Global;
use std::marker::Model;
use zk_base::{Listed, NoMemory};
use zk_worker::{Spot, Spots};

/// A slot for each step of a player, in which stands where that step stands.
#[derive(Drop)]
pub struct Slots {
    // By the number of the step; a free slot has none.
    spots: Vec<Option<Spot>>,
}

impl Model for Slots {
    ghost use Rattle.std.specs.Prelude.{List, Option};
    ghost use Rattle.zk_worker.specs.declared.steps.Spot.{Spot};

    ghost Value = { List (Option Spot) };

    ghost view = { λ s. s.spots.items };
}

impl Slots {
    /// So many slots, all of which are free.
    pub fn free(alloc: Global, count: usize) -> Result<Slots, NoMemory>
        ensures { IfOk result (λ slots. slots ≡ replicate count None) }
    {
        let mut spots = Vec::with_capacity(alloc, count)?;
        for _slot in 0..count {
            spots.push(None)?;
        }
        Ok(Slots { spots })
    }

    /// Puts where a step stands in its slot, if that one is there and free, and tells whether it did.
    pub fn put(&mut self, step: u32, spot: Spot) -> bool
        ensures { IsTrue result → (slice_get self.old step ≡ Some None) × (self.new ≡ slice_set self.old step (Some spot)) }
    {
        let step = step as usize;
        if step < self.spots.len() && self.spots[step].is_none() {
            self.spots[step] = Some(spot);
            return true;
        }
        false
    }

    /// Where all steps stand, if no slot is free.
    pub fn all(&self, alloc: Global) -> Result<Option<Spots>, NoMemory>
        ensures { IfOk result (λ all. IfSome all (λ spots. self.now ≡ map Some spots)) }
    {
        let mut known = Vec::with_capacity(alloc, self.spots.len())?;
        for spot in &self.spots {
            match spot {
                Some(spot) => known.push(*spot)?,
                None => return Ok(None),
            }
        }
        Ok(Some(Listed::from_vec(known)))
    }
}
