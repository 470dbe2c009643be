//! Threads that raise one signal, and what is made of their writes when it is closed.
ghost use Rattle.std.specs.Prelude.{◌≡◌, ◌≤◌, [], ◌∷◌, length, map, vec_capacity, IfOk};
ghost use Rattle.zk_signal.specs.Counts.{CountsFrom};
ghost use Rattle.zk_signal.specs.Passes.{IsNewPass, players_in};
ghost use Rattle.zk_uses.specs.Raising.{HasRaised, stamp_of};

use std::thread;
use std::thread::Threads;
use zk_base::{NoMemory, push_within};
use zk_signal::{HasStamp, SharedSignal, SigPass, in_stamp_order};

/// A write as its player keeps it.
#[derive(Clone, Copy)]
pub struct Raised {
    pub player: u32,
    pub stamp: u32,
}

impl HasStamp for Raised {
    ghost use Rattle.zk_uses.specs.Raising.{stamp_of};

    ghost stamp_of = { stamp_of };

    fn stamp(&self) -> u32 {
        self.stamp
    }
}

/// A player, its pass, and its writes.
#[derive(Drop)]
pub struct Raiser {
    pub player: u32,
    pub pass: SigPass,
    pub writes: Vec<Raised>,
}

/// Raises the signal so many times, with results from 0 on. There is room for the writes.
pub fn raise_often(signal: &SharedSignal, raiser: Raiser, times: u16) -> Raiser
    requires new { IsNewPass signal.now raiser.player raiser.pass }
    requires times { times ≤ 20000 }
    requires none { raiser.writes.items ≡ [] }
    requires room { times ≤ vec_capacity raiser.writes }
    ensures { HasRaised signal.now raiser.player times result }
{
    let Raiser {
        player,
        mut pass,
        mut writes,
    } = raiser;
    for value in 0..times {
        let stamp = signal.raise(&mut pass, value);
        push_within(&mut writes, Raised { player, stamp });
    }
    Raiser {
        player,
        pass,
        writes,
    }
}

/// Two threads raise the signal so many times each.
pub fn raised_by_two<R: Threads + Sync>(
    rt: &R,
    signal: &SharedSignal,
    first: Raiser,
    second: Raiser,
    times: u16,
) -> (Raiser, Raiser)
    requires times { times ≤ 20000 }
    requires new { IsNewPass signal.now first.player first.pass × IsNewPass signal.now second.player second.pass }
    requires none { (first.writes.items ≡ []) × (second.writes.items ≡ []) }
    requires room { (times ≤ vec_capacity first.writes) × (times ≤ vec_capacity second.writes) }
    ensures first { HasRaised signal.now first.player times result.0 }
    ensures second { HasRaised signal.now second.player times result.1 }
{
    thread::join(
        rt,
        move ||
            requires times { times ≤ 20000 }
            requires new { IsNewPass signal.now first.player first.pass }
            requires none { first.writes.items ≡ [] }
            requires room { times ≤ vec_capacity first.writes }
            ensures { HasRaised signal.entry.now first.player times result }
        { raise_often(signal, first, times) },
        move ||
            requires times { times ≤ 20000 }
            requires new { IsNewPass signal.now second.player second.pass }
            requires none { second.writes.items ≡ [] }
            requires room { times ≤ vec_capacity second.writes }
            ensures { HasRaised signal.entry.now second.player times result }
        { raise_often(signal, second, times) },
    )
}

/// Closes the signal of these two, and gives all writes in the order of their stamps: 1, 2 and on.
pub fn all_in_order(
    signal: SharedSignal,
    first: Raiser,
    second: Raiser,
    times: u16,
) -> Result<Vec<Raised>, NoMemory>
    requires first { HasRaised signal 0 times first }
    requires second { HasRaised signal 1 times second }
    requires all { players_in signal ≡ 0 ∷ 1 ∷ [] }
    ensures { IfOk result (λ writes. CountsFrom 0 (map stamp_of writes.items)) }
{
    let mut pass = first.pass;
    signal.join(&mut pass, second.pass);
    signal.close(pass);
    let mut writes = first.writes;
    writes.extend_from_slice(&second.writes)?;
    in_stamp_order(&mut writes);
    Ok(writes)
}
