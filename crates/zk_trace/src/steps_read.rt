ghost use Rattle.std.specs.Prelude.{◌≡◌, ℕ, List, [], None, map, length, replicate, IsTrue, OnOk, IfOk, IfSome};
ghost use Rattle.std.specs.List.{range_with_len};
ghost use Rattle.zk_base.specs.Order.{by_key};
ghost use Rattle.zk_trace.specs.Slots.{Puts, HoldAll};
ghost use Rattle.zk_trace.specs.Stood.{sorted_spots, steps_of, put_line, put_lines};

use crate::slots::Slots;
use crate::stood::Stood;
use std::alloc::Global;
use zk_base::{Listed, NoMemory};
use zk_worker::Spots;

/// Where the steps of each player stand, by the lines of all.
///
/// In a trace of a run the steps of a player are numbered from 0, and each stands once: they are put in slots. Only where
/// that fails the lines are sorted.
pub fn read_steps(alloc: Global, lines: &[Stood], players: u32) -> Result<Vec<Spots>, NoMemory>
    ensures { IfOk result (λ steps. steps.items ≡ map (steps_of lines.now) (range_with_len 0 players)) }
{
    if let Some(steps) = placed_steps(alloc, lines, players)? {
        return Ok(steps);
    }
    sorted_steps(alloc, lines, players)
}

/// The steps by their slots; nothing where some player's steps aren't numbered from 0, each of them once.
fn placed_steps(
    alloc: Global,
    lines: &[Stood],
    players: u32,
) -> Result<Option<Vec<Spots>>, NoMemory>
    ensures { IfOk result (λ placed. IfSome placed (λ steps. steps.items ≡ map (steps_of lines.now) (range_with_len 0 players))) }
{
    let Some(slots) = placed(alloc, lines, players)? else {
        return Ok(None);
    };
    all_spots(alloc, &slots)
}

/// Each line in the slot of its step; nothing where some line has none, or none that is free.
fn placed(alloc: Global, lines: &[Stood], players: u32) -> Result<Option<Vec<Slots>>, NoMemory>
    ensures { IfOk result (λ placed. IfSome placed (λ slots. HoldAll lines.now players slots.items)) }
{
    let counts = counts_of(alloc, lines, players)?;
    let mut slots = free_slots(alloc, &counts)?;
    for line in lines {
        if !place(&mut slots, *line) {
            return Ok(None);
        }
    }
    Ok(Some(slots))
}

/// How many lines each player has. Nothing is proved of it but for how many players: who has too few slots is sorted.
fn counts_of(alloc: Global, lines: &[Stood], players: u32) -> Result<Vec<usize>, NoMemory>
    ensures { IfOk result (λ counts. length counts.items ≡ players) }
{
    let mut counts: Vec<usize> = vec![in alloc; 0; players as usize]?;
    for line in lines {
        let player = line.player as usize;
        if player < counts.len() {
            counts[player] = counts[player].saturating_add(1);
        }
    }
    Ok(counts)
}

/// Free slots, for each player as many as it has lines.
fn free_slots(alloc: Global, counts: &[usize]) -> Result<Vec<Slots>, NoMemory>
    ensures { IfOk result (λ slots. slots.items ≡ map (λ count. replicate count None) counts.now) }
{
    let mut slots = Vec::with_capacity(alloc, counts.len())?;
    for count in counts {
        slots.push(Slots::free(alloc, *count)?)?;
    }
    Ok(slots)
}

/// Puts a line in its slot, if there is one and it is free, and tells whether it did.
fn place(slots: &mut Vec<Slots>, line: Stood) -> bool
    ensures { IsTrue result → Puts line slots.old.items slots.new.items }
{
    let player = line.player as usize;
    if player < slots.len() {
        return slots[player].put(line.step, line.spot);
    }
    false
}

/// The steps of each player, if no slot is free.
fn all_spots(alloc: Global, slots: &[Slots]) -> Result<Option<Vec<Spots>>, NoMemory>
    ensures { IfOk result (λ all. IfSome all (λ steps. slots.now ≡ map (λ spots. map Some spots) steps.items)) }
{
    let mut steps = Vec::with_capacity(alloc, slots.len())?;
    for one in slots {
        match one.all(alloc)? {
            Some(spots) => steps.push(spots)?,
            None => return Ok(None),
        }
    }
    Ok(Some(steps))
}

/// The steps by the sorted lines of each player.
fn sorted_steps(alloc: Global, lines: &[Stood], players: u32) -> Result<Vec<Spots>, NoMemory>
    ensures { IfOk result (λ steps. steps.items ≡ map sorted_spots (put_lines lines.now (map (λ player. []) (range_with_len 0 players)))) }
{
    let mut lists = no_lines(alloc, players)?;
    put_lines(&mut lists, lines)?;
    let mut steps = Vec::with_capacity(alloc, lists.len())?;
    for list in lists {
        steps.push(spots_of(alloc, list)?)?;
    }
    Ok(steps)
}

/// Lines by step, and at equal steps in their order.
fn sort_by_step(lines: &mut Vec<Stood>) -> Result<(), NoMemory>
    ensures { OnOk result (lines.new.items ≡ by_key (λ line. line.step) lines.old.items) }
{
    lines.sort_by_key(|line| line.step)?;
    Ok(())
}

/// Where the steps of a player stand, by its lines.
fn spots_of(alloc: Global, lines: Listed<Stood>) -> Result<Spots, NoMemory>
    ensures { IfOk result (λ spots. spots ≡ sorted_spots lines) }
{
    let mut lines = lines.into_vec();
    sort_by_step(&mut lines)?;
    let mut spots = Vec::with_capacity(alloc, lines.len())?;
    for line in &lines {
        spots.push(line.spot)?;
    }
    Ok(Listed::from_vec(spots))
}

/// So many empty lists.
fn no_lines(alloc: Global, count: u32) -> Result<Vec<Listed<Stood>>, NoMemory>
    ensures { IfOk result (λ lists. lists.items ≡ map (λ player. []) (range_with_len 0 count)) }
{
    let mut lists = Vec::new(alloc);
    for player in 0..count {
        lists.push(Listed::new(alloc))?;
    }
    Ok(lists)
}

/// Puts a line at the end of the list of its player, where there is one.
fn put_line(lists: &mut Vec<Listed<Stood>>, line: Stood) -> Result<(), NoMemory>
    ensures { OnOk result (lists.new.items ≡ put_line line.player line lists.old.items) }
{
    let player = line.player as usize;
    if player < lists.len() {
        lists[player].push(line)?;
    }
    Ok(())
}

/// Puts lines one after another, each in the list of its player.
fn put_lines(lists: &mut Vec<Listed<Stood>>, lines: &[Stood]) -> Result<(), NoMemory>
    ensures { OnOk result (lists.new.items ≡ put_lines lines.now lists.old.items) }
{
    for line in lines {
        put_line(lists, *line)?;
    }
    Ok(())
}
