ghost use Rattle.std.specs.Prelude.{◌≡◌, ◌+◌, ◌^◌, ◌<◌, length, slice_set, slice_index, if◌then◌else◌, MatchOption, OnOk, IfOk};
ghost use Rattle.std.specs.Bool.{OnFalse};
ghost use Rattle.zk_worker.specs.Shown.{is_look};
ghost use Rattle.zk_show_order.specs.Drawing.{AreAmong, IsDrawing, GoesOn, IsHeldIn, IsStuck};
ghost use Rattle.zk_show_order.specs.Lanes.{AreLanes};
ghost use Rattle.zk_show_order.specs.Order.{HasNoOrder, IsOrder};
ghost use Rattle.zk_show_order.specs.Services.{service_of};

use crate::lanes::Lane;
use crate::services::{entries_above, fits_below, is_look, service_number};
use std::alloc::Global;
use zk_base::NoMemory;
use zk_trace::Stood;
use zk_worker::Spot;

/// Lines that are drawn one after another, each where it can stand behind those that are drawn.
#[derive(Drop)]
pub struct Drawing<'a> {
    lines: &'a [Stood],
    /// The lines of each player that are left.
    lanes: Vec<Lane>,
    /// How many entries of each service are drawn, by its number.
    entries: Vec<u64>,
    /// The places of the lines that are drawn.
    order: Vec<usize>,
    /// How many looks are left.
    looks: usize,
}

/// How many services there are up to the highest of some lines.
fn service_count(lines: &[Stood]) -> usize
    ensures { AreAmong lines.now result }
{
    let mut count = 0;
    for line in lines {
        count = (service_number(line.spot) + 1).max(count);
    }
    count
}

/// Counts a line that is drawn, if it is that of an entry.
fn count(entries: &mut [u64], spot: Spot)
    requires within { service_of spot < length entries.old }
    requires fits { slice_index entries.old (service_of spot) + 1 < 2 ^ 64 }
    ensures { entries.new ≡ (if is_look spot then entries.old else
        slice_set entries.old (service_of spot) (slice_index entries.old (service_of spot) + 1)) }
{
    if !is_look(spot) {
        entries[service_number(spot)] += 1;
    }
}

/// How many of some lines are those of looks.
fn look_count(lines: &[Stood]) -> usize {
    lines.iter().filter(|line| is_look(line.spot)).count()
}

impl<'a> Drawing<'a> {
    /// Nothing is drawn.
    pub fn new(alloc: Global, lines: &'a [Stood], lanes: Vec<Lane>) -> Result<Drawing<'a>, NoMemory>
        requires { AreLanes lines.now lanes.items }
        ensures standing { IfOk result (λ drawing. IsDrawing drawing) }
        ensures lines { IfOk result (λ drawing. drawing.lines.now ≡ lines.now) }
    {
        let entries = vec![in alloc; 0; service_count(lines)]?;
        let order = Vec::with_capacity(alloc, lines.len())?;
        Ok(Drawing {
            lines,
            lanes,
            entries,
            order,
            looks: look_count(lines),
        })
    }

    /// Draws the next line of a player, if it can stand here, and tells whether it did.
    fn draw_next(&mut self, player: usize) -> Result<bool, NoMemory>
        requires within { player < length self.old.lanes.items }
        requires standing { IsDrawing self.old }
        ensures goes_on { IfOk result (λ drawn. GoesOn self.old self.new drawn) }
        ensures held { IfOk result (λ drawn. OnFalse drawn (IsHeldIn self.new player)) }
    {
        let Some(place) = self.lanes[player].next() else {
            return Ok(false);
        };
        let spot = self.lines[place].spot;
        if !fits_below(spot, self.entries[service_number(spot)]) {
            return Ok(false);
        }
        self.order.push(place)?;
        self.lanes[player].pass();
        count(&mut self.entries, spot);
        self.looks = self.looks.saturating_sub(usize::from(is_look(spot)));
        Ok(true)
    }

    /// Where the next line of a player stands.
    fn next_spot(&self, player: usize) -> Option<Spot> {
        let place = self.lanes.get(player)?.next()?;
        Some(self.lines.get(place)?.spot)
    }

    /// Whether just the entries that stand above a line are drawn.
    fn is_here(&self, spot: Spot) -> bool {
        self.entries.get(service_number(spot)) == Some(&entries_above(spot))
    }

    /// Whether the next line of a player is a look at this service that shows just the entries that are drawn.
    fn looks_here(&self, player: usize, service: usize) -> bool {
        match self.next_spot(player) {
            Some(spot) => is_look(spot) && service_number(spot) == service && self.is_here(spot),
            None => false,
        }
    }

    /// The service of the next line of a player, where that is an entry that can be drawn here.
    fn next_entry(&self, player: usize) -> Option<usize> {
        let spot = self.next_spot(player)?;
        if is_look(spot) || !self.is_here(spot) {
            return None;
        }
        Some(service_number(spot))
    }

    /// Draws the looks of a player that come next and show just the entries of a service that are drawn, and tells whether there
    /// were any.
    fn draw_looks_of(&mut self, player: usize, service: usize) -> Result<bool, NoMemory>
        requires within { player < length self.old.lanes.items }
        requires standing { IsDrawing self.old }
        ensures { IfOk result (λ drawn. GoesOn self.old self.new drawn) }
    {
        let mut any = false;
        while self.looks_here(player, service) {
            if !self.draw_next(player)? {
                return Ok(any);
            }
            any = true;
        }
        Ok(any)
    }

    /// Draws such looks of all players.
    fn draw_looks(&mut self, service: usize) -> Result<bool, NoMemory>
        requires standing { IsDrawing self.old }
        ensures { IfOk result (λ drawn. GoesOn self.old self.new drawn) }
    {
        let mut any = false;
        for player in 0..self.lanes.len() {
            any |= self.draw_looks_of(player, service)?;
        }
        Ok(any)
    }

    /// Draws the looks that are to stand before the next line of a player: an entry that comes next is drawn only behind looks
    /// which don't show it.
    fn draw_before(&mut self, player: usize) -> Result<bool, NoMemory>
        requires standing { IsDrawing self.old }
        ensures { IfOk result (λ drawn. GoesOn self.old self.new drawn) }
    {
        if self.looks == 0 {
            return Ok(false);
        }
        match self.next_entry(player) {
            Some(service) => self.draw_looks(service),
            None => Ok(false),
        }
    }

    /// Draws of each player in turn the next line, where it can stand, and tells whether any was drawn.
    fn draw_round(&mut self) -> Result<bool, NoMemory>
        requires standing { IsDrawing self.old }
        ensures goes_on { IfOk result (λ drawn. GoesOn self.old self.new drawn) }
        ensures stuck { IfOk result (λ drawn. OnFalse drawn (IsStuck self.new)) }
    {
        let mut any = false;
        for player in 0..self.lanes.len() {
            any |= self.draw_before(player)?;
            any |= self.draw_next(player)?;
        }
        Ok(any)
    }

    /// Draws until none is left, or none that can stand here.
    pub fn draw_all(&mut self) -> Result<(), NoMemory>
        requires standing { IsDrawing self.old }
        ensures standing { OnOk result (IsDrawing self.new) }
        ensures lines { OnOk result (self.new.lines.now ≡ self.old.lines.now) }
        ensures stuck { OnOk result (IsStuck self.new) }
    {
        loop {
            if !self.draw_round()? {
                return Ok(());
            }
        }
    }

    /// The places of all lines in the order in which they were drawn, if none is left.
    pub fn order(self) -> Option<Vec<usize>>
        requires standing { IsDrawing self }
        requires stuck { IsStuck self }
        ensures { MatchOption result (HasNoOrder self.entry.lines.now) (λ order. IsOrder self.entry.lines.now order.items) }
    {
        if self.order.len() == self.lines.len() {
            Some(self.order)
        } else {
            None
        }
    }
}
