ghost use Rattle.std.specs.Prelude.{◌+◌, length, All, IfOk, OnOk};
ghost use Rattle.zk_show_chart.specs.Arrows.{IsArrow, AreByRow};

use crate::admissions::Admissions;
use crate::bars::row_count;
use crate::marks::entry_of;
use crate::raises::Raises;
use crate::waits::{Frees, Gives, Puts, Source, Visits};
use crate::{Arrow, ArrowKind};
use std::alloc::Global;
use zk_base::{NoMemory, Seen};
use zk_model_bus::{ChanOp, ObsOp};
use zk_scenario::{MOST_CHANS, Scenario};
use zk_trace::{Stood, Trace};
use zk_worker::Spot;

/// The publishes and notifies of a player that go on.
#[derive(Drop)]
struct Tells {
    /// The rows in which observers were told, the innermost last.
    rows: Vec<u32>,
    /// Whether the channel that is freed next was got for reading alone.
    reads: bool,
}

impl Tells {
    fn new(alloc: Global) -> Tells {
        Tells {
            rows: Vec::new(alloc),
            reads: false,
        }
    }

    /// An operation of a channel. No more publishes go on at once than there are channels.
    fn step(&mut self, op: ChanOp, row: u32) -> Result<(), NoMemory> {
        match op {
            ChanOp::Set(_) | ChanOp::List if self.rows.len() < MOST_CHANS => self.rows.push(row)?,
            ChanOp::Get => self.reads = true,
            ChanOp::Free if self.reads => self.reads = false,
            ChanOp::Free => {
                self.rows.pop();
            }
            _ => {}
        }
        Ok(())
    }
}

/// What has been done so far, as far as something may come of it.
#[derive(Drop)]
struct Done {
    work: Admissions,
    // By object.
    sems: Vec<Gives>,
    msgqs: Vec<Puts>,
    signals: Vec<Raises>,
    chans: Vec<Frees>,
    observers: Vec<Visits>,
    // By player.
    tells: Vec<Tells>,
}

impl Done {
    fn new(alloc: Global, scenario: &Scenario) -> Result<Done, NoMemory> {
        let players = scenario.players();
        let mut tells = Vec::new(alloc);
        for _ in 0..players {
            tells.push(Tells::new(alloc))?;
        }
        let items = scenario.items().len();
        let queues = scenario.queues().len();
        let mut done = Done {
            work: Admissions::new(alloc, items, queues, players as usize)?,
            sems: Vec::new(alloc),
            msgqs: Vec::new(alloc),
            signals: Vec::new(alloc),
            chans: Vec::new(alloc),
            observers: Vec::new(alloc),
            tells,
        };
        for _ in scenario.decls() {
            done.sems.push(Gives::new(alloc))?;
            done.msgqs.push(Puts::new(alloc))?;
            done.signals.push(Raises::new(alloc))?;
            done.chans.push(Frees::new(alloc))?;
            done.observers.push(Visits::new(alloc))?;
        }
        Ok(done)
    }

    fn work(&mut self, trace: &Trace, place: u64, row: u32) -> Result<Source, NoMemory> {
        let Some(entry) = trace.work.items().get(place as usize) else {
            return Ok(None);
        };
        self.work.step(entry, row)
    }

    fn sem(
        &mut self,
        trace: &Trace,
        object: u32,
        place: u64,
        row: u32,
    ) -> Result<Source, NoMemory> {
        let Some(entry) = entry_of(trace.sems.items(), object, place) else {
            return Ok(None);
        };
        match self.sems.get_mut(object as usize) {
            Some(sem) => sem.step(entry, place, row),
            None => Ok(None),
        }
    }

    fn msgq(
        &mut self,
        trace: &Trace,
        object: u32,
        place: u64,
        row: u32,
    ) -> Result<Source, NoMemory> {
        let Some(entry) = entry_of(trace.msgqs.items(), object, place) else {
            return Ok(None);
        };
        match self.msgqs.get_mut(object as usize) {
            Some(msgq) => msgq.step(entry, place, row),
            None => Ok(None),
        }
    }

    fn write(&mut self, object: u32, row: u32) -> Result<Source, NoMemory> {
        if let Some(signal) = self.signals.get_mut(object as usize) {
            signal.write(row)?;
        }
        Ok(None)
    }

    fn look(&self, object: u32, seen: &Seen) -> Source {
        self.signals.get(object as usize)?.look(seen)
    }

    fn chan(
        &mut self,
        trace: &Trace,
        player: u32,
        object: u32,
        place: u64,
        row: u32,
    ) -> Result<Source, NoMemory> {
        let Some(entry) = entry_of(trace.chans.items(), object, place) else {
            return Ok(None);
        };
        if let Some(tells) = self.tells.get_mut(player as usize) {
            tells.step(entry.op, row)?;
        }
        match self.chans.get_mut(object as usize) {
            Some(chan) => chan.step(entry, place, row),
            None => Ok(None),
        }
    }

    /// The row in which the player told observers last, if it is telling.
    fn told(&self, player: u32) -> Source {
        let from = self.tells.get(player as usize)?.rows.last()?;
        Some((ArrowKind::Visit, *from))
    }

    fn obs(
        &mut self,
        trace: &Trace,
        player: u32,
        object: u32,
        place: u64,
        row: u32,
    ) -> Result<Source, NoMemory> {
        let Some(entry) = entry_of(trace.observers.items(), object, place) else {
            return Ok(None);
        };
        let taken = match self.observers.get_mut(object as usize) {
            Some(observer) => observer.step(entry, place, row)?,
            None => None,
        };
        match entry.op {
            ObsOp::Visit(_) => Ok(self.told(player)),
            _ => Ok(taken),
        }
    }

    /// Where the arrow to this row comes from, if there is one: to the step that stands there.
    fn step(&mut self, trace: &Trace, stood: Stood, row: u32) -> Result<Source, NoMemory> {
        match stood.spot {
            Spot::Work(place) => self.work(trace, place, row),
            Spot::Sem(object, place) => self.sem(trace, object, place, row),
            Spot::Msgq(object, place) => self.msgq(trace, object, place, row),
            Spot::Signal(object, _) => self.write(object, row),
            Spot::Chan(object, place) => self.chan(trace, stood.player, object, place, row),
            Spot::Obs(object, place) => self.obs(trace, stood.player, object, place, row),
            Spot::LookSignal(object, seen) => Ok(self.look(object, &seen)),
            _ => Ok(None),
        }
    }
}

/// An arrow leads down to a row, if one does.
fn put_arrow(arrows: &mut Vec<Arrow>, source: Source, to: u32) -> Result<(), NoMemory>
    ensures each { OnOk result (All (IsArrow to) arrows.old.items → All (IsArrow (to + 1)) arrows.new.items) }
    ensures order { OnOk result (All (IsArrow to) arrows.old.items → AreByRow arrows.old.items → AreByRow arrows.new.items) }
{
    if let Some((kind, from)) = source {
        if from < to {
            arrows.push(Arrow { kind, from, to })?;
        }
    }
    Ok(())
}

/// What steps brought about, by the row to which an arrow leads. `drawn` says of each row whose step it is, and where it stands.
pub fn arrows_of(
    alloc: Global,
    scenario: &Scenario,
    trace: &Trace,
    drawn: &[Stood],
) -> Result<Vec<Arrow>, NoMemory>
    ensures each { IfOk result (λ arrows. All (IsArrow (length drawn.now)) arrows.items) }
    ensures order { IfOk result (λ arrows. AreByRow arrows.items) }
{
    let mut done = Done::new(alloc, scenario)?;
    let mut arrows = Vec::new(alloc);
    for row in 0..row_count(drawn) {
        let source = done.step(trace, drawn[row as usize], row)?;
        put_arrow(&mut arrows, source, row)?;
    }
    Ok(arrows)
}
