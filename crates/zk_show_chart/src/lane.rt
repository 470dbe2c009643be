ghost use Rattle.std.specs.Prelude.{◌≡◌, true, false, OnOk};
ghost use Rattle.zk_show_chart.specs.Bars.{Ends, Steps};
ghost use Rattle.zk_show_chart.specs.Marks.{is_run, is_begin};

use crate::marks::Mark;
use crate::polls::PollWait;
use crate::{Bar, BarKind};
use std::alloc::Global;
use zk_base::NoMemory;
use zk_scenario::MOST_CHANS;
use zk_trace::Stood;

/// The visits of a publish or a notify.
#[derive(Clone, Copy)]
struct Visits {
    /// In how many runs and scripts of the lane they are made.
    depth: u32,
    /// The bar of the script that goes on.
    script: Option<usize>,
}

/// How a lane waits.
#[derive(Clone, Copy)]
enum Waiting {
    Not,
    /// A wait goes on: its bar.
    Open(usize),
    /// A wait ended in the last step, and goes on to the next one if that ends it too: its bar.
    Closed(usize),
}

/// What goes on in a player's lane. A bar is named by its place among all bars.
#[derive(Drop)]
pub struct Lane {
    /// The bar of the run that goes on.
    run: Option<usize>,
    /// The publishes and notifies that go on, the innermost last.
    visits: Vec<Visits>,
    /// Whether the channel that is freed next was got for reading alone.
    reads: bool,
    waiting: Waiting,
    /// The waits of polls of signals alone, by their steps, and how many are over.
    polls: Vec<PollWait>,
    polls_over: usize,
}

/// A bar of the player ends in a row. There is none where the place is another's.
fn end_bar(bars: &mut Vec<Bar>, place: Option<usize>, player: u32, row: u32)
    ensures { Ends player row bars.old.items bars.new.items }
{
    let Some(place) = place else {
        return;
    };
    if place < bars.len() && bars[place].player == player {
        bars[place].last = Some(row);
    }
}

/// A bar of the player begins in a row. Gives its place.
fn begin_bar(
    bars: &mut Vec<Bar>,
    player: u32,
    kind: BarKind,
    depth: u32,
    row: u32,
) -> Result<usize, NoMemory>
    ensures { OnOk result (Steps player row (is_run kind) bars.old.items bars.new.items) }
{
    let place = bars.len();
    bars.push(Bar {
        player,
        kind,
        depth,
        first: row,
        last: None,
    })?;
    Ok(place)
}

/// A step that says nothing else ends a wait.
fn over_if_plain(mark: Mark) -> Mark
    ensures { is_begin result ≡ is_begin mark }
{
    match mark {
        Mark::Plain => Mark::Over,
        _ => mark,
    }
}

/// A step that says nothing else begins a wait.
fn wait_if_plain(mark: Mark) -> Mark
    ensures { is_begin result ≡ is_begin mark }
{
    match mark {
        Mark::Plain => Mark::Wait,
        _ => mark,
    }
}

impl Lane {
    /// The lane of a player before its first step, with the waits of its polls of signals alone. It takes no memory.
    pub fn new(alloc: Global, polls: Vec<PollWait>) -> Lane {
        Lane {
            run: None,
            visits: Vec::new(alloc),
            reads: false,
            waiting: Waiting::Not,
            polls,
            polls_over: 0,
        }
    }

    /// How many runs and scripts go on.
    fn depth(&self) -> u32 {
        match self.visits.last() {
            Some(visits) => visits
                .depth
                .saturating_add(u32::from(visits.script.is_some())),
            None => u32::from(self.run.is_some()),
        }
    }

    fn begin(&mut self, bars: &mut Vec<Bar>, player: u32, row: u32) -> Result<(), NoMemory>
        ensures { OnOk result (Steps player row true bars.old.items bars.new.items) }
    {
        let place = begin_bar(bars, player, BarKind::Run, 0, row)?;
        self.run = Some(place);
        Ok(())
    }

    fn end(&mut self, bars: &mut Vec<Bar>, player: u32, row: u32)
        ensures { Ends player row bars.old.items bars.new.items }
    {
        end_bar(bars, self.run, player, row);
        self.run = None;
    }

    /// Observers are told. No more publishes go on at once than there are channels.
    fn tell(&mut self) -> Result<(), NoMemory> {
        let depth = self.depth();
        if self.visits.len() < MOST_CHANS {
            self.visits.push(Visits {
                depth,
                script: None,
            })?;
        }
        Ok(())
    }

    /// A listener is visited, whose script runs from now on.
    fn run_script(
        &mut self,
        bars: &mut Vec<Bar>,
        player: u32,
        depth: u32,
        row: u32,
    ) -> Result<(), NoMemory>
        ensures { OnOk result (Steps player row false bars.old.items bars.new.items) }
    {
        let place = begin_bar(bars, player, BarKind::Script, depth, row)?;
        self.visits.push(Visits {
            depth,
            script: Some(place),
        })?;
        Ok(())
    }

    /// An observer is visited: the script of the one before is through.
    fn visit(
        &mut self,
        bars: &mut Vec<Bar>,
        player: u32,
        runs: bool,
        row: u32,
    ) -> Result<(), NoMemory>
        ensures { OnOk result (Steps player row false bars.old.items bars.new.items) }
    {
        let Some(visits) = self.visits.pop() else {
            return Ok(());
        };
        end_bar(bars, visits.script, player, row);
        if runs {
            return self.run_script(bars, player, visits.depth, row);
        }
        self.visits.push(Visits {
            depth: visits.depth,
            script: None,
        })?;
        Ok(())
    }

    fn free(&mut self, bars: &mut Vec<Bar>, player: u32, row: u32)
        ensures { Ends player row bars.old.items bars.new.items }
    {
        if self.reads {
            self.reads = false;
            return;
        }
        if let Some(visits) = self.visits.pop() {
            end_bar(bars, visits.script, player, row);
        }
    }

    fn wait(&mut self, bars: &mut Vec<Bar>, player: u32, row: u32) -> Result<(), NoMemory>
        ensures { OnOk result (Steps player row false bars.old.items bars.new.items) }
    {
        if let Waiting::Open(_) = self.waiting {
            return Ok(());
        }
        let depth = self.depth();
        let place = begin_bar(bars, player, BarKind::Wait, depth, row)?;
        self.waiting = Waiting::Open(place);
        Ok(())
    }

    fn over(&mut self, bars: &mut Vec<Bar>, player: u32, row: u32)
        ensures { Ends player row bars.old.items bars.new.items }
    {
        match self.waiting {
            Waiting::Not => {}
            Waiting::Open(place) | Waiting::Closed(place) => {
                self.waiting = Waiting::Closed(place);
                end_bar(bars, Some(place), player, row);
            }
        }
    }

    /// What a step says, which may begin or end the wait of a poll of signals alone.
    fn polled(&mut self, mark: Mark, step: usize) -> Mark
        ensures { is_begin result ≡ is_begin mark }
    {
        let Some(poll) = self.polls.get(self.polls_over).copied() else {
            return mark;
        };
        if poll.last == Some(step) {
            self.polls_over += 1;
            return over_if_plain(mark);
        }
        if poll.first == step {
            return wait_if_plain(mark);
        }
        mark
    }

    /// The lane after a step more, in this row: bars of it begin and end.
    pub fn step(
        &mut self,
        bars: &mut Vec<Bar>,
        stood: Stood,
        mark: Mark,
        row: u32,
    ) -> Result<(), NoMemory>
        ensures { OnOk result (Steps stood.player row (is_begin mark) bars.old.items bars.new.items) }
    {
        let mark = self.polled(mark, stood.step as usize);
        self.mark(bars, stood.player, mark, row)
    }

    /// The lane after a step that says so.
    fn mark(
        &mut self,
        bars: &mut Vec<Bar>,
        player: u32,
        mark: Mark,
        row: u32,
    ) -> Result<(), NoMemory>
        ensures { OnOk result (Steps player row (is_begin mark) bars.old.items bars.new.items) }
    {
        match mark {
            Mark::Wait => self.wait(bars, player, row),
            Mark::Over => {
                self.over(bars, player, row);
                Ok(())
            }
            _ => { self.go_on(bars, player, mark, row) }
        }
    }

    /// A step that neither begins nor ends a wait.
    fn go_on(
        &mut self,
        bars: &mut Vec<Bar>,
        player: u32,
        mark: Mark,
        row: u32,
    ) -> Result<(), NoMemory>
        ensures { OnOk result (Steps player row (is_begin mark) bars.old.items bars.new.items) }
    {
        if let Waiting::Closed(_) = self.waiting {
            self.waiting = Waiting::Not;
        }
        match mark {
            Mark::Begin => self.begin(bars, player, row),
            Mark::End => {
                self.end(bars, player, row);
                Ok(())
            }
            Mark::Tell => self.tell(),
            Mark::Visit(runs) => self.visit(bars, player, runs, row),
            Mark::Read => {
                self.reads = true;
                Ok(())
            }
            Mark::Free => {
                self.free(bars, player, row);
                Ok(())
            }
            Mark::Wait | Mark::Over | Mark::Plain => Ok(()),
        }
    }
}
