ghost use Rattle.std.specs.Prelude.{◌≡◌, All, length, IfOk};
ghost use Rattle.zk_event.specs.Event.{new_event};
ghost use Rattle.zk_event.specs.Seen.{event_start};
ghost use Rattle.zk_turn.specs.Passes.{given_to};
ghost use Rattle.zk_test_event.specs.Parts.{IsFresh, IsLeft, IsReady, IsDone};

use std::alloc::Global;
use std::sync::Wait;
use std::thread::{self, Threads};
use zk_base::{NoMemory, push_within};
use zk_event::{Event, EventOp, Wanted, wait_event};
use zk_turn::{Cell, Pass};

/// What a thread does.
#[derive(Clone, Copy)]
pub enum Task {
    /// It waits for these bits, with a reset or without.
    Wait(Wanted, bool),
    /// Once there are so many entries it posts these bits, then those, and then clears the last.
    Post(u64, u16, u16, u16),
}

/// A thread's pass, what it does, and the bits that it was answered, 0 where it was none.
#[derive(Drop)]
pub struct Part {
    pub pass: Option<Pass<Event>>,
    pub task: Task,
    pub got: u16,
}

/// One part for each pass, with the tasks in order. A pass without one posts nothing.
pub fn parts_of(
    alloc: Global,
    cell: &Cell<Event>,
    passes: Vec<Pass<Event>>,
    tasks: &[Task],
) -> Result<Vec<Part>, NoMemory>
    requires { All (IsFresh cell.now) passes.items }
    ensures ready { IfOk result (λ parts. All (IsReady cell.now) parts.items) }
    ensures count { IfOk result (λ parts. length parts.items ≡ length passes.items) }
{
    let mut parts = Vec::with_capacity(alloc, passes.len())?;
    let mut number = 0usize;
    for pass in passes {
        let task = match tasks.get(number) {
            Some(task) => *task,
            None => Task::Post(0, 0, 0, 0),
        };
        number = number.wrapping_add(1);
        let part = Part {
            pass: Some(pass),
            task,
            got: 0,
        };
        push_within(&mut parts, part);
    }
    Ok(parts)
}

/// Plays each part in a thread of its own. Where fewer threads can be made some play one after the other.
pub fn play_each<R: Threads + Wait + Sync>(rt: &R, cell: &Cell<Event>, parts: &mut Vec<Part>)
    requires start { event_start (given_to cell.now) ≡ new_event }
    requires ready { All (IsReady cell.now) parts.old.items }
    ensures done { All (IsDone cell.now) parts.new.items }
    ensures count { length parts.new.items ≡ length parts.old.items }
{
    let threads = parts.len();
    if threads == 0 {
        return;
    }
    let play = move |_place: usize, part: &mut Part|
        requires { (event_start (given_to cell.now) ≡ new_event) × IsReady cell.now part.now }
        ensures { IsDone cell.entry.now part.exit.now }
    { play_part(rt, cell, part) };
    thread::for_each_mut(rt, parts.as_mut_slice(), threads, &play);
}

fn play_part<R: Wait>(rt: &R, cell: &Cell<Event>, part: &mut Part)
    requires start { event_start (given_to cell.now) ≡ new_event }
    requires ready { IsReady cell.now part.old }
    ensures done { IsDone cell.now part.new }
{
    let Some(pass) = part.pass.take() else {
        unreachable!()
    };
    let pass = match part.task {
        Task::Wait(wanted, reset) => {
            let (pass, got) = wait_for(rt, cell, pass, wanted, reset);
            part.got = got;
            pass
        }
        Task::Post(after, first, second, cleared) => {
            let pass = await_entries(rt, cell, pass, after);
            post(rt, cell, pass, first, second, cleared)
        }
    };
    part.pass = Some(pass);
}

fn wait_for<R: Wait>(
    rt: &R,
    cell: &Cell<Event>,
    pass: Pass<Event>,
    wanted: Wanted,
    reset: bool,
) -> (Pass<Event>, u16)
    requires start { event_start (given_to cell.now) ≡ new_event }
    requires fresh { IsFresh cell.now pass }
    ensures left { IsLeft cell.now result.0 }
{
    if wanted.mask == 0 {
        return (pass, 0);
    }
    match wait_event(rt, cell, pass, 0, wanted.mask, wanted.all, reset) {
        Ok(waited) => waited,
        Err(pass) => (pass, 0),
    }
}

/// Waits until there are so many entries.
fn await_entries<R: Wait>(rt: &R, cell: &Cell<Event>, pass: Pass<Event>, count: u64) -> Pass<Event>
    requires { IsFresh cell.now pass }
    ensures { IsFresh cell.now result }
{
    let mut pass = pass;
    for _ in rt.forever() {
        let held = cell.enter(rt, pass);
        let found = held.at();
        pass = cell.leave(held);
        if count <= found {
            return pass;
        }
        cell.await_news(rt, &pass);
    }
    unreachable!()
}

fn post<R: Wait>(
    rt: &R,
    cell: &Cell<Event>,
    pass: Pass<Event>,
    first: u16,
    second: u16,
    cleared: u16,
) -> Pass<Event>
    requires { IsFresh cell.now pass }
    ensures { IsLeft cell.now result }
{
    let (pass, _) = cell.call(rt, pass, 0, EventOp::Post(first));
    let (pass, _) = cell.call(rt, pass, 1, EventOp::Post(second));
    let (pass, _) = cell.call(rt, pass, 2, EventOp::Clear(cleared));
    pass
}
