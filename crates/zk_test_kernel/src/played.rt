//! A scenario played by the moves of a test, from its text to the text of its trace.
ghost use Rattle.std.specs.Prelude.{◌≡◌, IfOk};
ghost use Rattle.zk_kernel.specs.Rests.{AreAllCallers};

use crate::moves::{Move, make_move};
use crate::rounds::finish;
use std::alloc::Global;
use std::sync::Wait;
use std::test::Fail;
use std::thread::Threads;
use zk_base::NoMemory;
use zk_check::{Checked, check};
use zk_kernel::{Caller, Kernel};
use zk_scenario::{Scenario, read_scenario};
use zk_trace::print_trace;

/// More rounds than any of the tests' scenarios has steps.
const MOST_ROUNDS: u32 = 10_000;

/// What came of the moves of a test.
#[derive(Drop)]
pub struct Report {
    /// A letter for each move: `y` it was made whole, `n` it wasn't possible, `s` a caller was spent, `m` memory was wanted.
    pub moves: Vec<u8>,
    /// A letter for each caller after all moves: `t` it lives and has no call to begin, `o` it is over, `w` it begins a call next, `?`
    /// the kernel's scenario has another player in its place.
    pub stand: Vec<u8>,
    /// How many steps each caller had made then.
    pub steps: Vec<u32>,
    /// The text of the trace, after what was left was played to its end.
    pub text: Vec<u8>,
}

/// The scenario in this text.
pub fn scenario(alloc: Global, text: &[u8]) -> Result<Scenario, Fail> {
    match read_scenario(alloc, text) {
        Ok(scenario) => Ok(scenario),
        Err(_) => Err(Fail::from("no scenario")),
    }
}

/// A kernel of a scenario, and its callers.
fn kernel_of(alloc: Global, scenario: &Scenario) -> Result<(Kernel, Vec<Caller>), Fail>
    ensures all { IfOk result (λ made. AreAllCallers made.0 made.1.items) }
    ensures scenario { IfOk result (λ made. made.0.scenario ≡ scenario.now) }
{
    if scenario.players() == 0 {
        return Err(Fail::from("no players"));
    }
    Ok(Kernel::new(alloc, scenario)?)
}

fn letter_of(kernel: &Kernel, caller: &Caller) -> u8 {
    let who = caller.who();
    if kernel.scenario().who(who.number) != Some(who) {
        b'?'
    } else if !caller.lives() {
        b'o'
    } else if caller.next_call(kernel).is_none() {
        b't'
    } else {
        b'w'
    }
}

/// Tells how each caller stands.
fn tell_callers(kernel: &Kernel, callers: &[Caller], report: &mut Report) -> Result<(), NoMemory> {
    for caller in callers {
        report.stand.push(letter_of(kernel, caller))?;
        report.steps.push(caller.steps())?;
    }
    Ok(())
}

/// Makes all moves.
fn make_moves<R: Threads + Wait + Sync>(
    rt: &R,
    kernel: &Kernel,
    callers: &mut Vec<Caller>,
    moves: &[Move],
    report: &mut Report,
) -> Result<(), NoMemory>
    requires all { AreAllCallers kernel.now callers.old.items }
    ensures all { AreAllCallers kernel.now callers.new.items }
{
    for index in 0..moves.len() {
        let letter = make_move(rt, kernel, callers, moves[index]);
        report.moves.push(letter)?;
    }
    Ok(())
}

/// Callers' kernel is closed, what is left is played on to its end, and its trace is lawful, or the test fails: the trace's text.
fn lawful_text(
    alloc: Global,
    scenario: &Scenario,
    kernel: Kernel,
    callers: Vec<Caller>,
) -> Result<Vec<u8>, Fail>
    requires same { kernel.scenario ≡ scenario.now }
    requires all { AreAllCallers kernel callers.items }
{
    let mut rest = kernel.close(alloc, callers)?;
    finish(&mut rest, MOST_ROUNDS)?;
    let trace = rest.trace(alloc)?;
    match check(alloc, scenario, &trace)? {
        Checked::Lawful => Ok(print_trace(alloc, scenario, &trace)?),
        Checked::Not(_, _) => Err(Fail::from("not lawful")),
    }
}

fn played_on<R: Threads + Wait + Sync>(
    rt: &R,
    alloc: Global,
    scenario: &Scenario,
    moves: &[Move],
) -> Result<Report, Fail> {
    let mut report = Report {
        moves: Vec::new(alloc),
        stand: Vec::new(alloc),
        steps: Vec::new(alloc),
        text: Vec::new(alloc),
    };
    let (kernel, mut callers) = kernel_of(alloc, scenario)?;
    make_moves(rt, &kernel, &mut callers, moves, &mut report)?;
    tell_callers(&kernel, &callers, &mut report)?;
    report.text = lawful_text(alloc, scenario, kernel, callers)?;
    Ok(report)
}

/// Makes these moves with the callers of the scenario in this text. Its trace is lawful, or the test fails.
pub fn played<R: Threads + Wait + Sync>(
    rt: &R,
    alloc: Global,
    text: &[u8],
    moves: &[Move],
) -> Result<Report, Fail> {
    let scenario = scenario(alloc, text)?;
    played_on(rt, alloc, &scenario, moves)
}
