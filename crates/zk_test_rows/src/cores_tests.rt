//! Cores whose order a gate forces: two of them play at once, and the trace is the one that they made.
use crate::texts::text_of;
use std::alloc::Global;
use std::hint;
use std::sync::Wait;
use std::sync::atomic::AtomicU64;
use std::sync::atomic::Ordering::SeqCst;
use std::test::Fail;
use std::thread::Threads;
use zk_base::{Gate, NoMemory, Sink, Status, SureSink, SureSource};
use zk_cli::zk_run;

/// Two threads of the same script, which gives a semaphore and asks for its count.
const GIVES: &str =
    "zk 1\nthread t0 0 super\nthread t1 0 super\nsem s0 0 10\nscript t0\ngive s0\ncount s0\nend\nscript t1\ngive s0\n\
     count s0\nend\n";

/// The trace where the first player is through before the second begins. By round robin both counts are answered 2.
const FIRST_FIRST: &str =
    "zt 2\nended\nservice s0 4 0\nt0.0 give = ok\nt0.1 count = 1\nt1.0 give = ok\nt1.1 count = 2\n\
     player t0 done 2\n0 give = 0\n1 count = 1\nplayer t1 done 2\n0 give = 0\n1 count = 2\n";

/// The same with the players exchanged.
const SECOND_FIRST: &str =
    "zt 2\nended\nservice s0 4 0\nt1.0 give = ok\nt1.1 count = 1\nt0.0 give = ok\nt0.1 count = 2\n\
     player t0 done 2\n0 give = 0\n1 count = 2\nplayer t1 done 2\n0 give = 0\n1 count = 1\n";

/// A gate is held for so many turns at the most.
const MOST_TURNS: u64 = 20_000_000;

/// More room than the output needs.
const ROOM: usize = 8192;

/// Holds the first pass of core 1 until core 0 has asked for its first, and that until core 1 has asked for its third.
///
/// So the player that core 0 took first makes no step before the other one has made both of its own, by core 1.
#[derive(Drop)]
struct HeldGate {
    first: AtomicU64,
    second: AtomicU64,
    // How many waits were given up.
    given_up: AtomicU64,
}

impl HeldGate {
    fn new() -> HeldGate {
        HeldGate {
            first: AtomicU64::new(0),
            second: AtomicU64::new(0),
            given_up: AtomicU64::new(0),
        }
    }

    /// Waits until a core has asked so often.
    fn hold(&self, asked: &AtomicU64, passes: u64) {
        for _ in 0..MOST_TURNS {
            if asked.load(SeqCst) >= passes {
                return;
            }
            hint::spin_loop();
        }
        self.given_up.fetch_add(1, SeqCst);
    }
}

impl Gate for HeldGate {
    fn pass(&self, core: u32, step: u64) {
        let (own, other, passes) = match core {
            0 => (&self.first, &self.second, 3),
            _ => (&self.second, &self.first, 1),
        };
        own.fetch_add(1, SeqCst);
        if step == 0 {
            self.hold(other, passes);
        }
    }
}

/// Counts the passes of all cores.
#[derive(Drop)]
struct CountingGate {
    passes: AtomicU64,
}

impl Gate for CountingGate {
    fn pass(&self, _core: u32, _step: u64) {
        self.passes.fetch_add(1, SeqCst);
    }
}

/// What these words print of the input behind this gate, if they print a whole trace, or the lines of all subscribers.
fn printed<R: Threads + Wait + Sync, G: Gate + Sync>(
    rt: &R,
    alloc: Global,
    words: &[&str],
    input: &str,
    gate: &G,
) -> Result<Option<SureSink>, NoMemory> {
    let mut owned = Vec::new(alloc);
    for word in words {
        owned.push(String::from_str(alloc, word)?)?;
    }
    let mut source = SureSource::new(text_of(alloc, &[input])?, 100);
    let mut sink = SureSink::new(Vec::with_capacity(alloc, ROOM)?, 100);
    let status = zk_run(rt, alloc, &owned, &mut source, &mut sink, gate);
    Ok((status == Status::Success).then_some(sink))
}

/// A run that played all players on one thread would give the waits up, and one that printed the round robin run's trace would
/// print another order. Which of the players core 1 takes, and so is through first, is up to the cores: their scripts are the same.
#[test]
fn gate_forces_an_order(rt: HostRuntime) -> Result<(), Fail> {
    let gate = HeldGate::new();
    let Some(sink) = printed(&rt, rt.alloc(), &["run", "2"], GIVES, &gate)? else {
        return Err(Fail::from("no trace"));
    };
    assert!(rt; gate.given_up.load(SeqCst) == 0);
    let one = text_of(rt.alloc(), &[GIVES, FIRST_FIRST])?;
    let other = text_of(rt.alloc(), &[GIVES, SECOND_FIRST])?;
    assert!(rt; sink.held() == one.as_slice() || sink.held() == other.as_slice());
    Ok(())
}

/// Publishers that ran one after the other would give the waits up, or print another order: publisher 0 is held before its first
/// message until publisher 1 has asked for its third.
#[test]
fn gate_forces_an_order_of_messages(rt: HostRuntime) -> Result<(), Fail> {
    let gate = HeldGate::new();
    let Some(sink) = printed(&rt, rt.alloc(), &["feed", "2", "1", "100"], "", &gate)? else {
        return Err(Fail::from("no lines"));
    };
    assert!(rt; gate.given_up.load(SeqCst) == 0);
    assert!(rt; sink.held().starts_with(b"sub 0\n1.0 0000\n1.1 0001\n"));
    Ok(())
}

/// Calls behind a wait without an end, which another thread ends.
const WAITS: &str =
    "zk 1\nthread t0 0 super\nthread t1 0 super\nsem s0 0 10\nscript t0\ntake s0 forever\n\
     count s0\ncount s0\ncount s0\ncount s0\ncount s0\ncount s0\ncount s0\ncount s0\n\
     count s0\ncount s0\ncount s0\ncount s0\ncount s0\ncount s0\ncount s0\ncount s0\nend\n\
     script t1\ncount s0\ncount s0\ncount s0\ngive s0\nend\n";

/// A core that never learnt that a waiting thread has news would leave the sixteen calls behind its wait to what is played once the
/// cores have ended, behind no gate.
#[test]
fn a_wait_that_ends_is_played_by_its_core(rt: HostRuntime) -> Result<(), Fail> {
    let gate = CountingGate {
        passes: AtomicU64::new(0),
    };
    assert!(rt; printed(&rt, rt.alloc(), &["run", "1"], WAITS, &gate)?.is_some());
    assert!(rt; gate.passes.load(SeqCst) >= 20);
    Ok(())
}
