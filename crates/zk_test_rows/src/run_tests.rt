//! Each fault of reading and writing in turn, through the top calls over memory.
use crate::texts::text_of;
use std::alloc::Global;
use std::process::Abort;
use std::sync::Wait;
use std::test::Fail;
use std::thread::Threads;
use zk_base::{MemSink, MemSource, NoMemory, OpenGate, Sink, Source, Status, SureSink, SureSource};
use zk_cli::{needs_cores, zk_plain, zk_run};

/// Two threads, one queue, three items.
const FRONT: &str =
    "zk 1\nthread t0 0 super\nthread t1 0 super\nqueue q0 0 on\nitem w0\nitem w1\nitem w2\n";

/// One submission behind them, and the trace part that is printed behind it.
const ONE_SUBMISSION: &str = "script t0\nsubmit w0 q0\nend\n";

const ITS_TRACE: &str =
    "zt 2\nended\nservice work 3 0\nt0.0 submit w0 q0 = 1 a0 q0\nq0.0 begin q0 = w0 a0\n\
     q0.1 end q0 = ok\nplayer t0 done 1\n0 submit = 1\nplayer t1 done 0\nplayer q0 done 0\n";

/// More room than its output needs.
const ROOM: usize = 8192;

/// One call with these words.
fn status_of<R: Threads + Wait + Sync + AllocGlobal, S: Source, K: Sink>(
    rt: &R,
    words: &[&str],
    source: &mut S,
    sink: &mut K,
) -> Result<Status, NoMemory> {
    let alloc = rt.alloc();
    let mut owned = Vec::new(alloc);
    for word in words {
        owned.push(String::from_str(alloc, word)?)?;
    }
    if needs_cores(&owned) {
        let gate = OpenGate::new();
        return Ok(zk_run(rt, alloc, &owned, source, sink, &gate));
    }
    Ok(zk_plain(alloc, &owned, source, sink))
}

/// The call of reading that has this number fails.
fn read_fault<R: Abort + Threads + Wait + Sync + AllocGlobal>(
    rt: &R,
    words: &[&str],
    input: Vec<u8>,
    call: u64,
) -> Result<(), NoMemory> {
    let mut source = MemSource::new(input, 4, vec![in rt.alloc(); call]?);
    let room = Vec::with_capacity(rt.alloc(), ROOM)?;
    let mut sink = SureSink::new(room, 9);
    let status = status_of(rt, words, &mut source, &mut sink)?;
    assert!(rt; status == Status::ReadFault, "{call}");
    assert!(rt; sink.held().is_empty(), "{call}");
    Ok(())
}

/// The call of writing that has this number fails, and all before it stands.
fn write_fault<R: Abort + Threads + Wait + Sync + AllocGlobal>(
    rt: &R,
    words: &[&str],
    input: Vec<u8>,
    wanted: &[u8],
    call: usize,
) -> Result<(), NoMemory> {
    let mut source = SureSource::new(input, 100);
    let room = Vec::with_capacity(rt.alloc(), ROOM)?;
    let mut sink = MemSink::new(room, 4, vec![in rt.alloc(); call as u64]?);
    let status = status_of(rt, words, &mut source, &mut sink)?;
    assert!(rt; status == Status::WriteFault, "{call}");
    assert!(rt; wanted.starts_with(sink.held()), "{call}");
    assert!(rt; sink.held().len() == 4usize.saturating_mul(call), "{call}");
    Ok(())
}

/// For an input and the output that goes with it, each in parts: a fault of reading prints nothing, and one of writing leaves a
/// front.
fn each_fault<R: Abort + Threads + Wait + Sync + AllocGlobal>(
    rt: &R,
    words: &[&str],
    input: &[&str],
    output: &[&str],
) -> Result<(), NoMemory> {
    let input = text_of(rt.alloc(), input)?;
    for call in 0..input.len() as u64 / 4 + 2 {
        read_fault(rt, words, input.clone()?, call)?;
    }
    let wanted = text_of(rt.alloc(), output)?;
    for call in 0..wanted.len().div_ceil(4) {
        write_fault(rt, words, input.clone()?, &wanted, call)?;
    }
    Ok(())
}

#[test]
fn each_fault_of_a_replay_is_told(rt: HostRuntime) -> Result<(), Fail> {
    let output = [FRONT, ONE_SUBMISSION, ITS_TRACE];
    each_fault(&rt, &["replay"], &[FRONT, ONE_SUBMISSION], &output)?;
    Ok(())
}

/// Only one order of the steps is possible, so the trace is the same.
#[test]
fn each_fault_of_a_run_is_told(rt: HostRuntime) -> Result<(), Fail> {
    let output = [FRONT, ONE_SUBMISSION, ITS_TRACE];
    each_fault(&rt, &["run", "2"], &[FRONT, ONE_SUBMISSION], &output)?;
    Ok(())
}

#[test]
fn each_fault_of_a_check_is_told(rt: HostRuntime) -> Result<(), Fail> {
    let input = [FRONT, ONE_SUBMISSION, ITS_TRACE];
    each_fault(&rt, &["check"], &input, &["lawful\n"])?;
    Ok(())
}

/// Nothing says more of a scenario that is refused than its line.
#[test]
fn each_fault_of_a_refusal_is_told(rt: HostRuntime) -> Result<(), Fail> {
    let input = [FRONT, "thread t0 0 super\n"];
    each_fault(&rt, &["replay"], &input, &["refused 8 name\n"])?;
    Ok(())
}

/// A side script: what fires, and what isn't possible.
#[test]
fn each_fault_of_a_side_script_is_told(rt: HostRuntime) -> Result<(), Fail> {
    let input = ["zx 1\n0 arm 0 0 none 3 5\n1 post 5\n", "2 next\n2 next\n"];
    let output = [
        "zx 1\n0.0 arm 0 0 none 3 5 = armed 0\n1.0 post 5 = ok\n",
        "2.0 next = fire 0 0 0 event 5\n2 next = none\n",
    ];
    each_fault(&rt, &["trigger"], &input, &output)?;
    Ok(())
}
