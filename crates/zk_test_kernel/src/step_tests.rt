//! Callers that step in turn on one thread make the trace of `replay`; in threads of their own, however their steps fall, a lawful
//! one.
use crate::moves::Move;
use crate::played::{played, scenario};
use crate::scenarios::every;
use std::alloc::Global;
use std::process::Abort;
use std::sync::Wait;
use std::test::Fail;
use std::thread::Threads;
use zk_replay::replay;
use zk_trace::print_trace;

/// How often each scenario is played.
const TIMES: u32 = 200;

/// Each player of a scenario in a thread of its own, again and again.
pub fn play_often<R: Threads + Wait + Sync>(
    rt: &R,
    alloc: Global,
    text: &[u8],
) -> Result<(), Fail> {
    for _ in 0..TIMES {
        played(rt, alloc, text, &[Move::Each(false)])?;
    }
    Ok(())
}

/// The text of the trace of `replay`.
fn replayed_text(alloc: Global, text: &[u8]) -> Result<Vec<u8>, Fail> {
    let scenario = scenario(alloc, text)?;
    let trace = replay(alloc, &scenario)?;
    Ok(print_trace(alloc, &scenario, &trace)?)
}

/// Both make the same trace.
pub fn is_replayed<R: Threads + Wait + Sync + Abort>(
    rt: &R,
    alloc: Global,
    text: &[u8],
) -> Result<(), Fail> {
    // More rounds than these scenarios have steps of a player.
    let report = played(rt, alloc, text, &[Move::Rounds(60)])?;
    let alone = replayed_text(alloc, text)?;
    assert!(rt; alone.len() > 100 && report.text.as_slice() == alone.as_slice());
    Ok(())
}

#[test]
fn steps_in_turn_make_the_trace_of_replay(rt: HostRuntime) -> Result<(), Fail> {
    is_replayed(&rt, rt.alloc(), every())
}

#[test]
fn every_kind_of_service_in_threads(rt: HostRuntime) -> Result<(), Fail> {
    play_often(&rt, rt.alloc(), every())
}
