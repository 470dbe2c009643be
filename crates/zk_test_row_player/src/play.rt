use std::alloc::Global;
use std::sync::Wait;
use std::thread::Threads;
use zk_base::{NoMemory, OpenGate, Status, SureSink, SureSource, put};
use zk_cli::{needs_cores, zk_plain, zk_run};

/// More room than any output needs.
pub const ROOM: usize = 4_000_000;

/// How a top call ended, and what it printed.
#[derive(Drop)]
pub struct Played {
    pub status: Status,
    pub sink: SureSink,
}

/// The top call on one thread with these words, each behind a space, for this text.
pub fn play(alloc: Global, words: &str, text: &[u8]) -> Result<Played, NoMemory> {
    let words = words_of(alloc, words)?;
    let mut source = source_of(alloc, text)?;
    let mut sink = SureSink::new(Vec::with_capacity(alloc, ROOM)?, 7);
    let status = zk_plain(alloc, &words, &mut source, &mut sink);
    Ok(Played { status, sink })
}

/// The top call that these words are for, on cores or on one thread, for this text.
pub fn play_by<R: Threads + Wait + Sync>(
    rt: &R,
    alloc: Global,
    words: &str,
    text: &[u8],
) -> Result<Played, NoMemory> {
    let split = words_of(alloc, words)?;
    if !needs_cores(&split) {
        return play(alloc, words, text);
    }
    let mut source = source_of(alloc, text)?;
    let mut sink = SureSink::new(Vec::with_capacity(alloc, ROOM)?, 7);
    let gate = OpenGate::new();
    let status = zk_run(rt, alloc, &split, &mut source, &mut sink, &gate);
    Ok(Played { status, sink })
}

/// A source that gives this text.
pub fn source_of(alloc: Global, text: &[u8]) -> Result<SureSource, NoMemory> {
    let mut input = Vec::new(alloc);
    put(&mut input, text)?;
    Ok(SureSource::new(input, 5))
}

fn words_of(alloc: Global, text: &str) -> Result<Vec<String>, NoMemory> {
    let mut words = Vec::new(alloc);
    for word in text.split(' ').skip(1) {
        words.push(String::from_str(alloc, word)?)?;
    }
    Ok(words)
}
