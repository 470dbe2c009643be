//! The program `zk_show`: its word, standard input, standard output and standard error handed to the top call.
#![tactic(auto)]

use std::process::ExitCode;
use std::{env, io};
use zk_base::{StdSink, StdSource};
use zk_show_view::zk_show;

/// The exit status where the program can't get its words. No top call answers it.
const NO_WORDS: u8 = 9;

fn main(rt: HostRuntime) -> ExitCode {
    let Ok(words) = words(&rt) else {
        return ExitCode::from(NO_WORDS);
    };
    let mut source = StdSource::new(rt.reader());
    let mut sink = StdSink::new(io::writer(&rt));
    let error_stream = rt.stderr();
    let mut errors = StdSink::new(io::writer(&error_stream));
    let status = zk_show(rt.alloc(), &words, &mut source, &mut sink, &mut errors);
    ExitCode::from(status.code())
}

/// The words behind the program's name.
fn words(rt: &HostRuntime) -> io::Result<Vec<String>> {
    let mut words = Vec::new(rt.alloc());
    for word in env::args(rt)?.skip(1) {
        words.push(word)?;
    }
    Ok(words)
}
