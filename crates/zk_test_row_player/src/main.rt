//! Plays the rows of standard input, each through a top call over memory, and prints what came of each. So a further row
//! is a few lines of `stdin` and of `stdout`, and costs no proof.
#![tactic(auto)]

mod changes;
mod checking;
mod counts;
mod format_one;
mod kept;
mod migrating;
mod play;
mod reading;
mod rows;
mod shown;
mod spelled;

use rows::answered;
use std::io::{self, Read, Write};

fn main(rt: HostRuntime) -> io::Result<()> {
    let mut rows = String::new(rt.alloc());
    rt.reader().read_to_string(&mut rows)?;
    match answered(&rt, rt.alloc(), &rows) {
        Ok(text) => io::writer(&rt).write_all(&text),
        Err(error) => println!(rt; "{error}"),
    }
}
