use crate::reading::{line_behind, put_came, read_again};
use std::alloc::Global;
use std::fmt::{Debug, Write};
use zk_base::{Entry, NoMemory, put};
use zk_scenario::read_scenario;
use zk_trace::{Formats, Histories, Trace, read_trace, split_text};

/// What is kept of the trace that stands in a text: each entry, look and answer, and whether all is printed as it stands.
pub fn put_kept(alloc: Global, out: &mut Vec<u8>, text: &[u8]) -> Result<(), NoMemory> {
    let (front, behind) = split_text(text);
    let Ok(scenario) = read_scenario(alloc, front) else {
        return put(out, b"no scenario\n");
    };
    let first = line_behind(front);
    if let Ok(trace) = read_trace(alloc, &scenario, Formats::Both, behind, first) {
        put(out, lines_of(alloc, &trace)?.as_bytes())?;
    }
    put_came(out, read_again(alloc, &scenario, behind, first)?)?;
    put(out, b"\n")
}

/// A line for each entry, look and answer.
fn lines_of(alloc: Global, trace: &Trace) -> Result<String, NoMemory> {
    let mut text = String::new(alloc);
    put_entries(&mut text, trace.work.items())?;
    put_all(&mut text, trace.looks.items.items())?;
    put_entries(&mut text, trace.clock.items())?;
    put_entries(&mut text, trace.table.items())?;
    put_histories(&mut text, &trace.sems)?;
    put_histories(&mut text, &trace.msgqs)?;
    put_histories(&mut text, &trace.signals)?;
    for looks in trace.looks.signals.items() {
        put_all(&mut text, looks.items())?;
    }
    put_histories(&mut text, &trace.chans)?;
    put_histories(&mut text, &trace.observers)?;
    for log in trace.logs.items() {
        for place in 0..log.answers.len() {
            if let Some(answered) = log.answers.get(place) {
                write!(text, "{answered:?}\n")?;
            }
        }
    }
    Ok(text)
}

fn put_histories<O: Debug, R: Debug>(
    text: &mut String,
    histories: &Histories<O, R>,
) -> Result<(), NoMemory> {
    for history in histories.items() {
        put_entries(text, history.items())?;
    }
    Ok(())
}

fn put_entries<O: Debug, R: Debug>(
    text: &mut String,
    entries: &[Entry<O, R>],
) -> Result<(), NoMemory> {
    for entry in entries {
        let (who, step) = (entry.who.number, entry.step);
        write!(text, "{who}.{step} {:?} = {:?}\n", entry.op, entry.reply)?;
    }
    Ok(())
}

fn put_all<T: Debug>(text: &mut String, items: &[T]) -> Result<(), NoMemory> {
    for item in items {
        write!(text, "{item:?}\n")?;
    }
    Ok(())
}
