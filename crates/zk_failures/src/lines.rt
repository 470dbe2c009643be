ghost use Rattle.std.specs.Prelude.{◌≡◌, ◌+◌, ◌++◌, map, length, IfOk, OnOk};
ghost use Rattle.std.specs.List.{sum_by};
ghost use Rattle.zk_trace.specs.declared.format.Format.{Format};
ghost use Rattle.zk_trace.specs.Form.{IsInForm};
ghost use Rattle.zk_trace.specs.Text.{looks_at};
ghost use Rattle.zk_trace.specs.TraceRead.{line_number};
ghost use Rattle.zk_failures.specs.Capped.{capped};
ghost use Rattle.zk_failures.specs.LineOf.{IsItsLine};
ghost use Rattle.zk_failures.specs.Lines.{both_lengths, section_lengths, lines_of_section, row_line, player_line, trace_line, line_at};

use crate::site::Site;
use std::alloc::Global;
use zk_base::{Listed, NoMemory};
use zk_scenario::{Scenario, print_scenario};
use zk_trace::{History, SignalLook, Trace, line_count, trace_counts};
use zk_worker::Log;

/// The number of the line of what stands somewhere, from 1, in the scenario's text followed by the trace's.
pub fn line_at(
    alloc: Global,
    scenario: &Scenario,
    trace: &Trace,
    site: Site,
) -> Result<u32, NoMemory>
    requires { IsInForm scenario.now trace.now }
    ensures { IfOk result (λ line. line ≡ line_at scenario.now trace.now site) }
{
    let text = print_scenario(alloc, scenario)?;
    let lengths = section_lengths(alloc, trace)?;
    let first = (line_count(&text) as u64).saturating_add(1);
    Ok(line_number(first, trace_line(trace, &lengths, site)))
}

/// The line of this number is that of what stands there, in whichever format the trace is written.
pub fn is_its_line(scenario: &Scenario, trace: &Trace, site: Site)
    requires { IsInForm scenario.now trace.now }
    ensures { (f : Format) → IsItsLine f scenario.now trace.now site }
{
    let _readable = scenario.decls();
    trace_counts(trace);
}

/// The number of a line, by its place.
fn line_number(first: u64, place: u64) -> u32
    ensures { result ≡ line_number first place }
{
    let number = first.saturating_add(place);
    if number < u64::from(u32::MAX) {
        number as u32
    } else {
        u32::MAX
    }
}

/// The place of what stands somewhere, from 0, among the lines of a trace.
fn trace_line(trace: &Trace, lengths: &[usize], site: Site) -> u64
    requires { lengths.now ≡ section_lengths trace.now }
    ensures { result ≡ capped (trace_line trace.now site) }
{
    match site {
        Site::Ending => 1,
        Site::Row(row) => row_line(lengths, row).saturating_add(2),
        Site::Player(player) => player_line(trace, lengths, player),
        Site::Answer(player, place) => player_line(trace, lengths, player)
            .saturating_add(1)
            .saturating_add(place),
    }
}

/// The place of a row, from 0, among the lines of sections that have so many rows.
fn row_line(lengths: &[usize], row: u64) -> u64
    ensures { result ≡ capped (row_line lengths.now row) }
{
    let mut passed: u64 = 0;
    let mut left = row;
    for section in lengths {
        let rows = *section as u64;
        if left < rows {
            return passed.saturating_add(1).saturating_add(left);
        }
        passed = passed.saturating_add(lines_of_section(rows));
        left -= rows;
    }
    passed.saturating_add(left)
}

/// How many lines a section of so many rows has: a head and the rows, or none.
fn lines_of_section(rows: u64) -> u64
    ensures { result ≡ capped (lines_of_section rows) }
{
    if rows == 0 { 0 } else { rows.saturating_add(1) }
}

/// The place of a player's head, from 0, among the lines of a trace.
fn player_line(trace: &Trace, lengths: &[usize], player: u32) -> u64
    requires { lengths.now ≡ section_lengths trace.now }
    ensures { result ≡ capped (player_line trace.now player) }
{
    let logs = trace.logs.items();
    let before = logs.len().min(player as usize);
    all_sections(lengths)
        .saturating_add(2)
        .saturating_add(all_logs(&logs[..before]))
}

/// How many lines sections of so many rows have.
fn all_sections(lengths: &[usize]) -> u64
    ensures { result ≡ capped (sum_by lines_of_section lengths.now) }
{
    let mut lines: u64 = 0;
    for rows in lengths {
        lines = lines.saturating_add(lines_of_section(*rows as u64));
    }
    lines
}

/// How many lines the sections of players have: of each a head and the answers.
fn all_logs(logs: &[Log]) -> u64
    ensures { result ≡ capped (sum_by (λ log. 1 + length log.answers) logs.now) }
{
    let mut lines: u64 = 0;
    for log in logs {
        lines = lines
            .saturating_add(1)
            .saturating_add(log.answers.len() as u64);
    }
    lines
}

/// How many rows each section of a trace has, in the order of the text.
fn section_lengths(alloc: Global, trace: &Trace) -> Result<Vec<usize>, NoMemory>
    ensures { IfOk result (λ lengths. lengths.items ≡ section_lengths trace.now) }
{
    let mut lengths = Vec::new(alloc);
    lengths.push(trace.work.items().len() + trace.looks.items.items().len())?;
    lengths.push(trace.clock.items().len())?;
    lengths.push(trace.table.items().len())?;
    put_lengths(&mut lengths, trace.sems.items())?;
    put_lengths(&mut lengths, trace.msgqs.items())?;
    put_both(
        &mut lengths,
        trace.signals.items(),
        trace.looks.signals.items(),
    )?;
    put_lengths(&mut lengths, trace.chans.items())?;
    put_lengths(&mut lengths, trace.observers.items())?;
    Ok(lengths)
}

fn put_lengths<T>(lengths: &mut Vec<usize>, lists: &[Listed<T>]) -> Result<(), NoMemory>
    ensures { OnOk result (lengths.new.items ≡ lengths.old.items ++ map length lists.now) }
{
    for list in lists {
        lengths.push(list.items().len())?;
    }
    Ok(())
}

/// Puts how many writes and looks there are of each signal.
fn put_both<O, R>(
    lengths: &mut Vec<usize>,
    writes: &[History<O, R>],
    looks: &[Listed<SignalLook>],
) -> Result<(), NoMemory>
    ensures { OnOk result (lengths.new.items ≡ lengths.old.items ++ both_lengths writes.now looks.now) }
{
    for (object, history) in writes.iter().enumerate() {
        let seen = looks_at(looks, object).len();
        lengths.push(history.items().len() + seen)?;
    }
    Ok(())
}

/// The looks at a signal.
fn looks_at(looks: &[Listed<SignalLook>], object: usize) -> &[SignalLook]
    ensures { result.now ≡ looks_at looks.now object }
{
    match looks.get(object) {
        Some(looks) => looks.items(),
        None => &[],
    }
}
