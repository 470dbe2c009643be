ghost use Rattle.std.specs.Prelude.{◌≡◌, ◌≢◌, ◌⊎◌, ◌+◌, ◌<◌, ◌≤◌, ◌++◌, None, Some, Ok, length, map, string_bytes, IfOk};
ghost use Rattle.std.specs.Io.KnownBytes.{Appends, Keeps};
ghost use Rattle.zk_base.specs.Causes.{Rose};
ghost use Rattle.zk_base.specs.Fronts.{StaysInFront};
ghost use Rattle.zk_scenario.specs.Grammar.{scenario_of};
ghost use Rattle.zk_scenario.specs.Spelling.{text_of};
ghost use Rattle.zk_trace.specs.declared.format.Format.{Format};
ghost use Rattle.zk_trace.specs.Feeds.{lines_in};
ghost use Rattle.zk_trace.specs.Form.{IsInForm};
ghost use Rattle.zk_trace.specs.Parting.{AreParts};
ghost use Rattle.zk_trace.specs.Text.{trace_text};
ghost use Rattle.zk_show_chart.specs.Bars.{AreInOrder, start};
ghost use Rattle.zk_show_why.specs.Refusal.{refusal_head};
ghost use Rattle.zk_forms.specs.declared.form.TheConstants.{LONGEST_TRACE};
ghost use Rattle.zk_forms.specs.Input.{GaveAtMost};
ghost use Rattle.zk_forms.specs.Output.{AppendsFront};
ghost use Rattle.zk_forms.specs.Top.{Prints, words_refused};
ghost use Rattle.zk_show_view.specs.declared.view.View.{View};
ghost use Rattle.zk_show_view.specs.Views.{view_of};
ghost use Rattle.zk_show_view.specs.Shown.{IsShown, IsToldOfFront, Draws, IsViewWith, MayCome, PrintsFrontTo, ShowsTo, TellsEnd, WentTo, is_refused};

use crate::answers::{answer_of, asking};
use crate::verdict::{end_of_run, why_of_run};
use crate::view::{View, view_of};
use std::alloc::Global;
use zk_base::{NoMemory, Sink, Source, Status, put};
use zk_forms::{LONGEST_TRACE, NoInput, read_input, trace_refusal, write_text};
use zk_replay::replay;
use zk_scenario::{Scenario, ScenarioRefused, Why, read_scenario};
use zk_show_chart::{Chart, chart_of};
use zk_show_json::put_json;
use zk_show_page::put_page;
use zk_show_svg::put_svg;
use zk_show_text::put_text;
use zk_show_why::put_refusal;
use zk_trace::{Formats, Trace, TraceRefused, line_count, put_trace, read_trace, split_text};

/// The program `zk_show` over any source and any two sinks: it reads a scenario with a trace behind it, as `replay` and `run` print
/// it, and shows the run on the first. A scenario alone is played by round robin first. A trace behind it is judged first: of one
/// that isn't lawful the line and the reason stand where else it is said how the run ended, and the status is `Unlawful`.
///
/// What is refused is told on the second sink: of a scenario at length, whatever the view; of a trace that can't be read by the
/// line that `check` prints; of what `zk` itself says in place of a trace that it is that. Nothing is written before all is read.
pub fn zk_show<S: Source, K: Sink, E: Sink>(
    alloc: Global,
    words: &[String],
    source: &mut S,
    sink: &mut K,
    errors: &mut E,
) -> Status
    // What each status that prints says of the input and the output, which goes to the one sink or the other.
    ensures success { (view : View) → view_of (map string_bytes words.now) ≡ Some view → result ≡ Status.Success →
        Prints (S.left source.old) (K.held sink.old) (K.held sink.new) (IsShown view Status.Success)
        × (E.held errors.new ≡ E.held errors.old) }
    ensures unlawful { (view : View) → view_of (map string_bytes words.now) ≡ Some view → result ≡ Status.Unlawful →
        Prints (S.left source.old) (K.held sink.old) (K.held sink.new) (IsShown view Status.Unlawful)
        × (E.held errors.new ≡ E.held errors.old) }
    ensures refused { (view : View) → view_of (map string_bytes words.now) ≡ Some view → result ≡ Status.Refused →
        Prints (S.left source.old) (E.held errors.old) (E.held errors.new) (IsShown view Status.Refused)
        × (K.held sink.new ≡ K.held sink.old) }
    ensures words { result ≡ Status.Words → (view_of (map string_bytes words.now) ≡ None)
        × Appends (E.held errors.old) (E.held errors.new) words_refused × (K.held sink.new ≡ K.held sink.old) }

    // When each status comes.
    ensures no_view { view_of (map string_bytes words.now) ≡ None → (result ≡ Status.Words) ⊎ (result ≡ Status.WriteFault) }
    ensures only { MayCome result }
    ensures read_fault { result ≡ Status.ReadFault → Rose (S.faults source.old) (S.faults source.new) }
    ensures write_fault { result ≡ Status.WriteFault →
        Rose (K.faults sink.old) (K.faults sink.new) ⊎ Rose (E.faults errors.old) (E.faults errors.new) }

    // Each count of faults stays but for its own status.
    ensures reads { result ≢ Status.ReadFault → S.faults source.new ≡ S.faults source.old }
    ensures writes { result ≢ Status.WriteFault →
        (K.faults sink.new ≡ K.faults sink.old) × (E.faults errors.new ≡ E.faults errors.old) }

    // However it ends, no more is taken of the source than one byte above the limit.
    ensures most { GaveAtMost (LONGEST_TRACE + 1) (S.left source.old) (S.left source.new) }

    // Where nothing, or not all, was written.
    ensures nothing { (result ≡ Status.ReadFault) ⊎ (result ≡ Status.NoMemory) →
        Keeps (K.held sink.old) (K.held sink.new) × Keeps (E.held errors.old) (E.held errors.new) }
    ensures front { (view : View) → view_of (map string_bytes words.now) ≡ Some view → result ≡ Status.WriteFault →
        PrintsFrontTo view (S.left source.old) (K.held sink.old) (K.held sink.new) (E.held errors.old) (E.held errors.new) }
{
    match view_of(words) {
        Some(view) => answer(alloc, view, source, sink, errors),
        None => write_made(errors, b"refused words\n", Status::Words),
    }
}

/// Reads the input, and prints a view of it.
fn answer<S: Source, K: Sink, E: Sink>(
    alloc: Global,
    view: View,
    source: &mut S,
    sink: &mut K,
    errors: &mut E,
) -> Status
    ensures went { WentTo view (S.left source.old) (K.held sink.old) (K.held sink.new) (E.held errors.old) (E.held errors.new)
        (S.faults source.old) (S.faults source.new) (K.faults sink.old) (K.faults sink.new)
        (E.faults errors.old) (E.faults errors.new) result }
    ensures reads { result ≢ Status.ReadFault → S.faults source.new ≡ S.faults source.old }
    ensures writes { result ≢ Status.WriteFault →
        (K.faults sink.new ≡ K.faults sink.old) × (E.faults errors.new ≡ E.faults errors.old) }
    ensures most { GaveAtMost (LONGEST_TRACE + 1) (S.left source.old) (S.left source.new) }
{
    match read_input(alloc, source, LONGEST_TRACE) {
        Ok(input) => show(alloc, view, input, sink, errors),
        Err(NoInput::Fault) => Status::ReadFault,
        Err(NoInput::NoMemory) => Status::NoMemory,
    }
}

/// Prints a view of an input, or why it has none.
fn show<K: Sink, E: Sink>(
    alloc: Global,
    view: View,
    input: Vec<u8>,
    sink: &mut K,
    errors: &mut E,
) -> Status
    ensures shows { ShowsTo view input.items (K.held sink.old) (K.held sink.new) (E.held errors.old) (E.held errors.new)
        (K.faults sink.old) (K.faults sink.new) (E.faults errors.old) (E.faults errors.new) result }
    ensures writes { result ≢ Status.WriteFault →
        (K.faults sink.new ≡ K.faults sink.old) × (E.faults errors.new ≡ E.faults errors.old) }
{
    match shown(alloc, view, input) {
        Ok((output, status)) => {
            if is_refused(status) {
                write_made(errors, &output, status)
            } else {
                write_made(sink, &output, status)
            }
        }
        Err(NoMemory) => Status::NoMemory,
    }
}

/// Whether an input was refused.
fn is_refused(status: Status) -> bool
    ensures { result ≡ is_refused status }
{
    match status {
        Status::Refused => true,
        _ => false,
    }
}

/// Writes an output, and answers the status that goes with it.
fn write_made<K: Sink>(sink: &mut K, output: &[u8], status: Status) -> Status
    ensures whole { result ≢ Status.WriteFault → (result ≡ status) × Appends (K.held sink.old) (K.held sink.new) output.now }
    ensures front { AppendsFront (K.held sink.old) (K.held sink.new) output.now }
    ensures fault { result ≡ Status.WriteFault → (status ≡ Status.WriteFault) ⊎ Rose (K.faults sink.old) (K.faults sink.new) }
    ensures writes { result ≢ Status.WriteFault → K.faults sink.new ≡ K.faults sink.old }
{
    match write_text(sink, output) {
        Ok(()) => status,
        Err(_) => Status::WriteFault,
    }
}

/// The whole output for an input, and its status.
fn shown(alloc: Global, view: View, input: Vec<u8>) -> Result<(Vec<u8>, Status), NoMemory>
    ensures { IfOk result (λ made. IsShown view made.1 input.items made.0.items) }
{
    if LONGEST_TRACE < input.len() {
        return Ok((refusal(alloc, &input, 0, Why::Length)?, Status::Refused));
    }
    let (front, trace) = split_text(&input);
    match read_scenario(alloc, front) {
        Ok(scenario) => run_shown(alloc, view, &scenario, front, trace),
        Err(ScenarioRefused::At(line, why)) => {
            Ok((
                no_scenario(alloc, &input, front, line, why)?,
                Status::Refused,
            ))
        }
        Err(ScenarioRefused::NoMemory) => Err(NoMemory),
    }
}

/// What is said of an input whose front is refused as a scenario at this line.
fn no_scenario(
    alloc: Global,
    input: &[u8],
    front: &[u8],
    line: u32,
    why: Why,
) -> Result<Vec<u8>, NoMemory>
    ensures { IfOk result (λ told. IsToldOfFront input.now line why told.items) }
{
    match answer_of(alloc, input)? {
        Some(answer) => Ok(asking(alloc, answer)?),
        None => refusal(alloc, told_text(input, front), line, why),
    }
}

/// The text whose line is shown: the whole input where it has no scenario at all.
fn told_text<'a>(input: &'a [u8], front: &'a [u8]) -> &'a [u8] {
    if front.is_empty() { input } else { front }
}

/// What is said of a scenario that is refused at this line.
fn refusal(alloc: Global, text: &[u8], line: u32, why: Why) -> Result<Vec<u8>, NoMemory>
    ensures { IfOk result (λ told. StaysInFront (refusal_head line why) told.items) }
{
    let mut out = Vec::new(alloc);
    put_refusal(&mut out, text, line, why)?;
    Ok(out)
}

/// The run of a scenario, whose text this is with what stands behind it, shown.
fn run_shown(
    alloc: Global,
    view: View,
    scenario: &Scenario,
    front: &[u8],
    text: &[u8],
) -> Result<(Vec<u8>, Status), NoMemory>
    requires read { scenario_of front.now ≡ Ok scenario.now }
    requires spelled { front.now ≡ text_of scenario.now }
    requires parts { AreParts (front.now ++ text.now) front.now text.now }
    requires short { length (front.now ++ text.now) ≤ LONGEST_TRACE }
    ensures { IfOk result (λ made. IsShown view made.1 (front.now ++ text.now) made.0.items) }
{
    if text.is_empty() {
        return played(alloc, view, scenario, front);
    }
    traced(alloc, view, scenario, front, text)
}

/// The round robin run of a scenario, shown.
fn played(
    alloc: Global,
    view: View,
    scenario: &Scenario,
    text: &[u8],
) -> Result<(Vec<u8>, Status), NoMemory>
    requires read { scenario_of text.now ≡ Ok scenario.now }
    requires spelled { text.now ≡ text_of scenario.now }
    requires short { length text.now ≤ LONGEST_TRACE }
    ensures { IfOk result (λ made. IsShown view made.1 text.now made.0.items) }
{
    let trace = replay(alloc, scenario)?;
    let end = why_of_run(alloc, scenario, &trace)?;
    let mut printed = Vec::new(alloc);
    put_trace(&mut printed, scenario, &trace)?;
    let output = view_of_run(alloc, view, scenario, text, &trace, &printed, end)?;
    Ok((output, Status::Success))
}

/// The trace behind a scenario's text, shown.
fn traced(
    alloc: Global,
    view: View,
    scenario: &Scenario,
    front: &[u8],
    text: &[u8],
) -> Result<(Vec<u8>, Status), NoMemory>
    requires read { scenario_of front.now ≡ Ok scenario.now }
    requires spelled { front.now ≡ text_of scenario.now }
    requires parts { AreParts (front.now ++ text.now) front.now text.now }
    requires short { length (front.now ++ text.now) ≤ LONGEST_TRACE }
    requires behind { 0 < length text.now }
    ensures { IfOk result (λ made. IsShown view made.1 (front.now ++ text.now) made.0.items) }
{
    match read_trace(alloc, scenario, Formats::Both, text, behind(front)) {
        Ok(trace) => {
            let (end, status) = end_of_run(alloc, scenario, &trace)?;
            let output = view_of_run(alloc, view, scenario, front, &trace, text, end)?;
            Ok((output, status))
        }
        Err(TraceRefused::At(line)) => Ok((trace_refusal(alloc, line)?, Status::Refused)),
        Err(TraceRefused::NoMemory) => Err(NoMemory),
    }
}

/// A view of a trace, whose text begins with the line of this number, by what is told of its end.
fn view_of_run(
    alloc: Global,
    view: View,
    scenario: &Scenario,
    source: &[u8],
    trace: &Trace,
    text: &[u8],
    end: Vec<u8>,
) -> Result<Vec<u8>, NoMemory>
    requires form { IsInForm scenario.now trace.now }
    requires source { source.now ≡ text_of scenario.now }
    requires short { length source.now ≤ LONGEST_TRACE }
    ensures { (f : Format) → text.now ≡ trace_text f scenario.now trace.now →
        IfOk result (λ output. IsViewWith view f scenario.now trace.now end.items output.items) }
{
    if view == View::Why {
        return Ok(end);
    }
    let chart = chart_of(alloc, scenario, trace, text, behind(source))?;
    drawn(alloc, view, scenario, source, trace, &chart, &end)
}

/// The number of the line behind a scenario's text.
fn behind(source: &[u8]) -> u32
    requires { length source.now ≤ LONGEST_TRACE }
    ensures { result ≡ length (lines_in source.now) + 1 }
{
    line_count(source) as u32 + 1
}

/// A view of a chart, by what is told of the run's end.
fn drawn(
    alloc: Global,
    view: View,
    scenario: &Scenario,
    source: &[u8],
    trace: &Trace,
    chart: &Chart<'_>,
    end: &[u8],
) -> Result<Vec<u8>, NoMemory>
    requires order { AreInOrder (map start chart.now.bars.items) }
    requires source { source.now ≡ text_of scenario.now }
    ensures { IfOk result (λ output. Draws view scenario.now trace.now chart.now end.now output.items) }
{
    let mut out = Vec::new(alloc);
    match view {
        View::Text => {
            put_text(&mut out, scenario, chart)?;
            put(&mut out, end)?;
        }
        View::Svg => put_svg(&mut out, scenario, chart, end)?,
        View::Json => put_json(&mut out, scenario, trace.logs.items(), chart, end, source)?,
        View::Page => put_page(&mut out, scenario, trace.logs.items(), chart, end, source)?,
        View::Why => put(&mut out, end)?,
    }
    Ok(out)
}
