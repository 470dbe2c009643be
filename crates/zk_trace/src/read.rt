ghost use Rattle.std.specs.Prelude.{◌≡◌, ◌-◌, ◌↔◌, [], IsTrue, IfOk, length};
ghost use Rattle.zk_blocks.specs.Cut.{cut_of};
ghost use Rattle.zk_words.specs.Bytes.{line_feed};
ghost use Rattle.zk_trace.specs.declared.read.TraceRefused.TheVariants.{At, NoMemory};
ghost use Rattle.zk_trace.specs.declared.trace.Trace.{Trace};
ghost use Rattle.zk_trace.specs.Feeds.{lines_in};
ghost use Rattle.zk_trace.specs.declared.format.Format.{Format};
ghost use Rattle.zk_trace.specs.Form.{IsInForm};
ghost use Rattle.zk_trace.specs.Text.{trace_text};
ghost use Rattle.zk_trace.specs.TraceRead.{IsReadIn, HasText, IsReadAs, IfAt, IsRefusedAt, line_number};

use crate::Trace;
use crate::counts::long;
use crate::feed::{Feed, line_count};
use crate::format::Formats;
use crate::hints::Hints;
use crate::trace_made::trace_of;
use crate::whole_read::read_whole;
use std::alloc::Global;
use thiserror::Error;
use zk_base as base;
use zk_scenario::Scenario;

/// Why no trace was read.
#[derive(Clone, Copy, Debug, PartialEq, Eq, Error)]
pub enum TraceRefused {
    /// The first line that can't stand behind those before it; behind the last line there is none.
    #[error("line {0}: trace")]
    At(u32),
    #[error("out of memory")]
    NoMemory,
}

impl From<base::NoMemory> for TraceRefused {
    ghost from_gives = { λ _ e. e ≡ NoMemory };

    fn from(_error: base::NoMemory) -> TraceRefused {
        TraceRefused::NoMemory
    }
}

/// Reads the trace part of an output, which stands behind a scenario's text and begins with the line of this number.
///
/// It reads just the texts of traces in form, in those of these formats that the scenario may have. What is refused is named by
/// the number of its first line that can't stand behind those before it, or of the one behind the last line.
pub fn read_trace(
    alloc: Global,
    scenario: &Scenario,
    formats: Formats,
    bytes: &[u8],
    first_line: u32,
) -> Result<Trace, TraceRefused>
    ensures found { IfOk result (λ trace. HasText formats scenario.now trace bytes.now) }
    ensures only { (f : Format) (trace : Trace) → IsReadIn formats scenario.now f → IsInForm scenario.now trace →
        bytes.now ≡ trace_text f scenario.now trace → IsReadAs trace result }
    ensures at { IfAt result (λ number. IsRefusedAt formats scenario.now bytes.now first_line number) }
{
    let _readable = scenario.decls();
    long(bytes);
    let mut feed = Feed::of(bytes);
    let hints = Hints::of(scenario);
    let Some(whole) = read_whole(alloc, scenario, &hints, formats, &mut feed)? else {
        return Err(refused(bytes, first_line, &feed));
    };
    if !is_read(bytes, &feed) {
        return Err(refused(bytes, first_line, &feed));
    }
    Ok(trace_of(alloc, scenario, whole)?)
}

/// Whether nothing stands behind the last line feed of a text.
fn is_fed(text: &[u8]) -> bool
    ensures { IsTrue result ↔ ((cut_of line_feed text.now).1 ≡ []) }
{
    match text.split_last() {
        Some((last, _)) => *last == b'\n',
        None => true,
    }
}

/// Whether no line is left, and nothing stands behind the last line feed.
fn is_read(bytes: &[u8], feed: &Feed<'_>) -> bool
    ensures { IsTrue result ↔ ((feed.now ≡ []) × ((cut_of line_feed bytes.now).1 ≡ [])) }
{
    feed.is_over() && is_fed(bytes)
}

/// The line at which the reading ended is refused.
fn refused(bytes: &[u8], first_line: u32, feed: &Feed<'_>) -> TraceRefused
    ensures { result ≡ At (line_number first_line (length (lines_in bytes.now) - length feed.now)) }
{
    let place = line_count(bytes).saturating_sub(feed.left());
    TraceRefused::At(line_number(first_line, place))
}

/// The number of a line, by its place.
fn line_number(first: u32, place: usize) -> u32
    ensures { result ≡ line_number first place }
{
    let number = u64::from(first).saturating_add(place as u64);
    if number < u64::from(u32::MAX) {
        number as u32
    } else {
        u32::MAX
    }
}
