ghost use Rattle.std.specs.Prelude.{◌≡◌, ◌<◌, ◌^◌, length, IfOk};
ghost use Rattle.zk_scenario.specs.Grammar.{read_pieces, read_lines, at_end, scenario_of, Answers, AnswersReading};
ghost use Rattle.zk_scenario.specs.Reading.{start};
ghost use Rattle.zk_scenario.specs.Spelling.{text_of};

use crate::limits::LONGEST_SCENARIO;
use crate::reader::Reader;
use crate::refused::{ScenarioRefused, Why};
use crate::scenario::Scenario;
use std::alloc::Global;
use zk_line::{Args, Call};
use zk_words::Lines;

/// Reads a scenario from its text.
///
/// What is refused is named by its first failing line and the first reason that applies there.
pub fn read_scenario(alloc: Global, text: &[u8]) -> Result<Scenario, ScenarioRefused>
    ensures exact { Answers result (scenario_of text.now) }
    ensures spelled { IfOk result (λ scenario. text.now ≡ text_of scenario) }
{
    if LONGEST_SCENARIO < text.len() {
        return Err(ScenarioRefused::At(0, Why::Length));
    }
    let mut lines = Lines::of(text);
    match read_pieces(alloc, &mut lines) {
        Ok(reader) => {
            let (objects, written, scripts) = reader.into_parts();
            Ok(Scenario::of(objects, written, scripts))
        }
        Err(refused) => Err(refused),
    }
}

fn read_pieces(alloc: Global, lines: &mut Lines<'_>) -> Result<Reader, ScenarioRefused>
    requires { length lines.old < 2 ^ 31 }
    ensures { AnswersReading result (read_pieces lines.old) }
{
    let Some(first) = lines.next() else {
        return Err(ScenarioRefused::At(1, Why::Header));
    };
    if first != b"zk 1".as_slice() {
        return Err(ScenarioRefused::At(1, Why::Header));
    }
    let Some(piece) = lines.next() else {
        return Err(ScenarioRefused::At(1, Why::Line));
    };
    read_lines(alloc, piece, lines)
}

fn read_lines<'a>(
    alloc: Global,
    first: &'a [u8],
    lines: &mut Lines<'a>,
) -> Result<Reader, ScenarioRefused>
    requires { length lines.old < 2 ^ 31 }
    ensures { AnswersReading result (read_lines 2 start first.now lines.old) }
{
    let mut reader = Reader::new(alloc);
    let mut args = Args::new(alloc);
    let mut room = Call::User;
    let mut number = 2;
    let mut piece = first;
    while let Some(next) = lines.next() {
        if let Some(reason) = reader.read_line(alloc, &mut args, &mut room, piece)? {
            return Err(ScenarioRefused::At(number, reason));
        }
        piece = next;
        number += 1;
    }
    finish(reader, number, piece)
}

/// The end of the input, or a last line without its line feed.
fn finish(reader: Reader, number: u32, piece: &[u8]) -> Result<Reader, ScenarioRefused>
    ensures { AnswersReading result (at_end number reader piece.now) }
{
    if !piece.is_empty() {
        return Err(ScenarioRefused::At(number, Why::Line));
    }
    if reader.is_open() {
        return Err(ScenarioRefused::At(number, Why::Order));
    }
    Ok(reader)
}
