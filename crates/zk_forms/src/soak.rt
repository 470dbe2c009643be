ghost use Rattle.std.specs.Prelude.{◌≡◌, not, ◌++◌, codes, decimal, count_by, IfOk};
ghost use Rattle.zk_trace.specs.Words.{ending_word};
ghost use Rattle.zk_worker.specs.Shown.{is_look};
ghost use Rattle.zk_forms.specs.SoakAnswer.{IsSoakOutput, soak_line, soak_text};

use crate::answer::status_of;
use std::alloc::Global;
use zk_base::{NoMemory, Status, put, put_decimal};
use zk_check::{Checked, check};
use zk_replay::replay;
use zk_soak::generate;
use zk_trace::{Ending, Stood, ending_word, stood_lines};
use zk_worker::Spot;

/// The whole output of `soak` for this number, and the status that goes with it.
pub fn soak_output(alloc: Global, number: u32) -> Result<(Vec<u8>, Status), NoMemory>
    ensures { IfOk result (λ made. IsSoakOutput number made.1 made.0.items) }
{
    let scenario = generate(alloc, number)?;
    let trace = replay(alloc, &scenario)?;
    let Checked::Lawful = check(alloc, &scenario, &trace)? else {
        unreachable!()
    };
    let lines = stood_lines(alloc, &trace)?;
    let text = soak_line(alloc, number, &lines, trace.ending)?;
    Ok((text, status_of(trace.ending)))
}

/// The line of a generated run, by the lines of its entries and looks and how it ended.
fn soak_line(
    alloc: Global,
    number: u32,
    lines: &[Stood],
    ending: Ending,
) -> Result<Vec<u8>, NoMemory>
    ensures { IfOk result (λ text. text.items ≡ soak_line number lines.now ending) }
{
    let mut text = Vec::new(alloc);
    put(&mut text, b"soak ")?;
    put_decimal(&mut text, u64::from(number))?;
    put(&mut text, b" entries ")?;
    put_decimal(&mut text, entry_count(lines) as u64)?;
    put(&mut text, b" looks ")?;
    put_decimal(&mut text, look_count(lines) as u64)?;
    put(&mut text, b" ")?;
    put(&mut text, ending_word(ending))?;
    put(&mut text, b" lawful\n")?;
    Ok(text)
}

fn entry_count(lines: &[Stood]) -> usize
    ensures { result ≡ count_by (λ line. not (is_look line.spot)) lines.now }
{
    lines.iter().filter(|line| !is_look(line.spot)).count()
}

fn look_count(lines: &[Stood]) -> usize
    ensures { result ≡ count_by (λ line. is_look line.spot) lines.now }
{
    lines.iter().filter(|line| is_look(line.spot)).count()
}

/// Whether a line at this spot is that of a look.
fn is_look(spot: Spot) -> bool
    ensures { result ≡ is_look spot }
{
    match spot {
        Spot::LookItem(_, _, _) => true,
        Spot::LookSignal(_, _) => true,
        _ => false,
    }
}
