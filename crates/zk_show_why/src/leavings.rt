ghost use Rattle.std.specs.Prelude.{◌≡◌, ◌++◌, codes, IfOk, OnOk};
ghost use Rattle.zk_base.specs.Fronts.{StaysInFront};
ghost use Rattle.zk_trace.specs.Words.{errno_word};
ghost use Rattle.zk_show_why.specs.Leavings.{IsLeftText, TellsLeft, TellsLefts, count_words, dropped_words, left_back, left_end, left_front, left_verb, many_words, until_words};

use crate::failed::put_step;
use crate::left::{Left, What, left_of};
use crate::people::{name_at, player_name};
use crate::run::Run;
use crate::stand::call_at;
use crate::story::{Saying, Story};
use crate::waits::put_numbered;
use crate::words::{END, Told};
use std::alloc::Global;
use zk_base::{Errno, NoMemory, put, put_decimal};
use zk_scenario::Scenario;
use zk_trace::errno_word;

fn left_verb(what: What) -> &'static [u8]
    ensures { result.now ≡ left_verb what }
{
    match what {
        What::Refused(_) => b" submitted ",
        What::Expired(_) => b" ended the delay of ",
        What::Hurried => b" flushed ",
        What::Dropped(_) => b" cancelled ",
        What::Delayed(_) => b" delayed ",
        What::Holds(_) => b" put the last message into ",
    }
}

fn put_many(out: &mut Vec<u8>, count: u64) -> Result<(), NoMemory>
    ensures { OnOk result (out.new.items ≡ out.old.items ++ many_words count) }
{
    put_numbered(out, b", and ", count, b" messages are left there")
}

fn put_count(out: &mut Vec<u8>, count: u64) -> Result<(), NoMemory>
    ensures { OnOk result (out.new.items ≡ out.old.items ++ count_words count) }
{
    if count == 1 {
        put(out, b", and 1 message is left there")
    } else {
        put_many(out, count)
    }
}

fn put_until(out: &mut Vec<u8>, moment: u64) -> Result<(), NoMemory>
    ensures { OnOk result (out.new.items ≡ out.old.items ++ until_words moment) }
{
    put(out, b", until tick ")?;
    put_decimal(out, moment)?;
    put(out, b", which is to come")
}

fn put_dropped(out: &mut Vec<u8>, number: u64) -> Result<(), NoMemory>
    ensures { OnOk result (out.new.items ≡ out.old.items ++ dropped_words number) }
{
    put(out, b", which dropped its admission a")?;
    put_decimal(out, number)
}

// An error behind these words.
fn put_errno(out: &mut Vec<u8>, front: &[u8], errno: Errno) -> Result<(), NoMemory>
    ensures { OnOk result (out.new.items ≡ out.old.items ++ front.now ++ errno_word errno ++ codes "`") }
{
    put(out, front)?;
    put(out, errno_word(errno))?;
    put(out, b"`")
}

// What came of what the player did.
fn put_left_end(out: &mut Vec<u8>, what: What) -> Result<(), NoMemory>
    ensures { OnOk result (out.new.items ≡ out.old.items ++ left_end what) }
{
    match what {
        What::Refused(errno) => put_errno(out, b", in vain: it was answered `", errno),
        What::Expired(errno) => put_errno(out, b", in vain: its submission was answered `", errno),
        What::Hurried => put(out, b", in vain: its submission was refused"),
        What::Dropped(number) => put_dropped(out, number),
        What::Delayed(moment) => put_until(out, moment),
        What::Holds(count) => put_count(out, count),
    }
}

// Who did what.
fn put_front(out: &mut Vec<u8>, scenario: &Scenario, left: Left) -> Result<(), NoMemory>
    ensures { OnOk result (out.new.items ≡ out.old.items ++ left_front scenario.now.decls left) }
{
    put(out, player_name(scenario, left.made.player as usize))?;
    put(out, left_verb(left.what))?;
    put(out, name_at(scenario, left.object))
}

// At which step, and what came of that.
fn put_back(out: &mut Vec<u8>, step: u64, what: What) -> Result<(), NoMemory>
    ensures { OnOk result (out.new.items ≡ out.old.items ++ left_back step what) }
{
    put(out, b" ")?;
    put_step(out, step)?;
    put_left_end(out, what)?;
    put(out, END)
}

// In which line the player did it.
fn place_of(alloc: Global, run: &Run<'_>, left: Left) -> Result<Vec<u8>, NoMemory> {
    let mut story = Story::new(alloc);
    let player = left.made.player as usize;
    let step = left.made.step as usize;
    if let Some(log) = run.log(player) {
        if let Some(place) = call_at(alloc, run.scenario, run.trace, player, log, step)? {
            story.say(Saying::of(Told::InThisLine).line(place));
        }
    }
    story.text(alloc, run.scenario)
}

// The sentence on what came to nothing or is left.
fn left_text(alloc: Global, run: &Run<'_>, left: Left) -> Result<Vec<u8>, NoMemory>
    ensures { IfOk result (λ said. IsLeftText run.now.scenario.now.decls left said.items) }
{
    let place = place_of(alloc, run, left)?;
    let mut said = Vec::new(alloc);
    put_front(&mut said, run.scenario, left)?;
    put(&mut said, &place)?;
    put_back(&mut said, u64::from(left.made.step), left.what)?;
    Ok(said)
}

fn put_lefts(out: &mut Vec<u8>, run: &Run<'_>, lefts: &[Left]) -> Result<(), NoMemory>
    ensures told { OnOk result (TellsLefts run.now.scenario.now.decls lefts.now out.old.items out.new.items) }
    ensures kept { StaysInFront out.old.items out.new.items }
{
    for left in lefts {
        let said = left_text(*out.allocator(), run, *left)?;
        put(out, &said)?;
    }
    Ok(())
}

/// Appends a sentence on each thing that a run leaves behind.
pub fn put_leavings(out: &mut Vec<u8>, run: &Run<'_>) -> Result<(), NoMemory>
    ensures told { OnOk result (TellsLeft run.now.scenario.now.decls run.now.trace.now out.old.items out.new.items) }
    ensures kept { StaysInFront out.old.items out.new.items }
{
    let lefts = left_of(*out.allocator(), run.scenario, run.trace)?;
    put_lefts(out, run, &lefts)
}
