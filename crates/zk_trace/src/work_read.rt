ghost use Rattle.std.specs.Prelude.{◌≡◌, IfOk};
ghost use Rattle.std.specs.Str.{bytes_eq};
ghost use Rattle.zk_words.specs.Pieces.{words_of};
ghost use Rattle.zk_trace.specs.Fields.{one, three, said_behind, item_of, queue_of, narrow_of, admission_of};
ghost use Rattle.zk_trace.specs.Parts.{fixed_word};
ghost use Rattle.zk_trace.specs.Static.{static_row};
ghost use Rattle.zk_trace.specs.Work.{reply_parts};
ghost use Rattle.zk_trace.specs.WorkRead.{verb_of, op_behind, op_of, now_of, sub_of, number_of, reply_of};

use crate::choosing::first_of;
use crate::expiries::{admitted_of, expiries_of};
use crate::flags::flags_of;
use crate::look_ups::{item_of, queue_of, target_of};
use crate::numerals::{admission_of, narrow_of, wide_of};
use crate::parts::{FixedWord, fixed_word, static_row};
use crate::row_words::{behind, one_word, three_words, two_words};
use crate::set_words::plug_of;
use crate::work::{Verb, reply_parts, verb_word};
use std::alloc::Global;
use zk_base::{Errno, NoMemory};
use zk_model_work::{Submitted, WorkOp, WorkReply};
use zk_scenario::Scenario;
use zk_words::{Words, is_same};

/// All verbs.
const VERBS: [Verb; 17] = [
    Verb::Submit,
    Verb::Cancel,
    Verb::CancelStart,
    Verb::CancelDone,
    Verb::FlushStart,
    Verb::FlushDone,
    Verb::Schedule,
    Verb::Reschedule,
    Verb::Remaining,
    Verb::Start,
    Verb::DrainStart,
    Verb::DrainDone,
    Verb::Unplug,
    Verb::Stop,
    Verb::Announce,
    Verb::Begin,
    Verb::End,
];

/// The operation that some words say.
pub fn op_of(scenario: &Scenario, words: Words<'_>) -> Option<WorkOp>
    ensures { result ≡ op_of scenario.now.decls words.entry }
{
    let mut words = words;
    let verb = verb_of(words.next()?)?;
    op_behind(scenario, verb, words)
}

fn verb_of(word: &[u8]) -> Option<Verb>
    ensures { result ≡ verb_of word.now }
{
    VERBS
        .iter()
        .copied()
        .find(|verb| is_same(word, verb_word(*verb)))
}

fn op_behind(scenario: &Scenario, verb: Verb, words: Words<'_>) -> Option<WorkOp>
    ensures { result ≡ op_behind scenario.now.decls verb words.entry }
{
    match verb {
        Verb::Submit => {
            let (item, queue) = two_words(words)?;
            Some(WorkOp::Submit(item_of(scenario, item)?, target_of(scenario, queue)?))
        }
        Verb::Cancel => Some(WorkOp::Cancel(item_of(scenario, one_word(words)?)?)),
        Verb::CancelStart => Some(WorkOp::CancelStart(item_of(scenario, one_word(words)?)?)),
        Verb::CancelDone => Some(WorkOp::CancelDone(wide_of(one_word(words)?)?)),
        Verb::FlushStart => Some(WorkOp::FlushStart(item_of(scenario, one_word(words)?)?)),
        Verb::FlushDone => Some(WorkOp::FlushDone(wide_of(one_word(words)?)?)),
        Verb::Schedule => {
            let (item, queue, delay) = delay_of(scenario, words)?;
            Some(WorkOp::Schedule(item, queue, delay))
        }
        Verb::Reschedule => {
            let (item, queue, delay) = delay_of(scenario, words)?;
            Some(WorkOp::Reschedule(item, queue, delay))
        }
        Verb::Remaining => Some(WorkOp::Remaining(item_of(scenario, one_word(words)?)?)),
        Verb::Start => Some(WorkOp::Start(queue_of(scenario, one_word(words)?)?)),
        Verb::DrainStart => {
            let (queue, plug) = two_words(words)?;
            Some(WorkOp::DrainStart(queue_of(scenario, queue)?, plug_of(plug)?))
        }
        Verb::DrainDone => Some(WorkOp::DrainDone(wide_of(one_word(words)?)?)),
        Verb::Unplug => Some(WorkOp::Unplug(queue_of(scenario, one_word(words)?)?)),
        Verb::Stop => Some(WorkOp::Stop(queue_of(scenario, one_word(words)?)?)),
        Verb::Announce => Some(WorkOp::Announce(narrow_of(one_word(words)?)?)),
        Verb::Begin => Some(WorkOp::Begin(queue_of(scenario, one_word(words)?)?)),
        Verb::End => Some(WorkOp::End(queue_of(scenario, one_word(words)?)?)),
    }
}

/// An item, a queue and a delay.
fn delay_of(scenario: &Scenario, words: Words<'_>) -> Option<(u32, u32, u32)>
    ensures { result ≡ three (λ item queue delay. (item, queue, delay)) (item_of scenario.now.decls) (queue_of scenario.now.decls) narrow_of words.entry }
{
    let (item, queue, delay) = three_words(words)?;
    Some((
        item_of(scenario, item)?,
        queue_of(scenario, queue)?,
        narrow_of(delay)?,
    ))
}

/// The reply to an operation of a verb that stands behind the sign.
pub fn reply_of(
    alloc: Global,
    scenario: &Scenario,
    verb: Verb,
    row: &[u8],
) -> Result<Option<WorkReply>, NoMemory>
    ensures { IfOk result (λ reply. reply ≡ reply_of scenario.now.decls verb row.now) }
{
    match verb {
        Verb::Submit => Ok(submit_reply(scenario, row)),
        Verb::Cancel => Ok(cancel_reply(scenario, row)),
        Verb::CancelStart => Ok(cancel_start_reply(scenario, row)),
        Verb::CancelDone => Ok(truth_reply(scenario, row)),
        Verb::FlushStart => Ok(flush_start_reply(scenario, row)),
        Verb::FlushDone => Ok(truth_reply(scenario, row)),
        Verb::Schedule => Ok(delay_reply(scenario, row)),
        Verb::Reschedule => Ok(delay_reply(scenario, row)),
        Verb::Remaining => Ok(number_of(row)),
        Verb::Start => Ok(switch_reply(scenario, row)),
        Verb::DrainStart => Ok(drain_start_reply(scenario, row)),
        Verb::DrainDone => Ok(number_of(row)),
        Verb::Unplug => Ok(switch_reply(scenario, row)),
        Verb::Stop => Ok(stop_reply(scenario, row)),
        Verb::Announce => announce_reply(alloc, scenario, row),
        Verb::Begin => Ok(begin_reply(scenario, row)),
        Verb::End => Ok(end_reply(scenario, row)),
    }
}

fn submit_reply(scenario: &Scenario, row: &[u8]) -> Option<WorkReply>
    ensures { result ≡ reply_of scenario.now.decls Verb.Submit row.now }
{
    first_of!(
        is_written, row;
        WorkReply::Sub(Submitted::Already),
        WorkReply::Sub(Submitted::Refused(Errno::Busy)),
        WorkReply::Sub(Submitted::Refused(Errno::Inval)),
        WorkReply::Sub(Submitted::Refused(Errno::NoDev));
        sub_of(scenario, row)
    )
}

/// Of an item that is delayed, or whose delay is set anew.
fn delay_reply(scenario: &Scenario, row: &[u8]) -> Option<WorkReply>
    ensures schedule { result ≡ reply_of scenario.now.decls Verb.Schedule row.now }
    ensures reschedule { result ≡ reply_of scenario.now.decls Verb.Reschedule row.now }
{
    first_of!(
        is_written, row;
        WorkReply::Sub(Submitted::Already),
        WorkReply::Armed,
        WorkReply::Sub(Submitted::Refused(Errno::Busy)),
        WorkReply::Sub(Submitted::Refused(Errno::NoDev));
        sub_of(scenario, row)
    )
}

fn sub_of(scenario: &Scenario, row: &[u8]) -> Option<WorkReply>
    ensures { result ≡ sub_of scenario.now.decls row.now }
{
    Some(WorkReply::Sub(admitted_of(scenario, Words::of(row))?))
}

fn cancel_reply(scenario: &Scenario, row: &[u8]) -> Option<WorkReply>
    ensures { result ≡ reply_of scenario.now.decls Verb.Cancel row.now }
{
    Some(WorkReply::Flags(flags_of(row)?))
}

fn cancel_start_reply(scenario: &Scenario, row: &[u8]) -> Option<WorkReply>
    ensures { result ≡ reply_of scenario.now.decls Verb.CancelStart row.now }
{
    first_of!(
        is_written, row;
        WorkReply::Wait,
        WorkReply::Truth(true),
        WorkReply::Truth(false)
    )
}

/// Of a wait for a cancel or for a flush that is over.
fn truth_reply(scenario: &Scenario, row: &[u8]) -> Option<WorkReply>
    ensures cancel { result ≡ reply_of scenario.now.decls Verb.CancelDone row.now }
    ensures flush { result ≡ reply_of scenario.now.decls Verb.FlushDone row.now }
{
    first_of!(is_written, row; WorkReply::Truth(true), WorkReply::Truth(false))
}

fn flush_start_reply(scenario: &Scenario, row: &[u8]) -> Option<WorkReply>
    ensures { result ≡ reply_of scenario.now.decls Verb.FlushStart row.now }
{
    first_of!(
        is_written, row;
        WorkReply::Truth(true),
        WorkReply::Truth(false);
        wait_of(row)
    )
}

fn wait_of(row: &[u8]) -> Option<WorkReply>
    ensures { result ≡ said_behind (fixed_word FixedWord.Wait) (one WorkReply.WaitFor admission_of) (words_of row.now) }
{
    let words = behind(fixed_word(FixedWord::Wait), Words::of(row))?;
    Some(WorkReply::WaitFor(admission_of(one_word(words)?)?))
}

fn number_of(row: &[u8]) -> Option<WorkReply>
    ensures { result ≡ number_of row.now }
{
    Some(WorkReply::Number(wide_of(row)?))
}

/// Of a queue that is started, or whose plug is taken away.
fn switch_reply(scenario: &Scenario, row: &[u8]) -> Option<WorkReply>
    ensures start { result ≡ reply_of scenario.now.decls Verb.Start row.now }
    ensures unplug { result ≡ reply_of scenario.now.decls Verb.Unplug row.now }
{
    first_of!(is_written, row; WorkReply::Done, WorkReply::Already)
}

fn stop_reply(scenario: &Scenario, row: &[u8]) -> Option<WorkReply>
    ensures { result ≡ reply_of scenario.now.decls Verb.Stop row.now }
{
    first_of!(
        is_written, row;
        WorkReply::Done,
        WorkReply::Already,
        WorkReply::Busy
    )
}

fn drain_start_reply(scenario: &Scenario, row: &[u8]) -> Option<WorkReply>
    ensures { result ≡ reply_of scenario.now.decls Verb.DrainStart row.now }
{
    first_of!(is_written, row; WorkReply::Wait; number_of(row))
}

fn announce_reply(
    alloc: Global,
    scenario: &Scenario,
    row: &[u8],
) -> Result<Option<WorkReply>, NoMemory>
    ensures { IfOk result (λ reply. reply ≡ reply_of scenario.now.decls Verb.Announce row.now) }
{
    match behind(fixed_word(FixedWord::Now), Words::of(row)) {
        Some(words) => now_of(alloc, scenario, words),
        None => Ok(None),
    }
}

/// The time, and the delays that ended.
fn now_of(
    alloc: Global,
    scenario: &Scenario,
    words: Words<'_>,
) -> Result<Option<WorkReply>, NoMemory>
    ensures { IfOk result (λ reply. reply ≡ now_of scenario.now.decls words.entry) }
{
    let mut words = words;
    let Some(word) = words.next() else {
        return Ok(None);
    };
    let Some(time) = wide_of(word) else {
        return Ok(None);
    };
    match expiries_of(alloc, scenario, words)? {
        Some(ended) => Ok(Some(WorkReply::Now(time, ended))),
        None => Ok(None),
    }
}

fn begin_reply(scenario: &Scenario, row: &[u8]) -> Option<WorkReply>
    ensures { result ≡ reply_of scenario.now.decls Verb.Begin row.now }
{
    let (item, admission) = two_words(Words::of(row))?;
    Some(WorkReply::Run(item_of(scenario, item)?, admission_of(admission)?))
}

fn end_reply(scenario: &Scenario, row: &[u8]) -> Option<WorkReply>
    ensures { result ≡ reply_of scenario.now.decls Verb.End row.now }
{
    first_of!(is_written, row; WorkReply::Done)
}

#[inline(always)]
fn is_written(reply: WorkReply, row: &[u8]) -> bool
    ensures { result ≡ bytes_eq row.now (static_row (reply_parts reply)) }
{
    is_same(row, static_row(&reply_parts(&reply)))
}
