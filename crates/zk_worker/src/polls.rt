ghost use Rattle.std.specs.Prelude.{◌≡◌, ◌++◌, ◌+◌, ◌<◌, ◌≤◌, false, Some, List, drop, length, slice_get, option_to_list};
ghost use Rattle.std.specs.List.{list_any, position};
ghost use Rattle.zk_worker.specs.Moves.{IsDone, is_unasked, poll_further};
ghost use Rattle.zk_worker.specs.Polls.{waits, is_armed, is_ready, is_to_ask, unasked_from, asks_more, ask_step, watch_step, drop_step};
ghost use Rattle.zk_worker.specs.Polls.{step_at, dropping, watching, alarm_steps, is_ended, is_closing, registers, polling, poll_start, poll_attempts};
ghost use Rattle.zk_worker.specs.Polls.{mark_of, is_watch, watched_from, event_of, marked, alarm_after, ready_from, poll_answer, is_answered, poll_goes, poll_progress};

use crate::moves::answer_call;
use crate::refs::ref_object;
use crate::{Alarm, Answer, AnswerRows, Mark, Moved, Positions, Stage, Step, StepReply, Word};
use zk_base::Errno;
use zk_line::{Event, Events, MOST_EVENTS};
use zk_model_wait::{ClockOp, ClockReply, MsgqOp, MsgqReply, SemOp, SemReply};
use zk_words::Timeout;

/// Whether a call of this length waits at all.
fn waits(timeout: Timeout) -> bool
    ensures { result ≡ waits timeout }
{
    match timeout {
        Timeout::No => false,
        _ => true,
    }
}

fn is_armed(mark: Mark) -> bool
    ensures { result ≡ is_armed mark }
{
    match mark {
        Mark::Armed(_) => true,
        _ => false,
    }
}

fn is_ready(mark: Mark) -> bool
    ensures { result ≡ is_ready mark }
{
    match mark {
        Mark::Ready => true,
        _ => false,
    }
}

fn any_armed(marks: &[Mark]) -> bool
    ensures { result ≡ list_any is_armed marks.now }
{
    marks.iter().any(|mark| is_armed(*mark))
}

fn any_ready(marks: &[Mark]) -> bool
    ensures { result ≡ list_any is_ready marks.now }
{
    marks.iter().any(|mark| is_ready(*mark))
}

fn first_armed(marks: &[Mark]) -> Option<usize>
    ensures { result ≡ position is_armed marks.now }
{
    marks.iter().position(|mark| is_armed(*mark))
}

fn is_to_ask(event: &Event, mark: Mark) -> bool
    ensures { result ≡ is_to_ask event.now mark }
{
    match (event, mark) {
        (Event::Ignore, _) => false,
        (_, Mark::Unasked) => true,
        _ => false,
    }
}

/// The place of the first event that is still to be asked, from this place on.
fn unasked_from(n: usize, events: &[Event], marks: &[Mark; MOST_EVENTS]) -> Option<usize>
    requires { length events.now ≤ MOST_EVENTS }
    ensures { result ≡ unasked_from n (drop n events.now) (drop n marks.now) }
{
    let mut n = n;
    while n < events.len() {
        if is_to_ask(&events[n], marks[n]) {
            return Some(n);
        }
        n += 1;
    }
    None
}

/// Puts the step that asks for an event.
fn ask_ahead(registers: bool, event: &Event, ahead: &mut Option<Step>)
    ensures { ahead.new ≡ ask_step registers event.now }
{
    match event {
        Event::Ignore => *ahead = None,
        Event::Sem(sem) => *ahead = Some(Step::Sem(ref_object(*sem), SemOp::PollArm(registers))),
        Event::Msgq(queue) => {
            *ahead = Some(Step::Msgq(ref_object(*queue), MsgqOp::PollArm(registers)));
        }
        Event::Sig(signal) => *ahead = Some(Step::LookSignal(ref_object(*signal), false)),
    }
}

/// The attempt that waits for an event.
fn watch_step(event: Event, mark: Mark) -> Option<Step>
    ensures { result ≡ watch_step event mark }
{
    match (event, mark) {
        (Event::Sem(sem), Mark::Armed(place)) => {
            Some(Step::Sem(ref_object(sem), SemOp::PollEnd(place)))
        }
        (Event::Msgq(queue), Mark::Armed(place)) => {
            Some(Step::Msgq(ref_object(queue), MsgqOp::PollEnd(place)))
        }
        (Event::Sig(signal), _) => Some(Step::LookSignal(ref_object(signal), true)),
        _ => None,
    }
}

/// The step that gives a registration up.
fn drop_step(event: Event, mark: Mark) -> Option<Step>
    ensures { result ≡ drop_step event mark }
{
    match (event, mark) {
        (Event::Sem(sem), Mark::Armed(place)) => {
            Some(Step::Sem(ref_object(sem), SemOp::PollQuit(place)))
        }
        (Event::Msgq(queue), Mark::Armed(place)) => {
            Some(Step::Msgq(ref_object(queue), MsgqOp::PollQuit(place)))
        }
        _ => None,
    }
}

/// The step that gives the first registration up.
fn dropping(events: &[Event], marks: &[Mark]) -> Option<Step>
    ensures { result ≡ dropping events.now marks.now }
{
    let place = first_armed(marks)?;
    match (events.get(place), marks.get(place)) {
        (Some(event), Some(mark)) => drop_step(*event, *mark),
        _ => None,
    }
}

fn alarm_ahead(alarm: Alarm, index: u32) -> Option<Step>
    ensures { result ≡ slice_get (alarm_steps alarm) index }
{
    match alarm {
        Alarm::Due(moment) if index == 0 => Some(Step::Clock(ClockOp::AlarmEnd(moment))),
        _ => None,
    }
}

/// The attempt of this index of a poll that waits: event by event, and then the end of the alarm.
fn watch_ahead(events: &[Event], marks: &[Mark], alarm: Alarm, index: u32) -> Option<Step>
    ensures { result ≡ slice_get (watching events.now marks.now ++ alarm_steps alarm) index }
{
    let [event, events @ ..] = events else {
        return alarm_ahead(alarm, index);
    };
    let [mark, marks @ ..] = marks else {
        return alarm_ahead(alarm, index);
    };
    match watch_step(*event, *mark) {
        None => watch_ahead(events, marks, alarm, index),
        Some(step) if index == 0 => Some(step),
        Some(_) => watch_ahead(events, marks, alarm, index - 1),
    }
}

fn is_ended(alarm: Alarm) -> bool
    ensures { result ≡ is_ended alarm }
{
    match alarm {
        Alarm::Ended => true,
        _ => false,
    }
}

fn is_closing(alarm: Alarm, marks: &[Mark]) -> bool
    ensures { result ≡ is_closing alarm marks.now }
{
    any_ready(marks) || is_ended(alarm)
}

fn at_first(step: Option<Step>, index: u32) -> Option<Step>
    ensures { result ≡ slice_get (option_to_list step) index }
{
    if index == 0 { step } else { None }
}

fn registers(timeout: Timeout, marks: &[Mark]) -> bool
    ensures { result ≡ registers timeout marks.now }
{
    waits(timeout) && !any_ready(marks)
}

/// Puts the attempt of this index of a poll that asks no more: it gives up what is registered, or waits.
// Out of line: a poll asks more often than it waits.
#[inline(never)]
#[tactic(auto, using(crate::proofs::PollSteps::all_taken))]
fn waiting_ahead(
    events: &[Event],
    alarm: Alarm,
    marks: &[Mark],
    index: u32,
    ahead: &mut Option<Step>,
)
    requires { length events.now ≤ MOST_EVENTS }
    ensures { (timeout : Timeout) → asks_more events.now marks.now ≡ false →
        ahead.new ≡ slice_get (polling timeout events.now alarm marks.now) index }
{
    *ahead = if is_closing(alarm, marks) {
        at_first(dropping(events, marks), index)
    } else {
        watch_ahead(events, marks, alarm, index)
    };
}

/// Puts the attempt of this index of a poll with this alarm and these marks.
fn polling_ahead(
    timeout: Timeout,
    events: &[Event],
    alarm: Alarm,
    marks: &[Mark; MOST_EVENTS],
    index: u32,
    ahead: &mut Option<Step>,
)
    requires { length events.now ≤ MOST_EVENTS }
    ensures { ahead.new ≡ slice_get (polling timeout events.now alarm marks.now) index }
{
    match unasked_from(0, events, marks) {
        Some(place) if index == 0 => {
            ask_ahead(registers(timeout, &marks[..]), &events[place], ahead);
        }
        Some(_) => *ahead = None,
        None => waiting_ahead(events, alarm, &marks[..], index, ahead),
    }
}

fn start_ahead(timeout: Timeout, events: &[Event], index: u32, ahead: &mut Option<Step>)
    requires { length events.now ≤ MOST_EVENTS }
    ensures { ahead.new ≡ slice_get (poll_start timeout events.now) index }
{
    if let Timeout::Ticks(ticks) = timeout {
        *ahead = at_first(Some(Step::Clock(ClockOp::Alarm(ticks))), index);
        return;
    }
    let marks = [Mark::Unasked; MOST_EVENTS];
    polling_ahead(timeout, events, Alarm::Unset, &marks, index, ahead);
}

/// Puts the attempt of this index among the next attempts of a poll.
#[tactic(auto, using(crate::proofs::PollSteps::few_events))]
pub fn poll_ahead(
    timeout: Timeout,
    events: &Events,
    stage: &Stage,
    index: u32,
    ahead: &mut Option<Step>,
)
    ensures { ahead.new ≡ slice_get (poll_attempts timeout events.now stage.now) index }
{
    let events = events.items();
    match stage {
        Stage::Start => start_ahead(timeout, events, index, ahead),
        Stage::Polls(alarm, marks) => polling_ahead(timeout, events, *alarm, marks, index, ahead),
        _ => *ahead = None,
    }
}

/// The mark that a reply gives to its event.
fn mark_of(reply: &StepReply) -> Mark
    ensures mark { result ≡ mark_of reply.now }
    ensures asked { is_unasked result ≡ false }
{
    match reply {
        StepReply::Sem(_, SemReply::Ready, _) => Mark::Ready,
        StepReply::Sem(_, SemReply::Noted, _) => Mark::Ready,
        StepReply::Sem(_, SemReply::Armed, place) => Mark::Armed(*place),
        StepReply::Msgq(_, MsgqReply::Ready, _) => Mark::Ready,
        StepReply::Msgq(_, MsgqReply::Noted, _) => Mark::Ready,
        StepReply::Msgq(_, MsgqReply::Armed, place) => Mark::Armed(*place),
        StepReply::Seen(seen) => { if seen.raised { Mark::Ready } else { Mark::Not } }
        _ => Mark::Not,
    }
}

/// Whether a step is the attempt that waits for this event.
fn is_watch(made: &Step, event: Event, mark: Mark) -> bool
    ensures { result ≡ is_watch made.now event mark }
{
    match (made, event, mark) {
        (Step::Sem(asked, SemOp::PollEnd(ended)), Event::Sem(sem), Mark::Armed(place)) => {
            *asked == ref_object(sem) && *ended == place
        }
        (Step::Msgq(asked, MsgqOp::PollEnd(ended)), Event::Msgq(queue), Mark::Armed(place)) => {
            *asked == ref_object(queue) && *ended == place
        }
        (Step::LookSignal(asked, _), Event::Sig(signal), _) => *asked == ref_object(signal),
        _ => false,
    }
}

/// The place of the first event that a step waits for, counted from this number.
fn watched_from(n: usize, made: &Step, events: &[Event], marks: &[Mark]) -> Option<usize>
    requires { n + length events.now ≤ MOST_EVENTS }
    ensures { result ≡ watched_from n made.now events.now marks.now }
{
    let [event, events @ ..] = events else {
        return None;
    };
    let [mark, marks @ ..] = marks else {
        return None;
    };
    if is_watch(made, *event, *mark) {
        return Some(n);
    }
    watched_from(n + 1, made, events, marks)
}

/// The place of the event that a step is for, by the first event that is to be asked.
fn event_of(
    unasked: Option<usize>,
    events: &[Event],
    alarm: Alarm,
    marks: &[Mark],
    made: &Step,
) -> Option<usize>
    requires few { length events.now ≤ MOST_EVENTS }
    requires first { unasked ≡ unasked_from 0 events.now marks.now }
    ensures { result ≡ event_of events.now alarm marks.now made.now }
{
    if unasked.is_some() {
        return unasked;
    }
    if is_closing(alarm, marks) {
        return first_armed(marks);
    }
    watched_from(0, made, events, marks)
}

fn alarm_after(alarm: Alarm, reply: &StepReply) -> Alarm
    ensures { result ≡ alarm_after alarm reply.now }
{
    match reply {
        StepReply::Clock(_, _) => Alarm::Ended,
        _ => alarm,
    }
}

/// The positions of the ready events, counted from this number, behind those before them.
fn add_ready(positions: &mut Positions, n: u32, marks: &[Mark])
    requires room { length positions.old + length marks.now ≤ MOST_EVENTS }
    requires few { n + length marks.now ≤ MOST_EVENTS }
    ensures { positions.new ≡ positions.old ++ ready_from n marks.now }
{
    let [mark, marks @ ..] = marks else {
        return;
    };
    if is_ready(*mark) {
        positions.push(n);
    }
    add_ready(positions, n + 1, marks);
}

/// What a poll answers.
fn poll_answer(marks: &[Mark]) -> Answer
    requires { length marks.now ≤ MOST_EVENTS }
    ensures { result ≡ poll_answer marks.now }
{
    if !any_ready(marks) {
        return Answer::Refused(Errno::Again);
    }
    let mut positions = Positions::new();
    add_ready(&mut positions, 0, marks);
    Answer::Ready(positions)
}

/// Whether a poll that asks no more has its answer.
fn is_over(timeout: Timeout, alarm: Alarm, marks: &[Mark]) -> bool
    ensures { (events : List Event) → asks_more events marks.now ≡ false →
        result ≡ is_answered timeout events alarm marks.now }
{
    (is_closing(alarm, marks) || !waits(timeout)) && !any_armed(marks)
}

/// Whether a poll asks more once the event that its step is for has its mark, by the first event that is to be asked.
// Before that one all are asked, so it looks behind it alone.
#[tactic(auto, using(crate::proofs::PollSteps::unasked_within))]
fn asks_on(unasked: Option<usize>, events: &[Event], marks: &[Mark; MOST_EVENTS]) -> bool
    requires few { length events.now ≤ MOST_EVENTS }
    requires first { unasked ≡ unasked_from 0 events.now marks.now }
    ensures { (alarm : Alarm) (made : Step) (mark : Mark) → is_unasked mark ≡ false →
        result ≡ asks_more events.now (marked marks.now (event_of events.now alarm marks.now made) mark) }
{
    match unasked {
        Some(place) => unasked_from(place + 1, events, marks).is_some(),
        None => false,
    }
}

/// Sets the mark at a place.
fn mark_at(marks: &mut [Mark; MOST_EVENTS], place: Option<usize>, mark: Mark)
    ensures { marks.new ≡ marked marks.old place mark }
{
    if let Some(place) = place {
        if place < MOST_EVENTS {
            marks[place] = mark;
        }
    }
}

/// Sets a mark of a poll, if there is one at this place.
fn put_mark(stage: &mut Stage, place: Option<usize>, mark: Mark)
    ensures { (alarm : Alarm) (marks : List Mark) → stage.old ≡ Stage.Polls alarm marks →
        stage.new ≡ Stage.Polls alarm (marked marks place mark) }
{
    if let Stage::Polls(_, marks) = stage {
        mark_at(marks, place, mark);
    }
}

/// Sets the alarm of a poll.
fn put_alarm(stage: &mut Stage, alarm: Alarm)
    ensures { (before : Alarm) (marks : List Mark) → stage.old ≡ Stage.Polls before marks →
        stage.new ≡ Stage.Polls alarm marks }
{
    if let Stage::Polls(now, _) = stage {
        *now = alarm;
    }
}

/// A poll that asks no more has its answer, or goes on.
fn close_poll(timeout: Timeout, step: u32, stage: &mut Stage, answers: &mut AnswerRows) -> Moved
    requires room { length answers.old.items < answers.old.room }
    ensures done { (events : List Event) (alarm : Alarm) (marks : List Mark) → stage.old ≡ Stage.Polls alarm marks →
        asks_more events marks ≡ false → IsDone step (poll_goes Word.Poll timeout events alarm marks)
        result stage.new answers.old.items answers.new.items }
    ensures capacity { answers.old.room ≤ answers.new.room }
{
    let Stage::Polls(alarm, marks) = &*stage else {
        return Moved::Goes;
    };
    if !is_over(timeout, *alarm, &marks[..]) {
        return Moved::Goes;
    }
    let answer = poll_answer(&marks[..]);
    answer_call(Word::Poll, answer, step, stage, answers)
}

/// Does what the reply to a step does to a poll that has begun.
fn poll_further(
    timeout: Timeout,
    events: &[Event],
    made: &Step,
    reply: &StepReply,
    step: u32,
    stage: &mut Stage,
    answers: &mut AnswerRows,
) -> Moved
    requires few { length events.now ≤ MOST_EVENTS }
    requires room { length answers.old.items < answers.old.room }
    ensures done { IsDone step (poll_further Word.Poll timeout events.now stage.old made.now reply.now)
        result stage.new answers.old.items answers.new.items }
    ensures capacity { answers.old.room ≤ answers.new.room }
{
    let Stage::Polls(alarm, marks) = &*stage else {
        return Moved::Goes;
    };
    let unasked = unasked_from(0, events, marks);
    let place = event_of(unasked, events, *alarm, &marks[..], made);
    let asks = asks_on(unasked, events, marks);
    let alarm = alarm_after(*alarm, reply);
    put_mark(stage, place, mark_of(reply));
    put_alarm(stage, alarm);
    if asks {
        return Moved::Goes;
    }
    close_poll(timeout, step, stage, answers)
}

/// Does what the reply to a step does to a poll.
#[tactic(auto, using(crate::proofs::PollSteps::few_events))]
pub fn poll_goes_on(
    timeout: Timeout,
    events: &Events,
    made: &Step,
    reply: &StepReply,
    step: u32,
    stage: &mut Stage,
    answers: &mut AnswerRows,
) -> Moved
    requires { length answers.old.items < answers.old.room }
    ensures done { IsDone step (poll_progress Word.Poll timeout events.now stage.old made.now reply.now)
        result stage.new answers.old.items answers.new.items }
    ensures capacity { answers.old.room ≤ answers.new.room }
{
    let events = events.items();
    match (&*stage, reply) {
        (Stage::Start, StepReply::Clock(ClockReply::At(moment), _)) => {
            *stage = Stage::Polls(Alarm::Due(*moment), [Mark::Unasked; MOST_EVENTS]);
            Moved::Goes
        }
        (Stage::Start, _) => {
            *stage = Stage::Polls(Alarm::Unset, [Mark::Unasked; MOST_EVENTS]);
            poll_further(timeout, events, made, reply, step, stage, answers)
        }
        _ => poll_further(timeout, events, made, reply, step, stage, answers),
    }
}
