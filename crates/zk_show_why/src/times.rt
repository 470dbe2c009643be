ghost use Rattle.std.specs.Prelude.{◌≡◌, ◌++◌, None, Some, decimal, IfOk, OnOk};
ghost use Rattle.zk_line.specs.Objects.{is_item, places};
ghost use Rattle.zk_show_why.specs.Players.{name_of_object, open_players};
ghost use Rattle.zk_show_why.specs.Times.{alarm_at, alarm_of, announced, chan_goes_on, deadline_after, deadline_from, deadline_of, delay_words, due_after, due_asked, due_of, due_words, dues_words, end_words, ends_words, expires, goes_on, has_expired, is_armed, moment, msgq_goes_on, obs_goes_on, over_words, sem_goes_on, ticks_words, time_line, time_of, time_told};

use crate::people::{name_at, player_name};
use crate::waits::{entry_at, put_moment};
use std::alloc::Global;
use zk_base::{Entry, NoMemory, put, put_decimal};
use zk_model_bus::{ChanReply, ObsReply};
use zk_model_wait::{ClockReply, MsgqReply, SemReply};
use zk_model_work::{Expiry, WorkOp, WorkReply};
use zk_scenario::Scenario;
use zk_trace::Trace;
use zk_worker::Spot;

// The time that the clock tells, if it tells one.
fn time_told(reply: ClockReply, now: u64) -> u64
    ensures { result ≡ time_told reply now }
{
    match reply {
        ClockReply::Now(time) => time,
        _ => now,
    }
}

/// The time of the clock, in ticks.
fn time_of(trace: &Trace) -> u64
    ensures { result ≡ time_of trace.now }
{
    let mut now: u64 = 0;
    for entry in trace.clock.items() {
        now = time_told(entry.reply, now);
    }
    now
}

// The time that an announce of the work service tells.
fn announced(reply: &WorkReply, now: u64) -> u64
    ensures { result ≡ announced reply.now now }
{
    match reply {
        WorkReply::Now(time, _) => *time,
        _ => now,
    }
}

// Whether one of these is the item's.
fn expires(item: usize, expiries: &[Expiry]) -> bool
    ensures { result ≡ expires item expiries.now }
{
    for expiry in expiries {
        if expiry.item as usize == item {
            return true;
        }
    }
    false
}

// Whether the item's delay is over by an announce.
fn has_expired(item: usize, reply: &WorkReply) -> bool
    ensures { result ≡ has_expired item reply.now }
{
    match reply {
        WorkReply::Now(_, expiries) => expires(item, expiries.items()),
        _ => false,
    }
}

// Whether the item is delayed from then on.
fn is_armed(reply: &WorkReply) -> bool
    ensures { result ≡ is_armed reply.now }
{
    match reply {
        WorkReply::Armed => true,
        _ => false,
    }
}

// When the item is due behind a call that answers it so.
fn due_asked(item: usize, now: u64, due: Option<u64>, op: WorkOp, is_armed: bool) -> Option<u64>
    ensures { result ≡ due_asked item now due op is_armed }
{
    match op {
        WorkOp::Schedule(other, _, ticks) if other as usize == item && is_armed => moment(
            now, ticks,
        ),
        WorkOp::Reschedule(other, _, ticks) if other as usize == item && is_armed => moment(
            now, ticks,
        ),
        WorkOp::Reschedule(other, _, _) if other as usize == item => None,
        WorkOp::Cancel(other) if other as usize == item => None,
        WorkOp::CancelStart(other) if other as usize == item => None,
        WorkOp::FlushStart(other) if other as usize == item => None,
        _ => due,
    }
}

// The moment at which so many ticks are over.
fn moment(now: u64, ticks: u32) -> Option<u64>
    ensures { result ≡ Some (moment now ticks) }
{
    Some(now.saturating_add(u64::from(ticks)))
}

// When the item is due behind an entry.
fn due_after(
    item: usize,
    now: u64,
    due: Option<u64>,
    entry: &Entry<WorkOp, WorkReply>,
) -> Option<u64>
    ensures { result ≡ due_after item now due entry.now }
{
    if has_expired(item, &entry.reply) {
        None
    } else {
        due_asked(item, now, due, entry.op, is_armed(&entry.reply))
    }
}

/// When the item of this number is due, if it is delayed.
pub fn due_of(trace: &Trace, item: usize) -> Option<u64>
    ensures { result ≡ due_of trace.now item }
{
    let mut now: u64 = 0;
    let mut due = None;
    for entry in trace.work.items() {
        due = due_after(item, now, due, entry);
        now = announced(&entry.reply, now);
    }
    due
}

fn sem_goes_on(reply: SemReply) -> bool
    ensures { result ≡ sem_goes_on reply }
{
    match reply {
        SemReply::Wait => true,
        SemReply::Armed => true,
        _ => false,
    }
}

fn msgq_goes_on(reply: MsgqReply) -> bool
    ensures { result ≡ msgq_goes_on reply }
{
    match reply {
        MsgqReply::Wait => true,
        MsgqReply::Armed => true,
        _ => false,
    }
}

fn chan_goes_on(reply: ChanReply) -> bool
    ensures { result ≡ chan_goes_on reply }
{
    match reply {
        ChanReply::Wait => true,
        _ => false,
    }
}

fn obs_goes_on(reply: ObsReply) -> bool
    ensures { result ≡ obs_goes_on reply }
{
    match reply {
        ObsReply::Wait => true,
        _ => false,
    }
}

// Whether a step begins a wait, or is one of a poll whose event isn't ready.
fn goes_on(trace: &Trace, spot: Spot) -> bool
    ensures { result ≡ goes_on trace.now spot }
{
    match spot {
        Spot::Sem(object, place) => match entry_at(trace.sems.items(), object, place) {
            Some(entry) => sem_goes_on(entry.reply),
            None => false,
        },
        Spot::Msgq(object, place) => match entry_at(trace.msgqs.items(), object, place) {
            Some(entry) => msgq_goes_on(entry.reply),
            None => false,
        },
        Spot::Chan(object, place) => match entry_at(trace.chans.items(), object, place) {
            Some(entry) => chan_goes_on(entry.reply),
            None => false,
        },
        Spot::Obs(object, place) => match entry_at(trace.observers.items(), object, place) {
            Some(entry) => obs_goes_on(entry.reply),
            None => false,
        },
        Spot::LookSignal(_, seen) => !seen.raised,
        _ => false,
    }
}

fn alarm_of(reply: ClockReply) -> Option<u64>
    ensures { result ≡ alarm_of reply }
{
    match reply {
        ClockReply::At(moment) => Some(moment),
        _ => None,
    }
}

fn alarm_at(trace: &Trace, place: u64) -> Option<u64>
    ensures { result ≡ alarm_at trace.now place }
{
    match trace.clock.items().get(place as usize) {
        Some(entry) => alarm_of(entry.reply),
        None => None,
    }
}

fn deadline_after(trace: &Trace, deadline: Option<u64>, spot: Spot) -> Option<u64>
    ensures { result ≡ deadline_after trace.now deadline spot }
{
    match spot {
        Spot::Clock(place) => alarm_at(trace, place),
        _ if goes_on(trace, spot) => deadline,
        _ => None,
    }
}

fn deadline_in(trace: &Trace, steps: &[Spot]) -> Option<u64>
    ensures { result ≡ deadline_from trace.now steps.now None }
{
    let mut deadline = None;
    for spot in steps {
        deadline = deadline_after(trace, deadline, *spot);
    }
    deadline
}

/// When a player's wait ends by itself, if it does.
pub fn deadline_of(trace: &Trace, player: usize) -> Option<u64>
    ensures { result ≡ deadline_of trace.now player }
{
    match trace.logs.items().get(player) {
        Some(log) => deadline_in(trace, log.steps.items()),
        None => None,
    }
}

fn put_end(
    out: &mut Vec<u8>,
    scenario: &Scenario,
    trace: &Trace,
    player: usize,
) -> Result<(), NoMemory>
    ensures { OnOk result (out.new.items ≡ out.old.items ++ end_words scenario.now.decls trace.now player) }
{
    match deadline_of(trace, player) {
        Some(moment) => {
            let name = player_name(scenario, player);
            put_moment(out, b"; the wait of ", name, b" ends at ", moment)
        }
        None => Ok(()),
    }
}

fn put_ends(
    out: &mut Vec<u8>,
    scenario: &Scenario,
    trace: &Trace,
    players: &[usize],
) -> Result<(), NoMemory>
    ensures { OnOk result (out.new.items ≡ out.old.items ++ ends_words scenario.now.decls trace.now players.now) }
{
    for player in players {
        put_end(out, scenario, trace, *player)?;
    }
    Ok(())
}

fn put_name(out: &mut Vec<u8>, scenario: &Scenario, object: u32) -> Result<(), NoMemory>
    ensures { OnOk result (out.new.items ≡ out.old.items ++ name_of_object scenario.now.decls object) }
{
    put(out, name_at(scenario, object))
}

fn put_over(out: &mut Vec<u8>, moment: u64) -> Result<(), NoMemory>
    ensures { OnOk result (out.new.items ≡ out.old.items ++ over_words moment) }
{
    put(out, b" is over at ")?;
    put_decimal(out, moment)
}

fn put_name_over(
    out: &mut Vec<u8>,
    scenario: &Scenario,
    object: u32,
    moment: u64,
) -> Result<(), NoMemory>
    ensures { OnOk result (out.new.items ≡ out.old.items ++ (name_of_object scenario.now.decls object ++ over_words moment)) }
{
    put_name(out, scenario, object)?;
    put_over(out, moment)
}

fn put_delay(
    out: &mut Vec<u8>,
    scenario: &Scenario,
    object: u32,
    moment: u64,
) -> Result<(), NoMemory>
    ensures { OnOk result (out.new.items ≡ out.old.items ++ delay_words scenario.now.decls object moment) }
{
    put(out, b"; the delay of ")?;
    put_name_over(out, scenario, object, moment)
}

fn put_due(
    out: &mut Vec<u8>,
    scenario: &Scenario,
    trace: &Trace,
    item: usize,
    object: u32,
) -> Result<(), NoMemory>
    ensures { OnOk result (out.new.items ≡ out.old.items ++ due_words scenario.now.decls trace.now item object) }
{
    match due_of(trace, item) {
        Some(moment) => put_delay(out, scenario, object, moment),
        None => Ok(()),
    }
}

fn put_dues(
    out: &mut Vec<u8>,
    scenario: &Scenario,
    trace: &Trace,
    objects: &[u32],
) -> Result<(), NoMemory>
    ensures { OnOk result (out.new.items ≡ out.old.items ++ dues_words scenario.now.decls trace.now 0 objects.now) }
{
    for (item, object) in objects.iter().enumerate() {
        put_due(out, scenario, trace, item, *object)?;
    }
    Ok(())
}

// What time would end: waits of players that are in a call, and delays of items.
fn ticks_said(
    alloc: Global,
    scenario: &Scenario,
    trace: &Trace,
    players: &[usize],
) -> Result<Vec<u8>, NoMemory>
    requires { players.now ≡ open_players trace.now }
    ensures { IfOk result (λ said. said.items ≡ ticks_words scenario.now.decls trace.now) }
{
    let mut said = Vec::new(alloc);
    put_ends(&mut said, scenario, trace, players)?;
    put_dues(&mut said, scenario, trace, scenario.items())?;
    Ok(said)
}

/// The line that says the time, and which waits and delays it would end. There is none where it would end nothing.
pub fn time_line(
    alloc: Global,
    scenario: &Scenario,
    trace: &Trace,
    players: &[usize],
) -> Result<Vec<u8>, NoMemory>
    requires { players.now ≡ open_players trace.now }
    ensures { IfOk result (λ line. line.items ≡ time_line scenario.now.decls trace.now) }
{
    let said = ticks_said(alloc, scenario, trace, players)?;
    let mut line = Vec::new(alloc);
    if said.is_empty() {
        return Ok(line);
    }
    put(&mut line, b"It is tick ")?;
    put_decimal(&mut line, time_of(trace))?;
    put(&mut line, &said)?;
    put(&mut line, b".\n")?;
    Ok(line)
}
