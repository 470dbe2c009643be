ghost use Rattle.std.specs.Prelude.{◌≡◌, ◌++◌, None, decimal, option_copied, OnOk};
ghost use Rattle.zk_show_why.specs.Players.{name_of_object};
ghost use Rattle.zk_show_why.specs.Waits.{asked_words, awaited_at, awaited_back, awaited_front, awaited_in, awaited_object, awaited_words, begun_words, chan_awaits, entry_at, frees, gets, held_words, holder_after, holder_from, holder_of, holds_words, how_of, how_words, keeper_words, log_words, msgq_awaits, obs_awaits, other_words, sem_awaits, wait_words};

use crate::people::{name_at, player_name};
use zk_base::{Entry, NoMemory, put, put_decimal};
use zk_model_bus::{ChanOp, ChanReply, ObsReply};
use zk_model_wait::{MsgqOp, MsgqReply, SemReply};
use zk_scenario::Scenario;
use zk_trace::{History, Trace};
use zk_worker::{Log, PlayerState, Spot};

/// What a call waits for that has begun a wait at one of these services. The number is that of the object.
#[derive(Clone, Copy)]
pub enum Awaited {
    /// A give of a semaphore.
    Give(u32),
    /// A message in a message queue.
    Message(u32),
    /// Room in a message queue.
    Room(u32),
    /// That a subscriber is told of a channel.
    Notice(u32),
    /// A channel.
    Channel(u32),
}

/// Whoever holds a channel, since which of its own steps.
#[derive(Clone, Copy)]
pub struct Holder {
    pub player: u32,
    pub since: u32,
}

/// The entry at a place of an object's history.
pub fn entry_at<O, R>(histories: &[History<O, R>], object: u32, place: u64) -> Option<&Entry<O, R>>
    ensures { option_copied result ≡ entry_at histories.now object place }
{
    match histories.get(object as usize) {
        Some(history) => history.items().get(place as usize),
        None => None,
    }
}

fn sem_awaits(object: u32, reply: SemReply) -> Option<Awaited>
    ensures { result ≡ sem_awaits object reply }
{
    match reply {
        SemReply::Wait => Some(Awaited::Give(object)),
        _ => None,
    }
}

fn msgq_awaits(object: u32, op: MsgqOp, reply: MsgqReply) -> Option<Awaited>
    ensures { result ≡ msgq_awaits object op reply }
{
    match (op, reply) {
        (MsgqOp::Get(_), MsgqReply::Wait) => Some(Awaited::Message(object)),
        (MsgqOp::Put(_, _), MsgqReply::Wait) => Some(Awaited::Room(object)),
        _ => None,
    }
}

fn chan_awaits(object: u32, reply: ChanReply) -> Option<Awaited>
    ensures { result ≡ chan_awaits object reply }
{
    match reply {
        ChanReply::Wait => Some(Awaited::Channel(object)),
        _ => None,
    }
}

fn obs_awaits(object: u32, reply: ObsReply) -> Option<Awaited>
    ensures { result ≡ obs_awaits object reply }
{
    match reply {
        ObsReply::Wait => Some(Awaited::Notice(object)),
        _ => None,
    }
}

/// What a step that stands there begins to wait for.
fn awaited_at(trace: &Trace, spot: Spot) -> Option<Awaited>
    ensures { result ≡ awaited_at trace.now spot }
{
    match spot {
        Spot::Sem(object, place) => {
            let entry = entry_at(trace.sems.items(), object, place)?;
            sem_awaits(object, entry.reply)
        }
        Spot::Msgq(object, place) => {
            let entry = entry_at(trace.msgqs.items(), object, place)?;
            msgq_awaits(object, entry.op, entry.reply)
        }
        Spot::Chan(object, place) => {
            let entry = entry_at(trace.chans.items(), object, place)?;
            chan_awaits(object, entry.reply)
        }
        Spot::Obs(object, place) => {
            let entry = entry_at(trace.observers.items(), object, place)?;
            obs_awaits(object, entry.reply)
        }
        _ => None,
    }
}

/// What a log's last step begins to wait for, if it is one of these.
pub fn awaited_in(trace: &Trace, log: &Log) -> Option<Awaited>
    ensures { result ≡ awaited_in trace.now log.now }
{
    let steps = log.steps.items();
    match steps.get(steps.len().saturating_sub(1)) {
        Some(spot) => awaited_at(trace, *spot),
        None => None,
    }
}

/// Appends these words, and the name of an object.
pub fn put_object(
    out: &mut Vec<u8>,
    scenario: &Scenario,
    words: &[u8],
    object: u32,
) -> Result<(), NoMemory>
    ensures { OnOk result (out.new.items ≡ out.old.items ++ words.now ++ name_of_object scenario.now.decls object) }
{
    put(out, words)?;
    put(out, name_at(scenario, object))
}

/// Appends a number between these words.
pub fn put_numbered(
    out: &mut Vec<u8>,
    front: &[u8],
    number: u64,
    back: &[u8],
) -> Result<(), NoMemory>
    ensures { OnOk result (out.new.items ≡ out.old.items ++ front.now ++ decimal number ++ back.now) }
{
    put(out, front)?;
    put_decimal(out, number)?;
    put(out, back)
}

fn awaited_front(awaited: Awaited) -> &'static [u8]
    ensures { result.now ≡ awaited_front awaited }
{
    match awaited {
        Awaited::Give(_) => b": it waits for a give of ",
        Awaited::Message(_) => b": it waits for a message in ",
        Awaited::Room(_) => b": it waits for room in ",
        Awaited::Notice(_) => b": it waits until ",
        Awaited::Channel(_) => b": it waits for the channel ",
    }
}

fn awaited_object(awaited: Awaited) -> u32
    ensures { result ≡ awaited_object awaited }
{
    match awaited {
        Awaited::Give(object) => object,
        Awaited::Message(object) => object,
        Awaited::Room(object) => object,
        Awaited::Notice(object) => object,
        Awaited::Channel(object) => object,
    }
}

fn awaited_back(awaited: Awaited) -> &'static [u8]
    ensures { result.now ≡ awaited_back awaited }
{
    match awaited {
        Awaited::Notice(_) => b" is told of a channel",
        _ => b"",
    }
}

fn put_awaited(out: &mut Vec<u8>, scenario: &Scenario, awaited: Awaited) -> Result<(), NoMemory>
    ensures { OnOk result (out.new.items ≡ out.old.items ++ awaited_words scenario.now.decls awaited) }
{
    put(out, awaited_front(awaited))?;
    put(out, name_at(scenario, awaited_object(awaited)))?;
    put(out, awaited_back(awaited))
}

// Whether the caller has the channel from then on.
fn gets(reply: ChanReply) -> bool
    ensures { result ≡ gets reply }
{
    match reply {
        ChanReply::Got => true,
        _ => false,
    }
}

// Whether nobody has the channel from then on.
fn frees(op: ChanOp, reply: ChanReply) -> bool
    ensures { result ≡ frees op reply }
{
    match (op, reply) {
        (ChanOp::Free, _) => true,
        (ChanOp::Finish, ChanReply::Done) => true,
        _ => false,
    }
}

fn holder_after(entry: &Entry<ChanOp, ChanReply>, held: Option<Holder>) -> Option<Holder>
    ensures { result ≡ holder_after entry.now held }
{
    if gets(entry.reply) {
        return Some(Holder {
            player: entry.who.number,
            since: entry.step,
        });
    }
    if frees(entry.op, entry.reply) {
        return None;
    }
    held
}

fn holder_in(history: &[Entry<ChanOp, ChanReply>]) -> Option<Holder>
    ensures { result ≡ holder_from history.now None }
{
    let mut held = None;
    for entry in history {
        held = holder_after(entry, held);
    }
    held
}

/// Who holds a channel.
pub fn holder_of(trace: &Trace, chan: u32) -> Option<Holder>
    ensures { result ≡ holder_of trace.now chan }
{
    match trace.chans.items().get(chan as usize) {
        Some(history) => holder_in(history.items()),
        None => None,
    }
}

fn how_words(state: PlayerState) -> &'static [u8]
    ensures { result.now ≡ how_words state }
{
    match state {
        PlayerState::Spent => b", and has made all its steps",
        PlayerState::Oops => b", and was ended by an oops: it does nothing any more",
        PlayerState::Done => b", and is through with its calls",
        PlayerState::Standing => b", and is in a call itself",
    }
}

fn put_how(out: &mut Vec<u8>, trace: &Trace, player: usize) -> Result<(), NoMemory>
    ensures { OnOk result (out.new.items ≡ out.old.items ++ how_of trace.now player) }
{
    match trace.logs.items().get(player) {
        Some(log) => put(out, how_words(log.state)),
        None => Ok(()),
    }
}

/// Appends these words with a name between them, and a number.
pub fn put_moment(
    out: &mut Vec<u8>,
    front: &[u8],
    name: &[u8],
    words: &[u8],
    moment: u64,
) -> Result<(), NoMemory>
    ensures { OnOk result (out.new.items ≡ out.old.items ++ front.now ++ name.now ++ words.now ++ decimal moment) }
{
    put(out, front)?;
    put(out, name)?;
    put(out, words)?;
    put_decimal(out, moment)
}

fn put_holds(out: &mut Vec<u8>, scenario: &Scenario, holder: Holder) -> Result<(), NoMemory>
    ensures { OnOk result (out.new.items ≡ out.old.items ++ holds_words scenario.now.decls holder) }
{
    let name = player_name(scenario, holder.player as usize);
    put_moment(
        out,
        b". ",
        name,
        b" holds it since its step ",
        u64::from(holder.since),
    )
}

fn put_other(
    out: &mut Vec<u8>,
    scenario: &Scenario,
    trace: &Trace,
    holder: Holder,
) -> Result<(), NoMemory>
    ensures { OnOk result (out.new.items ≡ out.old.items ++ other_words scenario.now.decls trace.now holder) }
{
    put_holds(out, scenario, holder)?;
    put_how(out, trace, holder.player as usize)
}

fn put_held(
    out: &mut Vec<u8>,
    scenario: &Scenario,
    trace: &Trace,
    player: usize,
    holder: Holder,
) -> Result<(), NoMemory>
    ensures { OnOk result (out.new.items ≡ out.old.items ++ held_words scenario.now.decls trace.now player holder) }
{
    if holder.player as usize == player {
        put(out, b". It holds the channel itself")
    } else {
        put_other(out, scenario, trace, holder)
    }
}

fn put_keeper(
    out: &mut Vec<u8>,
    scenario: &Scenario,
    trace: &Trace,
    player: usize,
    awaited: Awaited,
) -> Result<(), NoMemory>
    ensures { OnOk result (out.new.items ≡ out.old.items ++ keeper_words scenario.now.decls trace.now player awaited) }
{
    match awaited {
        Awaited::Channel(chan) => match holder_of(trace, chan) {
            Some(holder) => put_held(out, scenario, trace, player, holder),
            None => Ok(()),
        },
        _ => Ok(()),
    }
}

fn put_asked(
    out: &mut Vec<u8>,
    scenario: &Scenario,
    step: u64,
    awaited: Awaited,
) -> Result<(), NoMemory>
    ensures { OnOk result (out.new.items ≡ out.old.items ++ asked_words scenario.now.decls step awaited) }
{
    put_numbered(out, b", since its step ", step, b"")?;
    put_awaited(out, scenario, awaited)
}

fn put_begun(
    out: &mut Vec<u8>,
    scenario: &Scenario,
    trace: &Trace,
    player: usize,
    step: u64,
    awaited: Awaited,
) -> Result<(), NoMemory>
    ensures { OnOk result (out.new.items ≡ out.old.items ++ begun_words scenario.now.decls trace.now player step awaited) }
{
    put_asked(out, scenario, step, awaited)?;
    put_keeper(out, scenario, trace, player, awaited)
}

/// Appends since which of its steps a player waits, what for, and who holds that, where its last step says so.
pub fn put_wait(
    out: &mut Vec<u8>,
    scenario: &Scenario,
    trace: &Trace,
    player: usize,
) -> Result<(), NoMemory>
    ensures { OnOk result (out.new.items ≡ out.old.items ++ wait_words scenario.now.decls trace.now player) }
{
    match trace.logs.items().get(player) {
        Some(log) => put_wait_in(out, scenario, trace, player, log),
        None => Ok(()),
    }
}

fn put_wait_in(
    out: &mut Vec<u8>,
    scenario: &Scenario,
    trace: &Trace,
    player: usize,
    log: &Log,
) -> Result<(), NoMemory>
    ensures { OnOk result (out.new.items ≡ out.old.items ++ log_words scenario.now.decls trace.now player log.now) }
{
    let step = log.steps.items().len().saturating_sub(1) as u64;
    match awaited_in(trace, log) {
        Some(awaited) => put_begun(out, scenario, trace, player, step, awaited),
        None => Ok(()),
    }
}
