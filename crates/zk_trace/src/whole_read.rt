ghost use Rattle.std.specs.Prelude.{◌≡◌, IfOk};
ghost use Rattle.zk_blocks.specs.Blocks.{Gives, line_of};
ghost use Rattle.zk_trace.specs.WholeParts.{singles_of, families_of, parts_of};
ghost use Rattle.zk_trace.specs.WholeRead.{where_read, first_of, ending_of, read_singles, read_signals, read_families, read_whole};

use crate::entry_read::Asked;
use crate::feed::Feed;
use crate::format::{Format, Formats, format_of, reads};
use crate::hints::Hints;
use crate::looks::{ItemLook, ItemLooks, SignalLook};
use crate::players_read::read_players;
use crate::print::{CLOCK, TABLE, WORK};
use crate::rows_read::{read_family, read_looked, read_looked_family, read_section};
use crate::trace::{Ending, Histories, History};
use crate::words::ending_word;
use std::alloc::Global;
use zk_base::{Entry, Listed, NoMemory};
use zk_model_bus::{ChanOp, ChanReply, Need, ObsOp, ObsReply, TableOp, TableReply};
use zk_model_wait::{
    ClockOp, ClockReply, MsgqOp, MsgqReply, SemOp, SemReply, SignalOp, SignalReply,
};
use zk_model_work::{WorkOp, WorkReply};
use zk_scenario::Scenario;
use zk_worker::{Answers, PlayerState};

/// What the services did of which there is one.
#[derive(Drop)]
pub struct Singles {
    /// The history of the work service.
    pub work: History<WorkOp, WorkReply>,
    /// The looks at items.
    pub item_looks: ItemLooks,
    /// The history of the clock.
    pub clock: History<ClockOp, ClockReply>,
    /// The history of the object table.
    pub table: History<TableOp, TableReply>,
}

/// The writes to a signal, and the looks at it.
pub type SignalLines = (History<SignalOp, SignalReply>, Listed<SignalLook>);

/// What the services did of which there are many, by object number.
#[derive(Drop)]
pub struct Families {
    /// The histories of the semaphores.
    pub sems: Histories<SemOp, SemReply>,
    /// The histories of the message queues.
    pub msgqs: Histories<MsgqOp, MsgqReply>,
    /// The writes to the signals, and the looks at them.
    pub signals: Listed<SignalLines>,
    /// The histories of the channels.
    pub chans: Histories<ChanOp, ChanReply>,
    /// The histories of the observers.
    pub observers: Histories<ObsOp, ObsReply>,
}

/// How each player stands, and its answers.
pub type Players = Listed<(PlayerState, Answers)>;

/// All that stands in the text of a trace.
#[derive(Drop)]
pub struct Whole {
    /// How it is written.
    pub format: Format,
    /// How the run ended.
    pub ending: Ending,
    /// The services of which there is one.
    pub singles: Singles,
    /// The services of which there are many.
    pub families: Families,
    /// The players.
    pub players: Players,
}

fn read_singles(
    alloc: Global,
    scenario: &Scenario,
    hints: &Hints,
    format: Format,
    feed: &mut Feed<'_>,
) -> Result<Option<Singles>, NoMemory>
    ensures { IfOk result (λ read. Gives singles_of read feed.new (read_singles format scenario.now.decls feed.old)) }
{
    let Some((work, item_looks)) = read_looked::<Entry<WorkOp, WorkReply>, ItemLook>(
        alloc, scenario, hints, format, WORK, feed,
    )?
    else {
        return Ok(None);
    };
    let Some(clock) = read_section::<Entry<ClockOp, ClockReply>>(
        alloc, scenario, hints, format, CLOCK, feed,
    )?
    else {
        return Ok(None);
    };
    let Some(table) = read_section::<Entry<TableOp, TableReply>>(
        alloc, scenario, hints, format, TABLE, feed,
    )?
    else {
        return Ok(None);
    };
    Ok(Some(Singles {
        work,
        item_looks,
        clock,
        table,
    }))
}

fn read_families(
    alloc: Global,
    scenario: &Scenario,
    hints: &Hints,
    format: Format,
    feed: &mut Feed<'_>,
) -> Result<Option<Families>, NoMemory>
    ensures { IfOk result (λ read. Gives families_of read feed.new (read_families format scenario.now.decls feed.old)) }
{
    let Some(sems) = read_family::<Entry<SemOp, SemReply>>(
        alloc,
        scenario,
        hints,
        format,
        Need::Sem,
        feed,
    )?
    else {
        return Ok(None);
    };
    let Some(msgqs) = read_family::<Entry<MsgqOp, MsgqReply>>(
        alloc,
        scenario,
        hints,
        format,
        Need::Msgq,
        feed,
    )?
    else {
        return Ok(None);
    };
    let Some(signals) = read_signals(alloc, scenario, hints, format, feed)? else {
        return Ok(None);
    };
    let Some(chans) = read_family::<Entry<ChanOp, ChanReply>>(
        alloc,
        scenario,
        hints,
        format,
        Need::Chan,
        feed,
    )?
    else {
        return Ok(None);
    };
    let Some(observers) = read_family::<Entry<ObsOp, ObsReply>>(
        alloc,
        scenario,
        hints,
        format,
        Need::Obs,
        feed,
    )?
    else {
        return Ok(None);
    };
    Ok(Some(Families {
        sems,
        msgqs,
        signals,
        chans,
        observers,
    }))
}

fn read_signals(
    alloc: Global,
    scenario: &Scenario,
    hints: &Hints,
    format: Format,
    feed: &mut Feed<'_>,
) -> Result<Option<Listed<SignalLines>>, NoMemory>
    ensures { IfOk result (λ read. Gives (λ x. x) read feed.new (read_signals format scenario.now.decls feed.old)) }
{
    read_looked_family::<Entry<SignalOp, SignalReply>, SignalLook>(
        alloc,
        scenario,
        hints,
        format,
        Need::Signal,
        feed,
    )
}

/// A format, where it is read.
fn where_read(formats: Formats, scenario: &Scenario, format: Format) -> Option<Format>
    ensures { result ≡ where_read formats scenario.now.decls format }
{
    if reads(formats, scenario.players(), format) {
        Some(format)
    } else {
        None
    }
}

/// The format that a first line says, where it is read.
fn first_of(formats: Formats, scenario: &Scenario, row: &[u8]) -> Option<Format>
    ensures { result ≡ first_of formats scenario.now.decls row.now }
{
    where_read(formats, scenario, format_of(row)?)
}

/// The first line.
fn read_first(formats: Formats, scenario: &Scenario, feed: &mut Feed<'_>) -> Option<Format>
    ensures { Gives (λ format. format) result feed.new (line_of (first_of formats scenario.now.decls) feed.old) }
{
    let (line, rest) = feed.next()?;
    let format = first_of(formats, scenario, line)?;
    feed.go_on(rest);
    Some(format)
}

/// How runs can end.
const ENDINGS: [Ending; 3] = [Ending::Ended, Ending::Stuck, Ending::Spent];

fn ending_of(row: &[u8]) -> Option<Ending>
    ensures { result ≡ ending_of row.now }
{
    ENDINGS
        .iter()
        .copied()
        .find(|ending| row == ending_word(*ending))
}

/// The line of the ending.
fn read_ending(feed: &mut Feed<'_>) -> Option<Ending>
    ensures { Gives (λ ending. ending) result feed.new (line_of ending_of feed.old) }
{
    let (line, rest) = feed.next()?;
    let ending = ending_of(line)?;
    feed.go_on(rest);
    Some(ending)
}

/// All that stands in the text of a trace; nothing where the lines don't go on so.
pub fn read_whole(
    alloc: Global,
    scenario: &Scenario,
    hints: &Hints,
    formats: Formats,
    feed: &mut Feed<'_>,
) -> Result<Option<Whole>, NoMemory>
    ensures { IfOk result (λ read. Gives parts_of read feed.new (read_whole formats scenario.now.decls feed.old)) }
{
    let Some(format) = read_first(formats, scenario, feed) else {
        return Ok(None);
    };
    let Some(ending) = read_ending(feed) else {
        return Ok(None);
    };
    let Some(singles) = read_singles(alloc, scenario, hints, format, feed)? else {
        return Ok(None);
    };
    let Some(families) = read_families(alloc, scenario, hints, format, feed)? else {
        return Ok(None);
    };
    let Some(players) = read_players(alloc, scenario, hints, format, feed)? else {
        return Ok(None);
    };
    Ok(Some(Whole {
        format,
        ending,
        singles,
        families,
        players,
    }))
}
