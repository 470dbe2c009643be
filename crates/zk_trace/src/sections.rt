ghost use Rattle.std.specs.Prelude.{◌≡◌, ◌++◌, OnOk, drop};
ghost use Rattle.std.specs.List.{flat_map};
ghost use Rattle.zk_trace.specs.declared.format.Format.TheVariants.{Two};
ghost use Rattle.zk_trace.specs.Text.{section_head, service_section, object_section, object_sections, looked_section, looks_at, looked_object, looked_sections, player_head, player_section, player_sections, answer_line};

use crate::History;
use crate::lined::{Lined, put_lines};
use crate::names::{name_at, player_name};
use crate::spelled::Spelled;
use crate::words::state_word;
use zk_base::{Entry, Listed, NoMemory};
use zk_paper::Paper;
use zk_scenario::Scenario;
use zk_worker::{Answers, Log, PlayerState};

/// Appends the section of a service, where it did anything.
pub fn put_service<O: Spelled, R: Spelled>(
    out: &mut Paper,
    scenario: &Scenario,
    name: &[u8],
    entries: &[Entry<O, R>],
) -> Result<(), NoMemory>
    ensures text { OnOk result (out.new.put ≡
        out.old.put ++ service_section O.words R.words scenario.now.decls Two name.now entries.now) }
    ensures front { out.new.front ≡ out.old.front }
{
    if entries.is_empty() {
        return Ok(());
    }
    put_service_head(out, name, entries.len(), 0)?;
    put_lines(out, scenario, entries)
}

/// Appends the sections of the objects of a kind, each under the name of its object.
pub fn put_objects<O: Spelled, R: Spelled>(
    out: &mut Paper,
    scenario: &Scenario,
    histories: &[History<O, R>],
) -> Result<(), NoMemory>
    ensures text { OnOk result (out.new.put ≡
        out.old.put ++ object_sections O.words R.words scenario.now.decls Two 0 histories.now) }
    ensures front { out.new.front ≡ out.old.front }
{
    for (object, history) in histories.iter().enumerate() {
        put_object(out, scenario, object, history)?;
    }
    Ok(())
}

fn put_object<O: Spelled, R: Spelled>(
    out: &mut Paper,
    scenario: &Scenario,
    object: usize,
    history: &History<O, R>,
) -> Result<(), NoMemory>
    ensures text { OnOk result (out.new.put ≡
        out.old.put ++ object_section O.words R.words scenario.now.decls Two object history.now) }
    ensures front { out.new.front ≡ out.old.front }
{
    put_service(
        out,
        scenario,
        name_at(scenario.decls(), object),
        history.items(),
    )
}

/// Appends the section of a service that is looked at, where it did anything or was looked at.
pub fn put_looked<O: Spelled, R: Spelled, L: Lined>(
    out: &mut Paper,
    scenario: &Scenario,
    name: &[u8],
    entries: &[Entry<O, R>],
    looks: &[L],
) -> Result<(), NoMemory>
    ensures text { OnOk result (out.new.put ≡ out.old.put
        ++ looked_section O.words R.words L.text scenario.now.decls Two name.now entries.now looks.now) }
    ensures front { out.new.front ≡ out.old.front }
{
    if entries.is_empty() && looks.is_empty() {
        return Ok(());
    }
    put_service_head(out, name, entries.len(), looks.len())?;
    put_lines(out, scenario, entries)?;
    put_lines(out, scenario, looks)
}

/// Appends the sections of the objects of a kind that is looked at, each under the name of its object.
pub fn put_looked_objects<O: Spelled, R: Spelled, L: Lined>(
    out: &mut Paper,
    scenario: &Scenario,
    histories: &[History<O, R>],
    looks: &[Listed<L>],
) -> Result<(), NoMemory>
    ensures text { OnOk result (out.new.put ≡ out.old.put
        ++ looked_sections O.words R.words L.text scenario.now.decls Two looks.now 0 histories.now) }
    ensures front { out.new.front ≡ out.old.front }
{
    for (object, history) in histories.iter().enumerate() {
        put_looked_object(out, scenario, object, history, looks)?;
    }
    Ok(())
}

fn put_looked_object<O: Spelled, R: Spelled, L: Lined>(
    out: &mut Paper,
    scenario: &Scenario,
    object: usize,
    history: &History<O, R>,
    looks: &[Listed<L>],
) -> Result<(), NoMemory>
    ensures text { OnOk result (out.new.put ≡ out.old.put
        ++ looked_object O.words R.words L.text scenario.now.decls Two looks.now object history.now) }
    ensures front { out.new.front ≡ out.old.front }
{
    put_looked(
        out,
        scenario,
        name_at(scenario.decls(), object),
        history.items(),
        looks_at(looks, object),
    )
}

/// The looks at an object.
pub fn looks_at<L>(looks: &[Listed<L>], object: usize) -> &[L]
    ensures { result.now ≡ looks_at looks.now object }
{
    match looks.get(object) {
        Some(looks) => looks.items(),
        None => &[],
    }
}

/// The first word in the head of a service's section.
pub const SERVICE: &[u8] = b"service";

/// The first word in the head of a player's section.
pub const PLAYER: &[u8] = b"player";

fn put_service_head(
    out: &mut Paper,
    name: &[u8],
    entries: usize,
    looks: usize,
) -> Result<(), NoMemory>
    ensures text { OnOk result (out.new.put ≡ out.old.put ++ section_head Two name.now entries looks) }
    ensures front { out.new.front ≡ out.old.front }
{
    out.put(SERVICE)?;
    out.put(b" ")?;
    out.put(name)?;
    out.put(b" ")?;
    out.put_number(entries as u64)?;
    out.put(b" ")?;
    out.put_number(looks as u64)?;
    out.push(b'\n')
}

/// Appends the sections of all players.
pub fn put_players(out: &mut Paper, scenario: &Scenario, logs: &[Log]) -> Result<(), NoMemory>
    ensures text { OnOk result (out.new.put ≡ out.old.put ++ player_sections Two scenario.now.decls 0 logs.now) }
    ensures front { out.new.front ≡ out.old.front }
{
    for (player, log) in logs.iter().enumerate() {
        put_player(out, scenario, player, log)?;
    }
    Ok(())
}

fn put_player(
    out: &mut Paper,
    scenario: &Scenario,
    player: usize,
    log: &Log,
) -> Result<(), NoMemory>
    ensures text { OnOk result (out.new.put ≡ out.old.put ++ player_section Two scenario.now.decls player log.now) }
    ensures front { out.new.front ≡ out.old.front }
{
    put_player_head(
        out,
        player_name(scenario, player),
        log.state,
        log.answers.len(),
    )?;
    put_answers(out, scenario, &log.answers)
}

fn put_answers(out: &mut Paper, scenario: &Scenario, answers: &Answers) -> Result<(), NoMemory>
    ensures text { OnOk result (out.new.put ≡ out.old.put ++ flat_map (answer_line scenario.now.decls) answers.now) }
    ensures front { out.new.front ≡ out.old.front }
{
    for place in 0..answers.len() {
        let Some(answered) = answers.get(place) else {
            unreachable!()
        };
        answered.put_line(out, scenario)?;
    }
    Ok(())
}

fn put_player_head(
    out: &mut Paper,
    name: &[u8],
    state: PlayerState,
    answers: usize,
) -> Result<(), NoMemory>
    ensures text { OnOk result (out.new.put ≡ out.old.put ++ player_head Two name.now state answers) }
    ensures front { out.new.front ≡ out.old.front }
{
    out.put(PLAYER)?;
    out.put(b" ")?;
    out.put(name)?;
    out.put(b" ")?;
    out.put(state_word(state))?;
    out.put(b" ")?;
    out.put_number(answers as u64)?;
    out.push(b'\n')
}
