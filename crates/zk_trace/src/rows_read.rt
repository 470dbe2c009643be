ghost use Rattle.std.specs.Prelude.{◌≡◌, ◌<◌, ℕ, List, Option, None, [], length, IfOk, IfSome};
ghost use Rattle.std.specs.Option.{option_copied};
ghost use Rattle.zk_blocks.specs.Blocks.{Gives, line_of, given_of};
ghost use Rattle.zk_blocks.specs.Families.{plain_family_of, section_family_of};
ghost use Rattle.zk_blocks.specs.Rows.{counted_rows};
ghost use Rattle.zk_blocks.specs.Sections.{plain_section_of, section_of, neither};
ghost use Rattle.zk_line.specs.declared.types.Decl.{Decl};
ghost use Rattle.zk_line.specs.Objects.{is_met, name_of};
ghost use Rattle.zk_trace.specs.SectionRead.{are_all, where_untold, head_of, plain_head_of, has_player};

use crate::feed::Feed;
use crate::format::Format;
use crate::heads::{head_of, plain_head_of};
use crate::hints::Hints;
use crate::lined::Lined;
use std::alloc::Global;
use zk_base::{Listed, NoMemory};
use zk_line::{kind_of, name_of};
use zk_model_bus::Need;
use zk_scenario::{Decl, Scenario};

/// What is a line of a section and is read from it.
pub trait Row: Lined + Drop {
    /// What a line says, behind the row before it.
    ghost says: { List Decl → Option Self → List ℕ → Option Self };

    /// Reads a line.
    fn of_line(
        alloc: Global,
        scenario: &Scenario,
        hints: &Hints,
        last: Option<&Self>,
        line: &[u8],
    ) -> Result<Option<Self>, NoMemory>
        ensures { IfOk result (λ row. row ≡ says scenario.now.decls (option_copied last.entry) line.now) };
}

/// Whether these are all rows of their sort, where the head of their section tells how many there are.
pub fn are_all(count: Option<u64>, rows: usize) -> bool
    ensures { result ≡ are_all count rows }
{
    match count {
        Some(count) => rows as u64 == count,
        None => false,
    }
}

/// These, where no number of them is told.
pub fn where_untold<A: Drop>(count: Option<u64>, all: A) -> Option<A>
    ensures { result ≡ where_untold count all }
{
    match count {
        Some(_) => None,
        None => Some(all),
    }
}

/// The rows at the front of some lines: just so many where the head of their section tells it, and else as many as there are.
pub fn read_rows<X: Row>(
    alloc: Global,
    scenario: &Scenario,
    hints: &Hints,
    count: Option<u64>,
    feed: &mut Feed<'_>,
) -> Result<Option<Vec<X>>, NoMemory>
    ensures { IfOk result (λ read.
        Gives (λ rows. rows.items) read feed.new (counted_rows (X.says scenario.now.decls) count None feed.old)) }
{
    let mut rows = Vec::with_capacity(alloc, feed.room(count))?;
    while !are_all(count, rows.len()) {
        let Some(row) = read_row::<X>(alloc, scenario, hints, rows.last(), feed)? else {
            return Ok(where_untold(count, rows));
        };
        rows.push(row)?;
    }
    Ok(Some(rows))
}

/// The next row; nothing where the next line is none.
pub fn read_row<X: Row>(
    alloc: Global,
    scenario: &Scenario,
    hints: &Hints,
    last: Option<&X>,
    feed: &mut Feed<'_>,
) -> Result<Option<X>, NoMemory>
    ensures shorter { IfOk result (λ row. IfSome row (λ one. length feed.new < length feed.old)) }
    ensures row { IfOk result (λ row.
        Gives (λ x. x) row feed.new (line_of (X.says scenario.now.decls (option_copied last.entry)) feed.old)) }
{
    let Some((line, rest)) = feed.next() else {
        return Ok(None);
    };
    let row = X::of_line(alloc, scenario, hints, last, line)?;
    if row.is_some() {
        feed.go_on(rest);
    }
    Ok(row)
}

/// A section of rows; none where there is no head, and nothing where the lines don't go on so.
pub fn read_section<E: Row>(
    alloc: Global,
    scenario: &Scenario,
    hints: &Hints,
    format: Format,
    name: &[u8],
    feed: &mut Feed<'_>,
) -> Result<Option<Listed<E>>, NoMemory>
    ensures { let decls = scenario.now.decls in IfOk result (λ read.
        Gives (λ x. x) read feed.new (plain_section_of (has_player decls) (plain_head_of format name.now) (E.says decls) feed.old)) }
{
    let Some((line, rest)) = feed.next() else {
        return Ok(Some(Listed::new(alloc)));
    };
    let Some(count) = plain_head_of(format, name, line) else {
        return Ok(Some(Listed::new(alloc)));
    };
    if scenario.players() == 0 {
        return Ok(None);
    }
    feed.go_on(rest);
    let Some(rows) = read_rows::<E>(alloc, scenario, hints, count, feed)? else {
        return Ok(None);
    };
    if rows.is_empty() {
        return Ok(None);
    }
    Ok(Some(Listed::from_vec(rows)))
}

/// A section of rows of two kinds; neither where there is no head, and nothing where the lines don't go on so.
pub fn read_looked<E: Row, K: Row>(
    alloc: Global,
    scenario: &Scenario,
    hints: &Hints,
    format: Format,
    name: &[u8],
    feed: &mut Feed<'_>,
) -> Result<Option<(Listed<E>, Listed<K>)>, NoMemory>
    ensures { let decls = scenario.now.decls in IfOk result (λ read.
        Gives (λ x. x) read feed.new (section_of (has_player decls) (head_of format name.now) (E.says decls) (K.says decls) feed.old)) }
{
    let Some((line, rest)) = feed.next() else {
        return Ok(Some((Listed::new(alloc), Listed::new(alloc))));
    };
    let Some((entries, looks)) = head_of(format, name, line) else {
        return Ok(Some((Listed::new(alloc), Listed::new(alloc))));
    };
    if scenario.players() == 0 {
        return Ok(None);
    }
    feed.go_on(rest);
    let Some(entries) = read_rows::<E>(alloc, scenario, hints, entries, feed)? else {
        return Ok(None);
    };
    let Some(looks) = read_rows::<K>(alloc, scenario, hints, looks, feed)? else {
        return Ok(None);
    };
    if entries.is_empty() && looks.is_empty() {
        return Ok(None);
    }
    Ok(Some((Listed::from_vec(entries), Listed::from_vec(looks))))
}

/// The section of what is declared, where it meets the need; else none is looked for.
fn read_given<E: Row>(
    alloc: Global,
    scenario: &Scenario,
    hints: &Hints,
    format: Format,
    need: Need,
    decl: &Decl,
    feed: &mut Feed<'_>,
) -> Result<Option<Listed<E>>, NoMemory>
    ensures { let decls = scenario.now.decls in IfOk result (λ read.
        Gives (λ x. x) read feed.new (given_of (is_met need decl.now) []
        (plain_section_of (has_player decls) (plain_head_of format (name_of decl.now)) (E.says decls)) feed.old)) }
{
    if !need.is_met_by(kind_of(decl)) {
        return Ok(Some(Listed::new(alloc)));
    }
    read_section(alloc, scenario, hints, format, name_of(decl), feed)
}

/// The sections of all that meets a need, in declared order.
pub fn read_family<E: Row>(
    alloc: Global,
    scenario: &Scenario,
    hints: &Hints,
    format: Format,
    need: Need,
    feed: &mut Feed<'_>,
) -> Result<Option<Listed<Listed<E>>>, NoMemory>
    ensures { let decls = scenario.now.decls in IfOk result (λ read.
        Gives (λ x. x) read feed.new (plain_family_of (is_met need) name_of (has_player decls) (plain_head_of format) (λ d. E.says decls) decls feed.old)) }
{
    let mut all = Vec::new(alloc);
    let decls = scenario.decls();
    for decl in decls {
        match read_given::<E>(alloc, scenario, hints, format, need, decl, feed)? {
            Some(rows) => all.push(rows)?,
            None => return Ok(None),
        }
    }
    Ok(Some(Listed::from_vec(all)))
}

/// The section of what is declared with rows of two kinds, where it meets the need; else none is looked for.
fn read_given_looked<E: Row, K: Row>(
    alloc: Global,
    scenario: &Scenario,
    hints: &Hints,
    format: Format,
    need: Need,
    decl: &Decl,
    feed: &mut Feed<'_>,
) -> Result<Option<(Listed<E>, Listed<K>)>, NoMemory>
    ensures { let decls = scenario.now.decls in IfOk result (λ read.
        Gives (λ x. x) read feed.new (given_of (is_met need decl.now) neither
        (section_of (has_player decls) (head_of format (name_of decl.now)) (E.says decls) (K.says decls)) feed.old)) }
{
    if !need.is_met_by(kind_of(decl)) {
        return Ok(Some((Listed::new(alloc), Listed::new(alloc))));
    }
    read_looked(alloc, scenario, hints, format, name_of(decl), feed)
}

/// The sections of all that meets a need with rows of two kinds, in declared order.
pub fn read_looked_family<E: Row, K: Row>(
    alloc: Global,
    scenario: &Scenario,
    hints: &Hints,
    format: Format,
    need: Need,
    feed: &mut Feed<'_>,
) -> Result<Option<Listed<(Listed<E>, Listed<K>)>>, NoMemory>
    ensures { let decls = scenario.now.decls in IfOk result (λ read.
        Gives (λ x. x) read feed.new (section_family_of (is_met need) name_of (has_player decls) (head_of format)
        (λ d. E.says decls) (λ d. K.says decls) decls feed.old)) }
{
    let mut all = Vec::new(alloc);
    let decls = scenario.decls();
    for decl in decls {
        match read_given_looked::<E, K>(alloc, scenario, hints, format, need, decl, feed)? {
            Some(rows) => all.push(rows)?,
            None => return Ok(None),
        }
    }
    Ok(Some(Listed::from_vec(all)))
}
