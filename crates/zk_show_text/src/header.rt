ghost use Rattle.std.specs.Prelude.{◌≡◌, ◌++◌, get_or, OnOk};
ghost use Rattle.std.specs.List.{flat_map};
ghost use Rattle.zk_line.specs.Objects.{name_at};
ghost use Rattle.zk_scenario.specs.Players.{players};
ghost use Rattle.zk_show_text.specs.Header.{order_note, legend, name_cell, letter_cell, names_line, letters_line, letters_from, names_text, header};

use crate::layout::{Layout, longest_name};
use crate::line::{put_fitted, put_line, put_spaces};
use crate::names::name_at;
use zk_base::{NoMemory, put};
use zk_scenario::{Decl, Scenario};

/// What is said where no order agrees.
const NO_ORDER: &[u8] =
    b"No order agrees with each service and each player: the services stand one behind the other.\n";

/// What the marks mean, beside columns.
const MARKS: &[u8] = b"| a run or a script, : a wait\n\n";

/// What the marks mean, where there are no columns.
const STEP_MARKS: &[u8] = b"* a step, | a run or a script, : a wait\n\n";

/// Appends the names of objects over their columns.
fn put_cells(
    out: &mut Vec<u8>,
    decls: &[Decl],
    objects: &[u32],
    width: usize,
) -> Result<(), NoMemory>
    ensures { OnOk result (out.new.items ≡ out.old.items ++
        flat_map (λ object. name_cell width (name_at decls.now object)) objects.now) }
{
    for object in objects {
        out.push(b' ')?;
        put_fitted(out, name_at(decls, *object), width.saturating_sub(1))?;
    }
    Ok(())
}

/// Appends the line of the names over the columns.
fn put_names(out: &mut Vec<u8>, scenario: &Scenario, layout: &Layout) -> Result<(), NoMemory>
    ensures { OnOk result (out.new.items ≡ out.old.items ++ names_line scenario.now.decls layout.now) }
{
    let decls = scenario.decls();
    let mut line = Vec::new(*out.allocator());
    put_spaces(&mut line, layout.gutter)?;
    put_cells(&mut line, decls, scenario.threads(), layout.width)?;
    put_cells(&mut line, decls, scenario.queues(), layout.width)?;
    put_line(out, &line)
}

/// The letter of a name at a place, and a space where there is none.
fn letter(name: &[u8], place: usize) -> u8
    ensures { result ≡ get_or name.now place 32 }
{
    if place < name.len() {
        name[place]
    } else {
        b' '
    }
}

/// Appends the letters of the names of objects at a place, over their lanes.
fn put_letters(
    out: &mut Vec<u8>,
    decls: &[Decl],
    objects: &[u32],
    width: usize,
    place: usize,
) -> Result<(), NoMemory>
    ensures { OnOk result (out.new.items ≡ out.old.items ++
        flat_map (λ object. letter_cell width place (name_at decls.now object)) objects.now) }
{
    for object in objects {
        out.push(letter(name_at(decls, *object), place))?;
        put_spaces(out, width.saturating_sub(1))?;
    }
    Ok(())
}

/// Appends the line of the letters of the names at a place.
fn put_letters_line(
    out: &mut Vec<u8>,
    scenario: &Scenario,
    width: usize,
    place: usize,
) -> Result<(), NoMemory>
    ensures { OnOk result (out.new.items ≡ out.old.items ++ letters_line scenario.now.decls width place) }
{
    let decls = scenario.decls();
    let mut line = Vec::new(*out.allocator());
    put_letters(&mut line, decls, scenario.threads(), width, place)?;
    put_letters(&mut line, decls, scenario.queues(), width, place)?;
    put_line(out, &line)
}

/// Appends the lines of the letters of the names, so many.
fn put_letters_lines(
    out: &mut Vec<u8>,
    scenario: &Scenario,
    width: usize,
    places: usize,
) -> Result<(), NoMemory>
    ensures { OnOk result (out.new.items ≡ out.old.items ++ letters_from scenario.now.decls width 0 places) }
{
    for place in 0..places {
        put_letters_line(out, scenario, width, place)?;
    }
    Ok(())
}

/// Appends the names over the lanes.
fn put_names_text(out: &mut Vec<u8>, scenario: &Scenario, layout: &Layout) -> Result<(), NoMemory>
    ensures { OnOk result (out.new.items ≡ out.old.items ++ names_text scenario.now.decls layout.now) }
{
    if layout.columns {
        put_names(out, scenario, layout)
    } else {
        put_letters_lines(out, scenario, layout.width, longest_name(scenario))
    }
}

/// What is said of the order.
fn order_note(agrees: bool) -> &'static [u8]
    ensures { result.now ≡ order_note agrees }
{
    if agrees { b"" } else { NO_ORDER }
}

/// What the marks mean.
fn legend(columns: bool) -> &'static [u8]
    ensures { result.now ≡ legend columns }
{
    if columns { MARKS } else { STEP_MARKS }
}

/// Appends what stands above the rows.
pub fn put_header(
    out: &mut Vec<u8>,
    scenario: &Scenario,
    layout: &Layout,
    agrees: bool,
) -> Result<(), NoMemory>
    ensures { OnOk result (out.new.items ≡ out.old.items ++ header scenario.now.decls layout.now agrees) }
{
    put(out, order_note(agrees))?;
    put(out, legend(layout.columns))?;
    put_names_text(out, scenario, layout)
}
