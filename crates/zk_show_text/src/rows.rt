ghost use Rattle.std.specs.Prelude.{◌≡◌, ◌++◌, ◌∷◌, [], ◌≤◌, ◌<◌, List, Some, length, map, slice_get, OnOk, IfOk};
ghost use Rattle.std.specs.List.{flat_map, filter};
ghost use Rattle.zk_show_chart.specs.declared.chart.Bar.{Bar};
ghost use Rattle.zk_show_chart.specs.declared.chart.Row.{Row};
ghost use Rattle.zk_show_chart.specs.Bars.{AreInOrder, start};
ghost use Rattle.zk_show_text.specs.Layout.{IsSmall};
ghost use Rattle.zk_show_text.specs.Marks.{is_open};
ghost use Rattle.zk_show_text.specs.Opened.{AreOpened, IsBelow};
ghost use Rattle.zk_show_text.specs.Rows.{lane_text, lane_marks, background, row_words, row_line, row_lines};

use crate::layout::Layout;
use crate::line::{WIDTH, lay, put_fitted, put_line, put_spaces};
use crate::marks::{is_open, put_marks};
use crate::names::player_name;
use crate::words::put_words;
use std::alloc::Global;
use zk_base::{NoMemory, put};
use zk_scenario::Scenario;
use zk_show_chart::{Bar, Row};

/// The mark of a step.
const STEP: u8 = b'*';

/// What a line is made of.
#[derive(Drop)]
struct Sheet {
    line: Vec<u8>,
    words: Vec<u8>,
    marks: Vec<u8>,
}

/// Puts the marks of the lanes of a row with these bars.
fn put_lane_marks(
    marks: &mut Vec<u8>,
    layout: &Layout,
    bars: &[Bar],
    row: &Row<'_>,
) -> Result<(), NoMemory>
    ensures { OnOk result (marks.new.items ≡ lane_marks layout.now bars.now row.now) }
{
    put_marks(marks, layout.lanes, bars)?;
    let lane = row.player as usize;
    if !layout.columns && lane < marks.len() {
        marks[lane] = STEP;
    }
    Ok(())
}

/// Appends lanes with these marks.
fn put_lanes(line: &mut Vec<u8>, marks: &[u8], width: usize) -> Result<(), NoMemory>
    ensures { OnOk result (line.new.items ≡ line.old.items ++ flat_map (lane_text width) marks.now) }
{
    for mark in marks {
        line.push(*mark)?;
        put_spaces(line, width.saturating_sub(1))?;
    }
    Ok(())
}

/// Puts a row but for what the player did.
fn put_background(
    line: &mut Vec<u8>,
    layout: &Layout,
    marks: &[u8],
    row: &Row<'_>,
) -> Result<(), NoMemory>
    ensures { (bars : List Bar) → marks.now ≡ lane_marks layout.now bars row.now →
        OnOk result (line.new.items ≡ background layout.now bars row.now) }
{
    line.clear();
    if layout.columns {
        put_fitted(line, row.service, layout.gutter)?;
    }
    put_lanes(line, marks, layout.width)?;
    line.resize(WIDTH, b' ')?;
    Ok(())
}

/// Puts what the player did, where the lanes have no columns with its name and the service.
fn put_row_words(
    words: &mut Vec<u8>,
    scenario: &Scenario,
    layout: &Layout,
    row: &Row<'_>,
) -> Result<(), NoMemory>
    ensures { OnOk result (words.new.items ≡ row_words scenario.now.decls layout.now row.now) }
{
    words.clear();
    if !layout.columns {
        put(words, player_name(scenario, row.player))?;
        put(words, b" ")?;
        put(words, row.service)?;
        put(words, b": ")?;
    }
    put_words(words, row.text)
}

impl Sheet {
    /// It takes no memory.
    fn new(alloc: Global) -> Sheet {
        Sheet {
            line: Vec::new(alloc),
            words: Vec::new(alloc),
            marks: Vec::new(alloc),
        }
    }

    /// Appends the line of a row through which these bars go.
    fn put_row(
        &mut self,
        out: &mut Vec<u8>,
        scenario: &Scenario,
        layout: &Layout,
        bars: &[Bar],
        row: &Row<'_>,
    ) -> Result<(), NoMemory>
        requires { IsSmall layout.now }
        ensures { OnOk result (out.new.items ≡ out.old.items ++ row_line scenario.now.decls layout.now bars.now row.now) }
    {
        put_lane_marks(&mut self.marks, layout, bars, row)?;
        put_background(&mut self.line, layout, &self.marks, row)?;
        put_row_words(&mut self.words, scenario, layout, row)?;
        lay(
            &mut self.line,
            layout.words_place(row.player),
            &mut self.words,
        )?;
        put_line(out, &self.line)
    }

    /// Appends the line of the row of a number.
    fn put_row_at(
        &mut self,
        out: &mut Vec<u8>,
        scenario: &Scenario,
        layout: &Layout,
        bars: &[Bar],
        rows: &[Row<'_>],
        number: usize,
    ) -> Result<(), NoMemory>
        requires small { IsSmall layout.now }
        requires within { number < length rows.now }
        ensures { OnOk result ((row : Row) → slice_get rows.now number ≡ Some row →
            out.new.items ≡ out.old.items ++ row_line scenario.now.decls layout.now bars.now row) }
    {
        self.put_row(out, scenario, layout, bars, &rows[number])
    }
}

/// Opens a bar, if it goes through a row.
fn open_bar(through: &mut Vec<Bar>, bar: Bar, row: usize) -> Result<(), NoMemory>
    ensures { OnOk result (through.new.items ≡ through.old.items ++ filter (is_open row) (bar ∷ [])) }
{
    if is_open(row, &bar) {
        through.push(bar)?;
    }
    Ok(())
}

/// Opens the bars from a place on that begin in a row, and gives the place behind them.
fn open_bars(
    through: &mut Vec<Bar>,
    bars: &[Bar],
    next: usize,
    row: usize,
) -> Result<usize, NoMemory>
    requires { AreOpened row bars.now next through.old.items }
    ensures opened { IfOk result (λ place. AreOpened row bars.now place through.new.items) }
    ensures all { IfOk result (λ place. IsBelow row bars.now place) }
{
    let mut next = next;
    while next < bars.len() && bars[next].first as usize <= row {
        open_bar(through, bars[next], row)?;
        next += 1;
    }
    Ok(next)
}

/// Keeps the bars that go through a row.
fn close_bars(through: &mut Vec<Bar>, row: usize)
    ensures { through.new.items ≡ filter (is_open row) through.old.items }
{
    through.retain(|bar| is_open(row, bar));
}

/// Appends the lines of the rows.
pub fn put_rows(
    out: &mut Vec<u8>,
    scenario: &Scenario,
    layout: &Layout,
    rows: &[Row<'_>],
    bars: &[Bar],
) -> Result<(), NoMemory>
    requires small { IsSmall layout.now }
    requires order { AreInOrder (map start bars.now) }
    ensures { OnOk result (out.new.items ≡ out.old.items ++ row_lines scenario.now.decls layout.now bars.now 0 rows.now) }
{
    let alloc = *out.allocator();
    let mut sheet = Sheet::new(alloc);
    let mut through = Vec::new(alloc);
    let mut next = 0;
    for number in 0..rows.len() {
        next = open_bars(&mut through, bars, next, number)?;
        sheet.put_row_at(out, scenario, layout, &through, rows, number)?;
        close_bars(&mut through, number + 1);
    }
    Ok(())
}
