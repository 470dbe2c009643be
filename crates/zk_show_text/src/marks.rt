ghost use Rattle.std.specs.Prelude.{◌≡◌, ℕ, ◌++◌, ◌∷◌, [], List, OnOk};
ghost use Rattle.zk_show_chart.specs.declared.chart.Bar.{Bar};
ghost use Rattle.zk_show_text.specs.Marks.{is_open, marked, marks_from};

use zk_base::NoMemory;
use zk_show_chart::{Bar, BarKind};

/// The mark of a run and of a script.
const RUN: u8 = b'|';

/// The mark of a wait.
const WAIT: u8 = b':';

/// Whether a row is one of a bar's.
pub fn is_open(row: usize, bar: &Bar) -> bool
    ensures { result ≡ is_open row bar.now }
{
    bar.first as usize <= row
        && match bar.last {
            None => true,
            Some(last) if bar.kind == BarKind::Script => row < last as usize,
            Some(last) => row <= last as usize,
        }
}

/// The mark of a lane with one bar more.
fn marked(mark: u8, kind: BarKind) -> u8
    ensures { result ≡ marked kind mark }
{
    match kind {
        BarKind::Wait => WAIT,
        _ => if mark == WAIT { WAIT } else { RUN },
    }
}

/// A bar marks its lane.
fn mark_lane(marks: &mut Vec<u8>, bar: &Bar)
    ensures { (bars : List Bar) (lanes : ℕ) → marks.old.items ≡ marks_from bars 0 lanes →
        marks.new.items ≡ marks_from (bars ++ bar.now ∷ []) 0 lanes }
{
    let lane = bar.player as usize;
    if lane < marks.len() {
        marks[lane] = marked(marks[lane], bar.kind);
    }
}

/// Puts the marks of so many lanes with these bars.
pub fn put_marks(marks: &mut Vec<u8>, lanes: usize, bars: &[Bar]) -> Result<(), NoMemory>
    ensures { OnOk result (marks.new.items ≡ marks_from bars.now 0 lanes) }
{
    marks.clear();
    marks.resize(lanes, b' ')?;
    for bar in bars {
        mark_lane(marks, bar);
    }
    Ok(())
}
