ghost use Rattle.std.specs.Prelude.{◌≡◌, ◌≤◌, OnOk};
ghost use Rattle.zk_base.specs.Fronts.{StaysInFront};

use crate::arrows::class_of;
use crate::attrs::{put_placed, put_sized};
use zk_base::NoMemory;
use zk_paper::Paper;
use zk_show_chart::{Arrow, ArrowKind, Bar, BarKind, Chart};

/// How many signs stand below one another.
const SIGNS: u64 = 5;

/// From one column of signs to the next.
const COLUMN: u64 = 250;

/// The kinds of bars, in the order of the legend.
const BARS: [BarKind; 3] = [BarKind::Run, BarKind::Script, BarKind::Wait];

/// The kinds of arrows, in the order of the legend.
const ARROWS: [ArrowKind; 11] = [
    ArrowKind::Admission,
    ArrowKind::Give,
    ArrowKind::Message,
    ArrowKind::Visit,
    ArrowKind::Completion,
    ArrowKind::Note,
    ArrowKind::Raise,
    ArrowKind::Handover,
    ArrowKind::Wake,
    ArrowKind::Delay,
    ArrowKind::Drop,
];

/// What begins the sign of a bar.
fn bar_element(kind: BarKind) -> &'static [u8] {
    match kind {
        BarKind::Run => b"<rect class=\"run\"",
        BarKind::Script => b"<rect class=\"script\"",
        BarKind::Wait => b"<rect class=\"wait\"",
    }
}

fn bar_words(kind: BarKind) -> &'static [u8] {
    match kind {
        BarKind::Run => b"handler's run",
        BarKind::Script => b"listener's script",
        BarKind::Wait => b"waiting call",
    }
}

fn arrow_words(kind: ArrowKind) -> &'static [u8] {
    match kind {
        ArrowKind::Admission => b"admission: to its begin",
        ArrowKind::Give => b"give: to the take it served",
        ArrowKind::Message => b"message: from put to get",
        ArrowKind::Visit => b"publish: to its visits",
        ArrowKind::Completion => b"completion: to its wait's end",
        ArrowKind::Note => b"note: to the poll it served",
        ArrowKind::Raise => b"raise: to the look that saw it",
        ArrowKind::Handover => b"free: to the next holder",
        ArrowKind::Wake => b"wake: by reset, purge or get",
        ArrowKind::Delay => b"delay: to what ended it",
        ArrowKind::Drop => b"drop: to its cancel",
    }
}

fn has_bar(bars: &[Bar], kind: BarKind) -> bool {
    bars.iter().any(|bar| bar.kind == kind)
}

fn has_arrow(arrows: &[Arrow], kind: ArrowKind) -> bool {
    arrows.iter().any(|arrow| arrow.kind == kind)
}

/// Where the sign of this place stands: from the left, and from above.
fn corner(place: u64) -> (u64, u64)
    ensures { (result.0 ≤ 1000) × (result.1 ≤ 1000) }
{
    let place = place.min(14);
    (16 + place / SIGNS * COLUMN, 66 + place % SIGNS * 20)
}

/// Appends what a sign means, beside it.
fn put_meaning(out: &mut Paper, place: u64, words: &[u8], indent: u64) -> Result<(), NoMemory>
    requires indent { indent ≤ 100 }
    ensures more { OnOk result (StaysInFront out.old.put out.new.put) }
    ensures front { out.new.front ≡ out.old.front }
{
    let (left, top) = corner(place);
    put_placed(out, b"<text", left + indent, top + 10)?;
    out.push(b'>')?;
    out.put(words)?;
    out.put(b"</text>\n")
}

/// Appends the sign of bars of a kind, and what it means.
fn put_bar_sign(out: &mut Paper, place: u64, kind: BarKind) -> Result<(), NoMemory>
    ensures more { OnOk result (StaysInFront out.old.put out.new.put) }
    ensures front { out.new.front ≡ out.old.front }
{
    let (left, top) = corner(place);
    put_placed(out, bar_element(kind), left, top)?;
    put_sized(out, 28, 12)?;
    out.put(b"/>\n")?;
    put_meaning(out, place, bar_words(kind), 36)
}

/// Appends the sign of arrows of a kind, and what it means.
fn put_arrow_sign(out: &mut Paper, place: u64, kind: ArrowKind) -> Result<(), NoMemory>
    ensures more { OnOk result (StaysInFront out.old.put out.new.put) }
    ensures front { out.new.front ≡ out.old.front }
{
    let (left, top) = corner(place);
    out.put(class_of(kind))?;
    out.put_number(left)?;
    out.push(b' ')?;
    out.put_number(top + 6)?;
    out.push(b'H')?;
    out.put_number(left + 42)?;
    out.put(b"\"/>\n")?;
    put_meaning(out, place, arrow_words(kind), 50)
}

/// Appends the signs of bars that the chart has: how many.
fn put_bar_signs(out: &mut Paper, bars: &[Bar]) -> Result<u64, NoMemory>
    ensures more { OnOk result (StaysInFront out.old.put out.new.put) }
    ensures front { out.new.front ≡ out.old.front }
{
    let mut place: u64 = 0;
    for kind in BARS {
        if has_bar(bars, kind) {
            put_bar_sign(out, place, kind)?;
            place = place.saturating_add(1);
        }
    }
    Ok(place)
}

/// Appends the signs of arrows that the chart has, from a place on.
fn put_arrow_signs(out: &mut Paper, place: u64, arrows: &[Arrow]) -> Result<(), NoMemory>
    ensures more { OnOk result (StaysInFront out.old.put out.new.put) }
    ensures front { out.new.front ≡ out.old.front }
{
    let mut place = place;
    for kind in ARROWS {
        if has_arrow(arrows, kind) {
            put_arrow_sign(out, place, kind)?;
            place = place.saturating_add(1);
        }
    }
    Ok(())
}

/// Appends what the signs mean that the chart has.
pub fn put_legend(out: &mut Paper, chart: &Chart<'_>) -> Result<(), NoMemory>
    ensures more { OnOk result (StaysInFront out.old.put out.new.put) }
    ensures front { out.new.front ≡ out.old.front }
{
    out.put(b"<text class=\"m\" x=\"16\" y=\"48\">Time goes down; a row is one step. ")?;
    out.put(b"Left: its line in the input. Point at a step for its whole line.</text>\n")?;
    let place = put_bar_signs(out, &chart.bars)?;
    put_arrow_signs(out, place, &chart.arrows)
}
