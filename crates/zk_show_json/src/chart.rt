ghost use Rattle.std.specs.Prelude.{◌≡◌, ◌++◌, OnOk};
ghost use Rattle.zk_show_json.specs.Values.{row_place, row_value, row_words, bar_word, last_value, bar_value, arrow_word, arrow_value, tick_value, charted};

use crate::array::{Part, put_array};
use crate::escape::put_quoted;
use zk_base::NoMemory;
use zk_paper::Paper;
use zk_show_chart::{Arrow, ArrowKind, Bar, BarKind, Chart, Row, Tick};

/// Appends the rows, bars, arrows and moments of a chart.
#[tactic(auto, unfolding(crate::specs::Values::charted))]
pub fn put_chart(out: &mut Paper, chart: &Chart<'_>) -> Result<(), NoMemory>
    ensures text { OnOk result (out.new.put ≡ out.old.put ++ charted chart.now) }
    ensures front { out.new.front ≡ out.old.front }
{
    out.put(b",\"rows\":")?;
    put_array(out, &chart.rows)?;
    out.put(b",\"bars\":")?;
    put_array(out, &chart.bars)?;
    out.put(b",\"arrows\":")?;
    put_array(out, &chart.arrows)?;
    out.put(b",\"ticks\":")?;
    put_array(out, &chart.ticks)
}

impl<'a> Part for Row<'a> {
    ghost text = { row_value };

    fn put_part(&self, out: &mut Paper) -> Result<(), NoMemory> {
        put_row_place(out, self)?;
        put_row_words(out, self)
    }
}

/// Appends whose step it is, and where its line is.
#[tactic(auto, unfolding(crate::specs::Values::row_place))]
fn put_row_place(out: &mut Paper, row: &Row<'_>) -> Result<(), NoMemory>
    ensures text { OnOk result (out.new.put ≡ out.old.put ++ row_place row.now) }
    ensures front { out.new.front ≡ out.old.front }
{
    out.put(b"{\"player\":")?;
    out.put_number(u64::from(row.player))?;
    out.put(b",\"step\":")?;
    out.put_number(u64::from(row.step))?;
    out.put(b",\"line\":")?;
    out.put_number(u64::from(row.line))
}

/// Appends what the step did, and at which service.
#[tactic(auto, unfolding(crate::specs::Values::row_words))]
fn put_row_words(out: &mut Paper, row: &Row<'_>) -> Result<(), NoMemory>
    ensures text { OnOk result (out.new.put ≡ out.old.put ++ row_words row.now) }
    ensures front { out.new.front ≡ out.old.front }
{
    out.put(b",\"service\":")?;
    put_quoted(out, row.service)?;
    out.put(b",\"text\":")?;
    put_quoted(out, row.text)?;
    out.push(b'}')
}

impl Part for Bar {
    ghost text = { bar_value };

    #[tactic(auto, unfolding(crate::specs::Values::bar_value))]
    fn put_part(&self, out: &mut Paper) -> Result<(), NoMemory> {
        out.put(b"{\"player\":")?;
        out.put_number(u64::from(self.player))?;
        out.put(b",\"kind\":")?;
        out.put(bar_word(self.kind))?;
        out.put(b",\"depth\":")?;
        out.put_number(u64::from(self.depth))?;
        out.put(b",\"first\":")?;
        out.put_number(u64::from(self.first))?;
        out.put(b",\"last\":")?;
        put_last(out, self.last)?;
        out.push(b'}')
    }
}

/// What a bar is, as a string.
fn bar_word(kind: BarKind) -> &'static [u8]
    ensures { result.now ≡ bar_word kind }
{
    match kind {
        BarKind::Run => b"\"run\"",
        BarKind::Script => b"\"script\"",
        BarKind::Wait => b"\"wait\"",
    }
}

/// Appends the row in which a bar ends, or that it doesn't.
fn put_last(out: &mut Paper, last: Option<u32>) -> Result<(), NoMemory>
    ensures text { OnOk result (out.new.put ≡ out.old.put ++ last_value last) }
    ensures front { out.new.front ≡ out.old.front }
{
    match last {
        Some(last) => out.put_number(u64::from(last)),
        None => out.put(b"null"),
    }
}

impl Part for Arrow {
    ghost text = { arrow_value };

    #[tactic(auto, unfolding(crate::specs::Values::arrow_value))]
    fn put_part(&self, out: &mut Paper) -> Result<(), NoMemory> {
        out.put(b"{\"kind\":")?;
        out.put(arrow_word(self.kind))?;
        out.put(b",\"from\":")?;
        out.put_number(u64::from(self.from))?;
        out.put(b",\"to\":")?;
        out.put_number(u64::from(self.to))?;
        out.push(b'}')
    }
}

/// What an arrow is, as a string.
fn arrow_word(kind: ArrowKind) -> &'static [u8]
    ensures { result.now ≡ arrow_word kind }
{
    match kind {
        ArrowKind::Admission => b"\"admission\"",
        ArrowKind::Give => b"\"give\"",
        ArrowKind::Message => b"\"message\"",
        ArrowKind::Visit => b"\"visit\"",
        ArrowKind::Completion => b"\"completion\"",
        ArrowKind::Note => b"\"note\"",
        ArrowKind::Raise => b"\"raise\"",
        ArrowKind::Handover => b"\"handover\"",
        ArrowKind::Wake => b"\"wake\"",
        ArrowKind::Delay => b"\"delay\"",
        ArrowKind::Drop => b"\"drop\"",
    }
}

impl Part for Tick {
    ghost text = { tick_value };

    #[tactic(auto, unfolding(crate::specs::Values::tick_value))]
    fn put_part(&self, out: &mut Paper) -> Result<(), NoMemory> {
        out.put(b"{\"row\":")?;
        out.put_number(u64::from(self.row))?;
        out.put(b",\"time\":")?;
        out.put_number(self.time)?;
        out.push(b'}')
    }
}
