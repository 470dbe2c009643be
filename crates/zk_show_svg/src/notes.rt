ghost use Rattle.std.specs.Prelude.{◌≡◌, ◌<◌, ◌≤◌, ◌^◌, OnOk, length};
ghost use Rattle.zk_base.specs.Fronts.{StaysInFront};

use crate::attrs::{put_placed, put_sized};
use crate::escape::put_escaped;
use crate::plan::{MARGIN, Plan};
use memchr::{memchr, memrchr};
use zk_base::NoMemory;
use zk_paper::Paper;

/// The height of a line of the notes.
const LINE: u64 = 18;

/// The height of the notes' heading, and of the space around them.
const HEADING: u64 = 42;

/// How many letters of a note fit into a line.
fn letters_of(plan: &Plan) -> usize
    ensures { 1 ≤ result }
{
    ((plan.inner_width().saturating_sub(24) / 7) as usize).max(1)
}

/// The height of the notes.
pub fn notes_height(plan: &Plan, notes: &[u8]) -> u64
    ensures { result < 2 ^ 50 }
{
    if notes.is_empty() {
        return 0;
    }
    HEADING + LINE * u64::from(note_lines(notes, letters_of(plan)))
}

/// In how many lines the notes stand.
fn note_lines(notes: &[u8], letters: usize) -> u32
    requires { 1 ≤ letters }
{
    let mut rest = notes;
    let mut lines: u32 = 0;
    while !rest.is_empty() {
        rest = piece(rest, letters).1;
        lines = lines.saturating_add(1);
    }
    lines
}

/// The next line of the notes, and what stands behind it. A longer one ends before its last word that doesn't fit.
fn piece(rest: &[u8], letters: usize) -> (&[u8], &[u8])
    requires some { 0 < length rest.now }
    requires room { 1 ≤ letters }
    ensures { length result.1.now < length rest.now }
{
    let most = letters.saturating_add(1).min(rest.len());
    let front = &rest[..most];
    if let Some(at) = memchr(b'\n', front) {
        return (&rest[..at], &rest[at + 1..]);
    }
    if rest.len() <= letters {
        return (rest, &[]);
    }
    match memrchr(b' ', front) {
        Some(at) => (&rest[..at], &rest[at + 1..]),
        None => rest.split_at(letters),
    }
}

/// Appends the notes in a box below the last row.
pub fn put_notes(out: &mut Paper, plan: &Plan, notes: &[u8]) -> Result<(), NoMemory>
    ensures more { OnOk result (StaysInFront out.old.put out.new.put) }
    ensures front { out.new.front ≡ out.old.front }
{
    if notes.is_empty() {
        return Ok(());
    }
    let top = plan.bottom() + 16;
    put_note_box(out, plan, notes_height(plan, notes), top)?;
    put_note_lines(out, notes, letters_of(plan), top + 42)
}

/// Appends the box around the notes, and their heading.
fn put_note_box(out: &mut Paper, plan: &Plan, height: u64, top: u64) -> Result<(), NoMemory>
    requires { top < 2 ^ 60 }
    ensures more { OnOk result (StaysInFront out.old.put out.new.put) }
    ensures front { out.new.front ≡ out.old.front }
{
    put_placed(out, b"<rect class=\"k\"", u64::from(MARGIN), top)?;
    put_sized(out, plan.inner_width(), height.saturating_sub(8))?;
    out.put(b" rx=\"4\"/>")?;
    put_placed(out, b"<text class=\"h\"", u64::from(MARGIN + 12), top + 20)?;
    out.put(b">How the run ended</text>\n")
}

fn put_note_lines(out: &mut Paper, notes: &[u8], letters: usize, top: u64) -> Result<(), NoMemory>
    requires { 1 ≤ letters }
    ensures more { OnOk result (StaysInFront out.old.put out.new.put) }
    ensures front { out.new.front ≡ out.old.front }
{
    let mut rest = notes;
    let mut foot = top;
    while !rest.is_empty() {
        let (line, behind) = piece(rest, letters);
        put_placed(out, b"<text", u64::from(MARGIN + 12), foot)?;
        out.push(b'>')?;
        put_escaped(out, line)?;
        out.put(b"</text>\n")?;
        rest = behind;
        foot = foot.saturating_add(LINE);
    }
    Ok(())
}
