ghost use Rattle.std.specs.Prelude.{◌≡◌, ◌+◌, ◌++◌, [], ◌<◌, ◌≤◌, length, take, replicate, position, IfSome, OnOk};
ghost use Rattle.zk_show_text.specs.Line.{fitted, trimmed, line, cut, shortened, is_ink, room_in, put_over, laid};

use zk_base::{NoMemory, put};
use zk_show_chart::answer_in;

/// The most characters of a line.
pub const WIDTH: usize = 120;

/// What stands for the part of what is cut that has no room.
const CUT: &[u8] = b"..";

/// Appends a text of just so many characters: cut, or with spaces behind it.
pub fn put_fitted(out: &mut Vec<u8>, text: &[u8], size: usize) -> Result<(), NoMemory>
    ensures { OnOk result (out.new.items ≡ out.old.items ++ fitted size text.now) }
{
    if size <= text.len() {
        return put(out, &text[..size]);
    }
    put(out, text)?;
    put_spaces(out, size - text.len())
}

/// Appends so many spaces.
pub fn put_spaces(out: &mut Vec<u8>, count: usize) -> Result<(), NoMemory>
    ensures { OnOk result (out.new.items ≡ out.old.items ++ replicate count 32) }
{
    for _ in 0..count {
        out.push(b' ')?;
    }
    Ok(())
}

/// How many characters of a text stand before the spaces at its end.
fn trimmed_len(text: &[u8]) -> usize
    ensures within { result ≤ length text.now }
    ensures front { take result text.now ≡ trimmed text.now }
{
    let mut end = text.len();
    while 0 < end && text[end - 1] == b' ' {
        end -= 1;
    }
    end
}

/// Appends a line, without the spaces at its end.
pub fn put_line(out: &mut Vec<u8>, text: &[u8]) -> Result<(), NoMemory>
    ensures { OnOk result (out.new.items ≡ out.old.items ++ line text.now) }
{
    put(out, &text[..trimmed_len(text)])?;
    put(out, b"\n")
}

/// Cuts a text for which there is so much room, where that is too little.
pub fn cut(text: &mut Vec<u8>, room: usize) -> Result<(), NoMemory>
    ensures text { OnOk result (text.new.items ≡ cut room text.old.items) }
    ensures within { OnOk result (length text.new.items ≤ room) }
{
    if text.len() <= room {
        return Ok(());
    }
    let answer = answer_in(text);
    let mut cut = Vec::new(*text.allocator());
    put_shortened(&mut cut, text, answer, room)?;
    *text = cut;
    Ok(())
}

/// Puts a text that is too long for its room, of which this is the answer, without its middle or its end.
fn put_shortened(out: &mut Vec<u8>, text: &[u8], answer: &[u8], room: usize) -> Result<(), NoMemory>
    requires empty { out.old.items ≡ [] }
    requires long { room < length text.now }
    ensures text { OnOk result (out.new.items ≡ shortened room text.now answer.now) }
{
    if answer.len() + CUT.len() <= room {
        put(out, &text[..room - (answer.len() + CUT.len())])?;
        put(out, CUT)?;
        return put(out, answer);
    }
    put(out, &text[..room.saturating_sub(CUT.len())])?;
    put(out, CUT)?;
    out.truncate(room);
    Ok(())
}

/// The place of the first character that isn't a space.
fn ink_in(text: &[u8]) -> Option<usize>
    ensures place { result ≡ position is_ink text.now }
    ensures within { IfSome result (λ place. place < length text.now) }
{
    text.iter().position(|byte| *byte != b' ')
}

/// The room at the front of a text: a space stays before what stands there.
fn room_in(text: &[u8]) -> usize
    ensures room { result ≡ room_in text.now }
    ensures within { result ≤ length text.now }
{
    match ink_in(text) {
        Some(place) => place.saturating_sub(1),
        None => text.len(),
    }
}

/// Puts a text over a part of a line.
fn put_over(line: &mut [u8], at: usize, text: &[u8])
    requires { at + length text.now ≤ length line.old }
    ensures { line.new ≡ put_over at text.now line.old }
{
    line[at..at + text.len()].copy_from_slice(text);
}

/// Lays a text on a line at a place, cut where there is no room for it.
pub fn lay(line: &mut [u8], at: usize, text: &mut Vec<u8>) -> Result<(), NoMemory>
    requires { at ≤ length line.old }
    ensures { OnOk result (line.new ≡ laid at text.old.items line.old) }
{
    cut(text, room_in(&line[at..]))?;
    put_over(line, at, text);
    Ok(())
}
