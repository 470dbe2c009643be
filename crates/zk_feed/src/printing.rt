ghost use Rattle.std.specs.Prelude.{◌≡◌, [], ◌++◌, OnOk, IfOk, map};
ghost use Rattle.zk_words.specs.Hex.{hex_text};
ghost use Rattle.zk_feed.specs.Lasts.{backwards};
ghost use Rattle.zk_feed.specs.Output.{lines_from, note_line, sub_lines};
ghost use Rattle.zk_feed.specs.Feeding.{notes_in};

use std::alloc::Global;
use zk_base::NoMemory;
use zk_msgsub::Note;
use zk_paper::Paper;
use zk_words::digit_of;

/// The lines of all subscribers, of what each took, the last one first.
pub fn print(alloc: Global, mut heard: Vec<Vec<Note>>) -> Result<Vec<u8>, NoMemory>
    ensures { IfOk result (λ output. output.items ≡ lines_from 0 (backwards (map notes_in heard.items))) }
{
    let mut paper = Paper::behind(Vec::new(alloc));
    let mut number = 0;
    while let Some(notes) = heard.pop() {
        print_sub(&mut paper, number, &notes)?;
        number += 1;
    }
    let (output, put) = paper.whole();
    put?;
    Ok(output)
}

/// The lines of one subscriber.
fn print_sub(paper: &mut Paper, number: u64, notes: &[Note]) -> Result<(), NoMemory>
    ensures text { OnOk result (paper.new.put ≡ paper.old.put ++ sub_lines number notes.now) }
    ensures front { paper.new.front ≡ paper.old.front }
{
    paper.put_numbered(b"sub", b' ', number)?;
    paper.push(b'\n')?;
    for note in notes {
        print_note(paper, note)?;
    }
    Ok(())
}

/// The line of a note.
fn print_note(paper: &mut Paper, note: &Note) -> Result<(), NoMemory>
    ensures text { OnOk result (paper.new.put ≡ paper.old.put ++ note_line note.now) }
    ensures front { paper.new.front ≡ paper.old.front }
{
    paper.put_number(u64::from(note.publisher))?;
    paper.push(b'.')?;
    paper.put_number(u64::from(note.number))?;
    paper.push(b' ')?;
    print_hex(paper, note.message.bytes())?;
    paper.push(b'\n')
}

/// Bytes in lower-case hexadecimal digits.
fn print_hex(paper: &mut Paper, bytes: &[u8]) -> Result<(), NoMemory>
    ensures text { OnOk result (paper.new.put ≡ paper.old.put ++ hex_text bytes.now) }
    ensures front { paper.new.front ≡ paper.old.front }
{
    for byte in bytes {
        paper.push(digit_of(*byte / 16))?;
        paper.push(digit_of(*byte % 16))?;
    }
    Ok(())
}
