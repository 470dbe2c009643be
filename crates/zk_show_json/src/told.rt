ghost use Rattle.std.specs.Prelude.{◌≡◌, ◌++◌, false, OnOk};
ghost use Rattle.zk_words.specs.Bytes.{line_feed};
ghost use Rattle.zk_words.specs.Pieces.{pieces_between};
ghost use Rattle.zk_show_json.specs.Arrays.{array, parts};
ghost use Rattle.zk_show_json.specs.Escapes.{quoted};
ghost use Rattle.zk_show_json.specs.Values.{without_feed, told_lines};

use crate::array::put_comma;
use crate::escape::put_quoted;
use zk_base::NoMemory;
use zk_paper::Paper;
use zk_words::Lines;

/// Appends the lines of a text, without their line feeds.
pub fn put_told(out: &mut Paper, told: &[u8]) -> Result<(), NoMemory>
    ensures text { OnOk result (out.new.put ≡ out.old.put ++ array quoted (told_lines told.now)) }
    ensures front { out.new.front ≡ out.old.front }
{
    out.push(b'[')?;
    put_lines(out, without_feed(told))?;
    out.push(b']')
}

/// A text without the line feed at its end.
fn without_feed(text: &[u8]) -> &[u8]
    ensures { result.now ≡ without_feed text.now }
{
    match text {
        [front @ .., b'\n'] => front,
        _ => text,
    }
}

fn put_lines(out: &mut Paper, text: &[u8]) -> Result<(), NoMemory>
    ensures text { OnOk result (out.new.put ≡ out.old.put ++ parts quoted false (pieces_between line_feed text.now)) }
    ensures front { out.new.front ≡ out.old.front }
{
    let mut lines = Lines::of(text);
    let mut begun = false;
    while let Some(line) = lines.next() {
        put_comma(out, begun)?;
        put_quoted(out, line)?;
        begun = true;
    }
    Ok(())
}
