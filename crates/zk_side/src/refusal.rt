ghost use Rattle.std.specs.Prelude.{◌≡◌, ◌++◌, OnOk};
ghost use Rattle.zk_side.specs.Output.{refusal_text};

use zk_base::{NoMemory, put, put_decimal};

/// Why an input is no side script.
#[derive(Clone, Copy)]
pub enum Refusal {
    /// It is longer than a side script may be.
    Length,
    /// The first line isn't `zx 1`, or has no line feed.
    Header,
    /// The first other line, counted from 1, that has no form or no line feed, or stands behind the last that there may be.
    Line(u32),
}

/// Appends the line of a refusal.
pub fn put_refusal(out: &mut Vec<u8>, refusal: Refusal) -> Result<(), NoMemory>
    ensures { OnOk result (out.new.items ≡ out.old.items ++ refusal_text refusal) }
{
    match refusal {
        Refusal::Length => put(out, b"refused 0 length\n"),
        Refusal::Header => put(out, b"refused 1 header\n"),
        Refusal::Line(number) => put_line_refusal(out, number),
    }
}

fn put_line_refusal(out: &mut Vec<u8>, number: u32) -> Result<(), NoMemory>
    ensures { OnOk result (out.new.items ≡ out.old.items ++ refusal_text (Refusal.Line number)) }
{
    put(out, b"refused ")?;
    put_decimal(out, u64::from(number))?;
    put(out, b" line\n")
}
