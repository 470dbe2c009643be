ghost use Rattle.std.specs.Prelude.{◌≡◌, is_some};
ghost use Rattle.zk_trace.specs.Formats.{reads};
ghost use Rattle.zk_trace.specs.Text.{first_row};
ghost use Rattle.zk_trace.specs.WholeRead.{format_of};

/// How the text of a trace is written.
#[derive(Clone, Copy, PartialEq, Eq)]
pub enum Format {
    /// The first one, which is read and no longer written: its heads tell no numbers of lines.
    One,
    /// The one that is written.
    Two,
}

/// The formats that are read.
#[derive(Clone, Copy, PartialEq, Eq)]
pub enum Formats {
    /// Each of them.
    Both,
    /// Format 1 alone: what is to be written anew.
    First,
}

/// The first line of a trace part in format 1.
const FIRST_ONE: &[u8] = b"zt 1";

/// The first line of a trace part in format 2.
const FIRST_TWO: &[u8] = b"zt 2";

/// The first line of a trace part.
pub fn first_row(format: Format) -> &'static [u8]
    ensures { result.now ≡ first_row format }
{
    match format {
        Format::One => FIRST_ONE,
        Format::Two => FIRST_TWO,
    }
}

/// Each format.
const EACH: [Format; 2] = [Format::One, Format::Two];

/// The format whose trace parts begin with this line.
pub fn format_of(line: &[u8]) -> Option<Format>
    ensures { result ≡ format_of line.now }
{
    EACH.iter()
        .copied()
        .find(|format| line == first_row(*format))
}

/// Whether a trace part begins with this line.
pub fn begins_trace(line: &[u8]) -> bool
    ensures { result ≡ is_some (format_of line.now) }
{
    format_of(line).is_some()
}

/// How many players a scenario has at most where its trace is in format 1.
const MOST_PLAYERS_OF_ONE: u32 = 64;

/// Whether a trace of so many players is read in this format.
pub fn reads(formats: Formats, players: u32, format: Format) -> bool
    ensures { result ≡ reads formats players format }
{
    match format {
        Format::One => players <= MOST_PLAYERS_OF_ONE,
        Format::Two => matches!(formats, Formats::Both),
    }
}
