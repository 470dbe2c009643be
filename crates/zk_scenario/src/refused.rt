ghost use Rattle.std.specs.Prelude.{◌≡◌, Some};
ghost use Rattle.zk_scenario.specs.Reasons.{reason_word};
ghost use Rattle.zk_scenario.specs.declared.refused.ScenarioRefused.TheVariants.{NoMemory};

use std::fmt;
use thiserror::Error;
use zk_base as base;

/// Why a line, or a whole input, is refused. It is printed as the name in lower case.
#[derive(Clone, Copy, Debug, PartialEq, Eq)]
pub enum Why {
    /// The first line isn't `zk 1`.
    Header,
    /// No form of a line, a wrong spelling, or no line feed.
    Line,
    /// The line may not stand there.
    Order,
    /// A number out of its range, or a message that is too long or not of the size of its message queue or channel.
    Number,
    /// A name that is declared twice, reserved, not declared, of the wrong kind, or an observer's that is given twice.
    Name,
    /// A limit is passed by this line.
    Limit,
    /// The input is too long.
    Length,
}

impl Why {
    /// The name in lower case.
    pub fn word(self) -> &'static str
        ensures { result.now ≡ reason_word self }
    {
        match self {
            Why::Header => "header",
            Why::Line => "line",
            Why::Order => "order",
            Why::Number => "number",
            Why::Name => "name",
            Why::Limit => "limit",
            Why::Length => "length",
        }
    }
}

impl fmt::Display for Why {
    ghost output = { λ why. Some (reason_word why) };

    fn fmt<W: fmt::Write>(&self, f: &mut fmt::Formatter<W>) -> fmt::Result {
        f.write_str(self.word())
    }
}

/// Why no scenario was read.
#[derive(Clone, Copy, Debug, PartialEq, Eq, Error)]
pub enum ScenarioRefused {
    /// The first failing line, counted from 1, and the first reason that applies there. Line 0 is the whole input.
    #[error("line {0}: {1}")]
    At(u32, Why),
    #[error("out of memory")]
    NoMemory,
}

impl From<base::NoMemory> for ScenarioRefused {
    ghost from_gives = { λ _ e. e ≡ NoMemory };

    fn from(_error: base::NoMemory) -> ScenarioRefused {
        ScenarioRefused::NoMemory
    }
}
