use crate::placed::PlacedWord;
use crate::words::Cause;
use zk_words::{Choice, Head, Need};

/// Some bytes of a line.
#[derive(Clone, Copy)]
pub struct Span {
    /// The place of the first, from 0.
    pub from: usize,
    /// The place behind the last.
    pub to: usize,
}

/// What would be accepted instead.
#[derive(Clone, Copy)]
pub enum Accepted {
    // Of a whole text, and of the bytes of a line.
    WholeText,
    Header,
    LastFeed,
    OneFeed,
    OneSpace,
    PlainBytes,
    // The text without something of it.
    WithoutLine,
    Without,
    // Words that are spelled right.
    Line,
    FormattedLine,
    Name,
    Event,
    Wait,
    Priority,
    Validator,
    Raw,
    // The line elsewhere, or among others.
    InFront,
    EndFirst,
    EndHere,
    FirstScript,
    ScriptBefore,
    UserInThread,
    InThreadOrItem,
    InThread,
    Elsewhere,
    // Other numbers and names.
    Once,
    OtherNumber,
    InRange,
    Declared,
    NewName,
    /// A line of this form.
    Form(Head),
    /// An object that meets this need.
    Object(Need),
    /// An object that can play a script.
    Owner,
    /// An object that can be declared `raw`.
    Rawable,
    /// A number from the first to the second.
    Number(u32, u32),
    /// One of the two words of a choice.
    Either(Choice),
    /// A message, of this size where one is asked for.
    Message(Option<usize>),
}

/// What was found to be wrong with a line.
#[derive(Clone, Copy)]
pub struct Finding {
    pub cause: Cause,
    /// There is none where no word of the line is meant.
    pub mark: Option<Span>,
    pub accepted: Accepted,
    /// The line's first word, where its form says more of what would be accepted.
    pub head: Option<Head>,
}

impl Finding {
    /// Nothing in the line is marked.
    pub fn unmarked(cause: Cause, accepted: Accepted) -> Finding {
        Finding {
            cause,
            mark: None,
            accepted,
            head: None,
        }
    }

    /// So many bytes from a place on are marked.
    pub fn at(cause: Cause, from: usize, len: usize, accepted: Accepted) -> Finding {
        let to = from.saturating_add(len);
        Finding {
            cause,
            mark: Some(Span { from, to }),
            accepted,
            head: None,
        }
    }

    /// A word is marked.
    pub fn on(cause: Cause, word: PlacedWord<'_>, accepted: Accepted) -> Finding {
        Finding::at(cause, word.from, word.text.len(), accepted)
    }

    /// A byte of a word is marked.
    pub fn in_word(cause: Cause, word: PlacedWord<'_>, at: usize, accepted: Accepted) -> Finding {
        Finding::at(cause, word.from.saturating_add(at), 1, accepted)
    }

    /// The same, in a line that begins so.
    pub fn in_line(mut self, head: Head) -> Finding {
        self.head = Some(head);
        self
    }
}
