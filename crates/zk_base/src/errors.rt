ghost use Rattle.std.specs.Prelude.{◌≡◌};
ghost use Rattle.zk_base.specs.Codes.{status_code};

use std::alloc::{AllocError, AllocFailed};
use std::error::Error;
use std::fmt;

/// The refusals that a call can answer, by Zephyr's names and without its numbers.
#[derive(Clone, Copy, Debug, PartialEq, Eq)]
pub enum Errno {
    /// The item is being cancelled, or its queue takes no submission now; or a semaphore's count is 0, and the caller
    /// doesn't wait.
    Busy,
    /// A wait was given up, or its semaphore was reset meanwhile.
    Again,
    /// An argument that the object doesn't take.
    Inval,
    /// The queue isn't started.
    NoDev,
    /// There is no message, or no room for one; or the message queue was purged while a put waited.
    NoMsg,
    /// What is asked for is so already.
    Already,
    /// A subscriber of the channel was full.
    Fault,
}

/// There was no memory for the call. Unless a call says otherwise, it then changed nothing.
#[derive(Clone, Copy, Debug, PartialEq, Eq)]
pub struct NoMemory;

impl fmt::Display for NoMemory {
    ghost use Rattle.std.specs.Prelude.{Some, codes};

    ghost output = { λ _. Some (codes "out of memory") };

    fn fmt<W: fmt::Write>(&self, f: &mut fmt::Formatter<W>) -> fmt::Result {
        f.write_str("out of memory")
    }
}

impl Error for NoMemory {}

impl From<AllocError> for NoMemory {
    fn from(_error: AllocError) -> NoMemory {
        NoMemory
    }
}

impl<T: Drop> From<AllocFailed<T>> for NoMemory {
    fn from(_error: AllocFailed<T>) -> NoMemory {
        NoMemory
    }
}

/// A source or a sink failed; its count of faults has risen.
#[derive(Clone, Copy, PartialEq, Eq)]
pub struct Failed;

/// Why a constructor that tests its arguments made nothing.
#[derive(Clone, Copy, PartialEq, Eq)]
pub enum NewRefused {
    /// An argument is out of its range.
    Inval,
    NoMemory,
}

/// How a call of the program ended. `code` gives the exit status.
#[derive(Clone, Copy, PartialEq, Eq)]
pub enum Status {
    /// The run ended, or the trace is lawful.
    Success,
    /// The program's words are none of its forms.
    Words,
    /// The input is over its limit or not in the grammar.
    Refused,
    /// A player waits for what can't come any more.
    Stuck,
    /// A player has made all the steps that a player may make.
    Spent,
    /// The source failed.
    ReadFault,
    /// The sink failed.
    WriteFault,
    /// There was no memory.
    NoMemory,
    /// The trace isn't lawful.
    Unlawful,
}

impl Status {
    /// The exit status of the program.
    pub fn code(&self) -> u8
        ensures { result ≡ status_code self.now }
    {
        match self {
            Status::Success => 0,
            Status::Words => 1,
            Status::Refused => 2,
            Status::Stuck => 3,
            Status::Spent => 4,
            Status::ReadFault => 5,
            Status::WriteFault => 6,
            Status::NoMemory => 7,
            Status::Unlawful => 8,
        }
    }
}
