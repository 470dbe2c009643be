ghost use Rattle.std.specs.Prelude.{◌≡◌, ◌↔◌, IsTrue};

use zk_model_bus::{ChanReply, ObsReply, TableReply};
use zk_model_wait::{ClockReply, MsgqReply, SemReply, SignalReply};
use zk_model_work::{Expiries, WorkReply};

/// Replies that are told apart exactly.
pub trait Alike: Drop {
    /// Whether it is the same as another.
    fn is_like(&self, other: &Self) -> bool
        ensures { IsTrue result ↔ (self.now ≡ other.now) };
}

/// The same delays ended, in the same order.
fn are_alike(ended: &Expiries, other: &Expiries) -> bool
    ensures { IsTrue result ↔ (ended.now ≡ other.now) }
{
    ended == other
}

impl Alike for WorkReply {
    fn is_like(&self, other: &WorkReply) -> bool {
        match (self, other) {
            (WorkReply::Sub(submitted), WorkReply::Sub(found)) => submitted == found,
            (WorkReply::Armed, WorkReply::Armed) => true,
            (WorkReply::Flags(flags), WorkReply::Flags(found)) => flags == found,
            (WorkReply::Truth(truth), WorkReply::Truth(found)) => truth == found,
            (WorkReply::Wait, WorkReply::Wait) => true,
            (WorkReply::WaitFor(number), WorkReply::WaitFor(found)) => number == found,
            (WorkReply::Number(number), WorkReply::Number(found)) => number == found,
            (WorkReply::Done, WorkReply::Done) => true,
            (WorkReply::Already, WorkReply::Already) => true,
            (WorkReply::Busy, WorkReply::Busy) => true,
            (WorkReply::Now(time, ended), WorkReply::Now(at, found)) => {
                time == at && are_alike(ended, found)
            }
            (WorkReply::Run(item, number), WorkReply::Run(found, at)) => {
                item == found && number == at
            }
            _ => false,
        }
    }
}

impl Alike for ClockReply {
    fn is_like(&self, other: &ClockReply) -> bool {
        self == other
    }
}

impl Alike for TableReply {
    fn is_like(&self, other: &TableReply) -> bool {
        self == other
    }
}

impl Alike for SemReply {
    fn is_like(&self, other: &SemReply) -> bool {
        self == other
    }
}

impl Alike for MsgqReply {
    fn is_like(&self, other: &MsgqReply) -> bool {
        self == other
    }
}

impl Alike for SignalReply {
    fn is_like(&self, other: &SignalReply) -> bool {
        self == other
    }
}

impl Alike for ChanReply {
    fn is_like(&self, other: &ChanReply) -> bool {
        self == other
    }
}

impl Alike for ObsReply {
    fn is_like(&self, other: &ObsReply) -> bool {
        self == other
    }
}
