ghost use Rattle.std.specs.Prelude.{◌^◌, ◌<◌, ◌≤◌, length, All};
ghost use Rattle.std.specs.List.{AllByRecursion};
ghost use Rattle.zk_base.specs.Limits.{most_few};
ghost use Rattle.zk_trace.specs.Sized.{IsSizedEntry, IsSizedItemLook, IsSizedSignalLook, IsSizedAnswer, IsSizedLog, IsSized};

use crate::looks::{ItemLook, SignalLook};
use crate::parts::answer_part;
use crate::trace::Trace;
use zk_base::{Entry, Listed};
use zk_worker::{Answered, Answers, Log};

/// What has numbers, each of which is within its type.
pub trait Sizes {
    /// They are.
    ghost sized: { Self → Type 0 };

    /// Nothing is done: what is asked is known of every number that is read.
    fn sizes(&self)
        ensures { sized self.now };
}

/// A number of 16 bits.
pub fn short(number: u16)
    ensures { number < 2 ^ 16 }
{
    let _number = number;
}

/// A number of 32 bits.
pub fn narrow(number: u32)
    ensures { number < 2 ^ 32 }
{
    let _number = number;
}

/// A number of 64 bits.
pub fn wide(number: u64)
    ensures { number < 2 ^ 64 }
{
    let _number = number;
}

/// Numbers of 8 bits.
pub fn octets(numbers: &[u8])
    ensures { AllByRecursion (λ n. n < 2 ^ 8) numbers.now }
{
    let _numbers = numbers;
}

/// Numbers of 32 bits.
pub fn narrows(numbers: &[u32])
    ensures { AllByRecursion (λ n. n < 2 ^ 32) numbers.now }
{
    let _numbers = numbers;
}

/// The numbers of each of some.
pub fn all_sizes<X: Sizes>(each: &[X])
    ensures { All X.sized each.now }
{
    for one in each {
        one.sizes();
    }
}

impl<X: Sizes> Sizes for Listed<X> {
    ghost use Rattle.std.specs.Prelude.{All};

    ghost sized = { All X.sized };

    fn sizes(&self) {
        all_sizes(self.items());
    }
}

impl<O: Sizes, R: Sizes> Sizes for Entry<O, R> {
    ghost sized = { IsSizedEntry O.sized R.sized };

    fn sizes(&self) {
        narrow(self.step);
        self.op.sizes();
        self.reply.sizes();
    }
}

impl Sizes for ItemLook {
    ghost sized = { IsSizedItemLook };

    fn sizes(&self) {
        narrow(self.step);
        wide(self.at);
    }
}

impl Sizes for SignalLook {
    ghost sized = { IsSizedSignalLook };

    fn sizes(&self) {
        narrow(self.step);
        short(self.seen.result);
        narrow(self.seen.stamp);
    }
}

impl Sizes for Answered {
    ghost sized = { IsSizedAnswer };

    fn sizes(&self) {
        narrow(self.step);
        answer_part(&self.answer).sizes();
    }
}

impl Sizes for Answers {
    ghost use Rattle.std.specs.Prelude.{All};

    ghost sized = { All IsSizedAnswer };

    fn sizes(&self) {
        for place in 0..self.len() {
            let Some(answered) = self.get(place) else {
                unreachable!()
            };
            answered.sizes();
        }
    }
}

impl Sizes for Log {
    ghost sized = { IsSizedLog };

    fn sizes(&self) {
        self.answers.sizes();
    }
}

impl Sizes for Trace {
    ghost sized = { IsSized };

    fn sizes(&self) {
        self.work.sizes();
        self.clock.sizes();
        self.table.sizes();
        self.sems.sizes();
        self.msgqs.sizes();
        self.signals.sizes();
        self.chans.sizes();
        self.observers.sizes();
        self.looks.items.sizes();
        self.looks.signals.sizes();
        self.logs.sizes();
    }
}

/// Each number of a trace is within its type. Nothing is done.
pub fn trace_sizes(trace: &Trace)
    ensures { IsSized trace.now }
{
    trace.sizes();
}
