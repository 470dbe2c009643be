ghost use Rattle.std.specs.Prelude.{◌≡◌, ◌<◌, ◌≤◌, length};
ghost use Rattle.zk_soak.specs.Drawn.{next, drawn, queue_drawn, item_drawn, sem_drawn, msgq_drawn, signal_drawn, channel, four_digits, two_digits, call_drawn};

use std::marker::Model;
use zk_base::Msg;
use zk_line::{Call, Ref};
use zk_words::Timeout;

// Objects are numbered as they are declared, the threads from 0 on.
const FIRST_QUEUE: u32 = 12;
/// The number of the first item.
pub const FIRST_ITEM: u32 = 14;
/// The number of the first semaphore.
pub const FIRST_SEM: u32 = 30;

const FIRST_MSGQ: u32 = 34;

const FIRST_SIGNAL: u32 = 36;

const CHANNEL: u32 = 39;

/// Pseudo-random numbers, and the calls that they make.
#[derive(Drop)]
pub struct Draws {
    x: u64,
}

impl Model for Draws {
    ghost use Rattle.std.specs.Prelude.{ℕ};

    ghost Value = { ℕ };

    ghost view = { λ a. a.x };
}

impl Draws {
    /// The draws from this number on.
    pub fn from(number: u32) -> Draws
        ensures { result ≡ number }
    {
        Draws {
            x: u64::from(number),
        }
    }

    /// The next call.
    pub fn call(&mut self) -> Call
        ensures call { result ≡ (call_drawn self.old).call }
        ensures behind { self.new ≡ (call_drawn self.old).x }
    {
        match self.below(16) {
            0..=3 => Call::Submit(self.item(), Some(self.queue())),
            4 => Call::Cancel(self.item()),
            5 => Call::CancelSync(self.item()),
            6 => Call::Flush(self.item()),
            7 => Call::Schedule(self.item(), self.queue(), 1 + self.below(20)),
            8 => Call::Reschedule(self.item(), self.queue(), self.below(20)),
            9 => Call::Tick(1 + self.below(5)),
            10 => Call::Take(self.sem(), Timeout::No),
            11 => Call::Give(self.sem()),
            12 => Call::Put(self.msgq(), self.four_digits(), Timeout::No),
            13 => Call::Get(self.msgq(), Timeout::No),
            14 => Call::Raise(self.signal(), self.below(1_000) as u16),
            _ => Call::Publish(Ref::Known(CHANNEL), self.two_digits(), Timeout::Forever),
        }
    }

    /// A draw below this bound.
    fn below(&mut self, bound: u32) -> u32
        requires { 0 < bound }
        ensures drawn { result ≡ drawn self.old bound }
        ensures small { result < bound }
        ensures next { self.new ≡ next self.old }
    {
        self.x = self
            .x
            .wrapping_mul(6_364_136_223_846_793_005)
            .wrapping_add(1_442_695_040_888_963_407);
        (self.x / 8_589_934_592 % u64::from(bound)) as u32
    }

    fn queue(&mut self) -> Ref
        ensures drawn { result ≡ queue_drawn self.old }
        ensures next { self.new ≡ next self.old }
    {
        Ref::Known(FIRST_QUEUE + self.below(2))
    }

    fn item(&mut self) -> Ref
        ensures drawn { result ≡ item_drawn self.old }
        ensures next { self.new ≡ next self.old }
    {
        Ref::Known(FIRST_ITEM + self.below(16))
    }

    fn sem(&mut self) -> Ref
        ensures drawn { result ≡ sem_drawn self.old }
        ensures next { self.new ≡ next self.old }
    {
        Ref::Known(FIRST_SEM + self.below(4))
    }

    fn msgq(&mut self) -> Ref
        ensures drawn { result ≡ msgq_drawn self.old }
        ensures next { self.new ≡ next self.old }
    {
        Ref::Known(FIRST_MSGQ + self.below(2))
    }

    fn signal(&mut self) -> Ref
        ensures drawn { result ≡ signal_drawn self.old }
        ensures next { self.new ≡ next self.old }
    {
        Ref::Known(FIRST_SIGNAL + self.below(2))
    }

    /// A message of two bytes.
    fn four_digits(&mut self) -> Msg
        ensures drawn { result ≡ four_digits self.old }
        ensures next { self.new ≡ next self.old }
    {
        let number = self.below(65_536);
        message(&[(number / 256) as u8, (number % 256) as u8])
    }

    /// A message of one byte.
    fn two_digits(&mut self) -> Msg
        ensures drawn { result ≡ two_digits self.old }
        ensures next { self.new ≡ next self.old }
    {
        let number = self.below(256);
        message(&[number as u8])
    }
}

/// The message of a few bytes.
fn message(bytes: &[u8]) -> Msg
    requires some { 0 < length bytes.now }
    requires few { length bytes.now ≤ 64 }
    ensures { result ≡ bytes.now }
{
    match Msg::new(bytes) {
        Some(message) => message,
        None => unreachable!(),
    }
}
