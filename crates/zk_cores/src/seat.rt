ghost use Rattle.std.specs.Prelude.{◌≡◌, IfOk};
ghost use Rattle.zk_cores.specs.Seats.{seat_caller, seat_number, seat_kernel, IsSeated};

use std::alloc::Global;
use std::sync::Wait;
use zk_base::NoMemory;
use zk_kernel::{Caller, Kernel};
use zk_pool::Numbered;
use zk_worker::Stepped;

/// A caller as cores hand it on: in a box, so that a move of it is that of a pointer, and with what a core knows of it.
#[derive(Drop)]
pub struct Seat {
    pub(crate) caller: Box<Caller>,
    // What came of its last step, and before the first that it may go on. Where that wasn't possible it needn't be asked again before
    // it has news.
    pub(crate) last: Stepped,
}

impl Numbered for Seat {
    type Home = Kernel;

    ghost use Rattle.zk_cores.specs.Seats.{seat_number, seat_kernel, IsSeated};

    ghost number = { seat_number };

    ghost home = { seat_kernel };

    ghost kept = { IsSeated };

    fn number(&self) -> u32 {
        self.caller.as_ref().who().number
    }
}

impl Seat {
    /// A seat for a caller.
    pub fn new(alloc: Global, caller: Caller) -> Result<Seat, NoMemory>
        ensures { IfOk result (λ seat. seat_caller seat ≡ caller) }
    {
        let Ok(caller) = Box::new(alloc, caller) else {
            return Err(NoMemory);
        };
        Ok(Seat {
            caller,
            last: Stepped::Did,
        })
    }

    /// The caller.
    pub fn into_caller(self) -> Caller
        ensures { result ≡ seat_caller self }
    {
        Box::into_inner(self.caller)
    }

    /// Whether it waits and has no news, so that a step would be in vain.
    pub fn rests(&self, kernel: &Kernel) -> bool {
        self.last == Stepped::NotYet && !self.caller.as_ref().has_news(kernel)
    }

    /// Whether it made its last step, or hasn't been asked yet.
    pub fn goes_on(&self) -> bool {
        self.last == Stepped::Did
    }

    /// Whether it waits and has news: a step may be possible.
    pub fn has_news(&self, kernel: &Kernel) -> bool {
        self.last == Stepped::NotYet && self.caller.as_ref().has_news(kernel)
    }

    /// Makes one step with its caller.
    pub fn step<R: Wait>(&mut self, rt: &R, kernel: &Kernel) -> Result<Stepped, NoMemory>
        requires kernel { seat_kernel self.old ≡ kernel.now }
        requires seated { IsSeated self.old }
        ensures number { seat_number self.new ≡ seat_number self.old }
        ensures kernel { seat_kernel self.new ≡ seat_kernel self.old }
        ensures seated { IsSeated self.new }
    {
        self.last = self.caller.as_mut().step(rt, kernel)?;
        Ok(self.last)
    }
}
