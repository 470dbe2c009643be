use std::sync::atomic::AtomicU32;
use std::sync::atomic::Ordering::SeqCst;
use std::sync::{Condvar, Mutex, Wait};
use std::thread;
use zk_base::NoMemory;
use zk_worker::Stepped;

/// How often a caller that waits tries again before it sleeps.
const TRIES: u32 = 50;

/// That steps were made, for the callers that sleep until one is.
///
/// Who makes a step looks for sleepers after it, and who would sleep counts itself before the attempts that it makes last: so
/// either the step is found by these attempts, or its maker finds somebody to wake.
#[derive(Drop)]
pub struct News {
    // How many callers sleep, or are about to.
    sleepers: AtomicU32,
    // How many steps were made while there were some; it goes round.
    steps: Mutex<u64>,
    made: Condvar,
}

impl News {
    /// Of no step so far.
    pub fn new() -> News {
        News {
            sleepers: AtomicU32::new(0),
            steps: Mutex::new(0),
            made: Condvar::new(),
        }
    }

    /// Wakes all who sleep, after a step was made.
    pub fn tell<R: Wait>(&self, rt: &R) {
        if self.sleepers.load(SeqCst) == 0 {
            return;
        }
        let mut steps = self.steps.lock(rt);
        *steps = steps.wrapping_add(1);
        drop(steps);
        self.made.notify_all();
    }

    /// Wakes all who sleep, if a step was made.
    pub fn tell_of<R: Wait>(&self, rt: &R, stepped: &Result<Stepped, NoMemory>) {
        if let Ok(Stepped::Did) = stepped {
            self.tell(rt);
        }
    }

    fn count<R: Wait>(&self, rt: &R) -> u64 {
        *self.steps.lock(rt)
    }

    fn sleep<R: Wait>(&self, rt: &R, seen: u64) -> u64 {
        *self
            .made
            .wait_while(rt, self.steps.lock(rt), |steps| *steps == seen)
    }
}

/// How a caller passes the time while no attempt is possible: it lets others run, and after some tries sleeps until a step
/// is made somewhere in the kernel.
#[derive(Drop)]
pub struct Patience<'a> {
    news: &'a News,
    tries: u32,
    // Counted among the sleepers since so many steps.
    seen: Option<u64>,
}

impl<'a> Patience<'a> {
    /// Of a caller that hasn't waited yet.
    pub fn new(news: &'a News) -> Patience<'a> {
        Patience {
            news,
            tries: 0,
            seen: None,
        }
    }

    /// No attempt was possible: waits before the next.
    ///
    /// Of writes at signals nobody is told, so who looks for one doesn't sleep.
    pub fn wait<R: Wait>(&mut self, rt: &R, looks_at_signals: bool) {
        if looks_at_signals {
            thread::yield_now();
            return;
        }
        match self.seen {
            Some(seen) => self.seen = Some(self.news.sleep(rt, seen)),
            None if self.tries < TRIES => {
                self.tries += 1;
                thread::yield_now();
            }
            None => {
                self.news.sleepers.fetch_add(1, SeqCst);
                self.seen = Some(self.news.count(rt));
            }
        }
    }

    /// A step was made, or there will be no further one.
    pub fn end(&mut self) {
        self.tries = 0;
        if self.seen.take().is_some() {
            self.news.sleepers.fetch_sub(1, SeqCst);
        }
    }
}
