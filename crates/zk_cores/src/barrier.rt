use std::sync::atomic::AtomicU64;
use std::sync::atomic::Ordering::SeqCst;
use std::{hint, thread};

/// How often a core looks whether all others have come, before it begins without them.
const LOOKS: u32 = 20_000;

/// It lets other threads run after each so manieth look: they may want its processor to be able to come.
const LOOKS_A_TURN: u32 = 100;

/// What the cores of a run tell one another: that they have come, so that none of them plays before, and that one of them was
/// refused memory. Without the first one core would be through with a short scenario while the threads of the others are still
/// being made; without the second they would play on a run that is thrown away.
///
/// Nothing rests on it: a core that has looked long enough goes on alone, and from then on nobody waits for the others.
#[derive(Drop)]
pub struct Barrier {
    cores: u64,
    come: AtomicU64,
    // How many were refused memory.
    refused: AtomicU64,
}

impl Barrier {
    /// For so many cores.
    pub fn new(cores: usize) -> Barrier {
        Barrier {
            cores: cores as u64,
            come: AtomicU64::new(0),
            refused: AtomicU64::new(0),
        }
    }

    /// One core more has come. It waits for the others, for some milliseconds at the most where the processors are free. Where
    /// they don't come, as where no thread could be made for them, those that come later don't wait again.
    pub fn wait(&self) {
        self.come.fetch_add(1, SeqCst);
        for look in 0..LOOKS {
            if self.cores <= self.come.load(SeqCst) {
                return;
            }
            hint::spin_loop();
            if look % LOOKS_A_TURN == LOOKS_A_TURN - 1 {
                thread::yield_now();
            }
        }
        self.come.store(self.cores, SeqCst);
    }

    /// This core was refused memory: what is played is thrown away.
    pub fn refuse(&self) {
        self.refused.fetch_add(1, SeqCst);
    }

    /// Whether a core was refused memory.
    pub fn is_refused(&self) -> bool {
        self.refused.load(SeqCst) != 0
    }
}
