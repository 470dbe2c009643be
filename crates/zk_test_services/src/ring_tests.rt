//! Rings with dead entries: what waits begins in its order, however its ring is closed up.
ghost use Rattle.std.specs.Prelude.{◌≡◌, ℕ, ◌<◌};
ghost use Rattle.zk_queue.specs.Open.{IsAbove};

use bitflags::Flags;
use std::alloc::Global;
use std::process::Abort;
use std::test::Fail;
use zk_base::NoMemory;
use zk_model_work::BusyFlags;
use zk_queue::Queues;

/// The open admissions of 256 items at two queues, and the number of the next one.
#[derive(Drop)]
struct Rings {
    queues: Queues,
    made: u64,
    ghost all_items: { queues.items ≡ 256 },
    ghost all_queues: { queues.queues ≡ 2 },
    ghost rising: { IsAbove made queues },
}

impl Rings {
    fn new(alloc: Global) -> Result<Rings, NoMemory> {
        let queues = Queues::new(alloc, 256, 2)?;
        Ok(Rings { queues, made: 0 })
    }

    /// The item is admitted by the next number, where it doesn't wait.
    fn admit(&mut self, item: u32, queue: u32)
        requires item { item < 256 }
        requires queue { queue < 2 }
    {
        if self.made > 10_000 {
            return;
        }
        if self.queues.flags(item).contains(BusyFlags::QUEUED) {
            return;
        }
        self.queues.admit(item, queue, self.made);
        self.made += 1;
    }

    /// The item is dropped, which waited by this number.
    fn drop_item<R: Abort>(&mut self, rt: &R, item: u32, number: u64)
        requires { item < 256 }
    {
        assert!(rt; self.queues.drop_item(item) == Some(number));
    }

    /// The queue begins this.
    fn begin<R: Abort>(&mut self, rt: &R, queue: u32, begun: Option<(u32, u64)>)
        requires { queue < 2 }
    {
        assert!(rt; self.queues.begin(queue) == begun);
    }
}

#[test]
fn four_times_admitted_and_dropped(rt: HostRuntime) -> Result<(), Fail> {
    let mut rings = Rings::new(rt.alloc())?;
    for time in 0..4 {
        for item in 0..256 {
            rings.admit(item, 0);
            rings.drop_item(&rt, item, 256 * time + u64::from(item));
        }
    }
    rings.admit(1, 0);
    rings.begin(&rt, 0, Some((1, 1024)));
    Ok(())
}
