ghost use Rattle.std.specs.Prelude.{◌≡◌, ◌-◌, ◌^◌, ◌<◌, ◌≤◌, false, option_map, length, set, replicate, slice_index_or, All, IfOk, IfSome};
ghost use Rattle.std.specs.Option.{option_map_or};
ghost use Rattle.zk_model_work.specs.Lists.{first};
ghost use Rattle.zk_model_work.specs.Machine.{settle_one, settle_from};
ghost use Rattle.zk_model_work.specs.Questions.{busy_flags};
ghost use Rattle.zk_queue.specs.Open.{nothing_open, line, run, is_idle, is_running, is_queued, is_open, marks_of, waiting, running, next, admit, begin, IsAbove};
ghost use Rattle.zk_queue.specs.Open as tickets;
ghost use Rattle.zk_time.specs.Timeouts.{nothing_armed, is_armed, deadline_of, queue_of, count_due, arm, disarm, due_first, drop_due, IsOrdered};
ghost use Rattle.zk_time.specs.Timeouts as spec;
ghost use Rattle.zk_work.specs.Active.{plain, flushing_in, AreMarked, run_over};
ghost use Rattle.zk_work.specs.Engine.{cancelled};

use bitflags::Flags;
use std::alloc::Global;
use std::marker::Model;
use zk_base::NoMemory;
use zk_model_work::{BusyFlags, Queue};
use zk_queue::Queues;
use zk_time::TimeoutList;

/// What a submission asks of its item.
#[derive(Clone, Copy)]
pub struct Busy {
    /// A queue runs it.
    pub runs: bool,
    /// Its run is being cancelled.
    pub cancelling: bool,
    /// It waits for a queue.
    pub waits: bool,
}

/// The admissions that wait or run, and the items that are armed.
///
/// The word of an item says whether it is armed, so that the list of those that are isn't asked, and
/// whether it is being flushed, as it was marked last.
#[derive(Drop)]
pub struct Active {
    admissions: Queues,
    timeouts: TimeoutList,
}

impl Model for Active {
    ghost use Rattle.zk_work.specs.Active.{ActiveView, plain, flushing_in, AreMarked};

    ghost Value = { ActiveView };

    ghost view = { λ a. record {
      admissions = plain a.admissions;
      timeouts = a.timeouts;
      flushing = flushing_in a.admissions;
    } };

    ghost invariant = { λ a. AreMarked a.admissions a.timeouts };
}

/// The item isn't armed any more, and its word says so.
fn disarm(admissions: &mut Queues, timeouts: &mut TimeoutList, item: u32)
    requires item { item < admissions.old.items }
    requires marked { AreMarked admissions.old timeouts.old }
    ensures marked { AreMarked admissions.new timeouts.new }
    ensures admissions { plain admissions.new ≡ plain admissions.old }
    ensures timeouts { timeouts.new ≡ spec.disarm timeouts.old item }
    ensures flushing { flushing_in admissions.new ≡ flushing_in admissions.old }
{
    let word = admissions.flags(item);
    if word.contains(BusyFlags::DELAYED) {
        timeouts.disarm(item);
        admissions.mark(item, word.difference(BusyFlags::DELAYED));
    }
}

impl Active {
    /// Nothing is open, and nothing is armed.
    pub fn new(alloc: Global, items: u32, queues: u32) -> Result<Active, NoMemory>
        ensures admissions { IfOk result (λ a. a.admissions ≡ nothing_open items queues) }
        ensures timeouts { IfOk result (λ a. a.timeouts ≡ nothing_armed items) }
        ensures flushing { IfOk result (λ a. a.flushing ≡ replicate items false) }
    {
        let admissions = Queues::new(alloc, items, queues)?;
        let timeouts = TimeoutList::new(alloc, items)?;
        Ok(Active {
            admissions,
            timeouts,
        })
    }

    /// What the item is busy with.
    pub fn busy(&self, item: u32) -> Busy
        requires { item < self.now.admissions.items }
        ensures runs { result.runs ≡ is_running self.now.admissions item }
        ensures cancelling { result.cancelling ≡ (marks_of self.now.admissions item).cancelling }
        ensures waits { result.waits ≡ is_queued self.now.admissions item }
    {
        let word = self.admissions.flags(item);
        Busy {
            runs: word.contains(BusyFlags::RUNNING),
            cancelling: word.contains(BusyFlags::CANCELING),
            waits: word.contains(BusyFlags::QUEUED),
        }
    }

    /// The busy flags of the item: its word.
    pub fn flags(&self, item: u32) -> BusyFlags
        requires { item < self.now.admissions.items }
        ensures { result.0 ≡ busy_flags (is_running self.now.admissions item)
            (marks_of self.now.admissions item).cancelling (is_queued self.now.admissions item)
            (is_armed self.now.timeouts item) (slice_index_or self.now.flushing item false) }
    {
        self.admissions.flags(item)
    }

    /// Marks the item as being flushed, or as not being flushed.
    pub fn mark_flushing(&mut self, item: u32, flushing: bool)
        requires { item < self.old.admissions.items }
        ensures admissions { self.new.admissions ≡ self.old.admissions }
        ensures timeouts { self.new.timeouts ≡ self.old.timeouts }
        ensures flushing { self.new.flushing ≡ set self.old.flushing item flushing }
    {
        let mut word = self.admissions.flags(item);
        word.set(BusyFlags::FLUSHING, flushing);
        self.admissions.mark(item, word);
    }

    /// Whether the item is armed, by its word.
    pub fn is_armed(&self, item: u32) -> bool
        requires { item < self.now.admissions.items }
        ensures { result ≡ is_armed self.now.timeouts item }
    {
        let word = self.admissions.flags(item);
        word.contains(BusyFlags::DELAYED)
    }

    /// The number of the admission by which the item waits, if it waits.
    pub fn waiting(&self, item: u32) -> Option<u64>
        requires { item < self.now.admissions.items }
        ensures { result ≡ waiting self.now.admissions item }
    {
        self.admissions.waiting(item)
    }

    /// The number of the item's admission that a queue runs, if one does.
    pub fn running(&self, item: u32) -> Option<u64>
        ensures { result ≡ running self.now.admissions item }
    {
        self.admissions.running(item)
    }

    /// Whether the admission of this number waits or runs.
    pub fn is_open(&self, number: u64) -> bool
        ensures { result ≡ is_open self.now.admissions number }
    {
        self.admissions.is_open(number)
    }

    /// The item of the lowest that waits for the queue, if anything does.
    pub fn first(&self, queue: u32) -> Option<u32>
        requires { queue < self.now.admissions.queues }
        ensures { result ≡ option_map (λ t. t.item) (first (line self.now.admissions queue)) }
    {
        self.admissions.first(queue)
    }

    /// The item that the queue runs, if it runs one.
    pub fn run(&self, queue: u32) -> Option<u32>
        requires { queue < self.now.admissions.queues }
        ensures { result ≡ option_map (λ t. t.item) (run self.now.admissions queue) }
    {
        self.admissions.run(queue)
    }

    /// Whether nothing waits for the queue, and it runs nothing.
    pub fn is_idle(&self, queue: u32) -> bool
        requires { queue < self.now.admissions.queues }
        ensures { result ≡ is_idle self.now.admissions queue }
    {
        self.admissions.is_idle(queue)
    }

    /// The deadline of the item, if it is armed.
    pub fn deadline(&self, item: u32) -> Option<u64>
        requires { item < self.now.admissions.items }
        ensures { result ≡ deadline_of self.now.timeouts item }
    {
        if !self.is_armed(item) {
            return None;
        }
        self.timeouts.deadline(item)
    }

    /// The queue that the item is to be submitted to, if it is armed.
    pub fn queue(&self, item: u32) -> Option<u32>
        requires { item < self.now.admissions.items }
        ensures { result ≡ queue_of self.now.timeouts item }
    {
        if !self.is_armed(item) {
            return None;
        }
        self.timeouts.queue(item)
    }

    /// How many items have expired by now and are still armed.
    pub fn count_due(&self, now: u64) -> usize
        ensures { result ≡ count_due self.now.timeouts now }
    {
        self.timeouts.count_due(now)
    }

    /// The item waits for the queue, behind all that wait already.
    pub fn admit(&mut self, item: u32, queue: u32, number: u64)
        requires item { item < self.old.admissions.items }
        requires queue { queue < self.old.admissions.queues }
        requires free { is_queued self.old.admissions item ≡ false }
        requires above { IsAbove number self.old.admissions }
        ensures admissions { self.new.admissions ≡ admit self.old.admissions item queue number }
        ensures timeouts { self.new.timeouts ≡ self.old.timeouts }
        ensures flushing { self.new.flushing ≡ self.old.flushing }
    {
        self.admissions.admit(item, queue, number);
    }

    /// The queue begins the lowest that waits for it, if it runs nothing: the item and the number.
    pub fn begin(&mut self, queue: u32) -> Option<(u32, u64)>
        requires { queue < self.old.admissions.queues }
        ensures reply { result ≡ option_map tickets.pair_of (next self.old.admissions queue) }
        ensures admissions { self.new.admissions ≡ begin self.old.admissions queue }
        ensures timeouts { self.new.timeouts ≡ self.old.timeouts }
        ensures flushing { self.new.flushing ≡ self.old.flushing }
    {
        self.admissions.begin(queue)
    }

    /// What the queue runs ends, and its item isn't marked as cancelling any more.
    pub fn end(&mut self, queue: u32) -> Option<(u32, u64)>
        requires queue { queue < self.old.admissions.queues }
        requires known { IfSome (run self.old.admissions queue) (λ t. t.item < self.old.admissions.items) }
        ensures reply { result ≡ option_map tickets.pair_of (run self.old.admissions queue) }
        ensures admissions { self.new.admissions ≡ run_over self.old.admissions queue }
        ensures timeouts { self.new.timeouts ≡ self.old.timeouts }
        ensures flushing { self.new.flushing ≡ self.old.flushing }
    {
        let (item, number) = self.admissions.end(queue)?;
        let word = self.admissions.flags(item);
        self.admissions
            .mark(item, word.difference(BusyFlags::CANCELING));
        Some((item, number))
    }

    /// Arms the item: when it expires it is to be submitted to the queue.
    pub fn arm(&mut self, item: u32, queue: u32, deadline: u64)
        requires item { item < self.old.admissions.items }
        requires free { is_armed self.old.timeouts item ≡ false }
        ensures admissions { self.new.admissions ≡ self.old.admissions }
        ensures timeouts { self.new.timeouts ≡ arm self.old.timeouts item queue deadline }
        ensures flushing { self.new.flushing ≡ self.old.flushing }
    {
        self.timeouts.arm(item, queue, deadline);
        let word = self.admissions.flags(item);
        self.admissions.mark(item, word.union(BusyFlags::DELAYED));
    }

    /// The item isn't armed any more.
    pub fn disarm(&mut self, item: u32)
        requires { item < self.old.admissions.items }
        ensures admissions { self.new.admissions ≡ self.old.admissions }
        ensures timeouts { self.new.timeouts ≡ disarm self.old.timeouts item }
        ensures flushing { self.new.flushing ≡ self.old.flushing }
    {
        disarm(&mut self.admissions, &mut self.timeouts, item);
    }

    /// Takes out what expires next, if its deadline isn't after now: the item and the queue.
    pub fn due(&mut self, now: u64) -> Option<(u32, u32)>
        requires { IsOrdered self.old.timeouts }
        ensures reply { result
            ≡ option_map spec.pair_of (due_first now self.old.timeouts.live) }
        ensures admissions { self.new.admissions ≡ self.old.admissions }
        ensures timeouts { self.new.timeouts ≡ drop_due self.old.timeouts now }
        ensures flushing { self.new.flushing ≡ self.old.flushing }
        ensures known { IfSome result (λ t. t.0 < self.old.admissions.items) }
    {
        let (item, queue) = self.timeouts.due(now)?;
        let word = self.admissions.flags(item);
        self.admissions
            .mark(item, word.difference(BusyFlags::DELAYED));
        Some((item, queue))
    }

    /// The item waits no longer and isn't armed, and is marked where it runs.
    pub fn cancel(&mut self, item: u32)
        requires { item < self.old.admissions.items }
        ensures admissions { self.new.admissions ≡ cancelled self.old.admissions item }
        ensures timeouts { self.new.timeouts ≡ disarm self.old.timeouts item }
        ensures flushing { self.new.flushing ≡ self.old.flushing }
    {
        disarm(&mut self.admissions, &mut self.timeouts, item);
        self.admissions.drop_item(item);
        let word = self.admissions.flags(item);
        if word.contains(BusyFlags::RUNNING) {
            self.admissions.mark(item, word.union(BusyFlags::CANCELING));
        }
    }
}

/// The queue, drained once more if it drains, and nothing of it waits or runs.
fn settle_one(active: &Active, number: u32, queue: Queue) -> Queue
    requires within { number < active.now.admissions.queues }
    requires counted { queue.drained < 2 ^ 64 - 1 }
    ensures { result ≡ settle_one (is_idle active.now.admissions) number queue }
{
    if queue.draining && active.is_idle(number) {
        Queue {
            draining: false,
            drained: queue.drained + 1,
            ..queue
        }
    } else {
        queue
    }
}

/// The draining of each queue ends, where nothing of it waits or runs.
pub fn settle(active: &Active, queues: &mut [Queue])
    requires all { length queues.old ≤ active.now.admissions.queues }
    requires counted { All (λ q. q.drained < 2 ^ 64 - 1) queues.old }
    requires few { length queues.old < 2 ^ 32 }
    ensures { queues.new ≡ settle_from (is_idle active.now.admissions) 0 queues.old }
{
    for number in 0..queues.len() {
        queues[number] = settle_one(active, number as u32, queues[number]);
    }
}
