ghost use Rattle.std.specs.Prelude.{◌≡◌, ◌<◌, false, option_map, All, IfOk, IfSome};
ghost use Rattle.zk_model_work.specs.Lists.{first};
ghost use Rattle.zk_queue.specs.Open.{nothing_open, line, run, is_queued, IsAbove, flags, is_idle, mark, admit, running, waiting, is_open, drop_item, next, begin, end, pair_of};

use crate::copies::copies;
use crate::waiting::Waiting;
use crate::words::marked;
use crate::{Ticket, runs};
use bitflags::Flags;
use std::alloc::Global;
use std::marker::Model;
use zk_base::NoMemory;
use zk_model_work::BusyFlags;

/// The open admissions of the work service: what waits for each queue, what each queue runs, and
/// one word for each item, its busy flags.
///
/// Queues and items are numbers below those that `new` was given.
#[derive(Drop)]
pub struct Queues {
    waiting: Waiting,
    runs: Vec<Option<Ticket>>,
    words: Vec<BusyFlags>,
}

impl Model for Queues {
    ghost use Rattle.zk_queue.specs.Open.{Open};
    ghost use Rattle.zk_queue.specs.Words.{open_of, AreKept};

    ghost Value = { Open };

    ghost view = { λ a. open_of a.waiting.lines a.runs.items a.words.items };

    ghost invariant = { λ a. AreKept a.waiting a.runs.items a.words.items };
}

impl Queues {
    /// Nothing is open: so many items that don't wait and have no marks, and so many idle queues.
    ///
    /// It takes all the memory that the later calls need.
    pub fn new(alloc: Global, items: u32, queues: u32) -> Result<Queues, NoMemory>
        ensures { IfOk result (λ q. q ≡ nothing_open items queues) }
    {
        let waiting = Waiting::new(alloc, items, queues)?;
        let runs = copies(alloc, None, queues)?;
        let words = copies(alloc, BusyFlags::empty(), items)?;
        Ok(Queues {
            waiting,
            runs,
            words,
        })
    }

    /// The busy flags of the item. Zephyr's `k_work_busy_get`.
    pub fn flags(&self, item: u32) -> BusyFlags
        requires { item < self.now.items }
        ensures { result.0 ≡ flags self.now item }
    {
        self.words[item as usize]
    }

    /// The number of the admission by which the item waits, if it waits.
    pub fn waiting(&self, item: u32) -> Option<u64>
        requires { item < self.now.items }
        ensures { result ≡ waiting self.now item }
    {
        self.waiting.number(item)
    }

    /// The number of the item's admission that a queue runs, if one does.
    pub fn running(&self, item: u32) -> Option<u64>
        ensures { result ≡ running self.now item }
    {
        let queue = runs::queue_of(&self.runs, item)?;
        let ticket = self.runs[queue]?;
        Some(ticket.number)
    }

    /// Whether the admission of this number waits or runs.
    pub fn is_open(&self, number: u64) -> bool
        ensures { result ≡ is_open self.now number }
    {
        runs::has_number(&self.runs, number) || self.waiting.has_number(number)
    }

    /// Marks the item as cancelling, delayed and flushing where these flags are set, and only there.
    pub fn mark(&mut self, item: u32, bits: BusyFlags)
        requires { item < self.old.items }
        ensures { self.new ≡ mark self.old item bits.0 }
    {
        let word = self.words[item as usize];
        self.words[item as usize] = marked(word, bits);
    }

    /// The item waits for the queue, behind all that wait already: the numbers of admissions rise.
    pub fn admit(&mut self, item: u32, queue: u32, number: u64)
        requires item { item < self.old.items }
        requires queue { queue < self.old.queues }
        requires free { is_queued self.old item ≡ false }
        requires above { IsAbove number self.old }
        ensures { self.new ≡ admit self.old item queue number }
    {
        self.waiting.admit(item, queue, number);
        self.words[item as usize].insert(BusyFlags::QUEUED);
    }

    /// The item waits no longer. The number of its admission, if it waited.
    pub fn drop_item(&mut self, item: u32) -> Option<u64>
        requires { item < self.old.items }
        ensures reply { result ≡ waiting self.old item }
        ensures next { self.new ≡ drop_item self.old item }
    {
        self.words[item as usize].remove(BusyFlags::QUEUED);
        self.waiting.drop_item(item)
    }

    /// The queue begins the lowest that waits for it, if it runs nothing: the item and the number.
    pub fn begin(&mut self, queue: u32) -> Option<(u32, u64)>
        requires { queue < self.old.queues }
        ensures reply { result ≡ option_map pair_of (next self.old queue) }
        ensures next { self.new ≡ begin self.old queue }
        ensures lowest { IfSome result (λ begun. All (λ t. begun.1 < t.number) (line self.new queue)) }
    {
        if self.runs[queue as usize].is_some() {
            return None;
        }
        let ticket = self.waiting.begin(queue)?;
        self.runs[queue as usize] = Some(ticket);
        let word = &mut self.words[ticket.item as usize];
        word.remove(BusyFlags::QUEUED);
        word.insert(BusyFlags::RUNNING);
        Some((ticket.item, ticket.number))
    }

    /// What the queue runs ends: the item and the number.
    pub fn end(&mut self, queue: u32) -> Option<(u32, u64)>
        requires { queue < self.old.queues }
        ensures reply { result ≡ option_map pair_of (run self.old queue) }
        ensures next { self.new ≡ end self.old queue }
    {
        let ticket = self.runs[queue as usize]?;
        self.runs[queue as usize] = None;
        if !runs::is_any_of(&self.runs, ticket.item) {
            self.words[ticket.item as usize].remove(BusyFlags::RUNNING);
        }
        Some((ticket.item, ticket.number))
    }

    /// The item of the lowest that waits for the queue, if anything does.
    pub fn first(&self, queue: u32) -> Option<u32>
        requires { queue < self.now.queues }
        ensures { result ≡ option_map (λ t. t.item) (first (line self.now queue)) }
    {
        let ticket = self.waiting.first(queue)?;
        Some(ticket.item)
    }

    /// The item that the queue runs, if it runs one.
    pub fn run(&self, queue: u32) -> Option<u32>
        requires { queue < self.now.queues }
        ensures { result ≡ option_map (λ t. t.item) (run self.now queue) }
    {
        let ticket = self.runs[queue as usize]?;
        Some(ticket.item)
    }

    /// Whether nothing waits for the queue, and it runs nothing.
    pub fn is_idle(&self, queue: u32) -> bool
        requires { queue < self.now.queues }
        ensures { result ≡ is_idle self.now queue }
    {
        self.runs[queue as usize].is_none() && self.waiting.is_empty(queue)
    }
}
