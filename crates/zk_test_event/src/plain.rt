use std::alloc::Global;
use zk_base::NoMemory;
use zk_event::{EventOp, EventReply};

/// How far a wait is.
#[derive(Clone, Copy)]
enum Stage {
    Waits,
    Served(u16),
    Over,
}

#[derive(Clone, Copy)]
struct PlainWait {
    place: u64,
    player: u32,
    mask: u16,
    all: bool,
    stage: Stage,
}

/// An event object as whoever reads the rules would write it: all waits in one list, from which none is taken.
#[derive(Drop)]
pub struct Plain {
    bits: u16,
    entries: u64,
    waits: Vec<PlainWait>,
}

/// Whether there is what is waited for.
fn is_there(bits: u16, mask: u16, all: bool) -> bool {
    let shared = bits & mask;
    if all { shared == mask } else { shared != 0 }
}

impl Plain {
    pub fn new(alloc: Global) -> Plain {
        Plain {
            bits: 0,
            entries: 0,
            waits: Vec::new(alloc),
        }
    }

    /// How many entries there are.
    pub fn entries(&self) -> u64 {
        self.entries
    }

    /// What a player is answered, if it can be.
    pub fn ask(&mut self, player: u32, op: EventOp) -> Result<Option<EventReply>, NoMemory> {
        let reply = match op {
            EventOp::Post(bits) => Some(self.put(self.bits | bits)),
            EventOp::Set(bits) => Some(self.put(bits)),
            EventOp::Clear(bits) => Some(self.put(self.bits & !bits)),
            EventOp::Wait(mask, all, reset, waits) => {
                Some(self.wait(player, mask, all, reset, waits)?)
            }
            EventOp::WaitEnd(place) => self.end(player, place, false),
            EventOp::WaitQuit(place) => self.end(player, place, true),
        };
        if reply.is_some() {
            self.entries = self.entries.wrapping_add(1);
        }
        Ok(reply)
    }

    /// These are the bits now: each who waits for some that are there is served. After a clear nobody is.
    fn put(&mut self, bits: u16) -> EventReply {
        let was = self.bits;
        self.bits = bits;
        for wait in self.waits.iter_mut() {
            if let Stage::Waits = wait.stage
                && is_there(bits, wait.mask, wait.all)
            {
                wait.stage = Stage::Served(bits & wait.mask);
            }
        }
        EventReply::Was(was)
    }

    fn wait(
        &mut self,
        player: u32,
        mask: u16,
        all: bool,
        reset: bool,
        waits: bool,
    ) -> Result<EventReply, NoMemory> {
        if reset {
            self.bits = 0;
        }
        if is_there(self.bits, mask, all) {
            return Ok(EventReply::Bits(self.bits & mask));
        }
        if !waits {
            return Ok(EventReply::Bits(0));
        }
        self.waits.push(PlainWait {
            place: self.entries,
            player,
            mask,
            all,
            stage: Stage::Waits,
        })?;
        Ok(EventReply::Wait)
    }

    /// Ends the wait of a place, or gives it up.
    fn end(&mut self, player: u32, place: u64, gives_up: bool) -> Option<EventReply> {
        for wait in self.waits.iter_mut() {
            if wait.place == place && wait.player == player {
                let bits = match wait.stage {
                    Stage::Served(bits) => bits,
                    Stage::Waits if gives_up => 0,
                    _ => return None,
                };
                wait.stage = Stage::Over;
                return Some(EventReply::Bits(bits));
            }
        }
        None
    }
}
