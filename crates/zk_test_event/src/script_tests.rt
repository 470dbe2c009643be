//! Side scripts of drawn operations, beside the plain event object.
use crate::plain::Plain;
use std::alloc::Global;
use std::test::Fail;
use zk_base::{NoMemory, Status, put, put_decimal};
use zk_event::{EventOp, EventReply};
use zk_event_script::event_output;

/// How many scripts are drawn, and how many lines each has.
const SCRIPTS: u64 = 40;

const LINES: u32 = 1_500;

const PLAYERS: usize = 4;

/// Numbers drawn one after the other, from a seed.
#[derive(Drop)]
struct Draws {
    state: u64,
}

impl Draws {
    /// A number below another.
    fn below(&mut self, most: u64) -> u64 {
        self.state = self
            .state
            .wrapping_mul(6_364_136_223_846_793_005)
            .wrapping_add(1_442_695_040_888_963_407);
        (self.state >> 33).checked_rem(most).unwrap_or(0)
    }

    /// Bits, most often few of the lowest ones.
    fn bits(&mut self) -> u16 {
        match self.below(8) {
            0 => u16::try_from(self.below(65_536)).unwrap_or(0),
            _ => u16::try_from(self.below(16)).unwrap_or(0),
        }
    }

    fn coin(&mut self) -> bool {
        self.below(2) == 0
    }

    /// The place of one of the last entries.
    fn place(&mut self, entries: u64) -> u64 {
        entries.saturating_sub(self.below(24))
    }

    fn op(&mut self, entries: u64) -> EventOp {
        match self.below(9) {
            0 | 1 => EventOp::Post(self.bits()),
            2 => EventOp::Set(self.bits()),
            3 => EventOp::Clear(self.bits()),
            4 | 5 => {
                let mask = self.bits() | 2;
                EventOp::Wait(mask, self.coin(), self.below(4) == 0, self.below(4) != 0)
            }
            6 | 7 => EventOp::WaitEnd(self.place(entries)),
            _ => EventOp::WaitQuit(self.place(entries)),
        }
    }
}

fn put_word(out: &mut Vec<u8>, word: &[u8], number: u64) -> Result<(), NoMemory> {
    put(out, word)?;
    put(out, b" ")?;
    put_decimal(out, number)
}

fn word_of<'a>(first: &'a [u8], second: &'a [u8], is_first: bool) -> &'a [u8] {
    if is_first { first } else { second }
}

fn put_op(out: &mut Vec<u8>, op: EventOp) -> Result<(), NoMemory> {
    match op {
        EventOp::Post(bits) => put_word(out, b"post", u64::from(bits)),
        EventOp::Set(bits) => put_word(out, b"set", u64::from(bits)),
        EventOp::Clear(bits) => put_word(out, b"clear", u64::from(bits)),
        EventOp::Wait(mask, all, reset, waits) => {
            put_word(out, b"wait", u64::from(mask))?;
            put(out, word_of(b" all", b" any", all))?;
            put(out, word_of(b" reset", b" keep", reset))?;
            put(out, word_of(b" wait", b" no", waits))
        }
        EventOp::WaitEnd(place) => put_word(out, b"end", place),
        EventOp::WaitQuit(place) => put_word(out, b"quit", place),
    }
}

fn put_reply(out: &mut Vec<u8>, reply: Option<EventReply>) -> Result<(), NoMemory> {
    put(out, b" = ")?;
    match reply {
        Some(EventReply::Was(bits)) => put_word(out, b"was", u64::from(bits))?,
        Some(EventReply::Bits(bits)) => put_word(out, b"bits", u64::from(bits))?,
        Some(EventReply::Wait) => put(out, b"wait")?,
        None => put(out, b"none")?,
    }
    put(out, b"\n")
}

/// A script of drawn lines, and what is to be printed of it.
fn drawn(alloc: Global, seed: u64) -> Result<(Vec<u8>, Vec<u8>), NoMemory> {
    let mut draws = Draws { state: seed };
    let mut plain = Plain::new(alloc);
    let mut steps = [0u64; PLAYERS];
    let (mut script, mut printed) = (Vec::new(alloc), Vec::new(alloc));
    put(&mut script, b"zx 1\n")?;
    put(&mut printed, b"zx 1\n")?;
    for _ in 0..LINES {
        let player = draws.below(PLAYERS as u64);
        let op = draws.op(plain.entries());
        put_decimal(&mut script, player)?;
        put(&mut script, b" ")?;
        put_op(&mut script, op)?;
        put(&mut script, b"\n")?;
        let reply = plain.ask(u32::try_from(player).unwrap_or(0), op)?;
        put_decimal(&mut printed, player)?;
        if let Some(step) = steps.get_mut(player as usize)
            && reply.is_some()
        {
            put(&mut printed, b".")?;
            put_decimal(&mut printed, *step)?;
            *step = step.wrapping_add(1);
        }
        put(&mut printed, b" ")?;
        put_op(&mut printed, op)?;
        put_reply(&mut printed, reply)?;
    }
    Ok((script, printed))
}

#[test]
fn drawn_scripts_go_as_plain_ones(rt: HostRuntime) -> Result<(), Fail> {
    for seed in 0..SCRIPTS {
        let (script, printed) = drawn(rt.alloc(), seed)?;
        let (text, status) = event_output(rt.alloc(), &script)?;
        assert!(rt; status == Status::Success);
        assert!(rt; text.as_slice() == printed.as_slice());
    }
    Ok(())
}
