ghost use Rattle.std.specs.Prelude.{◌≡◌, true, ◌^◌, ◌-◌, ◌+◌, ◌<◌, Some, IsOk, IfOk, OnOk};
ghost use Rattle.zk_base.specs.Limits.{most_entries};
ghost use Rattle.zk_msgsub.specs.Fan.{are_subscribers, new_fan, is_in, is_subscriber, without, fan_answer, fan_changed, fan_in_range, fan_reply, fan_next, subs_told};

use std::marker::Model;
use zk_base::{Engine, Few, NoMemory, Who};

/// What can be asked of a fan. Subscribers are numbers, 0 to 7.
#[derive(Clone, Copy, PartialEq, Eq)]
pub enum FanOp {
    /// Lists the subscriber, behind the others. Zephyr's `zbus_chan_add_obs`.
    Add(u32),
    /// Takes the subscriber off the list. Zephyr's `zbus_chan_rm_obs`.
    Remove(u32),
    /// Asks who is listed. A publisher does so before it pushes to them.
    Open,
}

/// What a fan answers.
#[derive(Clone, Copy, PartialEq, Eq)]
pub enum FanReply {
    /// It is done.
    Done,
    /// The subscriber is listed already.
    Already,
    /// The subscriber isn't listed.
    Inval,
    /// Who is listed: first those that were so from the start, then by the place of their last add.
    Subs(Few),
}

impl FanReply {
    /// Who is listed, where this is the reply to an open.
    pub fn subs(&self) -> Option<Few>
        ensures { result ≡ subs_told self.now }
    {
        match self {
            FanReply::Subs(listed) => Some(*listed),
            _ => None,
        }
    }
}

/// The state of a fan's machine. It takes no memory.
#[derive(Drop)]
pub struct FanState {
    listed: Few,
    entries: u64,
}

impl Model for FanState {
    ghost use Rattle.std.specs.Prelude.{◌≡◌, true};
    ghost use Rattle.zk_msgsub.specs.Fan.{Roster, are_subscribers};

    ghost Value = { Roster };

    ghost view = { λ s. record { listed = s.listed; entries = s.entries } };

    ghost invariant = { λ s. are_subscribers s.listed ≡ true };
}

/// Whether the number is among these.
fn is_in(numbers: &[u32], number: u32) -> bool
    ensures { result ≡ is_in numbers.now number }
{
    numbers.iter().any(|other| *other == number)
}

/// The list without this number.
fn without(number: u32, listed: &Few) -> Few
    ensures { result ≡ without number listed.now }
{
    let mut kept = Few::none();
    let numbers = listed.numbers();
    for other in numbers {
        if *other != number {
            kept.push(*other);
        }
    }
    kept
}

impl FanState {
    /// A fan before the first entry, which lists these subscribers: different ones of 0 to 7.
    pub fn new(first: Few) -> FanState
        requires { are_subscribers first ≡ true }
        ensures { result ≡ new_fan first }
    {
        FanState {
            listed: first,
            entries: 0,
        }
    }

    fn add(&mut self, number: u32) -> FanReply
        requires range { is_subscriber number ≡ true }
        ensures reply { result ≡ fan_answer self.old.listed (FanOp.Add number) }
        ensures next { self.new ≡ record self.old { listed = fan_changed self.old.listed (FanOp.Add number) } }
    {
        if is_in(self.listed.numbers(), number) {
            return FanReply::Already;
        }
        self.listed.push(number);
        FanReply::Done
    }

    fn remove(&mut self, number: u32) -> FanReply
        ensures reply { result ≡ fan_answer self.old.listed (FanOp.Remove number) }
        ensures next { self.new ≡ record self.old { listed = fan_changed self.old.listed (FanOp.Remove number) } }
    {
        let was_listed = is_in(self.listed.numbers(), number);
        self.listed = without(number, &self.listed);
        if was_listed {
            FanReply::Done
        } else {
            FanReply::Inval
        }
    }
}

/// One operation of a fan's machine: its reply and its next state. It is always possible and takes no memory.
pub fn fan_next(state: &mut FanState, who: Who, op: &FanOp) -> Result<Option<FanReply>, NoMemory>
    requires range { fan_in_range state.old op.now ≡ true }
    requires few { state.old.entries < most_entries }
    ensures reply { IfOk result (λ reply. reply ≡ fan_reply state.old who op.now) }
    ensures next { OnOk result (state.new ≡ fan_next state.old who op.now) }
    ensures memory { IsOk result }
{
    let reply = match *op {
        FanOp::Add(number) => state.add(number),
        FanOp::Remove(number) => state.remove(number),
        FanOp::Open => FanReply::Subs(state.listed),
    };
    state.entries += 1;
    Ok(Some(reply))
}

impl Engine for FanState {
    type Op = FanOp;

    type Reply = FanReply;

    type State = FanState;

    ghost use Rattle.std.specs.Prelude.{◌≡◌, ◌^◌, ◌-◌, false, []};
    ghost use Rattle.zk_msgsub.specs.Fan.{fan_machine};

    ghost stands_for = { λ e s. e ≡ s };

    // No entry takes memory.
    ghost room = { λ e. 2 ^ 64 - 1 };

    ghost machine = { fan_machine };

    ghost entries = { λ s. s.entries };

    // No operation has another follow it.
    ghost owed = { λ s. 0 };

    ghost closes = { λ s who op. false };

    ghost grows = { λ op. false };

    // Nothing is published for looks.
    ghost word = { λ s index. 0 };

    ghost WORDS = { 0 };

    const WORDS: u32 = 0;

    ghost touched = { λ e. [] };

    fn step(&mut self, who: Who, op: &FanOp) -> Result<Option<(FanReply, FanReply)>, NoMemory> {
        match fan_next(self, who, op)? {
            None => Ok(None),
            Some(reply) => {
                let kept = reply;
                Ok(Some((reply, kept)))
            }
        }
    }

    fn is_closing(&self, _who: Who, _op: &FanOp) -> bool {
        false
    }

    fn is_futile(&self, _who: Who, _op: &FanOp) -> bool {
        false
    }

    fn owed(&self) -> u64 {
        0
    }

    fn word(&self, _index: u32) -> u32 {
        0
    }

    fn touched(&self) -> &[u32] {
        &[]
    }

    fn reserve(&mut self) -> Result<(), NoMemory> {
        Ok(())
    }

    fn room(&self) -> u64 {
        u64::MAX
    }

    fn counts_entries() {}
}
