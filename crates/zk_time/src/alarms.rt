ghost use Rattle.std.specs.Prelude.{◌≡◌, ◌+◌, ◌-◌, ◌^◌, ◌<◌, ◌≤◌, ℕ, nat_eq, nat_lt, position, IsOk, IfOk, OnOk, OnErr};
ghost use Rattle.std.specs.HashMap.{get};
ghost use Rattle.std.specs.Option.{unwrap_or};
ghost use Rattle.zk_model_wait.specs.Clock.{is_alarm, has_alarm};
ghost use Rattle.zk_time.specs.Alarms.{key_of, how_often, alarms_room, IsOneMore, AreSame};

use std::alloc::Global;
use std::collections::HashMap;
use zk_base::NoMemory;
use zk_model_wait::Alarm;

/// So many alarms are kept in a list, more than players have set at once.
const FEW: usize = 64;

/// The alarms that haven't ended, in no order.
///
/// A list of them is searched, which stays short. Of all others it is kept how often each is there.
#[derive(Drop)]
pub struct Alarms {
    few: Vec<Alarm>,
    more: HashMap<u128, u64>,
    count: u64,
}

/// An alarm of this player and moment, as one number.
fn key_of(player: u32, moment: u64) -> u128
    ensures { result ≡ key_of player moment }
{
    u128::from(player) * (1 << 64) + u128::from(moment)
}

/// Whether an alarm of this player and moment is among these.
fn has_alarm(few: &[Alarm], player: u32, moment: u64) -> bool
    ensures { result ≡ has_alarm few.now player moment }
{
    few.iter()
        .any(|alarm| alarm.player == player && alarm.moment == moment)
}

/// The place of the first alarm of this player and moment.
fn place(few: &[Alarm], player: u32, moment: u64) -> Option<usize>
    ensures { result ≡ position (is_alarm player moment) few.now }
{
    few.iter()
        .position(|alarm| alarm.player == player && alarm.moment == moment)
}

impl Alarms {
    /// No alarm is set. It takes no memory.
    pub fn new(alloc: Global) -> Alarms
        ensures none { (player moment : ℕ) → how_often result player moment ≡ 0 }
        ensures count { result.count ≡ 0 }
    {
        Alarms {
            few: Vec::new(alloc),
            more: HashMap::new(alloc),
            count: 0,
        }
    }

    /// Makes room for so many alarms more.
    pub fn reserve(&mut self, more: usize) -> Result<(), NoMemory>
        ensures room { IfOk result (λ _. more ≤ alarms_room self.new) }
        ensures kept { alarms_room self.old ≤ alarms_room self.new }
        ensures same { AreSame self.old self.new }
        ensures count { self.new.count ≡ self.old.count }
    {
        if self.few.len() < FEW {
            self.few.reserve(more)?;
        } else {
            self.more.reserve(more)?;
        }
        Ok(())
    }

    /// How many alarms fit without memory, at least.
    pub fn room(&self) -> u64
        ensures { result ≡ alarms_room self.now }
    {
        let few = self.few.capacity() - self.few.len();
        let more = self.more.capacity() - self.more.len();
        few.max(more) as u64
    }

    /// How often such an alarm is among those of which that is kept.
    fn kept(&self, key: u128) -> u64
        ensures { result ≡ unwrap_or (get nat_eq self.now.more key) 0 }
    {
        self.more.get(&key).copied().unwrap_or(0)
    }

    /// How many there are.
    pub fn count(&self) -> u64
        ensures { result ≡ self.now.count }
    {
        self.count
    }

    /// Whether such an alarm is there.
    pub fn has(&self, player: u32, moment: u64) -> bool
        ensures { result ≡ nat_lt 0 (how_often self.now player moment) }
    {
        has_alarm(&self.few, player, moment) || self.kept(key_of(player, moment)) > 0
    }

    /// One alarm more.
    pub fn set(&mut self, player: u32, moment: u64) -> Result<(), NoMemory>
        requires few { how_often self.old player moment < 2 ^ 64 - 1 }
        requires short { self.old.count < 2 ^ 64 - 1 }
        ensures ok { OnOk result (IsOneMore player moment self.old self.new) }
        ensures count { OnOk result (self.new.count ≡ self.old.count + 1) }
        ensures err { OnErr result (AreSame self.old self.new) }
        ensures err_count { OnErr result (self.new.count ≡ self.old.count) }

        // Memory: room for one is enough.
        ensures roomy { 1 ≤ alarms_room self.old → IsOk result }
        ensures room { alarms_room self.old ≤ alarms_room self.new + 1 }
        ensures kept { OnErr result (alarms_room self.old ≤ alarms_room self.new) }
    {
        if self.room() == 0 {
            self.reserve(1)?;
        }
        if self.few.len() < self.few.capacity() {
            self.few.push(Alarm { player, moment })?;
        } else {
            let key = key_of(player, moment);
            let often = self.kept(key);
            self.more.insert(key, often + 1)?;
        }
        self.count += 1;
        Ok(())
    }

    /// Takes an alarm out: such a one has to be there.
    pub fn end(&mut self, player: u32, moment: u64)
        requires there { 0 < how_often self.old player moment }
        requires some { 0 < self.old.count }
        ensures one { IsOneMore player moment self.new self.old }
        ensures count { self.new.count + 1 ≡ self.old.count }
        ensures room { alarms_room self.old ≤ alarms_room self.new + 1 }
    {
        self.count -= 1;
        if let Some(place) = place(&self.few, player, moment) {
            self.few.remove(place);
            return;
        }
        let key = key_of(player, moment);
        let often = self.kept(key);
        if often == 1 {
            self.more.remove(&key);
            return;
        }
        match self.more.insert(key, often - 1) {
            Ok(_) => {}
            Err(_) => unreachable!(),
        }
    }
}
