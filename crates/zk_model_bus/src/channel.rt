ghost use Rattle.std.specs.Prelude.{◌≡◌, true, false, ◌+◌, ◌-◌, ◌^◌, ◌<◌, ◌≤◌, Some, length, map, vec_len, IsOk, IfOk, OnErr};
ghost use Rattle.std.specs.List.{list_any};
ghost use Rattle.zk_base.specs.History.{AddsNone};
ghost use Rattle.zk_base.specs.Validators.{is_valid};
ghost use Rattle.zk_base.specs.Waits.{open_waits};
ghost use Rattle.zk_base.specs.Limits.{most_entries, most_few};
ghost use Rattle.zk_model_bus.specs.Channel.{unmasked, new_chan, holds, is_claim, has_claimed, holds_by_entering, is_observer, told_of, mask_one, masked, gain_reply, gain, held_by, handed_on, chan_reply, chan_next, chan_after, may_wait};

use std::alloc::Global;
use std::marker::Model;
use zk_base::{Few, Msg, NoMemory, Store, Valid, WaitList, Waiter, Who};

/// What can be asked of a channel.
#[derive(Clone, Copy, Debug, PartialEq, Eq)]
pub enum ChanOp {
    /// Gets the channel for a message that its validator takes. Where it is held the caller waits, if this is true. The
    /// opening of Zephyr's `zbus_chan_pub`.
    Offer(Msg, bool),
    /// Gets the channel without a message. Where it is held the caller waits, if this is true. The opening of Zephyr's
    /// `zbus_chan_notify` and `zbus_chan_read`.
    Enter(bool),
    /// Gets the channel until it is finished. Where it is held the caller waits, if this is true. Zephyr's `zbus_chan_claim`.
    Claim(bool),
    /// Ends a wait of the caller that is decided: the one that the entry of this place began.
    ClaimEnd(u64),
    /// Gives a wait of the caller up, decided or not: the one that the entry of this place began.
    ClaimQuit(u64),
    /// Puts a message in, in place of the one that is there, and asks for the observers.
    Set(Msg),
    /// Asks for the observers that aren't masked.
    List,
    /// Reads the message, which stays.
    Get,
    /// Frees a channel that was got by an offer or by entering.
    Free,
    /// Frees a channel that was claimed. Zephyr's `zbus_chan_finish`.
    Finish,
    /// Masks the observer of this number, where this is true, or ends that. Zephyr's `zbus_obs_set_chan_notification_mask`.
    Mask(u32, bool),
}

/// What a channel answers.
#[derive(Clone, Copy, Debug, PartialEq, Eq)]
pub enum ChanReply {
    /// The caller holds the channel.
    Got,
    /// The channel is held, and the caller doesn't wait.
    Busy,
    /// The channel is held, and the caller waits.
    Wait,
    /// The wait was given up.
    Again,
    /// The validator refuses the message.
    NoMsg,
    /// The numbers of the observers that aren't masked, in declared order.
    Observers(Few),
    /// The message.
    Bytes(Msg),
    /// It is done.
    Done,
    /// The caller hasn't claimed the channel, or the observer isn't one of its.
    Inval,
}

/// By which call a player holds a channel.
#[derive(Clone, Copy, PartialEq, Eq)]
pub enum Manner {
    /// By an offer: a publish.
    Offer,
    /// By entering: a notify or a read.
    Enter,
    /// By a claim.
    Claim,
}

/// Who holds a channel.
#[derive(Clone, Copy, PartialEq, Eq)]
pub struct Holder {
    /// The number of the player.
    pub player: u32,
    /// By which call.
    pub manner: Manner,
}

/// An observer of a channel.
#[derive(Clone, Copy, PartialEq, Eq)]
pub struct ChanObserver {
    /// Its number among all objects.
    pub number: u32,
    /// It isn't told of messages of this channel.
    pub masked: bool,
}

/// The state of a channel's machine, with the memory that it has for waits.
#[derive(Drop)]
pub struct ChanStore {
    valid: Valid,
    entries: u64,
    message: Msg,
    // In declared order.
    observers: Vec<ChanObserver>,
    holder: Option<Holder>,
    waits: WaitList<Manner, ChanReply>,
}

impl Model for ChanStore {
    ghost use Rattle.std.specs.Prelude.{◌≤◌};
    ghost use Rattle.zk_model_bus.specs.Channel.{ChanView, IsCalled};

    ghost Value = { ChanView };

    ghost view = { λ s. record {
      chan = record {
        valid = s.valid;
        entries = s.entries;
        message = s.message;
        observers = s.observers.items;
        holder = s.holder;
        waits = s.waits.waits;
      };
      room = s.waits.room;
    } };

    ghost invariant = { λ s. record {
      called : IsCalled (record {
        valid = s.valid;
        entries = s.entries;
        message = s.message;
        observers = s.observers.items;
        holder = s.holder;
        waits = s.waits.waits;
      });
      waited : s.waits.next ≤ s.entries;
    } };
}

/// The state of a channel's machine alone, which contracts see as its definition has it.
#[derive(Drop)]
pub struct ChanState {
    store: ChanStore,
}

impl Model for ChanState {
    ghost use Rattle.zk_model_bus.specs.Channel.{Channel};

    ghost Value = { Channel };

    ghost view = { λ s. s.store.chan };
}

impl ChanState {
    /// A channel before the first entry, with its first message and its observers by number.
    pub fn new(
        alloc: Global,
        initial: Msg,
        valid: Valid,
        observers: &[u32],
    ) -> Result<ChanState, NoMemory>
        requires { length observers.now ≤ most_few }
        ensures { IfOk result (λ state. state ≡ new_chan initial valid observers.now) }
    {
        Ok(ChanState {
            store: ChanStore::new(alloc, initial, valid, observers)?,
        })
    }

    /// The same state with its memory, as an engine keeps it.
    pub fn into_store(self) -> ChanStore
        ensures { result.chan ≡ self }
    {
        let ChanState { store } = self;
        store
    }
}

/// These observers, none of them masked.
fn all_unmasked(alloc: Global, numbers: &[u32]) -> Result<Vec<ChanObserver>, NoMemory>
    ensures { IfOk result (λ observers. observers.items ≡ map unmasked numbers.now) }
{
    let mut observers = Vec::new(alloc);
    for number in numbers {
        observers.push(ChanObserver {
            number: *number,
            masked: false,
        })?;
    }
    Ok(observers)
}

fn is_claim(manner: Manner) -> bool
    ensures { result ≡ is_claim manner }
{
    match manner {
        Manner::Claim => true,
        _ => false,
    }
}

fn is_observer(number: u32, observer: &ChanObserver) -> bool
    ensures { result ≡ is_observer number observer.now }
{
    observer.number == number
}

/// The observer of this number is among them.
fn has_observer(observers: &[ChanObserver], number: u32) -> bool
    ensures { result ≡ list_any (is_observer number) observers.now }
{
    observers
        .iter()
        .any(|observer| is_observer(number, observer))
}

/// The numbers of the observers that aren't masked.
fn told_of(observers: &[ChanObserver]) -> Few
    requires few { length observers.now ≤ most_few }
    ensures { result ≡ told_of observers.now }
{
    let mut told = Few::none();
    for observer in observers {
        if !observer.masked {
            told.push(observer.number);
        }
    }
    told
}

/// The observer, masked or not where it has this number.
fn mask_one(number: u32, on: bool, observer: ChanObserver) -> ChanObserver
    ensures { result ≡ mask_one number on observer }
{
    let masked = if is_observer(number, &observer) {
        on
    } else {
        observer.masked
    };
    ChanObserver { masked, ..observer }
}

/// Masks the observer of this number, or ends that.
fn mask(observers: &mut [ChanObserver], number: u32, on: bool)
    ensures { observers.new ≡ masked number on observers.old }
{
    for observer in observers.iter_mut() {
        *observer = mask_one(number, on, *observer);
    }
}

/// Who waits, as a holder in the manner of its call.
fn held_by(waiter: &Waiter<Manner>) -> Holder
    ensures { result ≡ held_by waiter.now }
{
    Holder {
        player: waiter.who.number,
        manner: waiter.payload,
    }
}

impl ChanStore {
    /// A channel before the first entry, with its first message and its observers by number.
    pub fn new(
        alloc: Global,
        initial: Msg,
        valid: Valid,
        observers: &[u32],
    ) -> Result<ChanStore, NoMemory>
        requires { length observers.now ≤ most_few }
        ensures { IfOk result (λ store. store.chan ≡ new_chan initial valid observers.now) }
    {
        Ok(ChanStore {
            valid,
            entries: 0,
            message: initial,
            observers: all_unmasked(alloc, observers)?,
            holder: None,
            waits: WaitList::new(alloc),
        })
    }

    /// A call for the channel, in this manner.
    fn gain(&mut self, who: Who, manner: Manner, waits: bool) -> Result<ChanReply, NoMemory>
        requires { self.old.chan.entries < most_entries }
        ensures reply { IfOk result (λ reply. reply ≡ gain_reply self.old.chan.holder waits) }
        ensures next { IfOk result (λ _. self.new.chan
            ≡ record (gain self.old.chan.holder self.old.chan who manner waits) {
              entries = self.old.chan.entries + 1;
            }) }
        ensures unchanged { OnErr result (self.new.chan ≡ self.old.chan) }
        ensures memory { waits ≡ false → IsOk result }
        ensures roomy { 1 ≤ self.old.room → IsOk result }
        ensures room { self.old.room ≤ self.new.room + 1 }
        ensures kept { OnErr result (self.old.room ≤ self.new.room) }
    {
        let mut reply = ChanReply::Got;
        if self.holder.is_none() {
            self.holder = Some(Holder {
                player: who.number,
                manner,
            });
        } else if waits {
            self.waits.join(Waiter {
                place: self.entries,
                who,
                payload: manner,
            })?;
            reply = ChanReply::Wait;
        } else {
            reply = ChanReply::Busy;
        }
        self.entries += 1;
        Ok(reply)
    }

    fn offer(&mut self, who: Who, message: Msg, waits: bool) -> Result<ChanReply, NoMemory>
        requires { self.old.chan.entries < most_entries }
        ensures reply { IfOk result (λ reply.
            Some reply ≡ chan_reply self.old.chan who (ChanOp.Offer message waits)) }
        ensures next { IfOk result (λ _.
            self.new.chan ≡ chan_next self.old.chan who (ChanOp.Offer message waits)) }
        ensures unchanged { OnErr result (self.new.chan ≡ self.old.chan) }
        ensures memory { waits ≡ false → IsOk result }
        ensures roomy { 1 ≤ self.old.room → IsOk result }
        ensures room { self.old.room ≤ self.new.room + 1 }
        ensures kept { OnErr result (self.old.room ≤ self.new.room) }
    {
        if self.valid.takes(&message) {
            return self.gain(who, Manner::Offer, waits);
        }
        self.entries += 1;
        Ok(ChanReply::NoMsg)
    }

    fn claim_end(&mut self, who: Who, place: u64) -> Option<ChanReply>
        requires { self.old.chan.entries < most_entries }
        ensures reply { result ≡ chan_reply self.old.chan who (ChanOp.ClaimEnd place) }
        ensures next { self.new.chan ≡ chan_after self.old.chan who (ChanOp.ClaimEnd place) result }
        ensures room { self.old.room ≤ self.new.room }
    {
        let reply = self.waits.end(who.number, place)?;
        self.entries += 1;
        Some(reply)
    }

    fn claim_quit(&mut self, who: Who, place: u64) -> Option<ChanReply>
        requires { self.old.chan.entries < most_entries }
        ensures reply { result ≡ chan_reply self.old.chan who (ChanOp.ClaimQuit place) }
        ensures next { self.new.chan ≡ chan_after self.old.chan who (ChanOp.ClaimQuit place) result }
        ensures room { self.old.room ≤ self.new.room }
    {
        let reply = self.waits.quit(who.number, place, ChanReply::Again)?;
        self.entries += 1;
        Some(reply)
    }

    /// The caller holds the channel.
    fn holds(&self, who: Who) -> bool
        ensures { result ≡ holds self.now.chan who }
    {
        match self.holder {
            Some(holder) => holder.player == who.number,
            None => false,
        }
    }

    /// The caller holds the channel by a claim.
    fn has_claimed(&self, who: Who) -> bool
        ensures { result ≡ has_claimed self.now.chan who }
    {
        match self.holder {
            Some(holder) => holder.player == who.number && is_claim(holder.manner),
            None => false,
        }
    }

    /// The caller holds the channel by an offer or by entering.
    fn holds_by_entering(&self, who: Who) -> bool
        ensures { result ≡ holds_by_entering self.now.chan who }
    {
        match self.holder {
            Some(holder) => holder.player == who.number && !is_claim(holder.manner),
            None => false,
        }
    }

    fn set(&mut self, who: Who, message: Msg) -> Option<ChanReply>
        requires { self.old.chan.entries < most_entries }
        ensures reply { result ≡ chan_reply self.old.chan who (ChanOp.Set message) }
        ensures next { self.new.chan ≡ chan_after self.old.chan who (ChanOp.Set message) result }
        ensures room { self.old.room ≤ self.new.room }
    {
        if !self.holds(who) {
            return None;
        }
        self.message = message;
        self.entries += 1;
        Some(ChanReply::Observers(told_of(&self.observers)))
    }

    fn list(&mut self, who: Who) -> Option<ChanReply>
        requires { self.old.chan.entries < most_entries }
        ensures reply { result ≡ chan_reply self.old.chan who ChanOp.List }
        ensures next { self.new.chan ≡ chan_after self.old.chan who ChanOp.List result }
        ensures room { self.old.room ≤ self.new.room }
    {
        if !self.holds(who) {
            return None;
        }
        self.entries += 1;
        Some(ChanReply::Observers(told_of(&self.observers)))
    }

    fn get(&mut self, who: Who) -> Option<ChanReply>
        requires { self.old.chan.entries < most_entries }
        ensures reply { result ≡ chan_reply self.old.chan who ChanOp.Get }
        ensures next { self.new.chan ≡ chan_after self.old.chan who ChanOp.Get result }
        ensures room { self.old.room ≤ self.new.room }
    {
        if !self.holds(who) {
            return None;
        }
        self.entries += 1;
        Some(ChanReply::Bytes(self.message))
    }

    /// The channel goes to the first who waits, if anybody does.
    fn hand_on(&mut self)
        ensures next { self.new.chan ≡ handed_on self.old.chan }
        ensures room { self.old.room ≤ self.new.room }
    {
        self.holder = self.waits.first().map(|first| held_by(&first));
        self.waits.decide_first(ChanReply::Got);
    }

    fn free(&mut self, who: Who) -> Option<ChanReply>
        requires { self.old.chan.entries < most_entries }
        ensures reply { result ≡ chan_reply self.old.chan who ChanOp.Free }
        ensures next { self.new.chan ≡ chan_after self.old.chan who ChanOp.Free result }
        ensures room { self.old.room ≤ self.new.room }
    {
        if !self.holds_by_entering(who) {
            return None;
        }
        self.hand_on();
        self.entries += 1;
        Some(ChanReply::Done)
    }

    fn finish(&mut self, who: Who) -> ChanReply
        requires { self.old.chan.entries < most_entries }
        ensures reply { Some result ≡ chan_reply self.old.chan who ChanOp.Finish }
        ensures next { self.new.chan ≡ chan_next self.old.chan who ChanOp.Finish }
        ensures room { self.old.room ≤ self.new.room }
    {
        let mut reply = ChanReply::Inval;
        if self.has_claimed(who) {
            self.hand_on();
            reply = ChanReply::Done;
        }
        self.entries += 1;
        reply
    }

    fn mask(&mut self, who: Who, observer: u32, on: bool) -> ChanReply
        requires { self.old.chan.entries < most_entries }
        ensures reply { Some result ≡ chan_reply self.old.chan who (ChanOp.Mask observer on) }
        ensures next { self.new.chan ≡ chan_next self.old.chan who (ChanOp.Mask observer on) }
        ensures room { self.old.room ≤ self.new.room }
    {
        let is_known = has_observer(&self.observers, observer);
        mask(&mut self.observers, observer, on);
        self.entries += 1;
        if is_known {
            ChanReply::Done
        } else {
            ChanReply::Inval
        }
    }
}

/// One operation of a channel's machine: its reply and its next state.
///
/// `None` says that the operation isn't possible now. Only an `Offer`, an `Enter` and a `Claim` that wait take memory.
pub fn chan_next(
    store: &mut ChanStore,
    who: Who,
    op: &ChanOp,
) -> Result<Option<ChanReply>, NoMemory>
    requires { store.old.chan.entries < most_entries }
    ensures reply { IfOk result (λ reply. reply ≡ chan_reply store.old.chan who op.now) }
    ensures next { IfOk result (λ reply. store.new.chan ≡ chan_after store.old.chan who op.now reply) }
    ensures unchanged { OnErr result (store.new.chan ≡ store.old.chan) }

    // Memory: one place is enough, and is taken only by a wait that begins.
    ensures memory { may_wait op.now ≡ false → IsOk result }
    ensures roomy { 1 ≤ store.old.room → IsOk result }
    ensures room { store.old.room ≤ store.new.room + 1 }
    ensures kept { AddsNone result → store.old.room ≤ store.new.room }
{
    match *op {
        ChanOp::Offer(message, waits) => Ok(Some(store.offer(who, message, waits)?)),
        ChanOp::Enter(waits) => Ok(Some(store.gain(who, Manner::Enter, waits)?)),
        ChanOp::Claim(waits) => Ok(Some(store.gain(who, Manner::Claim, waits)?)),
        ChanOp::ClaimEnd(place) => Ok(store.claim_end(who, place)),
        ChanOp::ClaimQuit(place) => Ok(store.claim_quit(who, place)),
        ChanOp::Set(message) => Ok(store.set(who, message)),
        ChanOp::List => Ok(store.list(who)),
        ChanOp::Get => Ok(store.get(who)),
        ChanOp::Free => Ok(store.free(who)),
        ChanOp::Finish => Ok(Some(store.finish(who))),
        ChanOp::Mask(observer, on) => Ok(Some(store.mask(who, observer, on))),
    }
}

impl Store for ChanStore {
    type Op = ChanOp;

    type Reply = ChanReply;

    type State = ChanState;

    ghost use Rattle.zk_model_bus.specs.Channel.{owed_entries, chan_closes, chan_machine};

    ghost state = { λ s. s.chan };

    ghost room = { λ s. s.room };

    ghost machine = { chan_machine };

    ghost entries = { λ c. c.entries };

    ghost owed = { owed_entries };

    ghost closes = { chan_closes };

    fn next(&mut self, who: Who, op: &ChanOp) -> Result<Option<ChanReply>, NoMemory> {
        chan_next(self, who, op)
    }

    fn is_closing(&self, who: Who, op: &ChanOp) -> bool {
        match op {
            ChanOp::ClaimEnd(_) | ChanOp::ClaimQuit(_) | ChanOp::Free => true,
            ChanOp::Finish => self.has_claimed(who),
            _ => false,
        }
    }

    fn is_futile(&self, who: Who, op: &ChanOp) -> bool {
        match op {
            ChanOp::ClaimEnd(place) => !self.waits.is_decided(who.number, *place),
            _ => false,
        }
    }

    fn owed(&self) -> u64 {
        self.waits.open() + self.waits.waiting() + u64::from(self.holder.is_some())
    }

    fn reserve(&mut self, more: usize) -> Result<(), NoMemory> {
        self.waits.reserve(more)
    }

    fn room(&self) -> u64 {
        self.waits.room()
    }

    fn counts_entries() {}
}
