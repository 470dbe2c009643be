ghost use Rattle.std.specs.Prelude.{◌≡◌};
ghost use Rattle.std.specs.Str.{bytes_eq};
ghost use Rattle.zk_words.specs.Lines.{head_of};
ghost use Rattle.zk_words.specs.Table.{exactly, perhaps, and_many, polling, row_of, call_row, kind_row};

use crate::limits::{GREATEST_RESULT, MOST_COUNT, MOST_TICKS};
use crate::slot::{Choice, Rest, Slot};
use crate::word::{Head, Word};
use std::marker::Model;
use zk_base::{Kind, LONGEST_MESSAGE, MOST_HELD, Need};

/// A form of a line: its first word, the slots behind that, and what may stand behind those.
#[derive(Drop)]
pub struct Row {
    pub first: &'static [u8],
    pub slots: &'static [Slot],
    pub rest: Rest,
}

impl Model for Row {
    ghost use Rattle.zk_words.specs.Rows.{Form};

    ghost Value = { Form };

    ghost view = { λ r. record { first = r.first.now; slots = r.slots.now; rest = r.rest } };
}

const THREAD: Slot = Slot::Object(Need::Thread);

const ANY: Slot = Slot::Object(Need::Any);

const ITEM: Slot = Slot::Object(Need::Item);

const QUEUE: Slot = Slot::Object(Need::Queue);

const SEM: Slot = Slot::Object(Need::Sem);

const MSGQ: Slot = Slot::Object(Need::Msgq);

const SIGNAL: Slot = Slot::Object(Need::Signal);

const CHANNEL: Slot = Slot::Object(Need::Chan);

const SUBSCRIBER: Slot = Slot::Object(Need::Sub);

const OBSERVER: Slot = Slot::Object(Need::Obs);

const DELAY: Slot = Slot::Number(0, MOST_TICKS);

const TICKS: Slot = Slot::Number(1, MOST_TICKS);

const INDEX: Slot = Slot::Number(0, MOST_HELD - 1);

const INITIAL: Slot = Slot::Number(0, MOST_COUNT);

const LIMIT: Slot = Slot::Number(1, MOST_COUNT);

const SIZE: Slot = Slot::Number(1, LONGEST_MESSAGE as u32);

const CAPACITY: Slot = Slot::Number(1, MOST_HELD);

const RESULT: Slot = Slot::Number(0, GREATEST_RESULT);

/// The form of a line.
pub fn row_of(head: Head) -> Row
    ensures { result ≡ row_of head }
{
    match head {
        Head::Declare(kind) => kind_row(kind),
        Head::Allow => exactly(b"allow", &[THREAD, ANY]),
        Head::Script => exactly(b"script", &[Slot::Owner]),
        Head::End => exactly(b"end", &[]),
        Head::Call(word) => call_row(word),
    }
}

fn exactly(first: &'static [u8], slots: &'static [Slot]) -> Row
    ensures { result ≡ exactly first.now slots.now }
{
    Row {
        first,
        slots,
        rest: Rest::Nothing,
    }
}

fn perhaps(first: &'static [u8], slots: &'static [Slot], last: Slot) -> Row
    ensures { result ≡ perhaps first.now slots.now last }
{
    Row {
        first,
        slots,
        rest: Rest::Maybe(last),
    }
}

fn and_many(first: &'static [u8], slots: &'static [Slot], more: Slot) -> Row
    ensures { result ≡ and_many first.now slots.now more }
{
    Row {
        first,
        slots,
        rest: Rest::Many(more),
    }
}

fn polling(first: &'static [u8], slots: &'static [Slot]) -> Row
    ensures { result ≡ polling first.now slots.now }
{
    Row {
        first,
        slots,
        rest: Rest::Events,
    }
}

fn kind_row(kind: Kind) -> Row
    ensures { result ≡ kind_row kind }
{
    match kind {
        Kind::Thread => exactly(
            b"thread",
            &[Slot::New, Slot::Priority, Slot::Either(Choice::Mode)],
        ),
        Kind::Queue => exactly(
            b"queue",
            &[Slot::New, Slot::Priority, Slot::Either(Choice::State)],
        ),
        Kind::Item => exactly(b"item", &[Slot::New]),
        Kind::Sem => perhaps(b"sem", &[Slot::New, INITIAL, LIMIT], Slot::Raw),
        Kind::Msgq => perhaps(b"msgq", &[Slot::New, SIZE, CAPACITY], Slot::Raw),
        Kind::Signal => perhaps(b"signal", &[Slot::New], Slot::Raw),
        Kind::Listener => exactly(b"listener", &[Slot::New]),
        Kind::Sub => exactly(b"sub", &[Slot::New, CAPACITY]),
        Kind::Chan => and_many(
            b"chan",
            &[Slot::New, SIZE, Slot::Hex, Slot::Valid],
            OBSERVER,
        ),
    }
}

/// The form of the line of a call.
pub fn call_row(word: Word) -> Row
    ensures { result ≡ call_row word }
{
    match word {
        Word::Submit => perhaps(b"submit", &[ITEM], QUEUE),
        Word::Cancel => exactly(b"cancel", &[ITEM]),
        Word::CancelSync => exactly(b"cancelsync", &[ITEM]),
        Word::Flush => exactly(b"flush", &[ITEM]),
        Word::Schedule => exactly(b"schedule", &[ITEM, QUEUE, DELAY]),
        Word::Reschedule => exactly(b"reschedule", &[ITEM, QUEUE, DELAY]),
        Word::Remaining => exactly(b"remaining", &[ITEM]),
        Word::Busy => exactly(b"busy", &[ITEM]),
        Word::Start => exactly(b"start", &[QUEUE]),
        Word::Drain => exactly(b"drain", &[QUEUE, Slot::Either(Choice::Drain)]),
        Word::Unplug => exactly(b"unplug", &[QUEUE]),
        Word::Stop => exactly(b"stop", &[QUEUE]),
        Word::Tick => exactly(b"tick", &[TICKS]),
        Word::Take => exactly(b"take", &[SEM, Slot::Wait]),
        Word::Give => exactly(b"give", &[SEM]),
        Word::Reset => exactly(b"reset", &[SEM]),
        Word::Count => exactly(b"count", &[SEM]),
        Word::Put => exactly(b"put", &[MSGQ, Slot::Hex, Slot::Wait]),
        Word::PutFront => exactly(b"putfront", &[MSGQ, Slot::Hex]),
        Word::Get => exactly(b"get", &[MSGQ, Slot::Wait]),
        Word::Peek => exactly(b"peek", &[MSGQ]),
        Word::PeekAt => exactly(b"peekat", &[MSGQ, INDEX]),
        Word::Purge => exactly(b"purge", &[MSGQ]),
        Word::Used => exactly(b"used", &[MSGQ]),
        Word::Free => exactly(b"free", &[MSGQ]),
        Word::Raise => exactly(b"raise", &[SIGNAL, RESULT]),
        Word::Clear => exactly(b"clear", &[SIGNAL]),
        Word::Check => exactly(b"check", &[SIGNAL]),
        Word::Poll => polling(b"poll", &[Slot::Wait]),
        Word::Claim => exactly(b"claim", &[CHANNEL, Slot::Wait]),
        Word::Finish => exactly(b"finish", &[CHANNEL]),
        Word::Publish => exactly(b"publish", &[CHANNEL, Slot::Hex, Slot::Wait]),
        Word::Notify => exactly(b"notify", &[CHANNEL, Slot::Wait]),
        Word::Read => exactly(b"read", &[CHANNEL, Slot::Wait]),
        Word::Mask => exactly(b"mask", &[CHANNEL, OBSERVER, Slot::Either(Choice::State)]),
        Word::Enable => exactly(b"enable", &[OBSERVER, Slot::Either(Choice::State)]),
        Word::SubWait => exactly(b"subwait", &[SUBSCRIBER, Slot::Wait]),
        Word::Grant => exactly(b"grant", &[THREAD, ANY]),
        Word::Release => exactly(b"release", &[ANY]),
        Word::Revoke => exactly(b"revoke", &[THREAD, ANY]),
        Word::Public => exactly(b"public", &[ANY]),
        Word::Init => exactly(b"init", &[Slot::Rawable]),
        Word::User => exactly(b"user", &[]),
    }
}

/// The heads of all lines.
const HEADS: [Head; 55] = [
    Head::Declare(Kind::Thread),
    Head::Declare(Kind::Queue),
    Head::Declare(Kind::Item),
    Head::Declare(Kind::Sem),
    Head::Declare(Kind::Msgq),
    Head::Declare(Kind::Signal),
    Head::Declare(Kind::Listener),
    Head::Declare(Kind::Sub),
    Head::Declare(Kind::Chan),
    Head::Allow,
    Head::Script,
    Head::End,
    Head::Call(Word::Submit),
    Head::Call(Word::Cancel),
    Head::Call(Word::CancelSync),
    Head::Call(Word::Flush),
    Head::Call(Word::Schedule),
    Head::Call(Word::Reschedule),
    Head::Call(Word::Remaining),
    Head::Call(Word::Busy),
    Head::Call(Word::Start),
    Head::Call(Word::Drain),
    Head::Call(Word::Unplug),
    Head::Call(Word::Stop),
    Head::Call(Word::Tick),
    Head::Call(Word::Take),
    Head::Call(Word::Give),
    Head::Call(Word::Reset),
    Head::Call(Word::Count),
    Head::Call(Word::Put),
    Head::Call(Word::PutFront),
    Head::Call(Word::Get),
    Head::Call(Word::Peek),
    Head::Call(Word::PeekAt),
    Head::Call(Word::Purge),
    Head::Call(Word::Used),
    Head::Call(Word::Free),
    Head::Call(Word::Raise),
    Head::Call(Word::Clear),
    Head::Call(Word::Check),
    Head::Call(Word::Poll),
    Head::Call(Word::Claim),
    Head::Call(Word::Finish),
    Head::Call(Word::Publish),
    Head::Call(Word::Notify),
    Head::Call(Word::Read),
    Head::Call(Word::Mask),
    Head::Call(Word::Enable),
    Head::Call(Word::SubWait),
    Head::Call(Word::Grant),
    Head::Call(Word::Release),
    Head::Call(Word::Revoke),
    Head::Call(Word::Public),
    Head::Call(Word::Init),
    Head::Call(Word::User),
];

/// The head of the line that this word begins, looked for among all of them.
pub fn head_among(first: &[u8]) -> Option<Head>
    ensures { result ≡ head_of first.now }
{
    HEADS.iter().copied().find(|head| begins_with(*head, first))
}

fn begins_with(head: Head, first: &[u8]) -> bool
    ensures { result ≡ bytes_eq first.now (row_of head).first }
{
    first == row_of(head).first
}
