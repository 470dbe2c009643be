ghost use Rattle.std.specs.Prelude.{◌≡◌, [], ◌∷◌, ◌++◌, map, OnOk, length, ◌≤◌};
ghost use Rattle.std.specs.List.{cons_option};
ghost use Rattle.zk_words.specs.Bytes.{space};
ghost use Rattle.zk_trace.specs.declared.parts.Part.TheVariants.{Bytes};
ghost use Rattle.zk_trace.specs.Names.{target_name};
ghost use Rattle.zk_trace.specs.Parts.{fixed_word, part_word, answer_part, each_behind};
ghost use Rattle.zk_trace.specs.Sized.{IsSizedPart, AreSized};
ghost use Rattle.zk_base.specs.Limits.{most_few};
ghost use Rattle.zk_trace.specs.Static.{static_word, static_row};

use crate::flags::put_flags;
use crate::hex::put_hex;
use crate::looks::put_seen;
use crate::names::{checked_name, item_name, name_at, put_names, queue_name, target_name};
use crate::sizes::{Sizes, narrow, narrows, octets, short, wide};
use crate::words::{
    errno_word, need_word, put_admission, put_oops, put_ready, truth_word, wait_word,
};
use std::marker::Model;
use zk_base::{Errno, Few, Msg, NoMemory};
use zk_model_bus::{Need, OopsWhy};
use zk_paper::Paper;
use zk_scenario::Scenario;
use zk_words::{Choice, choice_text};
use zk_worker::{Answer, Positions};

/// A word of an operation behind its verb, or a word of a reply.
#[derive(Drop)]
pub enum Part<'a> {
    /// An item, by its number among the items: its name.
    Item(u32),
    /// A queue, by its number among the queues: its name.
    Queue(u32),
    /// The queue that a submission names: its name, and a dash for none.
    Target(Option<u32>),
    /// An object of any kind, by its number among all: its name.
    Object(u32),
    /// Objects of any kind, by their numbers among all: their names, and a dash for none.
    Objects(Named<'a>),
    /// The object that a check asks of, by its number among all: its name, and a question mark for none.
    Checked(Option<u32>),
    /// What a check asks of the kind of an object.
    Need(Need),
    /// A number below 2^32, in decimal.
    Narrow(u32),
    /// A number below 2^64, in decimal.
    Wide(u64),
    /// The place in the history of the entry that began a wait, in decimal.
    Place(u64),
    /// The number of an admission.
    Admission(u64),
    /// Whether a drain plugs its queue.
    Plug(bool),
    /// Whether something is on: `on` or `off`.
    State(bool),
    /// The busy flags of an item, below 32: their letters.
    Flags(u8),
    /// A truth value.
    Truth(bool),
    /// The bytes of a message, in hexadecimal digits.
    Bytes(Lent<'a>),
    /// Whether a signal is raised, and its result: two words.
    Seen(bool, u16),
    /// The word `ready` and the positions of a poll's ready events.
    Ready(Chosen<'a>),
    /// Whether a call waits where it can't be served at once.
    Waits(bool),
    /// The cause of a refusal.
    Refusal(Errno),
    /// The word `oops` and why a check fails: two words.
    Oops(OopsWhy),
    /// A word that is the same in each line.
    Fixed(FixedWord),
}

impl<'a> Part<'a> {
    /// A message where it stands.
    pub fn message(message: &'a Msg) -> Part<'a>
        ensures { result ≡ Bytes message.now }
    {
        Part::Bytes(Lent::of(message))
    }
}

/// The words of replies that are the same in each line.
#[derive(Clone, Copy)]
pub enum FixedWord {
    /// Not admitted, since it is queued already.
    Zero,
    /// Admitted, or delayed.
    One,
    /// Admitted while it runs.
    Two,
    /// There is something to wait for.
    Wait,
    /// Done, with nothing to say of it.
    Done,
    /// Done before.
    Already,
    /// The time follows.
    Now,
    /// The moment of an alarm follows.
    At,
    /// An alarm has ended.
    Due,
    /// A semaphore was taken, or a channel was got.
    Got,
    /// What was asked for an event is ready.
    Ready,
    /// It isn't ready, and the caller isn't registered.
    NotReady,
    /// It isn't ready, and the caller is registered.
    Armed,
    /// A registration was noted.
    Noted,
    /// A registration was given up, and wasn't noted.
    Plain,
    /// An observer is disabled.
    Off,
    /// A listener's script runs.
    Run,
    /// A subscriber has the channel.
    Pushed,
    /// A subscriber's list is full.
    Full,
}

/// The text of a fixed word.
pub fn fixed_word(fixed: FixedWord) -> &'static [u8]
    ensures { result.now ≡ fixed_word fixed }
{
    match fixed {
        FixedWord::Zero => b"0",
        FixedWord::One => b"1",
        FixedWord::Two => b"2",
        FixedWord::Wait => b"wait",
        FixedWord::Done => b"ok",
        FixedWord::Already => b"already",
        FixedWord::Now => b"now",
        FixedWord::At => b"at",
        FixedWord::Due => b"due",
        FixedWord::Got => b"got",
        FixedWord::Ready => b"ready",
        FixedWord::NotReady => b"notready",
        FixedWord::Armed => b"armed",
        FixedWord::Noted => b"noted",
        FixedWord::Plain => b"plain",
        FixedWord::Off => b"off",
        FixedWord::Run => b"run",
        FixedWord::Pushed => b"pushed",
        FixedWord::Full => b"full",
    }
}

/// The answer of a call.
pub fn answer_part(answer: &Answer) -> Part<'_>
    ensures { result ≡ answer_part answer.now }
{
    match answer {
        Answer::Number(number) => Part::Wide(*number),
        Answer::Flags(flags) => Part::Flags(*flags),
        Answer::Truth(truth) => Part::Truth(*truth),
        Answer::Refused(errno) => Part::Refusal(*errno),
        Answer::Bytes(message) => Part::message(message),
        Answer::Signal(raised, value) => Part::Seen(*raised, *value),
        Answer::Ready(positions) => Part::Ready(Chosen::of(positions)),
        Answer::Channel(channel) => Part::Object(*channel),
        Answer::Oops(why) => Part::Oops(*why),
    }
}

/// A message where it stands: parts are moved about, and a message is long.
#[derive(Drop)]
pub struct Lent<'a> {
    message: &'a Msg,
}

impl<'a> Model for Lent<'a> {
    ghost use Rattle.std.specs.Prelude.{ℕ, List};

    ghost Value = { List ℕ };

    ghost view = { λ l. l.message.now };
}

impl<'a> Lent<'a> {
    fn of(message: &'a Msg) -> Lent<'a>
        ensures { result ≡ message.now }
    {
        Lent { message }
    }

    fn bytes(&self) -> &[u8]
        ensures { result.now ≡ self.now }
    {
        self.message.bytes()
    }
}

/// The numbers of objects where they stand, which are as long as a short message.
#[derive(Drop)]
pub struct Named<'a> {
    objects: &'a Few,
}

impl<'a> Model for Named<'a> {
    ghost use Rattle.std.specs.Prelude.{ℕ, List};

    ghost Value = { List ℕ };

    ghost view = { λ n. n.objects.now };
}

impl<'a> Named<'a> {
    /// The objects whose numbers stand there.
    pub fn of(objects: &'a Few) -> Named<'a>
        ensures { result ≡ objects.now }
    {
        Named { objects }
    }

    fn numbers(&self) -> &[u32]
        ensures same { result.now ≡ self.now }
        ensures few { length result.now ≤ most_few }
    {
        self.objects.numbers()
    }
}

/// The positions of events where they stand, which are as long as the numbers of objects.
#[derive(Drop)]
pub struct Chosen<'a> {
    positions: &'a Positions,
}

impl<'a> Model for Chosen<'a> {
    ghost use Rattle.std.specs.Prelude.{ℕ, List};

    ghost Value = { List ℕ };

    ghost view = { λ c. c.positions.now };
}

impl<'a> Chosen<'a> {
    /// The positions that stand there.
    pub fn of(positions: &'a Positions) -> Chosen<'a>
        ensures { result ≡ positions.now }
    {
        Chosen { positions }
    }

    fn numbers(&self) -> &[u32]
        ensures { result.now ≡ self.now }
    {
        self.positions.numbers()
    }
}

/// At most three parts, in order.
#[derive(Drop)]
pub struct PartList<'a> {
    first: Option<Part<'a>>,
    second: Option<Part<'a>>,
    third: Option<Part<'a>>,
}

impl<'a> Model for PartList<'a> {
    ghost use Rattle.std.specs.Prelude.{List, []};
    ghost use Rattle.std.specs.List.{cons_option};
    ghost use Rattle.zk_trace.specs.declared.parts.Part.{Part};

    ghost Value = { List Part };

    ghost view = { λ l. cons_option l.first (cons_option l.second (cons_option l.third [])) };
}

impl<'a> PartList<'a> {
    /// No part.
    pub fn none() -> PartList<'a>
        ensures { result ≡ [] }
    {
        PartList {
            first: None,
            second: None,
            third: None,
        }
    }

    /// One part.
    pub fn one(part: Part<'a>) -> PartList<'a>
        ensures { result ≡ part.entry ∷ [] }
    {
        PartList {
            first: Some(part),
            second: None,
            third: None,
        }
    }

    /// Two parts.
    pub fn two(first: Part<'a>, second: Part<'a>) -> PartList<'a>
        ensures { result ≡ first.entry ∷ second.entry ∷ [] }
    {
        PartList {
            first: Some(first),
            second: Some(second),
            third: None,
        }
    }

    /// Three parts.
    pub fn three(first: Part<'a>, second: Part<'a>, third: Part<'a>) -> PartList<'a>
        ensures { result ≡ first.entry ∷ second.entry ∷ third.entry ∷ [] }
    {
        PartList {
            first: Some(first),
            second: Some(second),
            third: Some(third),
        }
    }
}

/// The text of a part that is the same in each line, and no byte for another.
fn static_word(part: &Part<'_>) -> &'static [u8]
    ensures { result.now ≡ static_word part.now }
{
    match part {
        Part::Truth(truth) => truth_word(*truth),
        Part::Refusal(errno) => errno_word(*errno),
        Part::Fixed(fixed) => fixed_word(*fixed),
        _ => &[],
    }
}

/// The text of one part that is the same in each line, and no byte for other parts.
pub fn static_row(parts: &PartList<'_>) -> &'static [u8]
    ensures { result.now ≡ static_row parts.now }
{
    match (&parts.first, &parts.second, &parts.third) {
        (Some(part), None, None) => static_word(part),
        (None, Some(part), None) => static_word(part),
        (None, None, Some(part)) => static_word(part),
        _ => &[],
    }
}

/// Appends a verb and what stands behind it, each behind a space.
pub fn put_said(
    out: &mut Paper,
    scenario: &Scenario,
    verb: &[u8],
    parts: &PartList<'_>,
) -> Result<(), NoMemory>
    ensures text { OnOk result (out.new.put ≡
        out.old.put ++ each_behind space (verb.now ∷ map (part_word scenario.now.decls) parts.now)) }
    ensures front { out.new.front ≡ out.old.front }
{
    out.put_behind(b' ', verb)?;
    put_parts(out, scenario, b' ', parts)
}

/// Appends parts, each behind this separator.
pub fn put_parts(
    out: &mut Paper,
    scenario: &Scenario,
    separator: u8,
    parts: &PartList<'_>,
) -> Result<(), NoMemory>
    ensures text { OnOk result (out.new.put ≡
        out.old.put ++ each_behind separator (map (part_word scenario.now.decls) parts.now)) }
    ensures front { out.new.front ≡ out.old.front }
{
    put_any(out, scenario, separator, &parts.first)?;
    put_any(out, scenario, separator, &parts.second)?;
    put_any(out, scenario, separator, &parts.third)
}

/// Appends a part behind its separator, where there is one.
fn put_any(
    out: &mut Paper,
    scenario: &Scenario,
    separator: u8,
    part: &Option<Part<'_>>,
) -> Result<(), NoMemory>
    ensures text { OnOk result (out.new.put ≡
        out.old.put ++ each_behind separator (map (part_word scenario.now.decls) (cons_option part.now []))) }
    ensures front { out.new.front ≡ out.old.front }
{
    match part {
        Some(part) => put_part(out, scenario, separator, part),
        None => Ok(()),
    }
}

/// Appends a separator and then a part.
pub fn put_part(
    out: &mut Paper,
    scenario: &Scenario,
    separator: u8,
    part: &Part<'_>,
) -> Result<(), NoMemory>
    ensures text { OnOk result (out.new.put ≡ out.old.put ++ separator ∷ part_word scenario.now.decls part.now) }
    ensures front { out.new.front ≡ out.old.front }
{
    out.push(separator)?;
    put_word(out, scenario, part)
}

/// Appends an answer, as it stands in a trace.
pub fn put_answer(out: &mut Paper, scenario: &Scenario, answer: &Answer) -> Result<(), NoMemory>
    ensures text { OnOk result (out.new.put ≡ out.old.put ++ part_word scenario.now.decls (answer_part answer.now)) }
    ensures front { out.new.front ≡ out.old.front }
{
    put_word(out, scenario, &answer_part(answer))
}

fn put_word(out: &mut Paper, scenario: &Scenario, part: &Part<'_>) -> Result<(), NoMemory>
    ensures text { OnOk result (out.new.put ≡ out.old.put ++ part_word scenario.now.decls part.now) }
    ensures front { out.new.front ≡ out.old.front }
{
    match part {
        Part::Item(item) => out.put(item_name(scenario, *item)),
        Part::Queue(queue) => out.put(queue_name(scenario, *queue)),
        Part::Target(queue) => out.put(target_name(scenario, *queue)),
        Part::Object(object) => out.put(name_at(scenario.decls(), *object as usize)),
        Part::Objects(objects) => put_names(out, scenario, objects.numbers()),
        Part::Checked(object) => out.put(checked_name(scenario, *object)),
        Part::Need(need) => out.put(need_word(*need)),
        Part::Narrow(number) => out.put_number(u64::from(*number)),
        Part::Wide(number) => out.put_number(*number),
        Part::Place(place) => out.put_number(*place),
        Part::Admission(number) => put_admission(out, *number),
        Part::Plug(plug) => out.put(choice_text(Choice::Drain, *plug)),
        Part::State(on) => out.put(choice_text(Choice::State, *on)),
        Part::Flags(flags) => put_flags(out, *flags),
        Part::Truth(truth) => out.put(truth_word(*truth)),
        Part::Bytes(message) => put_hex(out, message.bytes()),
        Part::Seen(raised, value) => put_seen(out, *raised, *value),
        Part::Ready(positions) => put_ready(out, positions.numbers()),
        Part::Waits(waits) => out.put(wait_word(*waits)),
        Part::Refusal(errno) => out.put(errno_word(*errno)),
        Part::Oops(why) => put_oops(out, *why),
        Part::Fixed(fixed) => out.put(fixed_word(*fixed)),
    }
}

impl<'a> Sizes for Part<'a> {
    ghost sized = { IsSizedPart };

    fn sizes(&self) {
        match self {
            Part::Narrow(number) => narrow(*number),
            Part::Wide(number) => wide(*number),
            Part::Place(place) => wide(*place),
            Part::Admission(number) => wide(*number),
            Part::Bytes(message) => octets(message.bytes()),
            Part::Objects(objects) => objects.sizes(),
            Part::Seen(_, value) => short(*value),
            Part::Ready(positions) => narrows(positions.numbers()),
            _ => {}
        }
    }
}

impl<'a> Sizes for Named<'a> {
    ghost sized = { λ objects. length objects ≤ most_few };

    fn sizes(&self) {
        let _numbers = self.numbers();
    }
}

impl<'a> Sizes for PartList<'a> {
    ghost sized = { AreSized };

    fn sizes(&self) {
        any_sizes(&self.first);
        any_sizes(&self.second);
        any_sizes(&self.third);
    }
}

/// The numbers of a part, where there is one.
fn any_sizes(part: &Option<Part<'_>>)
    ensures { AreSized (cons_option part.now []) }
{
    if let Some(part) = part {
        part.sizes();
    }
}
