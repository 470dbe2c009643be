ghost use Rattle.std.specs.Prelude.{◌≡◌};
ghost use Rattle.zk_show_why.specs.Sentences.{ending_words, state_words};

use crate::finding::Accepted;
use zk_trace::Ending;
use zk_words::{Choice, Kind, Need, Slot};
use zk_worker::PlayerState;

// All words of this crate stand here: for each value that says something, its words, with a place in braces for each of
// its parts.

/// In front of the number of a line, and round the text of its call.
pub const LINE: &[u8] = b"line ";

pub const CALL: &[u8] = b", `";

pub const CALL_END: &[u8] = b"`";

/// The end of a sentence on a player.
pub const END: &[u8] = b".\n";

/// In front of what would be accepted, and of the form of a line with it.
pub const ACCEPTED: &[u8] = b"\nAccepted: ";

pub const IN_FORM: &[u8] = b"; the line is ";

/// Round the form of a line.
pub const FORM: &[u8] = b"`";

pub const FORM_END: &[u8] = b"`";

/// Round the names of what is declared: the first, each further one, those that aren't listed, and none.
pub const FIRST_NAME: &[u8] = b": ";

pub const NEXT_NAME: &[u8] = b", ";

pub const MORE_NAMES: &[u8] = b", ..";

pub const NO_NAME: &[u8] = b"; none is declared before this line";

/// What an object is that isn't there.
pub const NO_KIND: &[u8] = b"no object";

/// How a run ended.
pub fn ending_words(ending: Ending) -> &'static [u8]
    ensures { result.now ≡ ending_words ending }
{
    match ending {
        Ending::Ended => {
            b"ended: each thread is through or was ended by an oops, and no admission waits.\n"
        }
        Ending::Stuck => b"stuck: no player can go on.\n",
        Ending::Spent => b"spent: a player has made all its steps.\n",
    }
}

/// What is said first of a player that stands so, behind its name.
pub fn state_words(state: PlayerState) -> &'static [u8]
    ensures { result.now ≡ state_words state }
{
    match state {
        PlayerState::Spent => b" has made all the steps that a player may make, ",
        PlayerState::Oops => b" was ended by an oops ",
        PlayerState::Done => b" is through",
        PlayerState::Standing => b" stands ",
    }
}

/// What may be said of a run beside what its trace says (`specs/Waits.antt`, `Oops.antt`, `Times.antt`).
#[derive(Clone, Copy)]
pub enum Told {
    // Where a player stands.
    NowhereLed,
    InLine,
    BeforeLine,
    AtRunEnd,
    InHandler,
    InListener,
    WithinLine,
    SinceStep,
    // What it waits for, where its last step doesn't say it.
    AwaitsRunEnd,
    AwaitsRun,
    AwaitsAll,
    AwaitsEvent,
    // Who keeps it waiting: itself, or another player.
    OwnRun,
    OwnSubmission,
    OwnQueue,
    Runs,
    HasToRun,
    IsItsWorker,
    RunsSince,
    InCall,
    WasEnded,
    IsThrough,
    IsSpent,
    // Who could end its wait.
    First,
    Further,
    StillToDo,
    ButLacks,
    ButSilenced,
    Behind,
    BehindItself,
    Delayed,
    OthersServe,
    NobodyPlays,
    NobodyGives,
    NobodyPuts,
    NobodyGets,
    NobodyPublishes,
    NobodyMakesReady,
    NobodyCalls,
    // Who waits for whom, in a circle.
    CircleOfOne,
    Circle,
    CircleOn,
    // Whether a `tick` is left.
    TickAhead,
    NoTick,
    // What has ended a player, and what would mend it.
    CalledIn,
    OtherKind,
    AllowWould,
    GrantWould,
    Revoked,
    GaveUp,
    InThisLine,
    AtItsStep,
    GrantAgain,
    InitWould,
    NotDeclared,
    // What a player did that has made all its steps.
    Repeats,
    LastCalls,
    CallToo,
    RanLast,
    // What is wrong with a trace that isn't lawful, and the end of a line of its own.
    RunCheck,
    LineEnd,
}

impl Told {
    /// Its words. In their places stand the names of players and objects, lines, numbers, kinds, calls and events.
    pub fn words(self) -> &'static [u8] {
        match self {
            Told::NowhereLed => b"where its scripts don't lead",
            Told::InLine => b"in {line}",
            Told::BeforeLine => b"before {line}",
            Told::AtRunEnd => b"at the end of its run of {object}",
            Told::InHandler => b", in the handler of {object}",
            Told::InListener => b", in the script of the listener {object}",
            Told::WithinLine => b" within {line}",
            Told::SinceStep => b", since its step {number}",
            Told::AwaitsRunEnd => b": it waits for the end of the run of {object}",
            Told::AwaitsRun => b": it waits until the submission of {object} has run",
            Told::AwaitsAll => b": it waits until all that was submitted to {object} has run",
            Told::AwaitsEvent => b": it waits for one of its events,{events}",
            Told::OwnRun => b". That is its own run, which ends only behind this call",
            Told::OwnSubmission =>
                b". That is its own run or waits for it, and the run ends only behind this call",
            Told::OwnQueue =>
                b". It is the worker of that queue itself, and its run ends only behind this call",
            Told::Runs => b". {player} runs it",
            Told::HasToRun => b". {player} has it to run",
            Told::IsItsWorker => b". {player} is its worker",
            Told::RunsSince => b" since its step {number}",
            Told::InCall => b", and is in a call itself",
            Told::WasEnded => b", and was ended by an oops: it does nothing any more",
            Told::IsThrough => b", and is between two runs",
            Told::IsSpent => b", and has made all its steps",
            Told::First => b". ",
            Told::Further => b", and ",
            Told::StillToDo => b"{player}, which is blocked itself, still has {line}, to do",
            Told::ButLacks => b", but {object} isn't granted to it",
            Told::ButSilenced => b", but {object} is masked or disabled",
            Told::Behind => b"{object}, which waits until {player} runs it, has {line}, to do",
            Told::BehindItself => b"{object} has {line}, to do, and waits behind this very run",
            Told::Delayed => b"{object}, which is delayed, has {line}, to do",
            Told::OthersServe => b", and others",
            Told::NobodyPlays => b". Nobody serves it: nobody plays {line}, of {object}",
            Told::NobodyGives =>
                b". Nobody serves it: nobody has a `give` or `reset` for that to do",
            Told::NobodyPuts =>
                b". Nobody serves it: nobody has a `put` or `putfront` for that to do",
            Told::NobodyGets => b". Nobody serves it: nobody has a `get` or `purge` for that to do",
            Told::NobodyPublishes =>
                b". Nobody serves it: nobody has a `publish` or `notify` for that to do",
            Told::NobodyMakesReady =>
                b". Nobody serves it: nobody has a `give`, `put`, `putfront` or `raise` for that to do",
            Told::NobodyCalls => b". Nobody serves it: nobody has a call for that to do",
            Told::CircleOfOne => b"A circle: {player} waits for itself",
            Told::Circle => b"A circle: {player} waits for {other}",
            Told::CircleOn => b", {player} waits for {other}",
            Told::TickAhead => b"{player}, which is blocked itself, still has {line}, to do.\n",
            Told::NoTick => b"No `tick` is left.\n",
            Told::CalledIn => b"in {line}, ",
            Told::OtherKind => b": {kind}, and the call needs {need}",
            Told::AllowWould =>
                b". `allow {player} {object}` among the declarations would give that",
            Told::GrantWould =>
                b", or `grant {player} {object}` before it by a thread that may use it",
            Told::Revoked => b". {player} has revoked that",
            Told::GaveUp => b". It has released that",
            Told::InThisLine => b" in {line},",
            Told::AtItsStep => b" at its step {number}",
            Told::GrantAgain => b"; `grant {player} {object}` behind that would give it again",
            Told::InitWould =>
                b". `init {object}` by a supervisor thread before it would do that, or its declaration without `raw`",
            Told::NotDeclared => b", {object}. It would have to be declared",
            Told::Repeats => b". It repeats `{call}`",
            Told::LastCalls => b". Its last calls are `{call}`",
            Told::CallToo => b", `{call}`",
            Told::RanLast => b"; the item that it ran last is {object}",
            Told::RunCheck => b". Run `check` on this trace",
            Told::LineEnd => b".\n",
        }
    }
}

/// What is wrong with a refused line, more finely than its reason says.
///
/// The sentences stand again in the table of docs/FORMATS.md; `bench/causes` compares both.
#[derive(Clone, Copy)]
pub enum Cause {
    // The whole input, and its first line.
    TooLong,
    Empty,
    OtherHeader,
    // The bytes of a line.
    NoLineFeed,
    Blank,
    Comment,
    Return,
    Tab,
    OtherByte,
    SpaceInFront,
    SpaceBehind,
    TwoSpaces,
    // The words of a line.
    CapitalLetter,
    NoSuchWord,
    WordMissing,
    WordTooMany,
    LongName,
    NameBegins,
    NameSign,
    LeadingZero,
    PlusSign,
    MinusSign,
    MinusZero,
    NoNumber,
    OddDigits,
    NoDigit,
    NeitherWord,
    NoWait,
    NoEvent,
    AllIgnored,
    NoValidator,
    OnlyRaw,
    OtherSpelling,
    // Where a line stands.
    LateDeclaration,
    CallOutside,
    ScriptInside,
    SecondScript,
    EndOutside,
    EndMissing,
    ForSupervisors,
    NotInListener,
    NotInHandler,
    OtherOrder,
    // Numbers and messages.
    OutOfRange,
    PriorityOutOfRange,
    WaitOutOfRange,
    InitialAboveLimit,
    LongMessage,
    OtherSize,
    OtherFirstSize,
    // Names.
    Reserved,
    DeclaredTwice,
    Undeclared,
    DeclaredLater,
    OtherKind,
    ObserverTwice,
    AllowedTwice,
    OtherName,
    // Limits.
    ManyPlayers,
    ManyQueues,
    ManyItems,
    ManySems,
    ManyMsgqs,
    ManySignals,
    ManyChans,
    ManyListening,
    ManyObservers,
    ManyEvents,
    ManyCalls,
}

impl Cause {
    /// The cause in a sentence.
    pub fn sentence(self) -> &'static [u8] {
        match self {
            Cause::TooLong => b"The input has more than 1,048,576 bytes.",
            Cause::Empty => b"The input is empty.",
            Cause::OtherHeader => b"The first line isn't `zk 1`.",
            Cause::NoLineFeed => b"The last line has no line feed.",
            Cause::Blank => b"There are no blank lines, also none behind the last `end`.",
            Cause::Comment => b"There are no comments.",
            Cause::Return => b"A line ends in a line feed alone, without a carriage return.",
            Cause::Tab => b"There are no tabs.",
            Cause::OtherByte => b"This byte is no printable ASCII.",
            Cause::SpaceInFront => b"There are no spaces in front of a line.",
            Cause::SpaceBehind => b"There are no spaces behind a line.",
            Cause::TwoSpaces => b"Between two words stands one space.",
            Cause::CapitalLetter => b"There are no capital letters.",
            Cause::NoSuchWord => b"No line begins with this word.",
            Cause::WordMissing => b"A word is missing.",
            Cause::WordTooMany => b"This word is one too many.",
            Cause::LongName => b"This name has more than 16 letters.",
            Cause::NameBegins => b"A name begins with a letter.",
            Cause::NameSign => b"This sign stands in no name.",
            Cause::LeadingZero => b"A number has no leading zero.",
            Cause::PlusSign => b"A number has no `+`.",
            Cause::MinusSign => b"A `-` stands only in front of a priority.",
            Cause::MinusZero => b"`-0` is no priority.",
            Cause::NoNumber => b"This is no number.",
            Cause::OddDigits => b"This message has an odd number of digits.",
            Cause::NoDigit => b"This isn't one of the digits `0` to `9` and `a` to `f`.",
            Cause::NeitherWord => b"This is neither of the two words that can stand here.",
            Cause::NoWait => b"This doesn't say how long the call waits.",
            Cause::NoEvent => b"This is no event.",
            Cause::AllIgnored => b"All events are `ignore`.",
            Cause::NoValidator => b"This doesn't say which messages the channel takes.",
            Cause::OnlyRaw => b"Only `raw` can stand here.",
            Cause::OtherSpelling => b"This is no form of a line.",
            Cause::LateDeclaration => b"This stands behind the first script.",
            Cause::CallOutside => b"This call stands in no script.",
            Cause::ScriptInside => b"This script begins inside another one.",
            Cause::SecondScript => b"This object has a script already.",
            Cause::EndOutside => b"This `end` is one too many.",
            Cause::EndMissing => b"The last `end` is missing.",
            Cause::ForSupervisors => b"This call is for supervisors, and a user plays it here.",
            Cause::NotInListener =>
                b"This call is for supervisors, and a user may play it in a listener's script.",
            Cause::NotInHandler =>
                b"A worker can't become a user, so `user` stands in no item's script.",
            Cause::OtherOrder => b"This line can't stand here.",
            Cause::OutOfRange => b"This number is out of its range.",
            Cause::PriorityOutOfRange => b"This priority is out of its range.",
            Cause::WaitOutOfRange => b"This wait is out of its range.",
            Cause::InitialAboveLimit => b"This count is above the limit behind it.",
            Cause::LongMessage => b"This message has more than 64 bytes.",
            Cause::OtherSize => b"This message hasn't the size of its queue or channel.",
            Cause::OtherFirstSize => b"This message hasn't the size before it.",
            Cause::Reserved => b"This word is reserved, and no name.",
            Cause::DeclaredTwice => b"This name is declared already.",
            Cause::Undeclared => b"No object has this name.",
            Cause::DeclaredLater => b"This name is declared only behind this line.",
            Cause::OtherKind => b"This object is of another kind.",
            Cause::ObserverTwice => b"This observer stands there twice.",
            Cause::AllowedTwice => b"This is allowed already.",
            Cause::OtherName => b"A name can't stand where it does.",
            Cause::ManyPlayers => b"Threads and queues together are 256 at most.",
            Cause::ManyQueues => b"Queues are 8 at most.",
            Cause::ManyItems => b"Items are 256 at most.",
            Cause::ManySems => b"Semaphores are 32 at most.",
            Cause::ManyMsgqs => b"Message queues are 16 at most.",
            Cause::ManySignals => b"Signals are 32 at most.",
            Cause::ManyChans => b"Channels are 16 at most.",
            Cause::ManyListening => b"Listeners and subscribers together are 32 at most.",
            Cause::ManyObservers => b"The observers of a channel are 8 at most.",
            Cause::ManyEvents => b"The events of a poll are 8 at most.",
            Cause::ManyCalls => b"The calls of all scripts together are 4,096 at most.",
        }
    }
}

impl Accepted {
    /// What would be accepted, in words. In their places stand what is needed with the names that there are, numbers, the
    /// words of a choice, and the form of a line.
    pub fn words(self) -> &'static [u8] {
        match self {
            Accepted::WholeText => b"at most 1,048,576 bytes",
            Accepted::Header => b"`zk 1` as the first line",
            Accepted::LastFeed => b"a line feed at the end of the last line too",
            Accepted::OneFeed => b"lines that end in a line feed alone (LF, and not CRLF)",
            Accepted::OneSpace => b"one space between two words, and none elsewhere",
            Accepted::PlainBytes => b"lower-case letters, digits, spaces and `_`, `-` and `:`",
            Accepted::WithoutLine => b"the text without this line",
            Accepted::Without => b"the text without it",
            Accepted::Line =>
                b"a declaration, `allow`, `script`, `end`, or a call by its word, as docs/FORMATS.md lists them",
            Accepted::FormattedLine => b"a line as docs/FORMATS.md has them",
            Accepted::Name =>
                b"a name: a lower-case letter and then at most 15 lower-case letters, digits and `_`",
            Accepted::Event =>
                b"`sem:`, `msgq:` or `sig:` with a name behind it, or `ignore` for some of the events",
            Accepted::Wait => b"`no`, `forever`, or a number of ticks from 1 to 1000000",
            Accepted::Priority => b"a number from -16 to 15",
            Accepted::Validator =>
                b"`any`, or `max:` and the greatest first byte in two digits, as `max:7f`",
            Accepted::Raw => b"`raw`, or nothing",
            Accepted::InFront => b"the same line in front of the first `script`",
            Accepted::EndFirst => b"the line `end` before this one",
            Accepted::EndHere => b"the line `end` here",
            Accepted::FirstScript => b"these calls in the first script of this name",
            Accepted::ScriptBefore =>
                b"a line `script NAME` somewhere before it, with no `end` between",
            Accepted::UserInThread => b"`user` in the script of a supervisor thread",
            Accepted::InThreadOrItem =>
                b"the same call in the script of a supervisor thread or of an item",
            Accepted::InThread =>
                b"the same call in the script of a supervisor thread, before any `user`",
            Accepted::Elsewhere => b"the same line elsewhere",
            Accepted::Once => b"the same said once",
            Accepted::OtherNumber => b"another number",
            Accepted::InRange => b"a number in its range",
            Accepted::Declared => b"the name of a declared object",
            Accepted::NewName => b"a name that isn't reserved, and that nothing before it has",
            Accepted::Form(_) => b"{form}",
            Accepted::Object(_) => b"the name of {need}{names}",
            Accepted::Owner => b"the name of a thread, an item or a listener{names}",
            Accepted::Rawable => b"the name of a semaphore, a message queue or a signal{names}",
            Accepted::Number(_, _) => b"a number from {least} to {most}",
            Accepted::Either(_) => b"`{first}` or `{second}`",
            Accepted::Message(Some(_)) =>
                b"a message of {size} bytes: {digits} digits of `0` to `9` and `a` to `f`",
            Accepted::Message(None) =>
                b"a message of 1 to 64 bytes: for each two digits of `0` to `9` and `a` to `f`",
        }
    }
}

/// What meets a need.
pub fn need_words(need: Need) -> &'static [u8] {
    match need {
        Need::Thread => b"a thread",
        Need::Sem => b"a semaphore",
        Need::Msgq => b"a message queue",
        Need::Signal => b"a signal",
        Need::Queue => b"a queue",
        Need::Item => b"an item",
        Need::Chan => b"a channel",
        Need::Sub => b"a subscriber",
        Need::Obs => b"a listener or a subscriber",
        Need::Any => b"an object",
    }
}

/// An object of a kind.
pub fn kind_words(kind: Kind) -> &'static [u8] {
    match kind {
        Kind::Thread => b"a thread",
        Kind::Queue => b"a queue",
        Kind::Item => b"an item",
        Kind::Sem => b"a semaphore",
        Kind::Msgq => b"a message queue",
        Kind::Signal => b"a signal",
        Kind::Listener => b"a listener",
        Kind::Sub => b"a subscriber",
        Kind::Chan => b"a channel",
    }
}

/// What stands for a word in the form of a line.
pub fn slot_words(slot: Slot) -> &'static [u8] {
    match slot {
        Slot::New => b"NAME",
        Slot::Owner => b"NAME",
        Slot::Object(need) => object_words(need),
        Slot::Rawable => b"OBJECT",
        Slot::Number(_, _) => b"NUMBER",
        Slot::Priority => b"PRIO",
        Slot::Either(Choice::Mode) => b"super|user",
        Slot::Either(Choice::State) => b"on|off",
        Slot::Either(Choice::Drain) => b"plug|open",
        Slot::Hex => b"HEX",
        Slot::Wait => b"WAIT",
        Slot::Event => b"EVENT",
        Slot::Valid => b"VALID",
        Slot::Raw => b"raw",
    }
}

fn object_words(need: Need) -> &'static [u8] {
    match need {
        Need::Thread => b"THREAD",
        Need::Sem => b"SEM",
        Need::Msgq => b"MSGQ",
        Need::Signal => b"SIGNAL",
        Need::Queue => b"QUEUE",
        Need::Item => b"ITEM",
        Need::Chan => b"CHAN",
        Need::Sub => b"SUB",
        Need::Obs => b"OBSERVER",
        Need::Any => b"OBJECT",
    }
}
