use zk_trace::Ending;

/// A run to be drawn: a lane for each player, in player order, and a row for each step, from the first down.
#[derive(Drop)]
pub struct Chart<'a> {
    /// How the run ended.
    pub ending: Ending,
    /// Whether the rows stand in an order that each service's history and each player's steps agree with. Where there is none,
    /// they stand service by service, as in the trace.
    pub agrees: bool,
    /// The steps, one a row.
    pub rows: Vec<Row<'a>>,
    /// What takes more than one row, by its first row.
    pub bars: Vec<Bar>,
    /// What leads from one row to another, by the row that it leads to.
    pub arrows: Vec<Arrow>,
    /// The moments at which the time is told, by row.
    pub ticks: Vec<Tick>,
}

/// A step.
#[derive(Clone, Copy, PartialEq, Eq)]
pub struct Row<'a> {
    /// The number of the player: its lane.
    pub player: u32,
    /// The number of the step among all steps of the player, from 0.
    pub step: u32,
    /// The number of its line in the whole input, from 1.
    pub line: u32,
    /// The name of its service: `work`, `clock`, `table`, or an object's.
    pub service: &'a [u8],
    /// Its line in the trace, without the line feed.
    pub text: &'a [u8],
}

/// What goes on in a lane from one row to another.
#[derive(Clone, Copy, PartialEq, Eq)]
pub struct Bar {
    /// The number of the player: its lane.
    pub player: u32,
    pub kind: BarKind,
    /// In how many other runs and scripts of its lane it lies: 0 of a run, and of a script in a run 1.
    pub depth: u32,
    /// The row in which it begins, from 0.
    pub first: u32,
    /// The row in which it ends, if it does.
    pub last: Option<u32>,
}

#[derive(Clone, Copy, PartialEq, Eq)]
pub enum BarKind {
    /// A handler's run, from `begin` to `end`.
    Run,
    /// A listener's script, from the visit that was answered `run` to its player's next step outside it.
    Script,
    /// A call that waits, from the step that began its wait to the one that ended it.
    Wait,
}

/// What a step brought about: another step.
#[derive(Clone, Copy, PartialEq, Eq)]
pub struct Arrow {
    pub kind: ArrowKind,
    /// The row from which it leads, from 0.
    pub from: u32,
    /// The row to which it leads, from 0.
    pub to: u32,
}

#[derive(Clone, Copy, PartialEq, Eq)]
pub enum ArrowKind {
    /// From what admitted an item to the `begin` of that admission.
    Admission,
    /// From a give to the end of the take that it served.
    Give,
    /// From a put to the get of its message, or from the visit of a subscriber to the take of its channel.
    Message,
    /// From the `set` or `list` of a publish or notify to each of its visits.
    Visit,
    /// From what ended the wait of a cancel, a flush or a drain to the end of that wait.
    Completion,
    /// From the give or put for which a poll was registered to the poll's note of it.
    Note,
    /// From a raise of a signal to a look that saw it.
    Raise,
    /// From what freed a channel to the end of the wait that got it.
    Handover,
    /// From a reset, a purge or a get to the end of a wait that it ended.
    Wake,
    /// From what set an item's delay to what ended it: its expiry, a cancel, a flush, or what set another one.
    Delay,
    /// From what admitted an item to the cancel that dropped the admission.
    Drop,
}

/// A step that tells the time.
#[derive(Clone, Copy, PartialEq, Eq)]
pub struct Tick {
    /// Its row, from 0.
    pub row: u32,
    /// The time from then on, in ticks.
    pub time: u64,
}
