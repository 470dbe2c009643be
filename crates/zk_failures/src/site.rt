/// Why a trace isn't lawful. The reasons are tested in this order, each where the ones before it don't apply.
#[derive(Clone, Copy, PartialEq, Eq)]
pub enum Fail {
    /// The steps of a player aren't 0, 1, 2 and on, each in one entry or look, or they don't rise within a history.
    Place,
    /// An entry isn't what its service answers behind the entries before it.
    History,
    /// A player doesn't make this step there, or its calls aren't answered so, or it doesn't stand so at the end.
    Log,
    /// A look didn't find this, or found what is older than what its player had seen.
    Look,
    /// The run doesn't end so.
    Ending,
}

/// What stands in a line of a trace's text.
#[derive(Clone, Copy, PartialEq, Eq)]
pub enum Site {
    /// How the run ended.
    Ending,
    /// The entry or look of this place, from 0, among all entries and looks in the order of the text.
    Row(u64),
    /// How the player of this number stands.
    Player(u32),
    /// The answer of this place, from 0, among those of the player of this number.
    Answer(u32, u64),
}
