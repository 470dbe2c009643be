use crate::note::Note;
use std::collections::LinkedList;
use zk_base::Msg;

/// The messages of one publisher whose push was answered Ok. It stands in contracts alone: no value of it is made.
pub struct Pushed {
    pub publisher: u32,
    pub messages: LinkedList<Msg>,
}

/// What a pass at the queue of a subscriber knows. It stands in contracts alone: no value of it is made.
///
/// There are `publishers`, each with `each` messages at most. `lists` are those of the publishers whose seats it has, and
/// `fulls` counts its pushes that found the queue full. The taker's pass `takes`: it has dealt the seats of the first
/// `dealt` publishers and taken the notes `taken`, and `empties` counts its takes that found the queue empty.
pub struct View {
    pub publishers: u64,
    pub each: u64,
    pub lists: LinkedList<Pushed>,
    pub fulls: u64,
    pub takes: bool,
    pub dealt: u64,
    pub taken: LinkedList<Note>,
    pub empties: u64,
}
