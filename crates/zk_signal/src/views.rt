use std::collections::LinkedList;

/// What a seat at the table of a signal knows. It stands in contracts alone: no value of it is made.
///
/// `players` are those that it stands for, `drawn` the stamp that was drawn for a write which hasn't settled yet, `writes`
/// are the words of its writes, and `looks` the words that it has found.
pub struct View {
    pub players: LinkedList<u32>,
    pub drawn: LinkedList<u64>,
    pub writes: LinkedList<u64>,
    pub looks: LinkedList<u64>,
}
