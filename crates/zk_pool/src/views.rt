use std::collections::LinkedList;

/// What a pass at the queue of a pool knows. It stands in contracts alone: no value of it is made.
///
/// It stands for `hands` of the `made` hands that there are. `numbers` are those of all items, `home` is the home of all,
/// `held` are the numbers in its hands, and `empties` counts its takes that found the queue empty.
pub struct View<H> {
    pub hands: u64,
    pub made: u64,
    pub numbers: LinkedList<u32>,
    pub home: Option<H>,
    pub held: LinkedList<u32>,
    pub empties: u64,
}
