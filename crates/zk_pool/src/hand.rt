use crate::numbered::Numbered;
use crate::views::View;
use crossbeam_queue::Pass;

/// What takes items out of a pool and gives them back. Each thread has one of its own, which has no bytes.
#[derive(Drop)]
pub struct Hand<T: Numbered> {
    pub(crate) pass: Pass<T, View<T::Home>>,
}
