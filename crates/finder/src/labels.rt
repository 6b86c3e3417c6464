// What an asking knows of the junctions: of each its reading so far; and the queue of those that wait.
use crate::marks::Mark;
use queue::{Key, Queue};

#[derive(Drop)]
pub(crate) struct Labels<'a, R> {
    pub(crate) marks: &'a mut [Mark<R>],
    pub(crate) queue: Queue<'a, Key>,
}
