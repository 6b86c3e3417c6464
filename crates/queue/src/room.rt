// Slots that keep a heap in their front.
use crate::slot::Slot;

// The items below `len` wait; slot h's place says where the item with handle h stands.
#[derive(Drop)]
pub(crate) struct Room<'a, T> {
    pub(crate) slots: &'a mut [Slot<T>],
    pub(crate) len: usize,
}
