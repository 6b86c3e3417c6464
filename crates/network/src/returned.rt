// What a refused call was given.

// It comes back as it was, with the fault beside it.
#[derive(Drop)]
pub struct Returned<T, F> {
    pub fault: F,
    pub value: T,
}
