// What the lent slice is made of.
ghost use Rattle.std.specs.Prelude.{◌≡◌};

// An item, and beside it a place: where the item waits whose handle is this slot's number.
#[derive(Clone, Copy)]
pub struct Slot<T> {
    pub(crate) item: T,
    pub(crate) place: u32,
}

impl<T> Slot<T> {
    // Whatever it holds, a queue made over it is empty.
    pub fn new(item: T) -> Slot<T>
        ensures { result ≡ record { item = item; place = 0 } }
    {
        Slot { item, place: 0 }
    }
}
