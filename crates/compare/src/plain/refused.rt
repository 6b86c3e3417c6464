// What a refused call answers.

// A number, and the places that it names; none where it is the call itself.
#[derive(Clone, Copy, PartialEq, Eq)]
pub(crate) struct Refused {
    pub(crate) number: u32,
    pub(crate) places: [Option<u32>; 3],
}

impl Refused {
    pub(crate) fn call(number: u32) -> Refused {
        Refused {
            number,
            places: [None; 3],
        }
    }

    pub(crate) fn one(number: u32, place: u32) -> Refused {
        Refused {
            number,
            places: [Some(place), None, None],
        }
    }

    pub(crate) fn two(number: u32, first: u32, second: u32) -> Refused {
        Refused {
            number,
            places: [Some(first), Some(second), None],
        }
    }

    pub(crate) fn three(number: u32, first: u32, second: u32, third: u32) -> Refused {
        Refused {
            number,
            places: [Some(first), Some(second), Some(third)],
        }
    }
}
