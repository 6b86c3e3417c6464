// Readings and refusals of the library as plain numbers.
use crate::plain::{Far, Refused};
use clock::Seconds;
use length::Travelled;
use network::{Places, Refusal};

// A reading of the library that is told as two numbers, and made of them.
pub(crate) trait Told: Copy {
    fn told(self) -> Far;

    fn made(told: Far) -> Option<Self>;
}

impl Told for Seconds {
    fn told(self) -> Far {
        Far {
            far: self.value(),
            passed: 0,
        }
    }

    fn made(told: Far) -> Option<Seconds> {
        Seconds::new(told.far)
    }
}

impl Told for Travelled {
    fn told(self) -> Far {
        Far {
            far: self.metres(),
            passed: self.passed(),
        }
    }

    fn made(told: Far) -> Option<Travelled> {
        Travelled::new(told.far, told.passed)
    }
}

pub(crate) fn told_refusal(refusal: Refusal) -> Refused {
    let number = refusal.number;
    match refusal.places {
        Places::Call => Refused::call(number),
        Places::One(place) => Refused::one(number, place),
        Places::Two(first, second) => Refused::two(number, first, second),
        Places::Three(first, second, third) => Refused::three(number, first, second, third),
    }
}

pub(crate) fn told_fault<F: Into<Refusal> + Drop>(fault: Option<F>) -> Option<Refused> {
    match fault {
        Some(fault) => Some(told_refusal(fault.into())),
        None => None,
    }
}

// What a call is refused by, if it is.
pub(crate) fn refused_by<T: Drop, F: Into<Refusal> + Drop>(
    answer: Result<T, F>,
) -> Option<Refused> {
    told_fault(answer.err())
}
