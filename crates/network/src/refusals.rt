// What a refused call answers: a number for each fault, and the places that it names.
ghost use Rattle.std.specs.Prelude.{◌≡◌};
ghost use Rattle.network.specs.Refused.{refusal, street_refusal};
ghost use Rattle.network.specs.declared.refusals.Places.TheVariants.{Call};

// The places that a refusal names; where it names none, it is the call itself.
#[derive(Clone, Copy, PartialEq, Eq, Debug)]
pub enum Places {
    Call,
    One(u32),
    Two(u32, u32),
    Three(u32, u32, u32),
}

#[derive(Clone, Copy, PartialEq, Eq, Debug)]
pub struct Refusal {
    pub number: u32,
    pub places: Places,
}

impl Refusal {
    // A refusal that names no place.
    pub fn of_call(number: u32) -> Refusal
        ensures { result ≡ refusal number Call }
    {
        Refusal {
            number,
            places: Places::Call,
        }
    }
}

// What can be wrong with the lists that every kind of roads has.
#[derive(Clone, Copy, PartialEq, Eq, Debug)]
pub enum StreetFault {
    StartCount,
    Starts,
    Head(u32),
    Site(u32),
}

impl From<StreetFault> for Refusal {
    ghost from_gives = { λ fault said. said ≡ street_refusal fault };

    fn from(fault: StreetFault) -> Refusal {
        match fault {
            StreetFault::StartCount => Refusal::of_call(1),
            StreetFault::Starts => Refusal::of_call(2),
            StreetFault::Head(arc) => Refusal {
                number: 3,
                places: Places::One(arc),
            },
            StreetFault::Site(site) => Refusal {
                number: 8,
                places: Places::One(site),
            },
        }
    }
}
