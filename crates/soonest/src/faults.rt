// Why an asking or a tracing is refused.
ghost use Rattle.std.specs.Prelude.{◌≡◌};
ghost use Rattle.soonest.specs.Faults.{ask_fault, trace_fault};

use network::Refusal;

#[derive(Clone, Copy, PartialEq, Eq, Debug)]
pub enum AskFault {
    Junction,
    Start,
    Number,
    Room,
    Sites,
}

#[derive(Clone, Copy, PartialEq, Eq, Debug)]
pub enum TraceFault {
    Junction,
    Start,
    Room,
    NoWay,
    Blocked,
}

impl From<AskFault> for Refusal {
    ghost from_gives = { λ fault said. said ≡ ask_fault fault };

    fn from(fault: AskFault) -> Refusal {
        Refusal::of_call(match fault {
            AskFault::Junction => 14,
            AskFault::Start => 15,
            AskFault::Number => 16,
            AskFault::Room => 17,
            AskFault::Sites => 34,
        })
    }
}

impl From<TraceFault> for Refusal {
    ghost from_gives = { λ fault said. said ≡ trace_fault fault };

    fn from(fault: TraceFault) -> Refusal {
        Refusal::of_call(match fault {
            TraceFault::Junction => 14,
            TraceFault::Start => 15,
            TraceFault::Room => 17,
            TraceFault::NoWay => 38,
            TraceFault::Blocked => 39,
        })
    }
}
