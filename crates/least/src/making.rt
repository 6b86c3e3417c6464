// Making a day of its segments' first seconds.
ghost use Rattle.std.specs.Prelude.{◌≡◌, ◌≤◌, IfOk, length};
ghost use Rattle.least.specs.Faults.{day_fault};
ghost use Rattle.least.specs.Held.{day_firsts};
ghost use Rattle.least.specs.Segments.{cuts_day, day_refusal};
ghost use Rattle.network.specs.Refused.{refused};

use crate::day::Day;
use crate::faults::DayFault;
use arrayvec::ArrayVec;
use clock::LAST_DEPARTURE;
use network::runs_to;

// Where seconds rise, the last tells whether all are early enough.
fn cut_a_day(firsts: &[u32]) -> bool
    requires { length firsts.now ≤ 8 }
    ensures { result ≡ cuts_day firsts.now }
{
    let Some(last) = firsts.last() else {
        return false;
    };
    *last <= LAST_DEPARTURE && runs_to(firsts, 1, *last as usize)
}

impl Day {
    pub fn new(firsts: &[u32]) -> Result<Day, DayFault>
        ensures refusal { refused day_fault result ≡ day_refusal firsts.now }
        ensures list { IfOk result (λ d. day_firsts d ≡ firsts.now) }
    {
        match ArrayVec::try_from(firsts) {
            Ok(firsts) if cut_a_day(&firsts) => Ok(Day { firsts }),
            _ => Err(DayFault),
        }
    }
}
