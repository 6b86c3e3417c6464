// Holds that come and go between askings, on two boards of one number and beside a board of another.
ghost use Rattle.std.specs.Prelude.{◌≡◌, ℕ, ◌+◌, ◌≤◌};
ghost use Rattle.board.specs.Held.{board_table, hold_bears};
ghost use Rattle.compare.specs.Out.{out_at, one_at};

use crate::beside::{Answered, Lent, Told, says_the_same, told_fault};
use crate::plain::{Bays, Roads};
use crate::scenes::ask_once;
use crate::seeded::{Bench, Sort, Trouble, any_below};
use crate::twins::{Twins, offer_elsewhere};
use board::{BackFault, Board, Hold, HoldFault};
use network::{Guide, Returned};

// The plain counts of all three boards, the board of another number, and the last asking that was answered.
#[derive(Drop)]
pub(crate) struct Play {
    pub(crate) one: Bays,
    pub(crate) other: Bays,
    pub(crate) strange: Board,
    pub(crate) elsewhere: Bays,
    pub(crate) last: Option<Answered>,
}

// At which site a bay is held; whether at the other board, and whether it is handed back there first.
#[derive(Clone, Copy)]
pub(crate) struct Stay {
    site: u32,
    held_at_other: bool,
    back_at_other: bool,
}

// What a hold bore at its end; whether it came back as it was from the board of another number; and what that board and the
// first of the two said.
#[derive(Clone, Copy)]
struct End {
    number: u32,
    site: u32,
    returned: bool,
    elsewhere: Option<BackFault>,
    said: Option<BackFault>,
}

impl Stay {
    fn any(bench: &mut Bench, sites: u32) -> Stay {
        Stay {
            site: any_below(&mut bench.random, sites),
            held_at_other: bench.random.once_in(2),
            back_at_other: bench.random.once_in(2),
        }
    }
}

impl Play {
    fn counts(&mut self, at_other: bool) -> &mut Bays {
        if at_other {
            &mut self.other
        } else {
            &mut self.one
        }
    }

    // Whether every bay is free again.
    pub(crate) fn all_free(&self, twins: &Twins) -> bool {
        says_the_same(&twins.one, &self.one)
            && says_the_same(&twins.other, &self.other)
            && self.one.out.iter().all(|out| *out == 0)
            && self.other.out.iter().all(|out| *out == 0)
    }

    fn see_held(&mut self, bench: &mut Bench, stay: Stay, hold: &Hold) -> Result<(), Trouble> {
        let bays = self.counts(stay.held_at_other);
        let refused = bays.hold_refusal(stay.site);
        bays.hold(stay.site);
        let bears = hold.number() == bays.number && hold.site() == stay.site;
        bench.same(Sort::Holds, bears)?;
        bench.same_refusal(Sort::Holdings, refused, None)
    }

    fn see_refused(
        &mut self,
        bench: &mut Bench,
        stay: Stay,
        fault: HoldFault,
    ) -> Result<(), Trouble> {
        let refused = self.counts(stay.held_at_other).hold_refusal(stay.site);
        bench.same_refusal(Sort::Holdings, refused, told_fault(Some(fault)))
    }

    // The second of the two boards took the hold if the first did not.
    fn see_back(&mut self, bench: &mut Bench, stay: Stay, end: End) -> Result<(), Trouble> {
        if self.elsewhere.number != end.number {
            let strange = self.elsewhere.back_refusal(end.number, end.site);
            let answer = told_fault(end.elsewhere);
            bench.same_refusal(Sort::Offers, strange, answer)?;
            bench.same(Sort::Returned, end.returned)?;
        }
        let first = self.counts(stay.back_at_other);
        let refused = first.back_refusal(end.number, end.site);
        let took = stay.back_at_other == refused.is_none();
        self.counts(took).take_back(end.site);
        let answer = told_fault(end.said);
        bench.same_refusal(Sort::Backs, refused, answer)
    }
}

// A hold that a board of another number returned, or was not offered where the number is the same.
fn offer(board: &mut Board, hold: Hold) -> Returned<Hold, Option<BackFault>>
    ensures { hold_bears result.value ≡ hold_bears hold }
{
    if board.number() == hold.number() {
        return Returned {
            fault: None,
            value: hold,
        };
    }
    let Returned { fault, value } = offer_elsewhere(board, hold);
    Returned {
        fault: Some(fault),
        value,
    }
}

// The end of a hold: it is offered elsewhere, and then handed back.
fn end_hold(
    bench: &mut Bench,
    play: &mut Play,
    twins: &mut Twins,
    stay: Stay,
    hold: Hold,
) -> Result<(), Trouble>
    requires bears { (hold_bears hold).0 ≡ (board_table twins.old.one).number }
    requires out { 1 ≤ out_at twins.old.one twins.old.other (hold_bears hold).1 }
    ensures out { (s : ℕ) → out_at twins.new.one twins.new.other s + one_at hold s ≡ out_at twins.old.one twins.old.other s }
    ensures number { (board_table twins.new.one).number ≡ (board_table twins.old.one).number }
{
    let number = hold.number();
    let site = hold.site();
    let Returned { fault, value } = offer(&mut play.strange, hold);
    let returned = value.number() == number && value.site() == site;
    let end = End {
        number,
        site,
        returned,
        elsewhere: fault,
        said: twins.take_back(stay.back_at_other, value),
    };
    play.see_back(bench, stay, end)
}

// What both boards say of themselves, and an asking on one of them.
fn visit<G: Guide>(
    bench: &mut Bench,
    guide: &G,
    roads: &Roads,
    lent: &mut Lent<G::Reading>,
    play: &mut Play,
    twins: &Twins,
) -> Result<(), Trouble>
where
    G::Reading: Told + Drop,
{
    bench.same(Sort::Counts, says_the_same(&twins.one, &play.one))?;
    bench.same(Sort::Counts, says_the_same(&twins.other, &play.other))?;
    bench.same(Sort::Counts, says_the_same(&play.strange, &play.elsewhere))?;
    let answered = if bench.random.once_in(2) {
        ask_once(bench, guide, roads, &twins.one, &play.one, lent)?
    } else {
        ask_once(bench, guide, roads, &twins.other, &play.other, lent)?
    };
    play.last = answered.or(play.last);
    Ok(())
}

// Askings with a bay held meanwhile, and then without it; to the depth that is named. What is held is handed back.
pub(crate) fn stay_on<G: Guide>(
    bench: &mut Bench,
    guide: &G,
    roads: &Roads,
    lent: &mut Lent<G::Reading>,
    play: &mut Play,
    twins: &mut Twins,
    depth: u32,
) -> Result<(), Trouble>
where
    G::Reading: Told + Drop,
    ensures out { (s : ℕ) → out_at twins.new.one twins.new.other s ≡ out_at twins.old.one twins.old.other s }
    ensures number { (board_table twins.new.one).number ≡ (board_table twins.old.one).number }
{
    visit(bench, guide, roads, lent, play, twins)?;
    if depth == 0 {
        return Ok(());
    }
    let less = depth - 1;
    let stay = Stay::any(bench, roads.depot.site_count());
    match twins.hold(stay.held_at_other, stay.site) {
        Err(fault) => play.see_refused(bench, stay, fault)?,
        Ok(hold) => {
            let seen = play.see_held(bench, stay, &hold);
            let within = stay_on(bench, guide, roads, lent, play, twins, less);
            let back = end_hold(bench, play, twins, stay, hold);
            seen?;
            within?;
            back?;
        }
    }
    stay_on(bench, guide, roads, lent, play, twins, less)
}
