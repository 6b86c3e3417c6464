// All that is compared on roads as they stand: their answers, askings on a board, and tracings by the ways that these leave.
use crate::beside::{Answered, Lent, Told, compare_answers, compare_asking, make_board};
use crate::holds::{Play, stay_on};
use crate::plain::{Bays, Roads};
use crate::seeded::{Bench, Sort, Trouble};
use crate::tracings::{compare_by_any_ways, compare_by_asking, compare_listed};
use crate::twins::Twins;
use board::Board;
use network::Guide;

// The tracings that follow an asking.
fn trace_answered<G: Guide>(
    bench: &mut Bench,
    guide: &G,
    roads: &Roads,
    lent: &mut Lent<G::Reading>,
    answered: Answered,
) -> Result<(), Trouble>
where
    G::Reading: Told + Drop,
{
    let question = answered.question;
    let most = if roads.depot.is_large() { 4 } else { 64 };
    for answer in lent.answers.iter().take(answered.count.min(most) as usize) {
        let listed = (answer.site, answer.reading.told());
        compare_listed(
            bench,
            guide,
            roads,
            question,
            &lent.ways,
            &mut lent.arcs,
            listed,
        )?;
    }
    compare_by_asking(bench, guide, roads, question, &lent.ways, &mut lent.arcs)
}

// One asking, with its tracings; what was answered, where it is not refused.
pub(crate) fn ask_once<G: Guide>(
    bench: &mut Bench,
    guide: &G,
    roads: &Roads,
    board: &Board,
    bays: &Bays,
    lent: &mut Lent<G::Reading>,
) -> Result<Option<Answered>, Trouble>
where
    G::Reading: Told + Drop,
{
    let answered = compare_asking(bench, guide, roads, board, bays, lent)?;
    if let Some(answered) = answered {
        trace_answered(bench, guide, roads, lent, answered)?;
    }
    Ok(answered)
}

// Two boards of one number, a third mostly of another, and holds that come and go on them between askings.
fn compare_boards<G: Guide>(
    bench: &mut Bench,
    guide: &G,
    roads: &Roads,
    lent: &mut Lent<G::Reading>,
) -> Result<Option<Answered>, Trouble>
where
    G::Reading: Told + Drop,
{
    let sites = roads.depot.site_count();
    let number = bench.random.word();
    let third = number.wrapping_add(bench.random.below(3));
    let one = make_board(bench, number, sites)?;
    let other = make_board(bench, number, sites)?;
    let strange = make_board(bench, third, sites)?;
    let (Some((one, bays)), Some((other, more)), Some((strange, elsewhere))) = (one, other, strange)
    else {
        return Ok(None);
    };
    let Some(mut twins) = Twins::new(one, other) else {
        return Err(Trouble::Differs(Sort::Boards));
    };
    let mut play = Play {
        one: bays,
        other: more,
        strange,
        elsewhere,
        last: None,
    };
    let depth = if roads.depot.is_large() {
        0
    } else {
        bench.random.one_of(&[0, 1, 3, 4])
    };
    stay_on(bench, guide, roads, lent, &mut play, &mut twins, depth)?;
    bench.same(Sort::Ends, play.all_free(&twins))?;
    Ok(play.last)
}

// The tracings by the ways of an earlier asking come first: what stands on the arcs may have changed since.
pub(crate) fn compare_scene<G: Guide>(
    bench: &mut Bench,
    guide: &G,
    roads: &Roads,
    lent: &mut Lent<G::Reading>,
    earlier: Option<Answered>,
) -> Result<Option<Answered>, Trouble>
where
    G::Reading: Told + Drop,
{
    if let Some(answered) = earlier {
        let question = answered.question;
        compare_by_asking(bench, guide, roads, question, &lent.ways, &mut lent.arcs)?;
    }
    compare_by_any_ways(bench, guide, roads, &mut lent.arcs)?;
    compare_answers(bench, guide, roads)?;
    compare_boards(bench, guide, roads, lent)
}
