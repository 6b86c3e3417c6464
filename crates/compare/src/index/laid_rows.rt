// The rows of laid indexes by what they hold: a mistake shows first where times are equal or entries are missing.
use crate::plain::{Depot, Index, NO_SITE, PlainlyLaid, at, count, has};
use crate::seeded::{Bench, Sort, Trouble};

// The most that a small depot has.
const FEW_JUNCTIONS: u32 = 10;

pub(crate) fn is_wide(depot: &Depot) -> bool {
    depot.junctions() > FEW_JUNCTIONS
}

// The places of one row in the lists of an index.
#[derive(Clone, Copy)]
struct Span {
    first: u32,
    end: u32,
}

// Where an entry's site stands; nothing of a missing entry.
fn junction_of(depot: &Depot, index: &Index, place: u32) -> Option<u32> {
    let (site, _) = index.entry(place);
    (site != NO_SITE).then_some(at(&depot.sites, site))
}

// Whether an entry is there, and has the time of the one before it.
fn is_level(index: &Index, place: u32) -> bool {
    let (site, time) = index.entry(place);
    let (_, before) = index.entry(place.saturating_sub(1));
    site != NO_SITE && time == before
}

// The same where the two sites stand at different junctions.
fn is_tied(depot: &Depot, index: &Index, place: u32) -> bool {
    let before = junction_of(depot, index, place.saturating_sub(1));
    is_level(index, place) && junction_of(depot, index, place) != before
}

// Whether an entry's site stands where that of a later entry does.
fn is_shared(depot: &Depot, index: &Index, place: u32, end: u32) -> bool {
    let junction = junction_of(depot, index, place);
    let mut later = place.saturating_add(1)..end;
    junction.is_some() && later.any(|other| junction_of(depot, index, other) == junction)
}

fn is_short(index: &Index, span: Span) -> bool {
    let (site, _) = index.entry(span.end.saturating_sub(1));
    site == NO_SITE
}

// One row of both, under each sort that it is of.
fn compare_row(
    bench: &mut Bench,
    depot: &Depot,
    laid: &Index,
    expected: &Index,
    span: Span,
) -> Result<(), Trouble> {
    let Span { first, end } = span;
    let same = (first..end).all(|place| laid.entry(place) == expected.entry(place));
    let second = first.saturating_add(1);
    if (second..end).any(|place| is_level(expected, place)) {
        bench.same(Sort::LevelRows, same)?;
    }
    if (second..end).any(|place| is_tied(depot, expected, place)) {
        bench.same(Sort::TiedRows, same)?;
    }
    if (first..end).any(|place| is_shared(depot, expected, place, end)) {
        bench.same(Sort::SharedRows, same)?;
    }
    if is_short(expected, span) {
        bench.same(Sort::ShortRows, same)?;
    }
    Ok(())
}

// All rows of a laying that is not refused.
pub(crate) fn compare_rows(
    bench: &mut Bench,
    depot: &Depot,
    laid: &Index,
    expected: &PlainlyLaid,
) -> Result<(), Trouble> {
    let most = expected.index.most;
    for row in 0..count(expected.cut.len()) {
        let first = row.saturating_mul(most);
        let end = first.saturating_add(most);
        let span = Span { first, end };
        compare_row(bench, depot, laid, &expected.index, span)?;
        if has(&expected.cut, row) {
            let last = end.saturating_sub(1);
            let same = laid.entry(last) == expected.index.entry(last);
            bench.same(Sort::CutRows, same)?;
        }
    }
    Ok(())
}
