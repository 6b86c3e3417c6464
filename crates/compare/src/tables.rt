// Tables are examined, and handed back.
use crate::beside::{clock_tables, is_clock, is_length, length_tables, told_fault};
use crate::plain::{Depot, clock_refusal, length_refusal};
use crate::seeded::{Bench, Sort, Trouble, damage};
use clock::{ClockRoads, ClockTables};
use length::{LengthRoads, LengthTables};
use network::Returned;

// The clock roads of a depot, where they are not refused.
pub(crate) fn examine_clock(
    bench: &mut Bench,
    depot: &Depot,
    sort: Sort,
) -> Result<Option<ClockRoads>, Trouble> {
    let expected = clock_refusal(depot);
    match ClockRoads::try_from(clock_tables(depot)?) {
        Ok(roads) => {
            bench.same_refusal(sort, expected, None)?;
            Ok(Some(roads))
        }
        Err(Returned { fault, value }) => {
            bench.same_refusal(sort, expected, told_fault(Some(fault)))?;
            bench.same(Sort::GivenBack, is_clock(depot, &value))?;
            Ok(None)
        }
    }
}

pub(crate) fn examine_length(
    bench: &mut Bench,
    depot: &Depot,
    sort: Sort,
) -> Result<Option<LengthRoads>, Trouble> {
    let expected = length_refusal(depot);
    match LengthRoads::try_from(length_tables(depot)?) {
        Ok(roads) => {
            bench.same_refusal(sort, expected, None)?;
            Ok(Some(roads))
        }
        Err(Returned { fault, value }) => {
            bench.same_refusal(sort, expected, told_fault(Some(fault)))?;
            bench.same(Sort::GivenBack, is_length(depot, &value))?;
            Ok(None)
        }
    }
}

// Roads give back the tables that they were made of.
pub(crate) fn examine_both(bench: &mut Bench, depot: &Depot, sort: Sort) -> Result<(), Trouble> {
    if let Some(roads) = examine_clock(bench, depot, sort)? {
        let tables = ClockTables::from(roads);
        bench.same(Sort::GivenBack, is_clock(depot, &tables))?;
    }
    if let Some(roads) = examine_length(bench, depot, sort)? {
        let tables = LengthTables::from(roads);
        bench.same(Sort::GivenBack, is_length(depot, &tables))?;
    }
    Ok(())
}

// A good depot, damaged a little more each time.
pub(crate) fn examine_damaged(bench: &mut Bench, depot: &mut Depot) -> Result<(), Trouble> {
    for _ in 0..2 {
        damage(&mut bench.random, depot)?;
        examine_both(bench, depot, Sort::Damaged)?;
    }
    Ok(())
}
