// Days and the least travel times in their segments.
use crate::beside::told_fault;
use crate::plain::{Refused, at, count, cuts_the_day, segment_end, segment_of};
use crate::seeded::{Bench, Sort, Trouble, any_below};
use clock::ClockRoads;
use least::{Day, least_time};

// A segment that is there, or the first that is not.
fn compare_span(bench: &mut Bench, day: &Day, firsts: &[u32], segment: u32) -> Result<(), Trouble> {
    let expected = if segment < count(firsts.len()) {
        Some((at(firsts, segment), segment_end(firsts, segment)))
    } else {
        None
    };
    bench.same(Sort::Segments, day.span(segment) == expected)
}

// The segments that hold a second, and the seconds beside it.
fn compare_second(
    bench: &mut Bench,
    day: &Day,
    firsts: &[u32],
    second: u32,
) -> Result<(), Trouble> {
    for one in [second.saturating_sub(1), second, second.saturating_add(1)] {
        let expected = segment_of(firsts, one);
        bench.same(Sort::Segments, day.segment_of(one) == expected)?;
    }
    Ok(())
}

fn compare_segments(bench: &mut Bench, day: &Day, firsts: &[u32]) -> Result<(), Trouble> {
    let segments = count(firsts.len());
    bench.same(Sort::Segments, day.count() == segments)?;
    for segment in 0..=segments {
        compare_span(bench, day, firsts, segment)?;
        compare_second(bench, day, firsts, segment_end(firsts, segment))?;
        let second = any_below(&mut bench.random, 86_401);
        compare_second(bench, day, firsts, second)?;
    }
    Ok(())
}

// The day, where the segments cut one.
pub(crate) fn compare_day(bench: &mut Bench, firsts: &[u32]) -> Result<Option<Day>, Trouble> {
    let refused = (!cuts_the_day(firsts)).then_some(Refused::call(9));
    match Day::new(firsts) {
        Ok(day) => {
            bench.same_refusal(Sort::Days, refused, None)?;
            compare_segments(bench, &day, firsts)?;
            Ok(Some(day))
        }
        Err(fault) => {
            bench.same_refusal(Sort::Days, refused, told_fault(Some(fault)))?;
            Ok(None)
        }
    }
}

// Of each arc and of the first that is not there, in each segment and in the first that is not there.
pub(crate) fn compare_times(
    bench: &mut Bench,
    roads: &ClockRoads,
    day: &Day,
    times: &[Vec<u32>],
    arcs: u32,
) -> Result<(), Trouble> {
    for segment in 0..=count(times.len()) {
        for arc in 0..=arcs {
            let expected = match times.get(segment as usize) {
                Some(in_segment) => in_segment.get(arc as usize).copied(),
                None => None,
            };
            let least = least_time(roads, day, segment, arc);
            bench.same(Sort::LeastTimes, least == expected)?;
        }
    }
    Ok(())
}
