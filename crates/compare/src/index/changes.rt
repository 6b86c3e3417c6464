// Indexes that are changed, so that they may be another than the right one.
use crate::plain::{Index, NO_SITE, at, count, put};
use crate::seeded::{Random, damage_day, damage_list};
use std::alloc::AllocError;

// One number of a list is written over.
fn write_one(random: &mut Random, list: &mut [u32], number: u32) {
    let place = random.below(count(list.len()));
    put(list, place, number);
}

// One number of a list is one more or one less.
fn shift_one(random: &mut Random, list: &mut [u32]) {
    let place = random.below(count(list.len()));
    let number = at(list, place);
    let by = random.one_of(&[1, u32::MAX]);
    put(list, place, number.wrapping_add(by));
}

// Two places of a list trade what they hold.
fn exchange(list: &mut [u32], one: u32, other: u32) {
    let (held, there) = (at(list, one), at(list, other));
    put(list, one, there);
    put(list, other, held);
}

// Two entries trade places: neighbours, or any.
fn exchange_entries(random: &mut Random, index: &mut Index) {
    let length = count(index.sites.len());
    let one = random.below(length);
    let other = match random.below(2) {
        0 => one.saturating_add(1).min(length.saturating_sub(1)),
        _ => random.below(length),
    };
    exchange(&mut index.sites, one, other);
    exchange(&mut index.times, one, other);
}

// An entry becomes a missing one, or a missing one's site or time is written.
fn change_missing(random: &mut Random, index: &mut Index) {
    let place = random.below(count(index.sites.len()));
    match random.below(3) {
        0 => {
            put(&mut index.sites, place, NO_SITE);
            put(&mut index.times, place, 0);
        }
        1 => put(&mut index.sites, place, NO_SITE),
        _ => put(&mut index.times, place, 0),
    }
}

// The lists' entries are changed, and nothing else.
pub(crate) fn change_entries(random: &mut Random, index: &mut Index) {
    for _ in 0..random.one_of(&[1, 1, 1, 2, 4]) {
        let site = random.one_of(&[0, 1, 2, 5, 63, 64, 65_534, 65_535, 65_536, u32::MAX]);
        let number = random.word();
        match random.below(7) {
            0 => write_one(random, &mut index.sites, site),
            1 => shift_one(random, &mut index.sites),
            2 => write_one(random, &mut index.times, number),
            3 | 4 => shift_one(random, &mut index.times),
            5 => exchange_entries(random, index),
            _ => change_missing(random, index),
        }
    }
}

// Lengths, segments or the count of a row's entries are changed.
pub(crate) fn change_shape(random: &mut Random, index: &mut Index) -> Result<(), AllocError> {
    match random.below(6) {
        0 => index.most = random.one_of(&[0, 1, 2, 8, 9, u32::MAX]),
        1 => damage_list(random, &mut index.sites, 0)?,
        2 => damage_list(random, &mut index.times, 0)?,
        3 => index.sites.push(0)?,
        _ => damage_day(random, &mut index.segments)?,
    }
    Ok(())
}
