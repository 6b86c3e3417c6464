// Texts of depots made at random, good ones and damaged ones.
use crate::plain::{NAMES, count};
use crate::seeded::random::Random;
use std::alloc::{AllocError, Global};

// A name of a list, and once in so many times one that is none; seldom one of a single number, which may not come again.
fn add_name(random: &mut Random, text: &mut Vec<u8>, rarity: u32) -> Result<(), AllocError> {
    if random.once_in(rarity) {
        let odd: [&[u8]; 5] = [b"head", b"Sites", b"heads:", b"7", b"boards"];
        let which = random.below(5) as usize;
        return text.extend_from_slice(odd.get(which).copied().unwrap_or(b"x"));
    }
    let names = count(NAMES.len());
    let which = if random.once_in(20) {
        random.one_of(&[8, 10])
    } else {
        random.below(names)
    };
    let is_single = which == 8 || which == 10;
    let place = if is_single && !random.once_in(8) {
        0
    } else {
        which
    };
    text.extend_from_slice(NAMES.get(place as usize).copied().unwrap_or(b"x"))
}

// Digits, and once in so many times too many of them.
fn add_digits(random: &mut Random, text: &mut Vec<u8>, rarity: u32) -> Result<(), AllocError> {
    let digits = if random.once_in(rarity) {
        random.one_of(&[10, 11, 25])
    } else {
        random.between(1, 9)
    };
    for _ in 0..digits {
        let digit = if random.once_in(4) {
            0
        } else {
            random.below(10)
        };
        text.push(b'0'.saturating_add(u8::try_from(digit).unwrap_or(0)))?;
    }
    Ok(())
}

// A number, which may be the greatest that fits; and once in so many times the next, or a word that is no number.
fn add_number(random: &mut Random, text: &mut Vec<u8>, rarity: u32) -> Result<(), AllocError> {
    if random.once_in(30) {
        return text.extend_from_slice(b"4294967295");
    }
    if !random.once_in(rarity) {
        return add_digits(random, text, rarity);
    }
    let word: &[u8] = match random.below(6) {
        0 | 1 => b"4294967296",
        2 => b"-1",
        3 => b"12a",
        4 => b"+3",
        _ => {
            text.push(u8::try_from(random.below(256)).unwrap_or(b'x'))?;
            return Ok(());
        }
    };
    text.extend_from_slice(word)
}

fn add_space(random: &mut Random, text: &mut Vec<u8>) -> Result<(), AllocError> {
    let space: &[u8] = match random.below(10) {
        0 => b"  ",
        1 => b"\t",
        2 => b" \r",
        _ => b" ",
    };
    text.extend_from_slice(space)
}

// A name and numbers, perhaps with a comment; or a comment alone, or nothing.
fn add_line(random: &mut Random, text: &mut Vec<u8>, rarity: u32) -> Result<(), AllocError> {
    if random.once_in(6) {
        add_space(random, text)?;
    }
    if !random.once_in(8) {
        add_name(random, text, rarity)?;
        for _ in 0..random.one_of(&[0, 1, 1, 2, 6]) {
            add_space(random, text)?;
            add_number(random, text, rarity)?;
        }
    }
    if random.once_in(6) {
        text.extend_from_slice(b"# 1 heads")?;
    }
    if random.once_in(12) {
        text.push(b'\r')?;
    }
    Ok(())
}

// With faults that are common, rare or left out.
pub(crate) fn any_text(heap: Global, random: &mut Random) -> Result<Vec<u8>, AllocError> {
    let rarity = random.one_of(&[30, 200, u32::MAX]);
    let mut text = Vec::new(heap);
    for _ in 0..random.below(14) {
        add_line(random, &mut text, rarity)?;
        text.push(b'\n')?;
    }
    if random.once_in(2) {
        add_line(random, &mut text, rarity)?;
    }
    Ok(text)
}
