// The text of a depot file by the rules: line by line, and in each line word by word.
use crate::plain::lists::count;
use crate::plain::words::{number_of, words_of};
use std::alloc::{AllocError, Global};

// The names of a depot's lists.
pub(crate) const NAMES: [&[u8]; 11] = [
    b"arc-starts",
    b"heads",
    b"point-starts",
    b"departures",
    b"arrivals",
    b"sites",
    b"metres",
    b"segments",
    b"nearest",
    b"bays",
    b"board",
];

const NEAREST: usize = 8;

const BOARD: usize = 10;

// What is wrong with a word.
#[derive(Clone, Copy, PartialEq, Eq)]
pub(crate) enum Wrong {
    NoList,
    NoNumber,
    TooLarge,
    OneTooMany,
}

// The first line that cannot be read, counted from 1, and the word that is wrong in it.
#[derive(Drop)]
pub(crate) struct Unread {
    pub(crate) line: u32,
    pub(crate) word: Vec<u8>,
    pub(crate) wrong: Wrong,
}

// A list for each name, or what cannot be read.
#[derive(Drop)]
pub(crate) enum Said {
    Lists(Vec<Vec<u32>>),
    Unread(Unread),
}

// A word of a line, by its place, and what is wrong with it.
#[derive(Clone, Copy)]
struct Blamed {
    place: usize,
    wrong: Wrong,
}

// The words after the first, as numbers that are put behind those of the list.
fn add_numbers(
    words: &[Vec<u8>],
    list: &mut Vec<u32>,
    is_single: bool,
) -> Result<Option<Blamed>, AllocError> {
    let had = list.len();
    for (place, word) in words.iter().enumerate().skip(1) {
        let wrong = match number_of(word).map(|number| u32::try_from(number)) {
            Some(Ok(number)) => {
                list.push(number)?;
                continue;
            }
            Some(Err(_)) => Wrong::TooLarge,
            None => Wrong::NoNumber,
        };
        return Ok(Some(Blamed { place, wrong }));
    }
    let place = if had == 0 { 2 } else { 1 };
    let wrong = Wrong::OneTooMany;
    let surplus = is_single && words.len() > place;
    Ok(surplus.then_some(Blamed { place, wrong }))
}

// Adds what the words of a line say.
fn add_line(words: &[Vec<u8>], lists: &mut [Vec<u32>]) -> Result<Option<Blamed>, AllocError> {
    let Some(first) = words.first() else {
        return Ok(None);
    };
    let named = NAMES.iter().position(|name| *name == first.as_slice());
    let Some(name) = named else {
        return Ok(Some(Blamed {
            place: 0,
            wrong: Wrong::NoList,
        }));
    };
    let Some(list) = lists.get_mut(name) else {
        return Ok(None);
    };
    add_numbers(words, list, name == NEAREST || name == BOARD)
}

// An empty list for each name.
fn no_lists(heap: Global) -> Result<Vec<Vec<u32>>, AllocError> {
    let mut lists = Vec::new(heap);
    for _ in NAMES {
        lists.push(Vec::new(heap))?;
    }
    Ok(lists)
}

pub(crate) fn read_plainly(heap: Global, text: &[u8]) -> Result<Said, AllocError> {
    let mut lists = no_lists(heap)?;
    for (place, line) in text.split(|byte| *byte == b'\n').enumerate() {
        let mut words = words_of(heap, line)?;
        if let Some(Blamed { place: at, wrong }) = add_line(&words, lists.as_mut_slice())? {
            if at < words.len() {
                return Ok(Said::Unread(Unread {
                    line: count(place).saturating_add(1),
                    word: words.swap_remove(at),
                    wrong,
                }));
            }
        }
    }
    Ok(Said::Lists(lists))
}
