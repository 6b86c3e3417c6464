// The words of a line, and the numbers that they say.
use std::alloc::{AllocError, Global};
use std::mem;

fn separates(byte: u8) -> bool {
    byte == b' ' || byte == b'\t' || byte == b'\r'
}

// Those before a comment.
pub(crate) fn words_of(heap: Global, line: &[u8]) -> Result<Vec<Vec<u8>>, AllocError> {
    let mut words = Vec::new(heap);
    let mut word = Vec::new(heap);
    for byte in line {
        if *byte == b'#' {
            break;
        }
        if !separates(*byte) {
            word.push(*byte)?;
        } else if !word.is_empty() {
            words.push(mem::replace(&mut word, Vec::new(heap)))?;
        }
    }
    if !word.is_empty() {
        words.push(word)?;
    }
    Ok(words)
}

// A word of digits, as a number that is never less than 2^32 where the word's is not; none where it is no whole number.
pub(crate) fn number_of(word: &[u8]) -> Option<u64> {
    if word.is_empty() {
        return None;
    }
    let mut number: u64 = 0;
    for byte in word {
        if *byte < b'0' || *byte > b'9' {
            return None;
        }
        let digit = u64::from(byte.saturating_sub(b'0'));
        number = number.saturating_mul(10).saturating_add(digit);
    }
    Some(number)
}
