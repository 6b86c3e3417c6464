// Lists of numbers, read and written by numbers of 32 bits.

// The length of a list.
pub(crate) fn count(length: usize) -> u32 {
    u32::try_from(length).unwrap_or(u32::MAX)
}

// The number at a place; 0 past the end.
pub(crate) fn at(list: &[u32], place: u32) -> u32 {
    list.get(place as usize).copied().unwrap_or(0)
}

// Writes a number at a place; nothing past the end.
pub(crate) fn put(list: &mut [u32], place: u32, number: u32) {
    if let Some(there) = list.get_mut(place as usize) {
        *there = number;
    }
}

// Whether a number is among those that are marked.
pub(crate) fn has(marked: &[bool], number: u32) -> bool {
    marked.get(number as usize).copied().unwrap_or(false)
}
