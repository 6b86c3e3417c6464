// What can be wrong in a text.
ghost use Rattle.std.specs.Prelude.{◌≡◌};
ghost use Rattle.depot.specs.declared.fault.TextFault.TheVariants.{Memory};
ghost use Rattle.depot.specs.Reads.{at_line};
ghost use Rattle.depot.specs.Says.{Blames};

use std::alloc::{AllocError, AllocFailed, Global};

// What is wrong with a word.
#[derive(Clone, Copy, Debug, PartialEq, Eq)]
pub enum What {
    NotANumber,
    TooLarge,
    UnknownWord,
    SecondNumber,
}

#[derive(Debug, Drop)]
pub struct WordFault {
    pub word: Vec<u8>,
    pub what: What,
}

// Lines count from 1.
#[derive(Debug, Drop)]
pub struct LineFault {
    pub line: usize,
    pub fault: WordFault,
}

// Why a text cannot be read: want of memory, or what is wrong in it.
#[derive(Debug, Drop)]
pub enum TextFault<W> {
    Memory,
    Wrong(W),
}

// Why a line cannot be read.
pub type EntryFault = TextFault<WordFault>;

// Why the text of a depot cannot be read.
pub type ReadFault = TextFault<LineFault>;

impl<W> From<AllocError> for TextFault<W> {
    ghost from_gives = { λ _ r. r ≡ Memory };

    fn from(_e: AllocError) -> TextFault<W> {
        TextFault::Memory
    }
}

impl<W, T: Drop> From<AllocFailed<T>> for TextFault<W> {
    ghost from_gives = { λ _ r. r ≡ Memory };

    fn from(_e: AllocFailed<T>) -> TextFault<W> {
        TextFault::Memory
    }
}

// The fault that names a word.
pub(crate) fn blame(heap: Global, word: &[u8], what: What) -> EntryFault
    ensures { Blames result word.now what }
{
    Vec::from_slice(heap, word).map_or(TextFault::Memory, |word| {
        TextFault::Wrong(WordFault { word, what })
    })
}

impl EntryFault {
    // The same, in the line of this number.
    pub(crate) fn at_line(self, line: usize) -> ReadFault
        ensures { result ≡ at_line line self }
    {
        match self {
            TextFault::Memory => TextFault::Memory,
            TextFault::Wrong(fault) => TextFault::Wrong(LineFault { line, fault }),
        }
    }
}
