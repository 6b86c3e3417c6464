// The lines of a depot file that were read so far.
ghost use Rattle.std.specs.Prelude.{◌≡◌, [], IfOk};
ghost use Rattle.std.specs.List.{slice_get};
ghost use Rattle.std.specs.Option.{option_map};
ghost use Rattle.depot.specs.Cuts.{words};
ghost use Rattle.depot.specs.Depots.{listed, first, surplus};
ghost use Rattle.depot.specs.Names.{name_of};
ghost use Rattle.depot.specs.Reads.{items};

use crate::cut::first_word;
use crate::part::Part;
use std::alloc::{AllocError, Global};

// The numbers that one line gives a part.
#[derive(Drop)]
pub struct Listing {
    pub part: Part,
    pub numbers: Vec<u32>,
}

#[derive(Drop)]
pub struct Listings {
    pub heap: Global,
    pub lines: Vec<Listing>,
}

impl Listings {
    pub(crate) fn new(heap: Global) -> Listings
        ensures { items result.lines.items ≡ [] }
    {
        Listings {
            heap,
            lines: Vec::new(heap),
        }
    }

    // All the numbers of a part.
    pub(crate) fn numbers_of(&self, part: Part) -> Result<Vec<u32>, AllocError>
        ensures { IfOk result (λ v. v.items ≡ listed (name_of part) (items self.now.lines.items)) }
    {
        let mut found = Vec::new(self.heap);
        for listing in self.lines.iter().filter(|l| l.part == part) {
            found.extend_from_slice(listing.numbers.as_slice())?;
        }
        Ok(found)
    }

    // The first number of a part.
    pub(crate) fn first_number(&self, part: Part) -> Option<u32>
        ensures { result ≡ first (listed (name_of part) (items self.now.lines.items)) }
    {
        self.lines
            .iter()
            .filter(|l| l.part == part)
            .find(|l| !l.numbers.is_empty())
            .and_then(|l| l.numbers.first().copied())
    }

    // The first word of `bytes` past the one number that the part may have.
    pub(crate) fn second_number<'a>(&self, part: Part, bytes: &'a [u8]) -> Option<&'a [u8]>
        ensures { option_map (λ w. w.now) result ≡ slice_get (surplus (listed (name_of part) (items self.now.lines.items)) (words bytes.now)) 0 }
    {
        let (word, rest) = first_word(bytes)?;
        if self.first_number(part).is_some() {
            return Some(word);
        }
        let (second, _) = first_word(rest)?;
        Some(second)
    }
}
