// Reads the lines of a depot file, up to the first that cannot be read.
ghost use Rattle.std.specs.Prelude.{[]};
ghost use Rattle.depot.specs.Cuts.{lines, words, code};
ghost use Rattle.depot.specs.Depots.{grown, gathered};
ghost use Rattle.depot.specs.Reads.{items, Reads};
ghost use Rattle.depot.specs.Says.{Says};

use crate::entry::{read_numbers, split_name};
use crate::fault::{EntryFault, ReadFault, What, blame};
use crate::listing::{Listing, Listings};
use crate::named::by_name;
use crate::part::Part;
use std::alloc::Global;

impl Listings {
    // Adds what one line says.
    fn add(&mut self, line: &[u8]) -> Result<(), EntryFault>
        ensures { Says (λ _. items self.new.lines.items) result (grown (items self.old.lines.items) (words (code line.now))) }
    {
        let Some((name, rest)) = split_name(line) else {
            return Ok(());
        };
        let heap = self.heap;
        let part: Part = by_name(name).ok_or_else(|| blame(heap, name, What::UnknownWord))?;
        let numbers = read_numbers(heap, rest)?;
        if part.is_single() {
            if let Some(word) = self.second_number(part, rest) {
                return Err(blame(heap, word, What::SecondNumber));
            }
        }
        self.lines.push(Listing { part, numbers })?;
        Ok(())
    }
}

// What each line says, in order.
pub(crate) fn read_lines(heap: Global, text: &[u8]) -> Result<Listings, ReadFault>
    ensures { Reads (λ v. items v.lines.items) result (gathered 1 [] (lines text.now)) }
{
    let mut listings = Listings::new(heap);
    for (index, line) in text.split(|b| *b == b'\n').enumerate() {
        listings
            .add(line)
            .map_err(|fault| fault.at_line(index + 1))?;
    }
    Ok(listings)
}
