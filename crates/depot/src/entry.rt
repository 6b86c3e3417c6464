// Reads a line as a name and the numbers after it.
ghost use Rattle.std.specs.Prelude.{◌≡◌, [], ◌∷◌, vec_items, IfSome, MatchOption};
ghost use Rattle.depot.specs.Cuts.{words, code, past_word};
ghost use Rattle.depot.specs.Entries.{numbers_in};
ghost use Rattle.depot.specs.Says.{Says};

use crate::cut::{first_word, without_comment};
use crate::fault::{EntryFault, blame};
use crate::number::read_number;
use std::alloc::Global;

// Each word of `bytes` as a number.
pub fn read_numbers(heap: Global, bytes: &[u8]) -> Result<Vec<u32>, EntryFault>
    ensures { Says vec_items result (numbers_in (words bytes.now)) }
{
    let mut found = Vec::new(heap);
    let mut left = bytes;
    while let Some((word, rest)) = first_word(left) {
        found.push(read_number(word).map_err(|what| blame(heap, word, what))?)?;
        left = rest;
    }
    Ok(found)
}

// The first word of a line, and what follows it up to a comment.
pub fn split_name(line: &[u8]) -> Option<(&[u8], &[u8])>
    ensures value { MatchOption result (words (code line.now) ≡ []) (λ p. words (code line.now) ≡ p.0.now ∷ words p.1.now) }
    ensures rest { IfSome result (λ p. p.1.now ≡ past_word (code line.now)) }
{
    first_word(without_comment(line))
}
