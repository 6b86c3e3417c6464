// What waits for a junction.
ghost use Rattle.queue.specs.Keys.{key_handle, key_before};
ghost use Rattle.std.proofs.Common.{arith};
ghost use Rattle.std.proofs.lemmas.Bool.Decides.{nat_tests};

use crate::keyed::Keyed;

// A height, and the junction, which is the key's handle: ordered by height, and of equal heights by junction.
#[derive(Clone, Copy, PartialEq, Eq, PartialOrd, Ord)]
pub struct Key {
    pub height: u64,
    pub junction: u32,
}

impl Keyed for Key {
    ghost handled = { key_handle };

    ghost before = { key_before };

    ghost ordered = { λ k l. Prim.grind (arith, nat_tests) };

    ghost level = { λ k l e. Prim.grind (arith, nat_tests) };

    fn handle(&self) -> u32 {
        self.junction
    }
}
