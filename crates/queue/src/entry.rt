// What waits for a junction, with a load.
ghost use Rattle.queue.specs.Entries.{entry_handle, entry_before};
ghost use Rattle.std.proofs.Common.{arith};
ghost use Rattle.std.proofs.lemmas.Bool.Decides.{nat_tests};

use crate::key::Key;
use crate::keyed::Keyed;

// A key, and what it carries, which counts for nothing in the order.
#[derive(Clone, Copy)]
#[derive_where(PartialEq, Eq, PartialOrd, Ord)]
pub struct Entry<P> {
    pub key: Key,
    #[derive_where(skip(EqHashOrd))]
    pub load: P,
}

impl<P: Copy> Keyed for Entry<P> {
    ghost handled = { entry_handle };

    ghost before = { entry_before };

    ghost ordered = { λ e f. Prim.grind (arith, nat_tests) };

    ghost level = { λ e f l. Prim.grind (arith, nat_tests) };

    fn handle(&self) -> u32 {
        self.key.handle()
    }
}
