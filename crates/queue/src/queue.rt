// A queue: its slots keep a heap in every state that a caller sees.
ghost use Rattle.std.proofs.Props.{props};
ghost use Rattle.queue.specs.Heap.{Whole};

use crate::keyed::Keyed;
use crate::room::Room;

#[derive(Drop)]
pub struct Queue<'a, T: Keyed> {
    pub(crate) room: Room<'a, T>,
    ghost whole: { Whole T.handled T.before room } by { Prim.hlevel props },
}
