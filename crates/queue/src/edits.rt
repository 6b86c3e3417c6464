// Where an item of a queue stands, and how it changes, comes and leaves.
ghost use Rattle.std.specs.Prelude.{◌≡◌, ◌^◌, ◌<◌, Some, None, IfSome, MatchOption};
ghost use Rattle.queue.specs.Queues.{capacity, waiting};
ghost use Rattle.queue.specs.Room.{item, held};
ghost use Rattle.queue.specs.Waiting.{Updated};

use crate::keyed::Keyed;
use crate::queue::Queue;
use crate::slot::Slot;

impl<T: Keyed> Queue<'_, T> {
    // Where the item with this handle stands.
    pub(crate) fn find(&self, handle: u32) -> Option<usize>
        ensures inside { IfSome result (λ p. p < self.now.room.len) }
        ensures what { MatchOption result (waiting self.now handle ≡ None) (λ p. (d : Slot T) → waiting self.now handle ≡ Some (item (held self.now.room) d p)) }
    {
        let slots = &*self.room.slots;
        let place = slots.get(handle as usize)?.place as usize;
        (place < self.room.len && slots[place].item.handle() == handle).then_some(place)
    }

    // x takes the place of the item at `at`, which has the same handle.
    #[inline(always)]
    pub(crate) fn replace(&mut self, at: usize, x: T)
        requires inside { at < self.old.room.len }
        requires own { (d : Slot T) → waiting self.old (T.handled x) ≡ Some (item (held self.old.room) d at) }
        ensures capacity { capacity self.new ≡ capacity self.old }
        ensures updated { Updated (waiting self.old) (waiting self.new) (T.handled x) (Some x) }
    {
        self.room.put(at, x);
        self.room.repair(at);
    }

    // x joins the others; nothing waited under its handle.
    #[inline(always)]
    pub(crate) fn push(&mut self, x: T)
        requires fits { T.handled x < capacity self.old }
        requires short { T.handled x < 2 ^ 32 }
        requires free { waiting self.old (T.handled x) ≡ None }
        ensures capacity { capacity self.new ≡ capacity self.old }
        ensures updated { Updated (waiting self.old) (waiting self.new) (T.handled x) (Some x) }
    {
        let last = self.room.len;
        self.room.put(last, x);
        self.room.len = last + 1;
        self.room.repair(last);
    }

    // The item at `at` leaves.
    #[inline(always)]
    pub(crate) fn remove_at(&mut self, at: usize)
        requires inside { at < self.old.room.len }
        ensures capacity { capacity self.new ≡ capacity self.old }
        ensures updated { (d : Slot T) → Updated (waiting self.old) (waiting self.new) (T.handled (item (held self.old.room) d at)) None }
    {
        let last = self.room.len - 1;
        self.room.swap(at, last);
        self.room.len = last;
        if at < last {
            self.room.repair(at);
        }
    }
}
