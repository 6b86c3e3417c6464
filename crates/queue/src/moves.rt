// An item moves towards its place in the heap.
ghost use Rattle.std.specs.Prelude.{◌≡◌, ℕ, ◌+◌, ◌*◌, ◌/◌, ◌^◌, ◌<◌, ◌≤◌, false, length};
ghost use Rattle.queue.specs.Room.{item, Swapped, held};
ghost use Rattle.queue.specs.Heap.{Placed, Put, Kept, Child, Heap, Loose, Gap};

use crate::keyed::Keyed;
use crate::room::Room;
use crate::slot::Slot;

impl<T: Keyed> Room<'_, T> {
    // x stands at `at`, and the slot of its handle keeps that.
    pub(crate) fn put(&mut self, at: usize, x: T)
        requires inside { at < length (held self.old) }
        requires short { at < 2 ^ 32 }
        requires fits { T.handled x < length (held self.old) }
        ensures len { self.new.len ≡ self.old.len }
        ensures put { Put T.handled (held self.old) (held self.new) at x }
    {
        self.slots[at].item = x;
        self.slots[x.handle() as usize].place = at as u32;
    }

    // The items at i and j trade places.
    pub(crate) fn swap(&mut self, i: usize, j: usize)
        requires placed { Placed T.handled (held self.old) self.old.len }
        requires i_inside { i < self.old.len }
        requires j_inside { j < self.old.len }
        ensures len { self.new.len ≡ self.old.len }
        ensures kept { Kept T.handled (held self.old) (held self.new) self.old.len }
        ensures items { (d : Slot T) → Swapped (item (held self.old) d) (item (held self.new) d) i j }
    {
        let x = self.slots[i].item;
        let y = self.slots[j].item;
        self.put(i, y);
        self.put(j, x);
    }

    // Whether the item at i is before the one at j.
    pub(crate) fn earlier(&self, i: usize, j: usize) -> bool
        requires i_inside { i < length (held self.now) }
        requires j_inside { j < length (held self.now) }
        ensures { (d : Slot T) → result ≡ T.before (item (held self.now) d i) (item (held self.now) d j) }
    {
        let slots = &*self.slots;
        slots[i].item < slots[j].item
    }

    // The item at `from` trades places with its parent for as long as it is before it; where it then stands.
    #[inline(always)]
    pub(crate) fn rise(&mut self, from: usize) -> usize
        requires placed { Placed T.handled (held self.old) self.old.len }
        requires inside { from < self.old.len }
        requires loose { (d : Slot T) → Loose T.before (item (held self.old) d) self.old.len from }
        ensures len { self.new.len ≡ self.old.len }
        ensures kept { Kept T.handled (held self.old) (held self.new) self.old.len }
        ensures inside { result < self.old.len }
        ensures gap { (d : Slot T) → Gap T.before (item (held self.new) d) self.old.len result }
    {
        let mut j = from;
        while j > 0 {
            let parent = (j - 1) / 2;
            if !self.earlier(j, parent) {
                return j;
            }
            self.swap(j, parent);
            j = parent;
        }
        j
    }

    // The child of j that no other child is before.
    pub(crate) fn least_child(&self, j: usize) -> usize
        requires fits { self.now.len ≤ length (held self.now) }
        requires inside { j < self.now.len / 2 }
        ensures inside { result < self.now.len }
        ensures child { Child j result }
        ensures least { (d : Slot T) (k : ℕ) → Child j k → k < self.now.len → T.before (item (held self.now) d k) (item (held self.now) d result) ≡ false }
    {
        let len = self.len;
        let left = j * 2 + 1;
        let right = left + 1;
        if right < len && self.earlier(right, left) {
            right
        } else {
            left
        }
    }

    // The item at `from` trades places with its least child for as long as that is before it.
    #[inline(always)]
    pub(crate) fn sink(&mut self, from: usize)
        requires placed { Placed T.handled (held self.old) self.old.len }
        requires gap { (d : Slot T) → Gap T.before (item (held self.old) d) self.old.len from }
        ensures len { self.new.len ≡ self.old.len }
        ensures kept { Kept T.handled (held self.old) (held self.new) self.old.len }
        ensures heap { (d : Slot T) → Heap T.before (item (held self.new) d) self.old.len }
    {
        let mut j = from;
        while j < self.len / 2 {
            let child = self.least_child(j);
            if !self.earlier(child, j) {
                return;
            }
            self.swap(j, child);
            j = child;
        }
    }

    // One item may stand wrongly, at j: it rises or sinks.
    #[inline(always)]
    pub(crate) fn repair(&mut self, j: usize)
        requires placed { Placed T.handled (held self.old) self.old.len }
        requires inside { j < self.old.len }
        requires loose { (d : Slot T) → Loose T.before (item (held self.old) d) self.old.len j }
        ensures len { self.new.len ≡ self.old.len }
        ensures kept { Kept T.handled (held self.old) (held self.new) self.old.len }
        ensures heap { (d : Slot T) → Heap T.before (item (held self.new) d) self.old.len }
    {
        let at = self.rise(j);
        self.sink(at);
    }
}
