// What a queue is asked.
ghost use Rattle.std.specs.Prelude.{◌≡◌, ℕ, ◌+◌, ◌<◌, ◌≤◌, length, Some, None, ◌==◌};
ghost use Rattle.queue.specs.Queues.{capacity, waiting, waiting_count, Belongs};
ghost use Rattle.queue.specs.Waiting.{Updated, Without, least_of};
ghost use Rattle.std.specs.Option.{option_len};

use crate::keyed::Keyed;
use crate::queue::Queue;
use crate::room::Room;
use crate::slot::Slot;

impl<'a, T: Keyed> Queue<'a, T> {
    // Whatever the slots hold, nothing waits yet.
    pub fn new(slots: &'a mut [Slot<T>]) -> Queue<'a, T>
        ensures capacity { capacity result ≡ length slots.old }
        ensures none { (h : ℕ) → waiting result h ≡ None }
    {
        Queue {
            room: Room { slots, len: 0 },
        }
    }

    pub fn capacity(&self) -> usize
        ensures { result ≡ capacity self.now }
    {
        self.room.slots.len()
    }

    // How many wait.
    pub fn len(&self) -> usize
        ensures { result ≡ waiting_count self.now }
    {
        self.room.len
    }

    pub fn is_empty(&self) -> bool
        ensures { result ≡ (waiting_count self.now == 0) }
    {
        self.len() == 0
    }

    // What waits under the handle.
    pub fn waiting(&self, handle: u32) -> Option<T>
        ensures what { result ≡ waiting self.now handle }
        ensures own { Belongs self.now }
    {
        let at = self.find(handle)?;
        Some(self.room.slots[at].item)
    }

    // x waits under its handle, whatever waited there; past the capacity nothing changes.
    #[inline(always)]
    pub fn set(&mut self, x: T)
        ensures capacity { capacity self.new ≡ capacity self.old }
        ensures below { T.handled x < capacity self.old → Updated (waiting self.old) (waiting self.new) (T.handled x) (Some x) }
        ensures past { capacity self.old ≤ T.handled x → (h : ℕ) → waiting self.new h ≡ waiting self.old h }
        ensures count { waiting_count self.new ≤ waiting_count self.old + 1 }
    {
        let handle = x.handle();
        if (handle as usize) < self.capacity() {
            match self.find(handle) {
                Some(at) => self.replace(at, x),
                None => self.push(x),
            }
        }
    }

    // Nothing waits under the handle any more.
    pub fn remove(&mut self, handle: u32)
        ensures capacity { capacity self.new ≡ capacity self.old }
        ensures none { Updated (waiting self.old) (waiting self.new) handle None }
        ensures count { waiting_count self.new ≤ waiting_count self.old }
    {
        if let Some(at) = self.find(handle) {
            self.remove_at(at);
        }
    }

    // The least of what waits, which waits no more.
    #[inline(always)]
    pub fn take_least(&mut self) -> Option<T>
        ensures capacity { capacity self.new ≡ capacity self.old }
        ensures least { result ≡ least_of T.before (waiting self.old) (capacity self.old) }
        ensures without { Without T.handled (waiting self.old) (waiting self.new) result }
        ensures count { waiting_count self.new + option_len result ≡ waiting_count self.old }
    {
        if self.room.len == 0 {
            return None;
        }
        let top = 0;
        let least = self.room.slots[top].item;
        self.remove_at(top);
        Some(least)
    }
}
