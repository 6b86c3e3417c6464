// What can wait in a queue: an element with an order, and a handle, the number that it waits under.
ghost use Rattle.std.specs.Prelude.{◌≡◌, ℕ, Bool, true};
ghost use Rattle.std.specs.Ordering.{is_eq, is_lt};

// Any total order will do in which elements of different handles are never level. `before` says the order in words of
// the element's own, for the contracts.
pub trait Keyed: Copy + Ord {
    ghost handled: { Self → ℕ };

    ghost before: { Self → Self → Bool };

    fn handle(&self) -> u32
        ensures { result ≡ handled self.now };

    ghost ordered: { (x y : Self) → is_lt (Self.cmp x y) ≡ before x y };

    ghost level: { (x y : Self) → is_eq (Self.cmp x y) ≡ true → handled x ≡ handled y };
}
