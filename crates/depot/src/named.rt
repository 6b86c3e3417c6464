// Things that are found by their names.
ghost use Rattle.std.specs.Prelude.{◌≡◌, ℕ, List};
ghost use Rattle.depot.specs.Named.{find_named};

pub trait Named: Copy {
    ghost called: { Self → List ℕ };

    fn name(&self) -> &'static [u8]
        ensures { result.now ≡ called self.now };
}

// Things that can all be listed.
pub trait Listed: Named + 'static {
    ghost every: { List Self };

    fn all() -> &'static [Self]
        ensures { result.now ≡ every };
}

pub fn find_named<T: Named>(all: &[T], name: &[u8]) -> Option<T>
    ensures { result ≡ find_named T.Named.called all.now name.now }
{
    all.iter().find(|one| one.name() == name).copied()
}

// The same, among all that there are.
pub fn by_name<T: Listed>(name: &[u8]) -> Option<T>
    ensures { result ≡ find_named T.Named.called T.Listed.every name.now }
{
    find_named(T::all(), name)
}
