// An entry of a row: a site, and the time to it.
ghost use Rattle.std.specs.Prelude.{◌≡◌};

#[derive(Clone, Copy, PartialEq, Eq, Debug, Default)]
pub struct Entry {
    pub site: u32,
    pub time: u32,
}
