// Examined length tables.
ghost use Rattle.std.specs.Prelude.{◌≡◌, true, length};
ghost use Rattle.length.specs.Metres.{measured};

use network::Streets;

#[derive(Drop)]
pub struct LengthRoads {
    pub(crate) streets: Streets,
    pub(crate) metres: Vec<u32>,
    ghost long: { measured (length streets.heads.items) metres.items ≡ true },
}
