// The lists that every kind of roads has, once they are checked.
ghost use Rattle.std.specs.Prelude.{◌≡◌, ◌-◌, false, length, is_some};
ghost use Rattle.network.specs.Lists.{arcs_refusal, sites_refusal};

// Arc starts by junction and one more, an arc's head, and a site's junction.
#[derive(Drop)]
pub struct Streets {
    pub starts: Vec<u32>,
    pub heads: Vec<u32>,
    pub sites: Vec<u32>,
    ghost arcs: { is_some (arcs_refusal starts.items heads.items) ≡ false },
    ghost sited: { is_some (sites_refusal (length starts.items - 1) sites.items) ≡ false },
}
