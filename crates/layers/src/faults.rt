// Why a layer is not changed.
ghost use Rattle.std.specs.Prelude.{◌≡◌};
ghost use Rattle.layers.specs.Faults.{layer_fault};

use network::Refusal;

#[derive(Clone, Copy, PartialEq, Eq, Debug)]
pub enum LayerFault {
    NoSuchArc,
    Units,
    Full,
    Already,
    NotThere,
}

impl From<LayerFault> for Refusal {
    ghost from_gives = { λ fault said. said ≡ layer_fault fault };

    fn from(fault: LayerFault) -> Refusal {
        Refusal::of_call(match fault {
            LayerFault::NoSuchArc => 19,
            LayerFault::Units => 20,
            LayerFault::Full => 35,
            LayerFault::Already => 36,
            LayerFault::NotThere => 37,
        })
    }
}
