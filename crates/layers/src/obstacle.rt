// What stands on an arc: which arc it is, and what becomes of a reading there.
ghost use Rattle.std.specs.Prelude.{◌≡◌, ℕ, Bool, List, [], ◌∷◌, find, ◌==◌};
ghost use Rattle.std.specs.Option.{option_map};
ghost use Rattle.layers.specs.Layered.{carried_by};
ghost use Rattle.network.specs.Layers.{Layer, layered};
ghost use Rattle.network.specs.Model.{Roads};

use network::Network;

// A list of obstacles is a layer of the model.
pub trait Obstacle: Copy + Default {
    ghost on: { Self → ℕ };

    ghost fits: { Self → Bool };

    ghost layer: { List Self → Layer };

    fn arc(&self) -> u32
        ensures { result ≡ on self.now };

    // Whether it may stand in a layer.
    fn fits(&self) -> bool
        ensures { result ≡ fits self.now };

    // What arrives by its arc where it stands in a layer alone.
    fn carry<N: Network>(&self, below: &N, reading: N::Reading) -> Option<N::Reading>
        ensures { option_map (N.Network.height below.now) result ≡ (layered (layer (self.now ∷ [])) (N.Network.roads below.now)).carry (on self.now) (N.Network.height below.now reading) };

    // In a layer of several, the first that stands on an arc carries as it does alone.
    ghost first: { (xs : List Self) (m : Roads) (a h : ℕ) → (layered (layer xs) m).carry a h ≡ carried_by layer (find (λ x. on x == a) xs) m a h };
}
