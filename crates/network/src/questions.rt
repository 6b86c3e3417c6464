// The questions that roads of every kind answer.
ghost use Rattle.std.specs.Prelude.{◌≡◌, ℕ, Bool, true, nat_lt};
ghost use Rattle.std.specs.Option.{option_map};
ghost use Rattle.network.specs.Estimates.{Estimate, Admissible};
ghost use Rattle.network.specs.Laws.{WellFormed, Lawful};
ghost use Rattle.network.specs.Model.{Roads, there, leaving};
ghost use Rattle.network.specs.Sets.{has};

use crate::sites::SiteSet;

// Roads answer alike each time. A reading says how far a van has come, in its kind's units; its height is a whole
// number below 2^48, and the lesser reading has the lesser height. What is not there is answered nothing.
pub trait Network {
    type Reading: Copy;

    ghost height: { Self → Self.Reading → ℕ };

    ghost roads: { Self → Roads };

    fn junctions(&self) -> u32
        ensures { result ≡ (roads self.now).junctions };

    fn arcs(&self) -> u32
        ensures { result ≡ (roads self.now).arcs };

    fn sites(&self) -> u32
        ensures { result ≡ (roads self.now).sites };

    fn tail(&self, arc: u32) -> Option<u32>
        ensures { result ≡ there (roads self.now).arcs (roads self.now).tail arc };

    fn head(&self, arc: u32) -> Option<u32>
        ensures { result ≡ there (roads self.now).arcs (roads self.now).head arc };

    // The junction's outgoing arcs by rising number: the first at or after `from`.
    fn next_arc(&self, junction: u32, from: u32) -> Option<u32>
        ensures { result ≡ leaving (roads self.now).arcs (roads self.now).tail junction from };

    fn place(&self, site: u32) -> Option<u32>
        ensures { result ≡ there (roads self.now).sites (roads self.now).place site };

    fn start(&self, number: u32) -> Option<Self::Reading>
        ensures { option_map (height self.now) result ≡ (roads self.now).start number };

    fn less(&self, one: Self::Reading, other: Self::Reading) -> bool
        ensures { result ≡ nat_lt (height self.now one) (height self.now other) };

    fn height(&self, reading: Self::Reading) -> u64
        ensures { result ≡ height self.now reading };

    fn carry(&self, arc: u32, reading: Self::Reading) -> Option<Self::Reading>
        ensures { option_map (height self.now) result ≡ (roads self.now).carry arc (height self.now reading) };

    fn lengthen(&self, reading: Self::Reading, units: u32) -> Option<Self::Reading>
        ensures { option_map (height self.now) result ≡ (roads self.now).lengthen units (height self.now reading) };

    ghost wellformed: { (s : Self) → WellFormed (roads s) };

    ghost lawful: { (s : Self) → Lawful (roads s) };

    ghost reads: { (s : Self) (r : Self.Reading) → (roads s).reads (height s r) ≡ true };

    ghost same: { (s : Self) (q r : Self.Reading) → height s q ≡ height s r → q ≡ r };
}

// A guide is roads that also answer an estimate: not less than the reading, and not greater than the reading of any
// path from the junction to a wanted site; nothing only where no such path is.
pub trait Guide: Network {
    ghost guess: { Self → Estimate };

    fn estimate(
        &self,
        junction: u32,
        reading: Self::Reading,
        wanted: &SiteSet,
    ) -> Option<Self::Reading>
        ensures { option_map (Self.Network.height self.now) result ≡ guess self.now junction (Self.Network.height self.now reading) (has wanted.now) };

    ghost admissible: { (s : Self) → Admissible (Self.Network.roads s) (guess s) };
}
