// Layers over any guide: closures, whose arcs carry nothing, and detours, whose arcs take longer.
#![tactic(auto)]

mod changing;
mod closure;
mod detour;
mod faults;
mod layer;
mod obstacle;
mod roads;

pub use closure::{Closure, Closures};
pub use detour::{Detour, Detours};
pub use faults::LayerFault;
pub use layer::Layer;
pub use obstacle::Obstacle;
