// The fabric: cells and tracks, what its bits make of it, and how it settles.
#![tactic(auto)]

pub mod grid;
pub mod laws;
pub mod parts;
mod places;
mod reading;
pub mod size;
mod sweeping;
pub mod ticking;
mod wiring;
mod writing;
