// Designs in numbers: read, checked, counted.
#![tactic(auto)]

pub mod analysis;
pub mod counts;
pub mod encoded;
mod faults;
mod layout;
pub mod lookup;
pub mod node;
mod pass;
pub mod refusal;
pub mod soundness;
mod summary;
