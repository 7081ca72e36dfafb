// Designs in numbers put on a fabric, as listings.
#![tactic(auto)]

pub mod numbers;
pub mod pinning;
pub mod putting;
pub mod unput;
pub mod widths;
