// Listings: a configured fabric and its pins, and how they are printed.
#![tactic(auto)]

pub mod parts;
pub mod printing;
