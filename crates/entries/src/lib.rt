// What the lines of a listing say.
#![tactic(auto)]

pub mod entry;
pub mod fields;
pub mod lines;
