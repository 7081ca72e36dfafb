// Refusals in plain words.
#![tactic(auto)]

mod designs;
pub mod refusing;
mod texts;
pub mod trouble;
