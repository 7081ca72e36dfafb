// A player of designs: what a design shows to a stream of inputs, tick by tick.
#![tactic(auto)]

mod bits;
mod comparing;
pub mod fault;
mod nodes;
mod operations;
pub mod player;
pub mod stream;
mod width;
mod words;
