// Streams, and the playing of a stream on a listing.
#![tactic(auto)]

pub mod player;
mod state;
mod streams;
pub mod unplayed;
