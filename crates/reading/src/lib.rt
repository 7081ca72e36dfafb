// The reading of listings.
#![tactic(auto)]

mod draft;
pub mod lines;
mod ports;
pub mod unread;
