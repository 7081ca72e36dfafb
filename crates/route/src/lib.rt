// A way for every net over the fabric.
#![tactic(auto)]

pub mod laws;
pub mod plain;
pub mod routing;
