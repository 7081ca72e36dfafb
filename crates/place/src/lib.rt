// Where each cell of a netlist stands on the fabric.
#![tactic(auto)]

pub mod laws;
pub mod plain;
