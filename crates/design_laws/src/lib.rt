// Laws of designs: what the words and operations are as numbers, and that bits past the widths do not matter.
#![tactic(auto)]

pub mod laws;
