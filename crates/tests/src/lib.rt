// A worked example as a theorem, and the tests of all crates. They stand apart, since a crate with tests is proved twice.
#![tactic(auto)]

#[cfg(test)]
mod designs;
#[cfg(test)]
mod fabrics;
#[cfg(test)]
mod layouts;
#[cfg(test)]
mod refusals;
#[cfg(test)]
mod runs;
#[cfg(test)]
mod support;
pub mod worked;
