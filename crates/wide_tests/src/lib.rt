// Worked examples as a theorem, and tests of every sound design put on a fabric. They stand apart, since a crate with tests is proved twice.
#![tactic(auto)]

#[cfg(test)]
mod refusals;
#[cfg(test)]
mod runs;
#[cfg(test)]
mod support;
#[cfg(test)]
mod words;
pub mod worked;
