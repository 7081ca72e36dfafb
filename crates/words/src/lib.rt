// Texts as lines, words and numbers.
#![tactic(auto)]

pub mod cutting;
pub mod numbers;
pub mod walking;
