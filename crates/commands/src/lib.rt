// The two programs: from what they read to what they print.
#![tactic(auto)]

pub mod compiler;
pub mod compiling;
pub mod files;
pub mod said;
pub mod simulating;
pub mod simulator;
mod texts;
