// Puts a design on a fabric, and prints the listing of the fabric's bits and pins.
#![tactic(auto)]

use commands::compiler::run;
use commands::files::{Failed, arguments};
use std::process::ExitCode;

// Where it fails it has said why, so all that is left is the status.
fn main(rt: HostRuntime) -> ExitCode {
    match arguments(&rt).and_then(|words| run(&rt, words.as_slice())) {
        Ok(()) => ExitCode::SUCCESS,
        Err(Failed) => ExitCode::FAILURE,
    }
}
