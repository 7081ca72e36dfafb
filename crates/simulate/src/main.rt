// Plays a stream on a listing, and prints what is shown tick by tick.
#![tactic(auto)]

use commands::files::{Failed, arguments};
use commands::simulator::run;
use std::process::ExitCode;

// Where it fails it has said why, so all that is left is the status.
fn main(rt: HostRuntime) -> ExitCode {
    match arguments(&rt).and_then(|words| run(&rt, words.as_slice())) {
        Ok(()) => ExitCode::SUCCESS,
        Err(Failed) => ExitCode::FAILURE,
    }
}
