// Files, standard streams and how a program ends. Of what the system gives no contract can speak.
ghost use Rattle.std.specs.Prelude.{◌≡◌, false, is_ok};

use crate::said::Said;
use std::alloc::AllocError;
use std::io::Read;
use std::{env, fs, io};

// The program has said on standard error what is wrong.
#[derive(Clone, Copy, Debug, PartialEq, Eq)]
pub struct Failed;

// Says what is wrong, where that can be printed.
fn report(rt: &HostRuntime, message: &str) -> Failed {
    let _ = rt.eprintln(message);
    Failed
}

// Says what is wrong.
pub fn fail(rt: &HostRuntime, message: &str) -> Result<(), Failed>
    ensures { is_ok result ≡ false }
{
    Err(report(rt, message))
}

// The words of the command, the program's own name first.
pub fn arguments(rt: &HostRuntime) -> Result<Vec<String>, Failed> {
    let words = env::args(rt).map_err(|_| report(rt, "the arguments can't be read"))?;
    words
        .collect(rt.alloc())
        .map_err(|_| report(rt, "there isn't enough memory"))
}

// Prints a text.
pub(crate) fn print(rt: &HostRuntime, text: &str) -> Result<(), Failed> {
    rt.print(text)
        .map_err(|_| report(rt, "can't write to standard output"))
}

// All of a file, or of standard input for `-`.
fn read_all(rt: &HostRuntime, path: &str) -> io::Result<Vec<u8>> {
    if path != "-" {
        return fs::read(rt, path);
    }
    let mut bytes = Vec::new(rt.alloc());
    rt.stdin().read_to_end(&mut bytes)?;
    Ok(bytes)
}

// All of a file, or of standard input for `-`; else it says that there is none.
pub(crate) fn load(rt: &HostRuntime, path: &str) -> Result<Vec<u8>, Failed> {
    read_all(rt, path).map_err(|e| {
        let _ = eprintln!(rt; "can't read {path:?}: {e}");
        Failed
    })
}

// Prints an answer, or says why there is none.
pub(crate) fn say(rt: &HostRuntime, said: Result<Said, AllocError>) -> Result<(), Failed> {
    match said {
        Ok(Said::Answer(text)) => print(rt, text.as_str()),
        Ok(Said::Refusal(message)) => fail(rt, message.as_str()),
        Err(_) => fail(rt, "there isn't enough memory"),
    }
}
