// The program that puts a design on a fabric, and prints the listing of the fabric's bits and pins.
ghost use Rattle.std.specs.Prelude.{◌≡◌, ◌<◌, false, length, is_ok};

use crate::compiling::compile;
use crate::files::{Failed, fail, load, print, say};
use entries::lines::read_size;
use fabric::size::Size;

const HELP: &str = "compile: put a design on a fabric

  compile --numbers FILE fabric ROWS COLUMNS TRACKS

FILE has a design in numbers, decimal and separated by white space; - is standard input. The numbers are: how many
inputs, registers, outputs and nodes there are; the width of each input; for each register its width, the number that it
begins with and its node; for each output its node; four numbers for each node, its kind and its operands:
  0 input, 1 register, 2 constant of a width and a value, 3 and, 4 or, 5 xor, 6 not, 7 add, 8 less, 9 equal,
  10 mux (choice, one, zero), 11 slice (low bit, width, node), 12 concat (high, low)
A node names earlier nodes only. A fabric has 1 to 32 rows, 1 to 32 columns and 1 to 64 tracks.

It prints a listing, which simulate plays: the fabric, its cells and tracks, and the pins of the inputs i0, i1, ..
and of the outputs o0, o1, ... Where the design can't be put on the fabric it prints nothing, says why on standard
error, in a line that begins `refused N at PLACE: `, and ends with status 1.
";

const NO_TEXTS: &str =
    "designs as texts can't be read yet: give a design in numbers, by --numbers FILE";

const USAGE: &str =
    "write: compile --numbers FILE fabric ROWS COLUMNS TRACKS (compile --help says more)";

// compile --numbers FILE fabric ROWS COLUMNS TRACKS
fn compile_file(rt: &HostRuntime, file: &str, size: Size) -> Result<(), Failed> {
    let design = load(rt, file)?;
    say(rt, compile(rt.alloc(), size, design.as_slice()))
}

// What `compile` does with its words, its own name first; with none but that it fails. Where it fails, it has said why on
// standard error.
pub fn run(rt: &HostRuntime, words: &[String]) -> Result<(), Failed>
    ensures { length words.now < 2 → is_ok result ≡ false }
{
    match words {
        [_, help, ..] if help.as_str() == "--help" => print(rt, HELP),
        [_, numbers, file, fabric, rows, columns, tracks]
            if numbers.as_str() == "--numbers" && fabric.as_str() == "fabric" => {
            match read_size(rows.as_str(), columns.as_str(), tracks.as_str()) {
                Some(size) => compile_file(rt, file.as_str(), size),
                None => fail(rt, USAGE),
            }
        }
        [_, _, fabric, _, _, _] if fabric.as_str() == "fabric" => fail(rt, NO_TEXTS),
        _ => fail(rt, USAGE),
    }
}
