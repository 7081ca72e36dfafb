// The program that plays a stream on a listing, and prints what is shown tick by tick.
ghost use Rattle.std.specs.Prelude.{◌≡◌, ◌<◌, false, length, is_ok};

use crate::files::{Failed, fail, load, print, say};
use crate::simulating::simulate;

const HELP: &str = "simulate: play a stream on a configured fabric

  simulate LISTING STREAM

LISTING has the fabric, as compile prints it. STREAM has a line for each tick, which gives every input once, in any
order, with a number that fits it, as `a 3 go 1`; if there are no inputs the lines are empty. One of the two may be -,
which is standard input.

It prints a line for each tick, the outputs in their order with their numbers, as `s 0 t 1`. Where the fabric doesn't
settle it prints `restless at N`, with ticks counted from 0, and ends. Where a text can't be read it prints nothing, says
why on standard error, in a line that begins `refused N at PLACE: `, and ends with status 1.

A listing begins with `fabric ROWS COLUMNS TRACKS`; the other lines stand in any order:
  cell N table HHHH from S S S S   what the cell looks up, bit k where its inputs say k, and its four sources
  cell N holds B                   the cell shows what it held, and holds B, 0 or 1, at first
  cell N SIDE T from S             the source of the track T that goes out of the cell on that side
  in NAME BIT at N SIDE T          where a bit of an input goes in, at an edge
  out NAME BIT at N SIDE T         where a bit of an output comes out, at an edge
Cells are counted from 0, row by row. A source S is nothing, own, or a side and a track that comes in there; a side is
right, below, left or above.
";

const USAGE: &str =
    "write: simulate LISTING STREAM, of which one may be - (simulate --help says more)";

// simulate LISTING STREAM
fn simulate_files(rt: &HostRuntime, listing: &str, stream: &str) -> Result<(), Failed> {
    let listing = load(rt, listing)?;
    let inputs = load(rt, stream)?;
    say(
        rt,
        simulate(rt.alloc(), listing.as_slice(), inputs.as_slice()),
    )
}

// What `simulate` does with its words, its own name first; with none but that it fails. Where it fails, it has said why on
// standard error.
pub fn run(rt: &HostRuntime, words: &[String]) -> Result<(), Failed>
    ensures { length words.now < 2 → is_ok result ≡ false }
{
    match words {
        [_, help, ..] if help.as_str() == "--help" => print(rt, HELP),
        [_, listing, stream] if listing.as_str() != "-" || stream.as_str() != "-" => {
            simulate_files(rt, listing.as_str(), stream.as_str())
        }
        _ => fail(rt, USAGE),
    }
}
