// The playing of a stream on a configured fabric.
ghost use Rattle.std.specs.Prelude.{vec_len, OnOk};
ghost use Rattle.streams.specs.Lines.{Playable};

use crate::state::State;
use crate::streams::{Stream, read_stream};
use crate::unplayed::Unplayed;
use fabric::ticking::Done;
use listings::parts::Listing;
use std::alloc::Global;

// What a fabric shows tick by tick. It ends where the fabric doesn't settle. `Done` is no `Result`, so a refusal goes on by hand.
fn shown(heap: Global, listing: &Listing, stream: &Stream) -> Result<String, Unplayed> {
    let mut out = String::new(heap);
    let mut state = State::new(heap, listing)?;
    for at in 0..stream.ticks {
        match state.play(stream.tick(at)) {
            Done::Ticked => state.print(&mut out)?,
            Done::Restless => {
                write!(out, "restless at {at}\n")?;
                break;
            }
            Done::Turned(refusal) => return Err(Unplayed::from(refusal)),
        }
    }
    Ok(out)
}

// What a fabric shows to a stream, a line for each tick. It is all read before it is played.
pub fn play(heap: Global, listing: &Listing, text: &str) -> Result<String, Unplayed>
    ensures { OnOk result (Playable (vec_len listing.now.inputs) text.now) }
{
    let stream = read_stream(heap, text, listing.inputs.as_slice())?;
    shown(heap, listing, &stream)
}
