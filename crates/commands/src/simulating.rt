// From a listing and a stream to what is shown.
ghost use Rattle.std.specs.Prelude.{IfOk, vec_len};
ghost use Rattle.commands.specs.Sayings.{SaysPlayed, SaysShown};

use crate::said::Said;
use crate::texts::{line_of, refused, text_of};
use fabric::size::Size;
use listings::parts::Listing;
use messages::trouble::{Asked, Trouble};
use reading::lines::read;
use reading::unread::Unread;
use std::alloc::{AllocError, Global};
use streams::player::play;
use streams::unplayed::Unplayed;

// Why a stream isn't played. A match, and no `?`: want of memory goes on, and the others are said.
fn unplayed<'a>(
    listing: &'a Listing,
    text: &'a str,
    why: Unplayed,
) -> Result<Trouble<'a>, AllocError> {
    match why {
        Unplayed::Memory => Err(AllocError),
        Unplayed::Line(line) => Ok(Trouble::Stream {
            line: line_of(text, line as u64),
            inputs: listing.inputs.as_slice(),
        }),
        Unplayed::Turned(refusal) => Ok(Trouble::Design {
            refusal,
            asked: Asked {
                size: Size::from(listing.grid),
                numbers: &[],
            },
        }),
    }
}

// A match, and no `?`: a refusal is said.
fn play_text(heap: Global, listing: &Listing, text: &str) -> Result<Said, AllocError>
    ensures { IfOk result (λ s. SaysPlayed (vec_len listing.now.inputs) text.now s) }
{
    match play(heap, listing, text) {
        Ok(shown) => Ok(Said::Answer(shown)),
        Err(why) => refused(heap, unplayed(listing, text, why)?),
    }
}

fn play_bytes(heap: Global, listing: &Listing, stream: &[u8]) -> Result<Said, AllocError>
    ensures { IfOk result (λ s. SaysPlayed (vec_len listing.now.inputs) stream.now s) }
{
    match text_of("stream", stream) {
        Ok(text) => play_text(heap, listing, text),
        Err(trouble) => refused(heap, trouble),
    }
}

// Why a listing isn't read. A match for the same reason.
fn unread(text: &str, why: Unread) -> Result<Trouble, AllocError> {
    match why {
        Unread::Memory => Err(AllocError),
        Unread::Size(refusal) => Ok(Trouble::Size {
            refusal,
            text: line_of(text, 0).text,
        }),
        Unread::Line { line, formed } => Ok(Trouble::Listing {
            line: line_of(text, line as u64),
            formed,
        }),
    }
}

fn simulate_text(heap: Global, text: &str, stream: &[u8]) -> Result<Said, AllocError>
    ensures { IfOk result (λ s. SaysShown text.now stream.now s) }
{
    match read(heap, text) {
        Ok(listing) => play_bytes(heap, &listing, stream),
        Err(why) => refused(heap, unread(text, why)?),
    }
}

// Plays a stream on a listing. Only want of memory is an error here.
pub fn simulate(heap: Global, listing: &[u8], stream: &[u8]) -> Result<Said, AllocError>
    ensures { IfOk result (λ s. SaysShown listing.now stream.now s) }
{
    match text_of("listing", listing) {
        Ok(text) => simulate_text(heap, text, stream),
        Err(trouble) => refused(heap, trouble),
    }
}
