// Bytes as texts, and refusals of texts.
ghost use Rattle.std.specs.Prelude.{◌≡◌, IfOk};
ghost use Rattle.commands.specs.Sayings.{SaysRefusal};

use crate::said::Said;
use messages::refusing::message;
use messages::trouble::{Line, Trouble};
use std::alloc::{AllocError, Global};

// How many lines end in these bytes.
fn newlines(bytes: &[u8]) -> u64 {
    bytes.iter().filter(|b| **b == b'\n').count() as u64
}

// The text of the bytes of a design, a listing or a stream, unless they are none.
pub(crate) fn text_of<'a>(of: &'a str, bytes: &'a [u8]) -> Result<&'a str, Trouble<'a>>
    ensures { IfOk result (λ t. t.now ≡ bytes.now) }
{
    std::str::from_utf8(bytes).map_err(|e| Trouble::Bytes {
        of,
        line: newlines(&bytes[..e.valid_up_to()]),
    })
}

// A line of a text, by its number; empty past the end.
pub(crate) fn line_of(text: &str, number: u64) -> Line {
    let text = text.split('\n').nth(number as usize).unwrap_or("");
    Line { number, text }
}

// Says why something is turned away.
pub(crate) fn refused(heap: Global, trouble: Trouble) -> Result<Said, AllocError>
    ensures { IfOk result (λ s. SaysRefusal s) }
{
    Ok(Said::Refusal(message(heap, trouble)?))
}
