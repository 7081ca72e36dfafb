// The message of a refusal.
ghost use Rattle.std.specs.Prelude.{◌≡◌, ℕ, List, ◌++◌, IfOk, string_bytes};
ghost use Rattle.messages.specs.Begun.{refused_text, refusal_in};

use crate::designs::write_design;
use crate::texts::{write_bytes, write_listing, write_numbers, write_size, write_stream};
use crate::trouble::Trouble;
use std::alloc::{AllocError, Global};
use std::fmt;

// What is wrong, and how to mend it where that is known.
#[derive(Clone, Copy)]
struct Plain<'a>(Trouble<'a>);

impl fmt::Display for Plain<'_> {
    fn fmt<W: fmt::Write>(&self, f: &mut fmt::Formatter<W>) -> fmt::Result {
        match self.0 {
            Trouble::Bytes { of, line } => write_bytes(f, of, line),
            Trouble::Numbers(line) => write_numbers(f, line),
            Trouble::Listing { line, formed } => write_listing(f, line, formed),
            Trouble::Stream { line, inputs } => write_stream(f, line, inputs),
            Trouble::Size { refusal, text } => write_size(f, refusal, text),
            Trouble::Design { refusal, asked } => write_design(f, refusal, asked),
        }
    }
}

// The message: `refused N at PLACE: `, and what is wrong in plain words. The head is put in front of the words, since nothing is known of
// a text once a `Plain` is written to it; so there is only one long text.
pub fn message(heap: Global, trouble: Trouble) -> Result<String, AllocError>
    ensures { IfOk result (λ s. ((words : List ℕ) × (string_bytes s ≡ refused_text (refusal_in trouble.entry) ++ words))) }
{
    let refusal = trouble.refusal();
    let plain = Plain(trouble);
    let head = format!(in heap; "{refusal}: ")?;
    let mut text = format!(in heap; "{plain}")?;
    text.insert_str(0, head.as_str())?;
    Ok(text)
}
