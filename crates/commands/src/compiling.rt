// From a design to a listing.
ghost use Rattle.std.specs.Prelude.{◌≡◌, IfOk, None};
ghost use Rattle.fabric.specs.Code.{size_of};
ghost use Rattle.fabric.specs.Numbers.{size_refusal};
ghost use Rattle.commands.specs.Sayings.{SaysCompiled};

use crate::said::Said;
use crate::texts::{line_of, refused, text_of};
use fabric::size::Size;
use listings::parts::Listing;
use messages::trouble::{Asked, Trouble};
use putting::numbers::numbers;
use putting::putting::compiled;
use putting::unput::Unput;
use std::alloc::{AllocError, Global};

// The listing's text.
fn printed(heap: Global, listing: &Listing) -> Result<Said, AllocError>
    ensures { IfOk result (λ s. size_refusal (size_of listing.now.grid) ≡ None → SaysCompiled (size_of listing.now.grid) s) }
{
    Ok(Said::Answer(listing.print(heap)?))
}

// Puts a design on a fabric. A match, and no `?`: want of memory goes on, and a refusal is said.
fn compile_asked(heap: Global, asked: Asked) -> Result<Said, AllocError>
    ensures { IfOk result (λ s. SaysCompiled asked.entry.size s) }
{
    match compiled(heap, asked.size, asked.numbers) {
        Ok(listing) => printed(heap, &listing),
        Err(Unput::Memory) => Err(AllocError),
        Err(Unput::Turned(refusal)) => refused(heap, Trouble::Design { refusal, asked }),
    }
}

// A match for the same reason.
fn compile_text(heap: Global, size: Size, text: &str) -> Result<Said, AllocError>
    ensures { IfOk result (λ s. SaysCompiled size s) }
{
    match numbers(heap, text) {
        Ok(numbers) => {
            let numbers = numbers.as_slice();
            compile_asked(heap, Asked { size, numbers })
        }
        Err(Unput::Memory) => Err(AllocError),
        Err(Unput::Turned(refusal)) => {
            refused(heap, Trouble::Numbers(line_of(text, refusal.place())))
        }
    }
}

// Puts a design in numbers on a fabric. Only want of memory is an error here.
pub fn compile(heap: Global, size: Size, design: &[u8]) -> Result<Said, AllocError>
    ensures { IfOk result (λ s. SaysCompiled size s) }
{
    match text_of("design", design) {
        Ok(text) => compile_text(heap, size, text),
        Err(trouble) => refused(heap, trouble),
    }
}
