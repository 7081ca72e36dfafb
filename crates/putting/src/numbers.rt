// The numbers of a text.
ghost use Rattle.std.specs.Prelude.{IfErr};
ghost use Rattle.putting.specs.Refusing.{AtLine, Unreadable};

use crate::unput::Unput;
use design::refusal::Refusal;
use std::alloc::Global;
use words::numbers::decimal_or_most;
use words::walking::Lines;

// The numbers of a line go after those before.
fn add_line(numbers: &mut Vec<u64>, text: &str, line: usize) -> Result<(), Unput>
    ensures { IfErr result (λ u. AtLine line u) }
{
    let unreadable = Refusal::Text { line: line as u64 };
    for word in text.split_whitespace() {
        numbers.push(decimal_or_most(word).ok_or(unreadable)?)?;
    }
    Ok(())
}

// The decimal numbers of a text, separated by white space; one above 64 bits counts as the largest of 64 bits.
pub fn numbers(heap: Global, text: &str) -> Result<Vec<u64>, Unput>
    ensures { IfErr result (λ u. Unreadable text.now u) }
{
    let mut numbers = Vec::new(heap);
    for (line, part) in Lines::new(text).enumerate() {
        add_line(&mut numbers, part, line)?;
    }
    Ok(numbers)
}
