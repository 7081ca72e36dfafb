// Texts cut into lines and words.
ghost use Rattle.std.specs.Prelude.{IfOk};
ghost use Rattle.words.specs.Cuts.{Lines, Words};

use std::alloc::{AllocError, Global};

// The lines of a text; what follows the last newline counts if it isn't empty.
pub fn lines(heap: Global, text: &str) -> Result<Vec<&str>, AllocError>
    ensures { IfOk result (λ v. Lines text.now v.items) }
{
    text.split_terminator('\n').collect(heap)
}

// The words of a line, which spaces separate.
pub fn words(heap: Global, line: &str) -> Result<Vec<&str>, AllocError>
    ensures { IfOk result (λ v. Words line.now v.items) }
{
    line.split(' ')
        .filter(|piece| !piece.is_empty())
        .collect(heap)
}
