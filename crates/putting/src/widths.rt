// The widths of a design's inputs and outputs.
ghost use Rattle.std.specs.Prelude.{◌≡◌, IfOk, vec_len};
ghost use Rattle.design.specs.Encodings.{list_of};
ghost use Rattle.design.specs.Numbers.{inputs_of, outputs_of};

use design::analysis::Analysis;
use design::encoded::Encoded;
use design::soundness::output_width;
use std::alloc::{AllocError, Global};

// The width of each input.
pub(crate) fn input_widths(heap: Global, design: Encoded<'_>) -> Result<Vec<u16>, AllocError>
    ensures { IfOk result (λ v. vec_len v ≡ inputs_of (list_of design.entry)) }
{
    (0..design.inputs())
        .map(|input| design.input_width(input))
        .collect(heap)
}

// The width of each output, where it is sound.
pub fn output_widths(heap: Global, design: Encoded<'_>) -> Result<Vec<u16>, AllocError>
    ensures { IfOk result (λ v. vec_len v ≡ outputs_of (list_of design.entry)) }
{
    let analysis = Analysis::new(design);
    (0..design.outputs())
        .map(|output| output_width(&analysis, output))
        .collect(heap)
}

// The sum of widths.
pub(crate) fn bits(widths: &[u16]) -> usize {
    widths
        .iter()
        .fold(0usize, |sum, width| sum.saturating_add(*width as usize))
}
