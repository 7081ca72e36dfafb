// Whether a design is sound (refusal 5), and what it takes up.
ghost use Rattle.std.specs.Prelude.{◌≡◌, ◌^◌, ◌<◌, min, true, false, ◌&&◌, Some, None, MatchOption, MatchResult, ◌==◌, nat_le};
ghost use Rattle.design.specs.Designs.{register_sound, output_sound, input_sound, register_cells, output_width, output_cells, total};
ghost use Rattle.design.specs.Numbers.{first_failing, soundness_refusal};
ghost use Rattle.design.specs.Summaries.{Summarizes};
ghost use Rattle.design.specs.Encodings.{design_of, Counted};

use crate::analysis::Analysis;
use crate::counts::Counts;
use crate::encoded::{Encoded, Register};
use crate::refusal::Refusal;
use crate::summary::{Summary, capped, width_ok};

fn register_fits(register: Register, next: Summary) -> bool
    ensures { result ≡ ((nat_le 1 register.width && nat_le register.width 64) && (next.formed && next.width == register.width)) }
{
    width_ok(register.width) && next.formed && next.width == register.width
}

// The cells of a register, or nothing where it isn't sound.
fn register_cost(analysis: &Analysis<'_>, k: u16) -> Option<u32>
    ensures { k < (design_of analysis.now.design).registers → MatchOption result
        (register_sound (design_of analysis.now.design) k ≡ false)
        (λ cells. (register_sound (design_of analysis.now.design) k ≡ true)
        × (cells ≡ min 65536 (register_cells (design_of analysis.now.design) k))) }
{
    let register = analysis.design.register(k);
    let next = analysis.summary(register.next);
    register_fits(register, next).then(|| capped(next.cells, register.width as u32))
}

// The cells of all registers, or the first that isn't sound: its number alone, which `check` makes a refusal, since a place counts the
// parts before it too.
fn check_registers(analysis: &Analysis<'_>) -> Result<u32, u16>
    ensures { MatchResult result
        (λ cells. (first_failing (register_sound (design_of analysis.now.design)) (design_of analysis.now.design).registers ≡ None)
        × (cells ≡ min 65536 (total (design_of analysis.now.design).registers (register_cells (design_of analysis.now.design)))))
        (λ k. first_failing (register_sound (design_of analysis.now.design)) (design_of analysis.now.design).registers ≡ Some k) }
{
    let registers = analysis.design.registers();
    let mut cells = 0;
    for k in 0..registers {
        cells = capped(cells, register_cost(analysis, k).ok_or(k)?);
    }
    Ok(cells)
}

fn output_summary(analysis: &Analysis<'_>, k: u16) -> Summary
    ensures { k < (design_of analysis.now.design).outputs →
        Summarizes (design_of analysis.now.design) ((design_of analysis.now.design).output k) result }
{
    analysis.summary(analysis.design.output(k))
}

// The width of a sound output's word.
pub fn output_width(analysis: &Analysis<'_>, output: u16) -> u16
    ensures { output < (design_of analysis.now.design).outputs → output_sound (design_of analysis.now.design) output ≡ true →
        result ≡ output_width (design_of analysis.now.design) output }
{
    output_summary(analysis, output).width
}

#[derive(Clone, Copy)]
struct Outputs {
    bits: u64,
    cells: u32,
    ghost few: { bits < 2 ^ 32 },
}

// The bits and the cells of all outputs, or the first that isn't sound. A loop, as for the registers and the inputs: a chain would be no
// plainer, since it would search first and then go over them again for each sum.
fn check_outputs(analysis: &Analysis<'_>) -> Result<Outputs, u16>
    ensures { MatchResult result
        (λ counts. (first_failing (output_sound (design_of analysis.now.design)) (design_of analysis.now.design).outputs ≡ None)
        × (counts.bits ≡ total (design_of analysis.now.design).outputs (output_width (design_of analysis.now.design)))
        × (counts.cells ≡ min 65536 (total (design_of analysis.now.design).outputs (output_cells (design_of analysis.now.design)))))
        (λ k. first_failing (output_sound (design_of analysis.now.design)) (design_of analysis.now.design).outputs ≡ Some k) }
{
    let outputs = analysis.design.outputs();
    let mut bits: u64 = 0;
    let mut cells = 0;
    for k in 0..outputs {
        let summary = output_summary(analysis, k);
        if !summary.formed {
            return Err(k);
        }
        bits += summary.width as u64;
        cells = capped(cells, capped(summary.cells, summary.width as u32));
    }
    Ok(Outputs { bits, cells })
}

// The bits of all inputs, or the first that isn't sound.
fn check_inputs(design: Encoded<'_>) -> Result<u64, u16>
    ensures { MatchResult result
        (λ bits. (first_failing (input_sound (design_of design.entry)) (design_of design.entry).inputs ≡ None)
        × (bits ≡ total (design_of design.entry).inputs (design_of design.entry).input_width)
        × (bits < 2 ^ 32))
        (λ k. first_failing (input_sound (design_of design.entry)) (design_of design.entry).inputs ≡ Some k) }
{
    let inputs = design.inputs();
    let mut bits: u64 = 0;
    for k in 0..inputs {
        let width = design.input_width(k);
        if !width_ok(width) {
            return Err(k);
        }
        bits += width as u64;
    }
    Ok(bits)
}

// The counts of a sound design; else the refusal of the first register, output or input that isn't sound.
pub fn check(design: Encoded<'_>) -> Result<Counts, Refusal>
    ensures { MatchResult result
        (λ counts. (soundness_refusal (design_of design.entry) ≡ None) × Counted (design_of design.entry) counts)
        (λ refusal. soundness_refusal (design_of design.entry) ≡ Some refusal) }
{
    let analysis = Analysis::new(design);
    let first_output = design.registers() as u64;
    let first_input = first_output + design.outputs() as u64;
    let registers = check_registers(&analysis).map_err(|k| Refusal::UnsoundRegister {
        register: k as u64,
    })?;
    let outputs = check_outputs(&analysis).map_err(|k| Refusal::UnsoundOutput {
        place: first_output + k as u64,
    })?;
    let inputs = check_inputs(design).map_err(|k| Refusal::UnsoundInput {
        place: first_input + k as u64,
    })?;
    let cells = capped(registers, outputs.cells);
    Ok(Counts {
        input_bits: inputs,
        output_bits: outputs.bits,
        cells: cells as u64,
        tracks: capped(cells, inputs as u32) as u64,
    })
}
