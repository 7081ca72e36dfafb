// Words of registers and outputs as lists of numbers.
ghost use Rattle.std.specs.Prelude.{◌≡◌, length, min, MatchResult};
ghost use Rattle.design.specs.Designs.{Sound, number, word};
ghost use Rattle.design.specs.Numbers.{register_node, output_node};
ghost use Rattle.design.specs.Encodings.{list_of, design_of};
ghost use Rattle.player.specs.declared.fault.Fault.TheVariants.{Memory};
ghost use Rattle.player.specs.Plays.{Holds};
ghost use Rattle.player.specs.Tables.{Taken};

use crate::fault::Fault;
use crate::operations::low_bits;
use crate::width::Width;
use design::encoded::{Encoded, Register};
use design::lookup::at;
use std::alloc::Global;

// The word that a register begins with.
fn first(register: Register) -> u64
    ensures { result ≡ number (min register.width 64) (word register.initial) }
{
    low_bits(register.initial as u64, Width::of(register.width))
}

// The words that the registers begin with.
pub(crate) fn initial(heap: Global, design: Encoded<'_>) -> Result<Vec<u64>, Fault>
    ensures { MatchResult result
        (λ words. Sound (design_of design.entry) → Holds (design_of design.entry) (design_of design.entry).initial words.items)
        (λ fault. fault ≡ Memory) }
{
    let words = (0..design.registers())
        .map(|k| first(design.register(k)))
        .collect(heap)?;
    Ok(words)
}

// Gives the registers the words that they become. After a loop over a `zip` with their places, which was tried, a proof knows nothing
// of the words.
pub(crate) fn advance(design: Encoded<'_>, table: &[u64], words: &mut [u64])
    ensures { length words.old ≡ (design_of design.entry).registers →
        Taken (design_of design.entry).registers (register_node (list_of design.entry)) table.now words.new }
{
    let registers = design.registers() as usize;
    for (k, word) in words.iter_mut().enumerate() {
        if k < registers {
            *word = at(table, design.register(k as u16).next as usize);
        }
    }
}

// The words that the outputs show.
pub(crate) fn shown(heap: Global, design: Encoded<'_>, table: &[u64]) -> Result<Vec<u64>, Fault>
    ensures { MatchResult result
        (λ words. Taken (design_of design.entry).outputs (output_node (list_of design.entry)) table.now words.items)
        (λ fault. fault ≡ Memory) }
{
    let words = (0..design.outputs())
        .map(|k| at(table, design.output(k) as usize))
        .collect(heap)?;
    Ok(words)
}
