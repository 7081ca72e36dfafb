// A tick of the fabric, over lent numbers.
ghost use Rattle.std.specs.Prelude.{◌≡◌, ◌⊎◌, length, Some, MatchResult};
ghost use Rattle.fabric.specs.Fabrics.{cell_count, Settles};
ghost use Rattle.fabric.specs.Numbers.{pads_length, held_in, tick_refusal, Ticks};
ghost use Rattle.fabric.specs.Ticks.{TickSays};
ghost use Rattle.fabric.specs.Code.{grid_of, config_of, pads_of, FitsTick};

use crate::grid::Grid;
use crate::size::Size;
use crate::wiring::{Moment, Wiring};
use design::refusal::Refusal;

// The most cells and tracks that a fabric has together.
const SIGNALS: usize = 32000;

// What a tick answers. It stays an enum of its own, and no `Result`, so that C can read it.
#[derive(Clone, Copy, PartialEq, Eq, Debug)]
pub enum Done {
    // the fabric settled, and the held bits and outputs are written
    Ticked,
    // the fabric doesn't settle
    Restless,
    // turned away
    Turned(Refusal),
}

// Plays one tick on a fabric of so many columns (`across`), rows (`down`) and tracks. The three numbers stand alone so that C can call it.
pub fn tick(
    across: u64,
    down: u64,
    tracks: u64,
    bits: &[u16],
    kept: &mut [u8],
    pads: &[u8],
    outs: &mut [u8],
) -> Done
    ensures { TickSays (record { columns = across; rows = down; tracks = tracks }) bits.now kept.old pads.now outs.old result kept.new outs.new }
{
    let size = Size {
        columns: across,
        rows: down,
        tracks,
    };
    match checked(size, bits, kept, pads, outs) {
        Err(refusal) => Done::Turned(refusal),
        Ok(grid) => play(Wiring { grid, bits, pads }, kept, outs),
    }
}

// The grid of a tick, or the first reason to turn it away.
fn checked(size: Size, bits: &[u16], held: &[u8], pads: &[u8], outs: &[u8]) -> Result<Grid, Refusal>
    ensures { MatchResult result
        (λ g. FitsTick g size bits.now held.now pads.now outs.now)
        (λ f. tick_refusal size bits.now held.now pads.now outs.now ≡ Some f) }
{
    let grid = Grid::try_from(size)?;
    if bits.len() != grid.room_len() {
        return Err(Refusal::BitsLength);
    }
    if held.len() != grid.cells() {
        return Err(Refusal::HeldLength);
    }
    if pads.len() != grid.pads_len() {
        return Err(Refusal::PadsLength);
    }
    if outs.len() != grid.pads_len() {
        return Err(Refusal::OutputsLength);
    }
    Ok(grid)
}

// Settles the fabric, and then writes what it holds and shows. Two arrays that are cut to the fabric's signals, since there is no heap here.
fn play(wiring: Wiring, kept: &mut [u8], outs: &mut [u8]) -> Done
    requires held { length kept.old ≡ cell_count (grid_of wiring) }
    requires outs { length outs.old ≡ pads_length (grid_of wiring) }
    ensures { ((result ≡ Done.Ticked) × Ticks (grid_of wiring.entry) (config_of wiring.entry) kept.old wiring.entry.pads.now outs.old kept.new outs.new)
        ⊎ ((result ≡ Done.Restless) × (kept.new ≡ kept.old) × (outs.new ≡ outs.old) × (Settles (grid_of wiring.entry) (config_of wiring.entry) (held_in kept.old) (pads_of wiring.entry) → ⊥)) }
{
    let mut first = [false; SIGNALS];
    let mut second = [false; SIGNALS];
    let signals = wiring.grid.signals();
    let levels = &mut first[0..signals];
    let next = &mut second[0..signals];
    if wiring.settle(kept, levels, next) {
        let moment = Moment { wiring, levels };
        moment.write_held(kept);
        moment.write_outputs(outs);
        Done::Ticked
    } else {
        Done::Restless
    }
}
