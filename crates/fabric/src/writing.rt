// What a tick leaves: the held bits and the outputs.
ghost use Rattle.std.specs.Prelude.{◌≡◌, ℕ, ◌<◌, length, slice_index};
ghost use Rattle.design.specs.Designs.{bit};
ghost use Rattle.fabric.specs.declared.parts.Side.{Side};
ghost use Rattle.fabric.specs.Fabrics.{cell_count, lookup};
ghost use Rattle.fabric.specs.Numbers.{pads_length, pad_place};
ghost use Rattle.fabric.specs.Code.{size_of, grid_of, config_of, pads_of, signal_count, levels_of, out_place};

use crate::grid::Grid;
use crate::wiring::{Moment, Spot};

impl Moment<'_> {
    // Writes what each cell looks up.
    pub(crate) fn write_held(self, held: &mut [u8])
        requires { length held.old ≡ cell_count (grid_of self.wiring) }
        ensures { let w = self.entry.wiring in (c : ℕ) → c < cell_count (grid_of w) →
            slice_index held.new c ≡ bit (lookup (grid_of w) (config_of w) (pads_of w) (levels_of self.entry) c) }
    {
        for (cell, slot) in held.iter_mut().enumerate() {
            let spot = Spot { moment: self, cell };
            *slot = u8::from(spot.lookup());
        }
    }

    // Writes what each track carries.
    pub(crate) fn write_outputs(self, outs: &mut [u8])
        requires { length outs.old ≡ pads_length (grid_of self.wiring) }
        ensures { let w = self.entry.wiring in (c : ℕ) (s : Side) (t : ℕ) → c < cell_count (grid_of w) → t < w.grid.tracks →
            slice_index outs.new (pad_place (grid_of w) c s t) ≡ bit ((levels_of self.entry).track c s t) }
    {
        for (place, slot) in outs.iter_mut().enumerate() {
            *slot = u8::from(self.levels[self.grid().out_place(place)]);
        }
    }
}

impl Grid {
    // Where the signal of the track at a place among the pads stands.
    #[tactic(auto, using(crate::proofs::Indices::out_below), unfolding(crate::specs::Numbers::pads_length))]
    pub(crate) fn out_place(self, place: usize) -> usize
        requires { place < pads_length (size_of self) }
        ensures is { result ≡ out_place (size_of self) place }
        ensures inside { result < signal_count (size_of self) }
    {
        let sides = 4 * self.tracks;
        place / sides * (1 + sides) + (1 + place % sides)
    }
}
