// What a source gives, and what a cell looks up.
ghost use Rattle.std.specs.Prelude.{◌≡◌, ◌+◌, ◌*◌, ◌<◌, true, false, MatchOption, slice_index};
ghost use Rattle.design.specs.Designs.{bit};
ghost use Rattle.fabric.specs.Fabrics.{cell_count, at_edge, neighbour, incoming, read, lookup};
ghost use Rattle.fabric.specs.Numbers.{per_cell};
ghost use Rattle.fabric.specs.Code.{grid_of, config_of, pads_of, levels_of};

use crate::parts::{Pin, Source};
use crate::wiring::{Spot, Track};

impl Spot<'_> {
    // Number k of the cell's configuration.
    #[tactic(auto, using(crate::proofs::Readings::word_inside, crate::proofs::Readings::bits_few))]
    pub(crate) fn word(self, k: usize) -> u16
        requires { k < per_cell (grid_of self.moment.wiring) }
        ensures { let w = self.entry.moment.wiring in result ≡ slice_index w.bits.now (self.entry.cell * per_cell (grid_of w) + k) }
    {
        self.moment.wiring.bits[self.cell * self.grid().per_cell() + k]
    }

    // What the cell shows.
    #[tactic(auto, using(crate::proofs::Indices::cell_below), unfolding(crate::specs::Code::state_of))]
    pub(crate) fn shown(self) -> bool
        ensures { result ≡ (levels_of self.entry.moment).cell self.entry.cell }
    {
        let sides = 4 * self.grid().tracks;
        self.moment.levels[self.cell * (1 + sides)]
    }

    // What a source at the cell gives.
    #[tactic(auto, using(std::proofs::lemmas::Bool::Decides::nat_tests), unfolding(crate::specs::Fabrics::read))]
    pub(crate) fn read(self, source: Source) -> bool
        ensures { let w = self.entry.moment.wiring in result ≡ read (grid_of w) (pads_of w) (levels_of self.entry.moment) self.entry.cell source }
    {
        match source {
            Source::Nothing => false,
            Source::Own => self.shown(),
            Source::Track { side, track } => {
                let (spot, number) = (self, track);
                usize::from(track) < self.grid().tracks && Track { spot, side, number }.incoming()
            }
        }
    }

    // What input k of the cell gives, as a number. Inlined like the look-up: a call has the spot's ten words written to memory first, and a
    // sweep would make four for each cell.
    #[tactic(auto, using(crate::proofs::Readings::bit_byte, crate::proofs::Readings::bit_small), unfolding(crate::specs::Numbers::per_cell, crate::specs::Numbers::config_in))]
    #[inline(always)]
    pub(crate) fn input(self, k: usize) -> usize
        requires { k < 4 }
        ensures is { let w = self.entry.moment.wiring in result ≡ bit (read (grid_of w) (pads_of w) (levels_of self.entry.moment) self.entry.cell ((config_of w).input self.entry.cell k)) }
        ensures small { result < 2 }
    {
        usize::from(self.read(Source::from(self.word(16 + k))))
    }

    // The bit of the cell's table that its inputs say. The four are read one by one, each with its weight beside it: a sum over a range
    // would hide that, and is no shorter. Inlined, since a sweep looks up each cell, as `input` says.
    #[tactic(auto, unfolding(crate::specs::Numbers::per_cell, crate::specs::Numbers::config_in, crate::specs::Fabrics::lookup))]
    #[inline(always)]
    pub(crate) fn lookup(self) -> bool
        ensures { let w = self.entry.moment.wiring in result ≡ lookup (grid_of w) (config_of w) (pads_of w) (levels_of self.entry.moment) self.entry.cell }
    {
        let a = self.input(0);
        let b = self.input(1);
        let c = self.input(2);
        let d = self.input(3);
        self.word(a + 2 * b + 4 * c + 8 * d) == 1
    }
}

impl Track<'_> {
    // What it carries out of the cell.
    #[tactic(auto, unfolding(crate::specs::Code::state_of))]
    pub(crate) fn carried(self) -> bool
        ensures { result ≡ (levels_of self.entry.spot.moment).track self.entry.spot.cell self.entry.side self.entry.number }
    {
        let tracks = self.grid().tracks;
        let place = usize::from(self.side) * tracks + usize::from(self.number);
        self.spot.moment.levels[self.spot.cell * (1 + 4 * tracks) + (1 + place)]
    }

    // What the pad beside it carries.
    #[tactic(auto, unfolding(crate::specs::Numbers::pads_in))]
    pub(crate) fn pad(self) -> bool
        ensures { result ≡ pads_of self.entry.spot.moment.wiring self.entry.spot.cell self.entry.side self.entry.number }
    {
        let pin = Pin {
            cell: self.spot.cell as u16,
            side: self.side,
            track: self.number,
        };
        self.spot.moment.wiring.pads[self.grid().pad_place(pin)] == 1
    }

    // What comes in to the cell beside it.
    #[tactic(auto, unfolding(crate::specs::Fabrics::incoming))]
    pub(crate) fn incoming(self) -> bool
        ensures { let m = self.entry.spot.moment in result ≡ incoming (grid_of m.wiring) (pads_of m.wiring) (levels_of m) self.entry.spot.cell self.entry.side self.entry.number }
    {
        let moment = self.spot.moment;
        match self.grid().neighbour(self.spot.cell, self.side) {
            Some(cell) => Track {
                spot: Spot { moment, cell },
                side: self.side.opposite(),
                number: self.number,
            }
            .carried(),
            None => self.pad(),
        }
    }
}
