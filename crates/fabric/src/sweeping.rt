// Sweeps, and how a fabric settles.
ghost use Rattle.std.specs.Prelude.{◌≡◌, ◌<◌, ◌/◌, ◌%◌, length, MatchBool};
ghost use Rattle.fabric.specs.Fabrics.{cell_count, read, sweep, dark, final, Agree, Settles};
ghost use Rattle.fabric.specs.Numbers.{held_in};
ghost use Rattle.fabric.specs.Code.{grid_of, config_of, pads_of, signal_count, state_of, levels_of, signal_at};

use crate::parts::{Side, Source};
use crate::wiring::{Moment, Spot, Track, Wiring};

impl Spot<'_> {
    // What the cell shows after a sweep.
    #[tactic(auto, unfolding(crate::specs::Numbers::per_cell, crate::specs::Numbers::config_in, crate::specs::Numbers::held_in, crate::specs::Fabrics::sweep))]
    pub(crate) fn next(self, held: &[u8]) -> bool
        ensures { let w = self.entry.moment.wiring in result ≡ (sweep (grid_of w) (config_of w) (held_in held.now) (pads_of w) (levels_of self.entry.moment)).cell self.entry.cell }
    {
        if self.word(20) == 1 {
            held.get(self.cell) == Some(&1)
        } else {
            self.lookup()
        }
    }
}

impl Track<'_> {
    // What it carries out of the cell after a sweep.
    #[tactic(auto, unfolding(crate::specs::Numbers::per_cell, crate::specs::Numbers::config_in))]
    pub(crate) fn next(self) -> bool
        ensures { let m = self.entry.spot.moment in result ≡ read (grid_of m.wiring) (pads_of m.wiring) (levels_of m) self.entry.spot.cell ((config_of m.wiring).drive self.entry.spot.cell self.entry.side self.entry.number) }
    {
        let place = self.grid().drive_place(self.side, self.number);
        self.spot.read(Source::from(self.spot.word(place)))
    }
}

impl Moment<'_> {
    // What the signal at a place shows after a sweep.
    #[tactic(auto, using(std::proofs::lemmas::Nat::div_below, std::proofs::lemmas::Nat::mod_below), unfolding(crate::specs::Code::signal_at, crate::specs::Fabrics::sweep))]
    pub(crate) fn next(self, held: &[u8], place: usize) -> bool
        requires { place < signal_count (grid_of self.wiring) }
        ensures { let w = self.entry.wiring in result ≡ signal_at (grid_of w) (sweep (grid_of w) (config_of w) (held_in held.now) (pads_of w) (levels_of self.entry)) place }
    {
        let tracks = self.grid().tracks;
        let spot = Spot {
            moment: self,
            cell: place / (1 + 4 * tracks),
        };
        let rest = place % (1 + 4 * tracks);
        if rest == 0 {
            spot.next(held)
        } else {
            let track = Track {
                spot,
                side: Side::at((rest - 1) / tracks),
                number: ((rest - 1) % tracks) as u16,
            };
            track.next()
        }
    }

    // One sweep: everything looks at once at what was before.
    #[tactic(auto, using(crate::proofs::States::agree_from_places))]
    pub(crate) fn sweep(self, held: &[u8], next: &mut [bool])
        requires { length next.old ≡ signal_count (grid_of self.wiring) }
        ensures { let w = self.entry.wiring in Agree (grid_of w) (state_of (grid_of w) next.new) (sweep (grid_of w) (config_of w) (held_in held.now) (pads_of w) (levels_of self.entry)) }
    {
        for (place, slot) in next.iter_mut().enumerate() {
            *slot = self.next(held, place);
        }
    }
}

impl Wiring<'_> {
    // Sweeps until nothing changes, and says whether that came about. `levels`, dark at first, then has what the cells show and the
    // tracks carry.
    pub(crate) fn settle(self, held: &[u8], levels: &mut [bool], next: &mut [bool]) -> bool
        requires all { length levels.old ≡ signal_count (grid_of self) }
        requires next { length next.old ≡ signal_count (grid_of self) }
        requires dark { Agree (grid_of self) (state_of (grid_of self) levels.old) dark }
        ensures { MatchBool result
            (Settles (grid_of self.entry) (config_of self.entry) (held_in held.now) (pads_of self.entry)
            × Agree (grid_of self.entry) (state_of (grid_of self.entry) levels.new) (final (grid_of self.entry) (config_of self.entry) (held_in held.now) (pads_of self.entry)))
            (Settles (grid_of self.entry) (config_of self.entry) (held_in held.now) (pads_of self.entry) → ⊥) }
    {
        let limit = self.grid.signals() + 1;
        for _ in 0..=limit {
            let moment = Moment {
                wiring: self,
                levels,
            };
            moment.sweep(held, next);
            if &*levels == &*next {
                return true;
            }
            levels.copy_from_slice(next);
        }
        false
    }
}
