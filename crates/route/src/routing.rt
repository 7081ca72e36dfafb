// The sources and the pins of the plain layout.
ghost use Rattle.std.specs.Prelude.{◌≡◌, ◌+◌, ◌-◌, ◌^◌, ◌<◌, min, MatchOption};
ghost use Rattle.std.specs.Option.{option_map, unwrap_or};
ghost use Rattle.fabric.specs.declared.parts.Side.TheVariants.{Left, Above};
ghost use Rattle.fabric.specs.declared.parts.Source.TheVariants.{Nothing, Track};
ghost use Rattle.fabric.specs.Code.{size_of};
ghost use Rattle.route.specs.Nets.{Exists, Room};
ghost use Rattle.route.specs.Plain.{toward, plain_source, plain_net};

use crate::plain::Plain;
use fabric::grid::Grid;
use fabric::parts::{Pin, Side, Source};
use netlist::parts::Net;
use place::plain::Placement;
use std::cmp::Ordering;

impl Plain {
    // The plain layout of so many input bits and cells, or none where there is no room for it. An `if`: a closure for
    // `then` has to say in a `requires` of its own both bounds that are tested, which is longer.
    pub fn new(grid: Grid, inputs: u16, count: u16) -> Option<Plain>
        ensures { MatchOption result (Room (size_of grid) inputs count → ⊥)
            (λ p. (p.grid ≡ grid) × (p.inputs ≡ inputs) × (p.placement.count ≡ count)) }
    {
        let cells = count as usize;
        if cells <= grid.columns * grid.rows && inputs as usize + cells <= grid.tracks {
            Some(Plain {
                grid,
                inputs,
                placement: Placement::new(count),
            })
        } else {
            None
        }
    }

    // The side of a cell from which something that begins at another comes; none where they are the same.
    #[tactic(auto, using(std::proofs::lemmas::Bool::Decides::nat_tests), unfolding(crate::specs::Plain::toward))]
    pub(crate) fn toward(self, cell: u16, begin: u16) -> Option<Side>
        ensures { result ≡ toward (size_of self.grid) cell begin }
    {
        let columns = self.grid.columns;
        let cell = cell as usize;
        let begin = begin as usize;
        match (begin / columns).cmp(&(cell / columns)) {
            Ordering::Less => Some(Side::Above),
            Ordering::Greater => Some(Side::Below),
            Ordering::Equal => match (begin % columns).cmp(&(cell % columns)) {
                Ordering::Less => Some(Side::Left),
                Ordering::Greater => Some(Side::Right),
                Ordering::Equal => None,
            },
        }
    }

    // Where a cell takes a net from that begins at another cell and has that track; where it begins, it comes from `here`.
    pub(crate) fn way(self, cell: u16, begin: u16, track: u16, here: Source) -> Source
        ensures { result ≡ unwrap_or (option_map (λ s. Track s track) (toward (size_of self.grid) cell begin)) here }
    {
        self.toward(cell, begin)
            .map_or(here, |side| Source::Track { side, track })
    }

    // Where a cell takes a net from; nothing, where there is no such net. An input bit begins at the left edge of the first cell, and what
    // a cell of the netlist shows where that stands, from the cell itself.
    #[tactic(auto, unfolding(crate::specs::Plain::plain_source))]
    pub fn source(self, cell: u16, net: Net) -> Source
        ensures is { Exists self.inputs self.placement.count net → result ≡ plain_source (size_of self.grid) self.inputs cell net }
        ensures none { (Exists self.inputs self.placement.count net → ⊥) → result ≡ Nothing }
    {
        match net {
            Net::Input(bit) if bit < self.inputs => {
                let side = Side::Left;
                self.way(cell, 0, bit, Source::Track { side, track: bit })
            }
            Net::Cell(from) if from < self.placement.count => {
                let begin = self.placement.home(from);
                self.way(cell, begin, self.inputs + from, Source::Own)
            }
            _ => Source::Nothing,
        }
    }

    // The net that a track carries, everywhere.
    #[tactic(auto, using(std::proofs::lemmas::Bool::Decides::nat_tests), unfolding(crate::specs::Plain::plain_net))]
    pub fn carried(self, track: u16) -> Net
        ensures is { result ≡ plain_net self.inputs self.placement.count track }
        ensures exists { Exists self.inputs self.placement.count result }
    {
        if track < self.inputs {
            Net::Input(track)
        } else if track < self.inputs + self.placement.count {
            Net::Cell(track - self.inputs)
        } else {
            Net::Zero
        }
    }

    // Where an input bit goes in: at the left edge of the first cell.
    pub fn input_pin(self, bit: u16) -> Pin
        ensures { result ≡ record { cell = 0; side = Left; track = bit } }
    {
        first_pin(Side::Left, bit)
    }

    // Where an output bit comes out that a cell of the netlist shows: at the upper edge of the first cell. Tracks go up to 65,535.
    pub fn output_pin(self, from: u16) -> Pin
        ensures is { from < self.placement.count → result ≡ record { cell = 0; side = Above; track = self.inputs + from } }
        ensures bounded { result ≡ record { cell = 0; side = Above; track = min (self.inputs + from) (2 ^ 16 - 1) } }
    {
        first_pin(Side::Above, self.inputs.saturating_add(from))
    }
}

// A pin of the first cell.
fn first_pin(side: Side, track: u16) -> Pin
    ensures { result ≡ record { cell = 0; side = side; track = track } }
{
    Pin {
        cell: 0,
        side,
        track,
    }
}
