// A fabric that is played.

use fabric::grid::Grid;
use fabric::parts::Pin;
use fabric::ticking::{Done, tick};
use listings::parts::{Listing, Port};
use std::alloc::{AllocError, Global};

// What each cell of a listing's fabric holds, what comes in at each pad, and what each track carries.
#[derive(Drop)]
pub(crate) struct State<'a> {
    listing: &'a Listing,
    held: Vec<u8>,
    pads: Vec<u8>,
    outs: Vec<u8>,
}

// What each cell holds at first.
#[tactic(auto, unfolding(fabric::specs::Numbers::per_cell))]
fn initial(heap: Global, listing: &Listing) -> Result<Vec<u8>, AllocError> {
    let size = listing.grid.per_cell();
    listing
        .room
        .as_slice()
        .chunks_exact(size)
        .map(|cell| u8::from(cell.get(21) == Some(&1)))
        .collect(heap)
}

// Puts a number on the pins of an input, the low bit first. What is left of it is shifted bit by bit, since there is no shift by
// 64 or more, and nothing here says that a port has fewer pins.
fn put_input(pads: &mut [u8], grid: Grid, port: &Port, n: u64) {
    let mut rest = n;
    for pin in &port.pins {
        if let Some(pad) = pads.get_mut(grid.pad_place(*pin)) {
            *pad = (rest & 1) as u8;
        }
        rest >>= 1;
    }
}

// The bit that a pin carries.
fn bit_at(outs: &[u8], grid: Grid, pin: Pin) -> u64 {
    u64::from(outs.get(grid.pad_place(pin)) == Some(&1))
}

impl<'a> State<'a> {
    // The fabric before its first tick, with 0 at every pad.
    pub(crate) fn new(heap: Global, listing: &'a Listing) -> Result<State<'a>, AllocError> {
        let held = initial(heap, listing)?;
        let pads = Vec::from_elem(heap, 0, listing.grid.pads_len())?;
        let outs = Vec::from_elem(heap, 0, listing.grid.pads_len())?;
        Ok(State {
            listing,
            held,
            pads,
            outs,
        })
    }

    // Plays a tick with these inputs.
    pub(crate) fn play(&mut self, inputs: &[u64]) -> Done {
        let grid = self.listing.grid;
        for (port, n) in self.listing.inputs.iter().zip(inputs) {
            put_input(self.pads.as_mut_slice(), grid, port, *n);
        }
        tick(
            grid.columns as u64,
            grid.rows as u64,
            grid.tracks as u64,
            self.listing.room.as_slice(),
            self.held.as_mut_slice(),
            self.pads.as_slice(),
            self.outs.as_mut_slice(),
        )
    }

    // The number that the pins of an output carry, the low bit at the first.
    fn output(&self, port: &Port) -> u64 {
        let grid = self.listing.grid;
        let outs = self.outs.as_slice();
        port.pins
            .iter()
            .rev()
            .fold(0, |n, pin| n << 1 | bit_at(outs, grid, *pin))
    }

    // Adds the line of the outputs, with their numbers after the tick.
    pub(crate) fn print(&self, out: &mut String) -> Result<(), AllocError> {
        for (i, port) in self.listing.outputs.iter().enumerate() {
            let space = if i > 0 { " " } else { "" };
            write!(out, "{space}{} {}", port.name, self.output(port))?;
        }
        out.push_str("\n")
    }
}
