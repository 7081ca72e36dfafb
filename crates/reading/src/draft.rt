// A listing that is being read: each thing is said at most once.
ghost use Rattle.std.specs.Prelude.{◌≡◌, MatchResult, IfOk, IfErr, vec_len};
ghost use Rattle.fabric.specs.Code.{size_of};
ghost use Rattle.fabric.specs.Numbers.{room_length};
ghost use Rattle.reading.specs.Faults.{AtLine, SomeLine};

use crate::ports::DraftPorts;
use crate::unread::Unread;
use entries::entry::{Direction, Entry, Seat};
use entries::lines::read_line;
use fabric::grid::Grid;
use fabric::parts::{Pin, Side, Source};
use listings::parts::Listing;
use std::alloc::{AllocError, Global};
use std::array;

#[derive(Drop)]
pub(crate) struct Draft<'a> {
    heap: Global,
    grid: Grid,
    // the numbers that configure the fabric, where they are said
    room: Vec<Option<u16>>,
    // for each pad whether an input goes in there
    taken: Vec<bool>,
    inputs: DraftPorts<'a>,
    outputs: DraftPorts<'a>,
    ghost full: { vec_len room ≡ room_length (size_of grid) },
}

// Fills these slots; None if one of them is filled already, or there are none. An option here and below, and no `Result`:
// there is one reason only, and the line that it is an error of is known to the caller alone.
fn fill(room: &mut [Option<u16>], start: usize, said: &[u16]) -> Option<()> {
    let slots = room.get_mut(start..start.saturating_add(said.len()))?;
    if slots.iter().any(|slot| slot.is_some()) {
        return None;
    }
    for (slot, n) in slots.iter_mut().zip(said) {
        *slot = Some(*n);
    }
    Some(())
}

// The invariant can't say that a method leaves the grid as it was, so each method that changes a draft does.
impl<'a> Draft<'a> {
    // Nothing is said yet.
    pub(crate) fn new(heap: Global, grid: Grid) -> Result<Draft<'a>, AllocError>
        ensures { IfOk result (λ draft. draft.grid ≡ grid) }
    {
        Ok(Draft {
            heap,
            grid,
            room: Vec::from_elem(heap, None, grid.room_len())?,
            taken: Vec::from_elem(heap, false, grid.pads_len())?,
            inputs: DraftPorts::new(heap),
            outputs: DraftPorts::new(heap),
        })
    }

    // Says numbers of a cell, from number k on; None if they are said already, or there are none.
    fn say(&mut self, cell: u16, k: usize, said: &[u16]) -> Option<()>
        ensures { self.new.grid ≡ self.old.grid }
    {
        let start = usize::from(cell)
            .saturating_mul(self.grid.per_cell())
            .saturating_add(k);
        fill(self.room.as_mut_slice(), start, said)
    }

    // Says a cell's table, bit k of the number for the inputs that say k, and the sources of its inputs.
    fn set_table(&mut self, cell: u16, table: u16, sources: [Source; 4]) -> Option<()>
        ensures { self.new.grid ≡ self.old.grid }
    {
        let bits: [u16; 16] = array::from_fn(|k| table >> k & 1);
        self.say(cell, 0, &bits)?;
        self.say(cell, 16, &sources.map(u16::from))
    }

    // Says that a cell holds, and what at first.
    fn set_holds(&mut self, cell: u16, initial: bool) -> Option<()>
        ensures { self.new.grid ≡ self.old.grid }
    {
        self.say(cell, 20, &[1, u16::from(initial)])
    }

    // Says the source of a track.
    fn set_drive(&mut self, cell: u16, side: Side, track: u16, source: Source) -> Option<()>
        ensures { self.new.grid ≡ self.old.grid }
    {
        if usize::from(track) >= self.grid.tracks {
            return None;
        }
        let k = self.grid.drive_place(side, track);
        self.say(cell, k, &[u16::from(source)])
    }

    // Whether the pin is at an edge of the fabric.
    fn has_pin(&self, pin: Pin) -> bool {
        let cell = usize::from(pin.cell);
        let track = usize::from(pin.track);
        cell < self.grid.cells() && track < self.grid.tracks && self.grid.at_edge(cell, pin.side)
    }

    // Takes the pad of a pin for an input; None if another input has it.
    fn take(&mut self, pin: Pin) -> Option<()>
        ensures { self.new.grid ≡ self.old.grid }
    {
        let taken = self.taken.get_mut(self.grid.pad_place(pin))?;
        if *taken {
            return None;
        }
        *taken = true;
        Some(())
    }

    // Says where a bit is; no two inputs go in at one pin.
    fn set_port(&mut self, seat: Seat<'a>) -> Result<(), Unread>
        ensures same_grid { self.new.grid ≡ self.old.grid }
        ensures at { IfErr result (λ u. AtLine seat.entry.line u) }
    {
        let misplaced = Unread::misplaced(seat.line);
        if !self.has_pin(seat.pin) {
            return Err(misplaced);
        }
        let before = match seat.direction {
            Direction::In => {
                self.take(seat.pin).ok_or(misplaced)?;
                self.inputs.note(self.heap, seat)?
            }
            Direction::Out => self.outputs.note(self.heap, seat)?,
        };
        match before {
            Some(_) => Err(misplaced),
            None => Ok(()),
        }
    }

    // Takes in a line after the first.
    pub(crate) fn read_line(&mut self, text: &'a str, line: usize) -> Result<(), Unread>
        ensures same_grid { self.new.grid ≡ self.old.grid }
        ensures at { IfErr result (λ u. AtLine line u) }
    {
        let misplaced = Unread::misplaced(line);
        match read_line(text, line) {
            Some(
                Entry::Table {
                    cell,
                    table,
                    sources,
                },
            ) => self.set_table(cell, table, sources).ok_or(misplaced),
            Some(Entry::Holds { cell, initial }) => self.set_holds(cell, initial).ok_or(misplaced),
            Some(
                Entry::Drive {
                    cell,
                    side,
                    track,
                    source,
                },
            ) => self.set_drive(cell, side, track, source).ok_or(misplaced),
            Some(Entry::Port(seat)) => self.set_port(seat),
            Some(Entry::Fabric(_)) | None => Err(Unread::Line {
                line,
                formed: false,
            }),
        }
    }

    // The listing; what isn't said is 0.
    pub(crate) fn finished(self) -> Result<Listing, Unread>
        ensures { MatchResult result (λ l. l.grid ≡ self.entry.grid) (λ u. SomeLine u) }
    {
        Ok(Listing {
            grid: self.grid,
            room: self
                .room
                .iter()
                .map(|said| said.unwrap_or(0))
                .collect(self.heap)?,
            inputs: self.inputs.finished(self.heap)?,
            outputs: self.outputs.finished(self.heap)?,
        })
    }
}
