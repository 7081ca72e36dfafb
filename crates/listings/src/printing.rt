// The text of a listing.
ghost use Rattle.std.specs.Prelude.{◌≡◌, ℕ, List, ◌++◌, IfOk, string_bytes};
ghost use Rattle.fabric.specs.Code.{size_of};
ghost use Rattle.listings.specs.Printed.{size_text};

use crate::parts::{Listing, Port};
use fabric::grid::Grid;
use fabric::parts::{Side, Source};
use pages::page::Page;
use std::alloc::{AllocError, Global};
use std::fmt;

// A cell, and the numbers that configure it.
#[derive(Clone, Copy)]
struct Cell<'a> {
    grid: Grid,
    at: usize,
    numbers: &'a [u16],
}

// The lines of an input or an output: which of them, and where its bits are.
#[derive(Clone, Copy)]
struct PortLines<'a> {
    word: &'a str,
    port: &'a Port,
}

// A source as a line names it.
#[derive(Clone, Copy)]
struct Named(Source);

impl Cell<'_> {
    fn number(&self, k: usize) -> u16 {
        self.numbers.get(k).copied().unwrap_or(0)
    }

    fn source(&self, k: usize) -> Source {
        Source::from(self.number(k))
    }

    // The bits of its table as one number.
    fn table(&self) -> u16 {
        self.numbers
            .iter()
            .take(16)
            .rev()
            .fold(0, |bits, bit| bits << 1 | u16::from(*bit == 1))
    }

    fn holds(&self) -> bool {
        self.number(20) == 1
    }

    // Whether an input of it takes from anything.
    fn reads(&self) -> bool {
        (16..20).any(|k| self.source(k) != Source::Nothing)
    }

    // Whether it has a table, reads something or holds.
    fn is_used(&self) -> bool {
        self.table() != 0 || self.reads() || self.holds()
    }

    fn write_table<W: fmt::Write>(&self, f: &mut fmt::Formatter<W>) -> fmt::Result {
        write!(f, "cell {} table {:04x} from", self.at, self.table())?;
        for k in 16..20 {
            write!(f, " {}", Named(self.source(k)))?;
        }
        writeln!(f)
    }

    fn write_holds<W: fmt::Write>(&self, f: &mut fmt::Formatter<W>) -> fmt::Result {
        let initial = u8::from(self.number(21) == 1);
        writeln!(f, "cell {} holds {initial}", self.at)
    }

    // The tracks that go out of it on a side.
    fn write_drives<W: fmt::Write>(&self, f: &mut fmt::Formatter<W>, side: Side) -> fmt::Result {
        for track in 0..self.grid.tracks {
            let source = self.source(self.grid.drive_place(side, track as u16));
            if source != Source::Nothing {
                let from = Named(source);
                writeln!(f, "cell {} {side} {track} from {from}", self.at)?;
            }
        }
        Ok(())
    }
}

impl fmt::Display for Cell<'_> {
    fn fmt<W: fmt::Write>(&self, f: &mut fmt::Formatter<W>) -> fmt::Result {
        if self.is_used() {
            self.write_table(f)?;
        }
        if self.holds() {
            self.write_holds(f)?;
        }
        for side in Side::ALL {
            self.write_drives(f, side)?;
        }
        Ok(())
    }
}

impl fmt::Display for PortLines<'_> {
    fn fmt<W: fmt::Write>(&self, f: &mut fmt::Formatter<W>) -> fmt::Result {
        for (bit, pin) in self.port.pins.iter().enumerate() {
            writeln!(
                f,
                "{} {} {bit} at {} {} {}",
                self.word, self.port.name, pin.cell, pin.side, pin.track,
            )?;
        }
        Ok(())
    }
}

impl fmt::Display for Named {
    fn fmt<W: fmt::Write>(&self, f: &mut fmt::Formatter<W>) -> fmt::Result {
        match self.0 {
            Source::Nothing => f.write_str("nothing"),
            Source::Own => f.write_str("own"),
            Source::Track { side, track } => write!(f, "{side} {track}"),
        }
    }
}

impl Listing {
    // What follows the first line: cell by cell what configures it, the inputs and the outputs.
    #[tactic(auto, unfolding(fabric::specs::Numbers::per_cell))]
    fn print_rest(&self, heap: Global) -> Result<String, AllocError> {
        let grid = self.grid;
        let mut page = Page::new(heap);
        for (at, numbers) in self.room.chunks(grid.per_cell()).enumerate() {
            write!(page, "{}", Cell { grid, at, numbers });
        }
        for port in &self.inputs {
            write!(page, "{}", PortLines { word: "in", port });
        }
        for port in &self.outputs {
            write!(page, "{}", PortLines { word: "out", port });
        }
        page.done()
    }

    // The text: the fabric, and what follows it. The first line is put in front of the rest, since nothing is known of a text once a
    // `Cell` is written to it; so there is only one long text.
    pub fn print(&self, heap: Global) -> Result<String, AllocError>
        ensures { IfOk result (λ s. ((rest : List ℕ) × (string_bytes s ≡ size_text (size_of self.now.grid) ++ rest))) }
    {
        let grid = self.grid;
        let head = format!(in heap; "fabric {} {} {}\n", grid.rows, grid.columns, grid.tracks)?;
        let mut text = self.print_rest(heap)?;
        text.insert_str(0, head.as_str())?;
        Ok(text)
    }
}
