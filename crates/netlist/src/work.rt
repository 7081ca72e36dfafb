// A netlist under construction.
ghost use Rattle.std.specs.Prelude.{◌≡◌, ℕ, ◌+◌, ◌<◌, ◌≤◌, false, length, Some, slice_set};
ghost use Rattle.netlist.specs.declared.parts.Cell.{Cell as CellT};
ghost use Rattle.netlist.specs.Works.{count_of, noted, is_laid, bus_at, outs_of, Wrote, RowLaid};

use crate::bus::Bus;
use crate::parts::Cell;
use arrayvec::ArrayVec;

// The cells so far, registers first; the nets of each node that is laid out; the cells of the output bits so far.
// The registers' cells show 0 till they are written, which is last.
// A place for each node and no map, since there is no heap here; a place for each output bit and no `ArrayVec`, whose length would say
// again what the design says.
#[derive(Drop)]
pub(crate) struct Work {
    pub cells: ArrayVec<Cell, 1024>,
    pub buses: [Option<Bus>; 1024],
    pub outputs: [u16; 1024],
}

impl Work {
    // Only the registers' cells are there, not written yet.
    pub(crate) fn new(register_bits: usize) -> Work
        requires { register_bits ≤ 1024 }
        ensures count { count_of result ≡ register_bits }
        ensures none { (k : ℕ) → is_laid result k ≡ false }
    {
        let mut cells = ArrayVec::from([Cell::blank(); 1024]);
        cells.truncate(register_bits);
        Work {
            cells,
            buses: [None; 1024],
            outputs: [0; 1024],
        }
    }

    // What is noted of node n: its nets, if it is laid out.
    fn noted(&self, n: u16) -> Option<Bus>
        ensures { result ≡ noted self.now n }
    {
        self.buses.get(n as usize).copied().flatten()
    }

    // Whether node n is laid out.
    pub(crate) fn has(&self, n: u16) -> bool
        ensures { result ≡ is_laid self.now n }
    {
        self.noted(n).is_some()
    }

    // The nets of node n, which is laid out.
    pub(crate) fn bus(&self, n: u16) -> Bus
        ensures { result ≡ bus_at self.now n }
    {
        self.noted(n).unwrap_or(Bus::zero())
    }

    // Node n is laid out, and these are its nets.
    pub(crate) fn note(&mut self, n: u16, bus: Bus)
        requires { n < 1024 }
        ensures room { length self.old.buses ≡ 1024 }
        ensures after { self.new ≡ record {
          cells = self.old.cells;
          buses = slice_set self.old.buses n (Some bus);
          outputs = self.old.outputs;
        } }
    {
        self.buses[n as usize] = Some(bus);
    }

    // Writes over a row of so many cells those that a function gives for the bits, from `at` on.
    pub(crate) fn write<F: Fn(u16) -> Cell>(&mut self, at: u16, width: u16, cell: F)
        requires callable { F.IsAlwaysCallable cell }
        requires room { at + width ≤ count_of self.old }
        ensures count { count_of self.new ≡ count_of self.old }
        ensures wrote { (row : ℕ → CellT) → ((k : ℕ) (c : CellT) → k < width → F.post cell k c → c ≡ row k) → Wrote self.old self.new at width row }
    {
        let places = &mut self.cells[at as usize..(at + width) as usize];
        for (k, place) in places.iter_mut().enumerate() {
            *place = cell(k as u16);
        }
    }

    // Adds such a row of cells, and gives their nets.
    pub(crate) fn push<F: Fn(u16) -> Cell>(&mut self, width: u16, cell: F) -> Bus
        requires callable { F.IsAlwaysCallable cell }
        requires room { count_of self.old + width ≤ 1024 }
        ensures { (row : ℕ → CellT) → ((k : ℕ) (c : CellT) → k < width → F.post cell k c → c ≡ row k) → RowLaid self.old self.new width row result }
    {
        let start = self.cells.len() as u16;
        for k in 0..width {
            self.cells.push(cell(k));
        }
        Bus::cells(start)
    }

    // Notes that output bits from `at` on are shown by the cells from `first` on.
    pub(crate) fn show(&mut self, at: u16, first: u16, width: u16)
        requires places { at + width ≤ 1024 }
        requires cells { first + width ≤ 1024 }
        ensures cells { self.new.cells ≡ self.old.cells }
        ensures buses { self.new.buses ≡ self.old.buses }
        ensures old { (m : ℕ) → m < at → outs_of self.new m ≡ outs_of self.old m }
        ensures new { (k : ℕ) → k < width → outs_of self.new (at + k) ≡ first + k }
    {
        let places = &mut self.outputs[at as usize..(at + width) as usize];
        for (k, place) in places.iter_mut().enumerate() {
            *place = first + k as u16;
        }
    }
}
