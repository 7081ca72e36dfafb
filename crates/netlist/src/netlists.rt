// A netlist that is laid out whole.
ghost use Rattle.std.specs.Prelude.{◌≡◌, ℕ, ◌<◌, ◌≤◌, slice_index};
ghost use Rattle.arrayvec.specs.ArrayVec.{array_vec_len};
ghost use Rattle.netlist.specs.Building.{blank, cell_at};

use crate::parts::Cell;
use arrayvec::ArrayVec;

// So many cells, in the first places, past which each shows 0, and for each output bit the cell that shows it. Arrays and no `ArrayVec`,
// which is no `Copy`.
#[derive(Clone, Copy)]
pub struct Netlist {
    cells: [Cell; 1024],
    count: usize,
    outputs: [u16; 1024],
    ghost few: { count ≤ 1024 },
    ghost rest: { (c : ℕ) → count ≤ c → cell_at cells c ≡ blank },
}

impl Netlist {
    pub(crate) fn new(laid: &ArrayVec<Cell, 1024>, outputs: [u16; 1024]) -> Netlist
        ensures count { result.count ≡ array_vec_len laid.now }
        ensures cells { (c : ℕ) → cell_at result.cells c ≡ cell_at laid.now.items c }
        ensures outputs { result.outputs ≡ outputs }
    {
        let count = laid.len();
        let mut cells = [Cell::blank(); 1024];
        cells[..count].copy_from_slice(laid);
        Netlist {
            cells,
            count,
            outputs,
        }
    }

    // How many cells there are.
    pub fn count(&self) -> usize
        ensures is { result ≡ self.now.count }
        ensures few { result ≤ 1024 }
    {
        self.count
    }

    // Cell c; past the last one a cell that shows 0.
    pub fn cell(&self, c: usize) -> Cell
        ensures is { result ≡ cell_at self.now.cells c }
        ensures past { self.now.count ≤ c → result ≡ blank }
    {
        self.cells.get(c).copied().unwrap_or(Cell::blank())
    }

    // The cell that shows output bit m, the bits counted over all outputs.
    pub fn output(&self, m: usize) -> u16
        ensures within { m < 1024 → result ≡ slice_index self.now.outputs m }
        ensures past { 1024 ≤ m → result ≡ 0 }
    {
        if m < 1024 { self.outputs[m] } else { 0 }
    }
}
