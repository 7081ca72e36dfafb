// Cells of a row, which has one for each bit of a word.
ghost use Rattle.std.specs.Prelude.{◌≡◌, ◌+◌, ◌<◌};
ghost use Rattle.design.specs.Designs.{word};
ghost use Rattle.netlist.specs.Building.{gate, table_at, handed, constant_row};

use crate::parts::{Cell, Net};

// Bit k of a number.
pub(crate) fn bit(value: u16, k: u16) -> bool
    ensures { result ≡ word value k }
{
    k < 16 && (value >> k) % 2 == 1
}

// A cell that shows bit k of the number.
pub(crate) fn constant(value: u16, k: u16) -> Cell
    ensures { result ≡ constant_row (word value) k }
{
    let table = u16::from(bit(value, k));
    Cell::gate(table, Net::Zero, Net::Zero)
}

// The cell of a chain at bit k, in a row that begins at the cell `start`: it looks up two bits and what the cell of the bit below
// shows. The first has a table of its own.
pub(crate) fn link(start: u16, k: u16, first: u16, table: u16, a: Net, b: Net) -> Cell
    ensures { start + k < 65536 → result ≡ gate (table_at first table k) a b (handed start k) }
{
    if k == 0 {
        Cell::gate(first, a, b)
    } else {
        Cell::gate_of_three(table, a, b, Net::Cell(start.saturating_add(k - 1)))
    }
}
