// The parts of a netlist.
ghost use Rattle.std.specs.Prelude.{◌≡◌};
ghost use Rattle.netlist.specs.declared.parts.Net.TheVariants.{Zero};
ghost use Rattle.netlist.specs.Building.{gate, blank, register_cell};

// What an input of a cell reads: nothing, which is 0, a bit of the inputs, or what a cell shows. Input bits are counted over all
// inputs, word by word from the low bit.
#[derive(Clone, Copy)]
pub enum Net {
    Zero,
    Input(u16),
    Cell(u16),
}

// A cell of four inputs: bit k of the table is what it looks up where its inputs say k. A cell that holds shows what it held, and
// what it looks up is what it holds next. A flag and a bit, and not an `Option`: a bitstream has a place for each, and what a cell that
// doesn't hold holds at first is written all the same, as 0.
#[derive(Clone, Copy)]
pub struct Cell {
    pub table: u16,
    pub inputs: [Net; 4],
    pub holds: bool,
    pub initial: bool,
}

impl Cell {
    // A cell of three inputs; bit k of the table is what it looks up where the first counts 1, the second 2 and the third 4.
    pub fn gate_of_three(table: u16, a: Net, b: Net, c: Net) -> Cell
        ensures { result ≡ gate table a b c }
    {
        Cell {
            table,
            inputs: [a, b, c, Net::Zero],
            holds: false,
            initial: false,
        }
    }

    // A cell of two inputs; bit k of the table is what it looks up where the first counts 1 and the second 2.
    pub fn gate(table: u16, a: Net, b: Net) -> Cell
        ensures { result ≡ gate table a b Zero }
    {
        Cell::gate_of_three(table, a, b, Net::Zero)
    }

    // A cell that holds the net.
    pub fn register(next: Net, initial: bool) -> Cell
        ensures { result ≡ register_cell next initial }
    {
        Cell {
            table: 2,
            inputs: [next, Net::Zero, Net::Zero, Net::Zero],
            holds: true,
            initial,
        }
    }

    // A cell that shows 0.
    pub fn blank() -> Cell
        ensures { result ≡ blank }
    {
        Cell::gate(0, Net::Zero, Net::Zero)
    }
}

impl Default for Cell {
    ghost is_default = { λ cell. cell ≡ blank };

    fn default() -> Self {
        Cell::blank()
    }
}
