// The plain layout: every net has one track number of its own, on which it runs everywhere, input bits first, then cells.
ghost use Rattle.std.specs.Prelude.{◌+◌, ◌*◌, ◌≤◌};

use fabric::grid::Grid;
use place::plain::Placement;

// The plain layout on a fabric, of so many input bits and of the cells of a placement. There is room for it.
#[derive(Clone, Copy, PartialEq, Eq, Debug)]
pub struct Plain {
    pub grid: Grid,
    pub inputs: u16,
    pub placement: Placement,
    ghost cells: { placement.count ≤ grid.columns * grid.rows },
    ghost tracks: { inputs + placement.count ≤ grid.tracks },
}
