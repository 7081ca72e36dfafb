// A configured fabric over lent numbers, at one moment, and at one of its cells.
ghost use Rattle.std.specs.Prelude.{◌≡◌, ◌+◌, ◌*◌, ◌<◌, length};

use crate::grid::Grid;
use crate::parts::Side;

// A configured fabric with what comes in at its edges.
#[derive(Clone, Copy)]
pub(crate) struct Wiring<'a> {
    pub(crate) grid: Grid,
    pub(crate) bits: &'a [u16],
    pub(crate) pads: &'a [u8],
    ghost bits_len: { length bits.now ≡ grid.columns * grid.rows * (22 + 4 * grid.tracks) },
    ghost pads_len: { length pads.now ≡ grid.columns * grid.rows * 4 * grid.tracks },
}

// It at one moment: the levels are what its cells show and its tracks carry.
#[derive(Clone, Copy)]
pub(crate) struct Moment<'a> {
    pub(crate) wiring: Wiring<'a>,
    pub(crate) levels: &'a [bool],
    ghost all: { length levels.now ≡ wiring.grid.columns * wiring.grid.rows * (1 + 4 * wiring.grid.tracks) },
}

// One of its cells at that moment.
#[derive(Clone, Copy)]
pub(crate) struct Spot<'a> {
    pub(crate) moment: Moment<'a>,
    pub(crate) cell: usize,
    ghost inside: { cell < moment.wiring.grid.columns * moment.wiring.grid.rows },
}

// One of the tracks that go out of the cell on a side, or the one that comes in beside it.
#[derive(Clone, Copy)]
pub(crate) struct Track<'a> {
    pub(crate) spot: Spot<'a>,
    pub(crate) side: Side,
    pub(crate) number: u16,
    ghost inside: { number < spot.moment.wiring.grid.tracks },
}

impl Moment<'_> {
    pub(crate) fn grid(self) -> Grid
        ensures { result ≡ self.entry.wiring.grid }
    {
        self.wiring.grid
    }
}

impl Spot<'_> {
    pub(crate) fn grid(self) -> Grid
        ensures { result ≡ self.entry.moment.wiring.grid }
    {
        self.moment.grid()
    }
}

impl Track<'_> {
    pub(crate) fn grid(self) -> Grid
        ensures { result ≡ self.entry.spot.moment.wiring.grid }
    {
        self.spot.grid()
    }
}
