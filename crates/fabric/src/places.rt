// Sizes and places on a fabric.
ghost use Rattle.std.specs.Prelude.{◌≡◌, ◌+◌, ◌*◌, ◌<◌, ◌≤◌, true, false, Some, None, MatchOption, MatchResult};
ghost use Rattle.fabric.specs.Fabrics.{cell_count, at_edge, neighbour};
ghost use Rattle.fabric.specs.Numbers.{side_number, per_cell, room_length, pads_length, pad_place, size_refusal};
ghost use Rattle.fabric.specs.Code.{size_of, signal_count};

use crate::grid::Grid;
use crate::parts::{Pin, Side};
use crate::size::Size;
use design::refusal::Refusal;

// The grid of that size, or why there is none.
impl TryFrom<Size> for Grid {
    type Error = Refusal;

    ghost try_from_gives = { λ size r. MatchResult r (λ g. (size_refusal size ≡ None) × (size_of g ≡ size)) (λ f. size_refusal size ≡ Some f) };

    #[tactic(auto, using(std::proofs::lemmas::Bool::Decides::nat_tests), unfolding(crate::specs::Numbers::size_refusal, crate::specs::Numbers::room_length, crate::specs::Numbers::per_cell))]
    fn try_from(size: Size) -> Result<Grid, Refusal> {
        let Size {
            columns,
            rows,
            tracks,
        } = size;
        if rows == 0 || rows > 32 {
            return Err(Refusal::Rows);
        }
        if columns == 0 || columns > 32 {
            return Err(Refusal::Columns);
        }
        if tracks == 0 || tracks > 64 {
            return Err(Refusal::Tracks);
        }
        if columns * rows * (22 + 4 * tracks) > 32000 {
            return Err(Refusal::FabricSize);
        }
        Ok(Grid {
            columns: columns as usize,
            rows: rows as usize,
            tracks: tracks as usize,
        })
    }
}

// The size of a grid.
impl From<Grid> for Size {
    ghost from_gives = { λ grid size. size ≡ size_of grid };

    fn from(grid: Grid) -> Size {
        Size {
            columns: grid.columns as u64,
            rows: grid.rows as u64,
            tracks: grid.tracks as u64,
        }
    }
}

impl Grid {
    // How many cells there are.
    pub fn cells(self) -> usize
        ensures { result ≡ cell_count (size_of self) }
    {
        self.columns * self.rows
    }

    // How many numbers configure one cell.
    #[tactic(auto, unfolding(crate::specs::Numbers::per_cell))]
    pub fn per_cell(self) -> usize
        ensures { result ≡ per_cell (size_of self) }
    {
        22 + 4 * self.tracks
    }

    // How many numbers configure the fabric.
    #[tactic(auto, unfolding(crate::specs::Numbers::room_length, crate::specs::Numbers::per_cell))]
    pub fn room_len(self) -> usize
        ensures { result ≡ room_length (size_of self) }
    {
        self.cells() * self.per_cell()
    }

    // How many pads there are.
    #[tactic(auto, unfolding(crate::specs::Numbers::pads_length))]
    pub fn pads_len(self) -> usize
        ensures { result ≡ pads_length (size_of self) }
    {
        self.cells() * 4 * self.tracks
    }

    // Where a pin stands among all pads.
    #[tactic(auto, unfolding(crate::specs::Numbers::pad_place))]
    pub fn pad_place(self, pin: Pin) -> usize
        ensures { result ≡ pad_place (size_of self) pin.cell pin.side pin.track }
    {
        let edge = usize::from(pin.cell) * 4 + usize::from(pin.side);
        edge * self.tracks + usize::from(pin.track)
    }

    // Where the source of a track that goes out of a cell stands among the cell's numbers.
    pub fn drive_place(self, side: Side, track: u16) -> usize
        ensures { result ≡ 22 + (side_number side * self.tracks + track) }
    {
        22 + (usize::from(side) * self.tracks + usize::from(track))
    }

    // How many cells and tracks there are together.
    pub(crate) fn signals(self) -> usize
        ensures is { result ≡ signal_count (size_of self) }
        ensures small { result ≤ 32000 }
    {
        self.cells() * (1 + 4 * self.tracks)
    }

    // Whether no neighbour stands on that side of the cell.
    #[tactic(auto, using(std::proofs::lemmas::Bool::Decides::nat_tests), unfolding(crate::specs::Fabrics::at_edge))]
    pub fn at_edge(self, cell: usize, side: Side) -> bool
        ensures { result ≡ at_edge (size_of self) cell side }
    {
        match side {
            Side::Right => cell % self.columns + 1 == self.columns,
            Side::Below => cell / self.columns == self.rows - 1,
            Side::Left => cell % self.columns == 0,
            Side::Above => cell / self.columns == 0,
        }
    }

    // The cell on that side, or none at an edge.
    #[tactic(auto, using(crate::proofs::Indices::left_of_some, crate::proofs::Indices::above_some, crate::proofs::Geometry::neighbour_inside), unfolding(crate::specs::Fabrics::neighbour))]
    pub(crate) fn neighbour(self, cell: usize, side: Side) -> Option<usize>
        requires { cell < cell_count (size_of self) }
        ensures { MatchOption result (at_edge (size_of self) cell side ≡ true)
            (λ n. (at_edge (size_of self) cell side ≡ false) × (n ≡ neighbour (size_of self) cell side) × (n < cell_count (size_of self))) }
    {
        if self.at_edge(cell, side) {
            return None;
        }
        Some(match side {
            Side::Right => cell + 1,
            Side::Below => cell + self.columns,
            Side::Left => cell - 1,
            Side::Above => cell - self.columns,
        })
    }
}
