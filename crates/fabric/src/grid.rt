// How large a fabric is.
ghost use Rattle.std.specs.Prelude.{◌+◌, ◌*◌, ◌<◌, ◌≤◌};

// Columns and rows of cells, and how many tracks go each way between neighbours.
#[derive(Clone, Copy, PartialEq, Eq, Debug)]
pub struct Grid {
    pub columns: usize,
    pub rows: usize,
    pub tracks: usize,
    ghost some_columns: { 0 < columns },
    ghost few_columns: { columns ≤ 32 },
    ghost some_rows: { 0 < rows },
    ghost few_rows: { rows ≤ 32 },
    ghost some_tracks: { 0 < tracks },
    ghost few_tracks: { tracks ≤ 64 },
    ghost fits: { columns * rows * (22 + 4 * tracks) ≤ 32000 },
}
