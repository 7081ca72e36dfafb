// How large a fabric is to be.

// Columns and rows of cells, and how many tracks go each way between neighbours. Any numbers: a grid is of a size that is allowed.
#[derive(Clone, Copy, PartialEq, Eq, Debug)]
pub struct Size {
    pub columns: u64,
    pub rows: u64,
    pub tracks: u64,
}
