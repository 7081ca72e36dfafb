// The reading of listings.
ghost use Rattle.std.specs.Prelude.{◌≡◌, MatchResult};
ghost use Rattle.fabric.specs.Code.{size_of};
ghost use Rattle.reading.specs.Faults.{FirstLine, Headed, NoSize, Sized, SomeLine};

use crate::draft::Draft;
use crate::unread::Unread;
use entries::entry::Entry;
use entries::lines::read_line;
use fabric::grid::Grid;
use listings::parts::Listing;
use std::alloc::Global;
use words::walking::Lines;

// The grid that the first line says.
fn fabric_line(line: &str) -> Result<Grid, Unread>
    ensures { MatchResult result (λ g. Sized line.now (size_of g)) (λ u. NoSize (λ z. Sized line.now z) u) }
{
    match read_line(line, 0) {
        Some(Entry::Fabric(size)) => Ok(Grid::try_from(size)?),
        entry => Err(Unread::Line {
            line: 0,
            formed: entry.is_some(),
        }),
    }
}

// The first line; an empty text has an empty one.
fn first_line(text: &str) -> &str
    ensures { FirstLine text.now result.now }
{
    Lines::new(text).next().unwrap_or("")
}

// The listing that the lines after the first say.
fn read_rest(heap: Global, grid: Grid, text: &str) -> Result<Listing, Unread>
    ensures { MatchResult result (λ l. l.grid ≡ grid) (λ u. SomeLine u) }
{
    let mut draft = Draft::new(heap, grid)?;
    for (line, text) in Lines::new(text).enumerate().skip(1) {
        draft.read_line(text, line)?;
    }
    draft.finished()
}

// Reads a listing: the fabric first, the other lines in any order, each thing at most once.
pub fn read(heap: Global, text: &str) -> Result<Listing, Unread>
    ensures { MatchResult result (λ l. Headed text.now (size_of l.grid)) (λ u. NoSize (λ z. Headed text.now z) u) }
{
    let grid = fabric_line(first_line(text))?;
    read_rest(heap, grid, text)
}
