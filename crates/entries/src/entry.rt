// What a line of a listing may say.
use fabric::parts::{Pin, Side, Source};
use fabric::size::Size;

// Whether bits go into the fabric or come out of it.
#[derive(Clone, Copy, PartialEq, Eq)]
pub enum Direction {
    In,
    Out,
}

// A bit of an input or an output, where it goes in or comes out, and the line that says so.
#[derive(Clone, Copy)]
pub struct Seat<'a> {
    pub direction: Direction,
    pub name: &'a str,
    pub bit: u16,
    pub pin: Pin,
    pub line: usize,
}

#[derive(Clone, Copy)]
pub enum Entry<'a> {
    // the size of the fabric
    Fabric(Size),
    // a cell's table, bit k of the number for the inputs that say k, and the sources of its inputs
    Table {
        cell: u16,
        table: u16,
        sources: [Source; 4],
    },
    // a cell that shows what it held, and what it holds at first
    Holds {
        cell: u16,
        initial: bool,
    },
    // the source of a track that goes out of a cell
    Drive {
        cell: u16,
        side: Side,
        track: u16,
        source: Source,
    },
    // where a bit of an input goes in, or one of an output comes out
    Port(Seat<'a>),
}
