// The parts of a fabric's configuration.
ghost use Rattle.std.specs.Prelude.{◌≡◌, ◌<◌, Some, OkIff};
ghost use Rattle.fabric.specs.Fabrics.{opposite};
ghost use Rattle.fabric.specs.Numbers.{side_number, source_of, track_from};
ghost use Rattle.fabric.specs.Code.{numbered, side_at};
ghost use Rattle.fabric.specs.Sides.{side_word, Names};

use std::fmt;
use std::str::FromStr;

// The four sides of a cell.
#[derive(Clone, Copy, PartialEq, Eq, Debug)]
pub enum Side {
    Right,
    Below,
    Left,
    Above,
}

// No side has that number or that name.
#[derive(Clone, Copy, PartialEq, Eq, Debug)]
pub struct NoSide;

// Where an input of a cell, or a track that goes out of it, takes its level from.
#[derive(Clone, Copy, PartialEq, Eq, Debug)]
pub enum Source {
    // nothing, which is 0
    Nothing,
    // the cell itself
    Own,
    // a track that comes in from a side
    Track { side: Side, track: u16 },
}

// Where a bit goes into the fabric or comes out of it: a cell, a side of it that is an edge, and a track.
#[derive(Clone, Copy, PartialEq, Eq, Debug)]
pub struct Pin {
    pub cell: u16,
    pub side: Side,
    pub track: u16,
}

impl Side {
    // All four, by their numbers.
    pub const ALL: [Side; 4] = [Side::Right, Side::Below, Side::Left, Side::Above];

    // The side across the cell.
    #[tactic(auto, unfolding(crate::specs::Fabrics::opposite))]
    pub fn opposite(self) -> Side
        ensures { result ≡ opposite self }
    {
        match self {
            Side::Right => Side::Left,
            Side::Below => Side::Above,
            Side::Left => Side::Right,
            Side::Above => Side::Below,
        }
    }

    // The side of that number; above 3 the last.
    #[tactic(auto, unfolding(crate::specs::Code::side_at))]
    pub fn at(n: usize) -> Side
        ensures { result ≡ side_at n }
    {
        match n {
            0 => Side::Right,
            1 => Side::Below,
            2 => Side::Left,
            _ => Side::Above,
        }
    }

    // The side's name.
    pub fn name(self) -> &'static str
        ensures { result.now ≡ side_word self }
    {
        match self {
            Side::Right => "right",
            Side::Below => "below",
            Side::Left => "left",
            Side::Above => "above",
        }
    }
}

// The side's number, 0 to 3.
impl From<Side> for u16 {
    ghost from_gives = { λ side n. (n ≡ side_number side) × (n < 4) };

    #[tactic(auto, unfolding(crate::specs::Numbers::side_number))]
    fn from(side: Side) -> u16 {
        match side {
            Side::Right => 0,
            Side::Below => 1,
            Side::Left => 2,
            Side::Above => 3,
        }
    }
}

// The same number, as a part of a place.
impl From<Side> for usize {
    ghost from_gives = { λ side n. (n ≡ side_number side) × (n < 4) };

    fn from(side: Side) -> usize {
        usize::from(u16::from(side))
    }
}

// The side of that number.
impl TryFrom<u16> for Side {
    type Error = NoSide;

    ghost try_from_gives = { λ n r. OkIff r (n < 4) (side_at n) };

    fn try_from(n: u16) -> Result<Side, NoSide> {
        if n < 4 {
            Ok(Side::at(n as usize))
        } else {
            Err(NoSide)
        }
    }
}

impl fmt::Display for Side {
    ghost output = { λ side. Some (side_word side) };

    fn fmt<W: fmt::Write>(&self, f: &mut fmt::Formatter<W>) -> fmt::Result {
        f.write_str(self.name())
    }
}

// The side of that name.
impl FromStr for Side {
    type Err = NoSide;

    ghost from_str_gives = { Names };

    fn from_str(word: &str) -> Result<Side, NoSide> {
        match word {
            "right" => Ok(Side::Right),
            "below" => Ok(Side::Below),
            "left" => Ok(Side::Left),
            "above" => Ok(Side::Above),
            _ => Err(NoSide),
        }
    }
}

// The source that a number stands for.
impl From<u16> for Source {
    ghost from_gives = { λ n source. source ≡ source_of n };

    #[tactic(auto, unfolding(crate::specs::Numbers::source_of))]
    fn from(n: u16) -> Source {
        match n {
            0 => Source::Nothing,
            1 => Source::Own,
            _ => Source::track_from((n - 2) / 64, (n - 2) % 64),
        }
    }
}

impl Source {
    // A track from the side of that number; there is none above 3.
    #[tactic(auto, unfolding(crate::specs::Numbers::track_from, crate::specs::Code::side_at))]
    fn track_from(side: u16, track: u16) -> Source
        ensures { result ≡ track_from side track }
    {
        Side::try_from(side).map_or(Source::Nothing, |side| Source::Track { side, track })
    }
}

// The number that stands for the source. A track of 64 or more has none, and gets that of nothing.
impl From<Source> for u16 {
    ghost from_gives = { λ source n. (source_of n ≡ numbered source) × (n < 258) };

    #[tactic(auto, using(std::proofs::lemmas::Bool::Decides::nat_tests), unfolding(crate::specs::Numbers::source_of))]
    fn from(source: Source) -> u16 {
        match source {
            Source::Nothing => 0,
            Source::Own => 1,
            Source::Track { side, track } => {
                if track < 64 {
                    2 + 64 * u16::from(side) + track
                } else {
                    0
                }
            }
        }
    }
}
