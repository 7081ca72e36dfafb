// What a program can turn away.
ghost use Rattle.std.specs.Prelude.{◌≡◌};

use design::refusal::Refusal;
use fabric::size::Size;
use listings::parts::Port;

// A fabric, and the numbers of the design that is to be put on it; none where the fabric is played.
#[derive(Clone, Copy)]
pub struct Asked<'a> {
    pub size: Size,
    pub numbers: &'a [u64],
}

// A line of a text, counted from 0, and what it says.
#[derive(Clone, Copy)]
pub struct Line<'a> {
    pub number: u64,
    pub text: &'a str,
}

// Lines are counted from 0.
#[derive(Clone, Copy)]
pub enum Trouble<'a> {
    // a design, a listing or a stream with bytes that are no text
    Bytes { of: &'a str, line: u64 },
    // a line of a design in numbers that can't be read
    Numbers(Line<'a>),
    // a line of a listing that can't be read: it isn't formed as it should be, or else it can't stand
    // there; a flag, as the reading of listings has it
    Listing { line: Line<'a>, formed: bool },
    // a line of a stream for these inputs that can't be read
    Stream { line: Line<'a>, inputs: &'a [Port] },
    // a fabric of a size that there isn't, as the first line of a listing says it
    Size { refusal: Refusal, text: &'a str },
    // a design that can't be put on a fabric, or a fabric that can't be played
    Design { refusal: Refusal, asked: Asked<'a> },
}

impl Trouble<'_> {
    ghost use Rattle.messages.specs.Begun.{refusal_in};

    // The refusal.
    pub(crate) fn refusal(self) -> Refusal
        ensures { result ≡ refusal_in self.entry }
    {
        match self {
            Trouble::Bytes { line, .. } => Refusal::Text { line },
            Trouble::Numbers(line) | Trouble::Listing { line, .. } | Trouble::Stream { line, .. } =>
                Refusal::Text { line: line.number },
            Trouble::Size { refusal, .. } | Trouble::Design { refusal, .. } => refusal,
        }
    }
}
