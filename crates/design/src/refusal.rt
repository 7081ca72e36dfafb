// Why an input is turned away. Each case is one reason; `specs/Refusals.antt` gives the number and the place of each.
ghost use Rattle.std.specs.Prelude.{◌≡◌, Some};
ghost use Rattle.design.specs.Refusals.{number_of, place_of, refusal_text};

use std::fmt;

#[derive(Clone, Copy, PartialEq, Eq, Debug)]
pub enum Refusal {
    // 1: the fabric has no row, or more than 32
    Rows,
    // 1: no column, or more than 32
    Columns,
    // 1: no track, or more than 64
    Tracks,
    // 1: more than 32,000 numbers of bits
    FabricSize,
    // 2: a design in numbers of another length than it says
    DesignLength { expected: u64 },
    // 3: a number above 65,535
    NumberTooLarge { place: u64 },
    // 3: more than 1,024 nodes
    TooManyNodes,
    // 3: a node of no kind, or one that names a node that is not earlier
    BadNode { node: u64 },
    // 3: a register or an output that names a node that there isn't; where in the list it is named
    NoSuchNode { place: u64 },
    // 4: room, bits, held bits, pads or outputs of another length than the fabric has
    RoomLength,
    BitsLength,
    HeldLength,
    PadsLength,
    OutputsLength,
    // 5: a register, an output or an input that isn't sound; the place counts registers, then outputs, then inputs
    UnsoundRegister { register: u64 },
    UnsoundOutput { place: u64 },
    UnsoundInput { place: u64 },
    // 6: too little room for pins
    Pins { needed: u64 },
    // 7: no layout was found: the plain one takes more cells, or else more tracks, than there are
    Cells { needed: u64 },
    NetTracks { needed: u64 },
    // 8: a text that can't be read
    Text { line: u64 },
    // 9: something that the program doesn't do yet
    NotYet { node: u64 },
}

impl Refusal {
    // The number of the refusal, 1 to 9.
    pub fn number(self) -> u64
        ensures { result ≡ number_of self }
    {
        match self {
            Refusal::Rows | Refusal::Columns | Refusal::Tracks | Refusal::FabricSize => 1,
            Refusal::DesignLength { .. } => 2,
            Refusal::NumberTooLarge { .. }
            | Refusal::TooManyNodes
            | Refusal::BadNode { .. }
            | Refusal::NoSuchNode { .. } => 3,
            Refusal::RoomLength
            | Refusal::BitsLength
            | Refusal::HeldLength
            | Refusal::PadsLength
            | Refusal::OutputsLength => 4,
            Refusal::UnsoundRegister { .. }
            | Refusal::UnsoundOutput { .. }
            | Refusal::UnsoundInput { .. } => 5,
            Refusal::Pins { .. } => 6,
            Refusal::Cells { .. } | Refusal::NetTracks { .. } => 7,
            Refusal::Text { .. } => 8,
            Refusal::NotYet { .. } => 9,
        }
    }

    // The place that goes with the number.
    pub fn place(self) -> u64
        ensures { result ≡ place_of self }
    {
        match self {
            Refusal::Rows => 0,
            Refusal::Columns => 1,
            Refusal::Tracks => 2,
            Refusal::FabricSize => 3,
            Refusal::DesignLength { expected } => expected,
            Refusal::NumberTooLarge { place } => place,
            Refusal::TooManyNodes => 1024,
            Refusal::BadNode { node } => node,
            Refusal::NoSuchNode { place } => place,
            Refusal::RoomLength => 0,
            Refusal::BitsLength => 1,
            Refusal::HeldLength => 2,
            Refusal::PadsLength => 3,
            Refusal::OutputsLength => 4,
            Refusal::UnsoundRegister { register } => register,
            Refusal::UnsoundOutput { place } => place,
            Refusal::UnsoundInput { place } => place,
            Refusal::Pins { needed } => needed,
            Refusal::Cells { needed } => needed,
            Refusal::NetTracks { needed } => needed,
            Refusal::Text { line } => line,
            Refusal::NotYet { node } => node,
        }
    }
}

// As `refused N at PLACE`.
impl fmt::Display for Refusal {
    ghost output = { λ refusal. Some (refusal_text refusal) };

    fn fmt<W: fmt::Write>(&self, f: &mut fmt::Formatter<W>) -> fmt::Result {
        let number = self.number();
        let place = self.place();
        write!(f, "refused {number} at {place}")
    }
}
