// Why a design can't be put on a fabric.
use crate::texts::size_hint;
use crate::trouble::Asked;
use design::lookup::at;
use design::refusal::Refusal;
use fabric::size::Size;
use std::fmt;

// A size that there isn't.
fn write_size<W: fmt::Write>(
    f: &mut fmt::Formatter<W>,
    refusal: Refusal,
    size: Size,
) -> fmt::Result {
    let Size {
        columns,
        rows,
        tracks,
    } = size;
    let hint = size_hint(refusal);
    write!(f, "\"fabric {rows} {columns} {tracks}\" {hint}")
}

fn write_length<W: fmt::Write>(
    f: &mut fmt::Formatter<W>,
    numbers: &[u64],
    expected: u64,
) -> fmt::Result {
    let count = numbers.len();
    let inputs = at(numbers, 0);
    let registers = at(numbers, 1);
    let outputs = at(numbers, 2);
    let nodes = at(numbers, 3);
    write!(
        f,
        "the design has {count} numbers and should have {expected}: 4 counts, then 1 for each of {inputs} inputs, 3 for each of {registers} registers, 1 for each of {outputs} outputs and 4 for each of {nodes} nodes"
    )
}

fn write_name<W: fmt::Write>(
    f: &mut fmt::Formatter<W>,
    numbers: &[u64],
    place: u64,
) -> fmt::Result {
    let node = at(numbers, place as usize);
    let nodes = at(numbers, 3);
    write!(
        f,
        "number {place} of the design, counted from 0, names node {node}, and there are {nodes} nodes, counted from 0"
    )
}

// A number, a node or a name that a design can't have.
fn write_content<W: fmt::Write>(
    f: &mut fmt::Formatter<W>,
    refusal: Refusal,
    numbers: &[u64],
) -> fmt::Result {
    match refusal {
        Refusal::NumberTooLarge { place } => write!(
            f,
            "number {place} of the design, counted from 0, is above 65535"
        ),
        Refusal::TooManyNodes => {
            let nodes = at(numbers, 3);
            write!(f, "the design has {nodes} nodes, and 1024 is the most")
        }
        Refusal::BadNode { node } => write!(
            f,
            "node {node} is of no kind, which are 0 to 12, or names a node that doesn't stand before it"
        ),
        _ => write_name(f, numbers, refusal.place()),
    }
}

// A design whose widths don't fit.
fn write_soundness<W: fmt::Write>(
    f: &mut fmt::Formatter<W>,
    refusal: Refusal,
    numbers: &[u64],
) -> fmt::Result {
    let registers = at(numbers, 1);
    match refusal {
        Refusal::UnsoundRegister { register } => write!(
            f,
            "register {register} is to have 1 to 64 bits, and a node of that width whose operands exist and fit each other"
        ),
        Refusal::UnsoundOutput { place } => {
            let output = place.saturating_sub(registers);
            write!(
                f,
                "output {output} is to name a node whose operands exist and fit each other"
            )
        }
        _ => {
            let outputs = at(numbers, 2);
            let input = refusal
                .place()
                .saturating_sub(registers)
                .saturating_sub(outputs);
            write!(f, "input {input} is to have 1 to 64 bits")
        }
    }
}

// A fabric that is too small.
fn write_layout<W: fmt::Write>(
    f: &mut fmt::Formatter<W>,
    refusal: Refusal,
    size: Size,
) -> fmt::Result {
    let needed = refusal.place();
    let tracks = size.tracks;
    let cells = size.rows.saturating_mul(size.columns);
    match refusal {
        Refusal::Cells { .. } => write!(
            f,
            "no layout was found: the plain one takes {needed} cells, and the fabric has {cells}; ask for more rows or columns"
        ),
        _ => write!(
            f,
            "no layout was found: the plain one takes {needed} tracks, and the fabric has {tracks}; ask for more tracks"
        ),
    }
}

// What is left: lists of another length, too little room for pins, and what can't be had yet.
fn write_other<W: fmt::Write>(f: &mut fmt::Formatter<W>, refusal: Refusal) -> fmt::Result {
    match refusal {
        Refusal::Pins { needed } => write!(
            f,
            "the inputs and outputs have {needed} bits, which is more than there is room for"
        ),
        Refusal::NotYet { node } => write!(
            f,
            "only single bits, inputs, registers, and, xor and fabrics of one row can be had yet; node {node} is of another kind, or else a word is wider or the fabric has more rows"
        ),
        _ => f.write_str(
            "a list of numbers is of another length than the fabric has; that is a fault of this program",
        ),
    }
}

pub(crate) fn write_design<W: fmt::Write>(
    f: &mut fmt::Formatter<W>,
    refusal: Refusal,
    asked: Asked,
) -> fmt::Result {
    match refusal {
        Refusal::Rows | Refusal::Columns | Refusal::Tracks | Refusal::FabricSize => {
            write_size(f, refusal, asked.size)
        }
        Refusal::DesignLength { expected } => write_length(f, asked.numbers, expected),
        Refusal::NumberTooLarge { .. }
        | Refusal::TooManyNodes
        | Refusal::BadNode { .. }
        | Refusal::NoSuchNode { .. } => write_content(f, refusal, asked.numbers),
        Refusal::UnsoundRegister { .. }
        | Refusal::UnsoundOutput { .. }
        | Refusal::UnsoundInput { .. } => write_soundness(f, refusal, asked.numbers),
        Refusal::Cells { .. } | Refusal::NetTracks { .. } => write_layout(f, refusal, asked.size),
        _ => write_other(f, refusal),
    }
}
