// Why a text can't be read. Lines are shown counted from 1.
use crate::trouble::Line;
use design::refusal::Refusal;
use listings::parts::Port;
use std::fmt;

const NUMBERS_HINT: &str = "a design in numbers has decimal numbers, separated by white space";

const FORMS_HINT: &str =
    "the first line is `fabric ROWS COLUMNS TRACKS`, and any other is `cell N table HHHH from S S S S`, `cell N holds 0`, `cell N SIDE T from S`, `in NAME BIT at N SIDE T` or `out NAME BIT at N SIDE T`";

const STANDING_HINT: &str =
    "an earlier line says it already, or the fabric hasn't got this cell or track, or has no edge there, or a lower bit of the word is missing";

// A line that can't be read, and what it says.
fn write_line<W: fmt::Write>(f: &mut fmt::Formatter<W>, of: &str, line: Line) -> fmt::Result {
    let shown = line.number.saturating_add(1);
    let text = line.text;
    write!(f, "line {shown} of the {of} can't be read: {text:?}; ")
}

pub(crate) fn write_bytes<W: fmt::Write>(
    f: &mut fmt::Formatter<W>,
    of: &str,
    line: u64,
) -> fmt::Result {
    let shown = line.saturating_add(1);
    write!(
        f,
        "line {shown} of the {of} can't be read: it has bytes that are no UTF-8 text"
    )
}

pub(crate) fn write_numbers<W: fmt::Write>(f: &mut fmt::Formatter<W>, line: Line) -> fmt::Result {
    write_line(f, "design", line)?;
    f.write_str(NUMBERS_HINT)
}

// `formed` is the flag of a line that isn't read: two functions would differ in the hint alone.
pub(crate) fn write_listing<W: fmt::Write>(
    f: &mut fmt::Formatter<W>,
    line: Line,
    formed: bool,
) -> fmt::Result {
    write_line(f, "listing", line)?;
    f.write_str(if formed { STANDING_HINT } else { FORMS_HINT })
}

// What a line of a stream is to give.
fn write_inputs<W: fmt::Write>(f: &mut fmt::Formatter<W>, inputs: &[Port]) -> fmt::Result {
    if inputs.is_empty() {
        return f.write_str("there are no inputs, so each line is empty");
    }
    f.write_str("each line gives every input once, with a number that fits it:")?;
    for port in inputs {
        write!(f, " {} of {} bits", port.name, port.pins.len())?;
    }
    Ok(())
}

pub(crate) fn write_stream<W: fmt::Write>(
    f: &mut fmt::Formatter<W>,
    line: Line,
    inputs: &[Port],
) -> fmt::Result {
    write_line(f, "stream", line)?;
    write_inputs(f, inputs)
}

// What is wrong with the size of a fabric.
pub(crate) fn size_hint(refusal: Refusal) -> &'static str {
    match refusal {
        Refusal::Rows => "asks for rows that can't be had: a fabric has 1 to 32 of them",
        Refusal::Columns => "asks for columns that can't be had: a fabric has 1 to 32 of them",
        Refusal::Tracks => "asks for tracks that can't be had: a fabric has 1 to 64 of them",
        _ =>
            "is too large: rows times columns times (22 + 4 times the tracks) may be 32000 at most",
    }
}

// A size that there isn't; `text` says it as `fabric 4 5 25`.
pub(crate) fn write_size<W: fmt::Write>(
    f: &mut fmt::Formatter<W>,
    refusal: Refusal,
    text: &str,
) -> fmt::Result {
    write!(f, "{text:?} {}", size_hint(refusal))
}
