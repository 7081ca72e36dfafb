// What the lines of a listing say, from their words.
ghost use Rattle.std.specs.Prelude.{◌≡◌, ℕ, IfSome};
ghost use Rattle.entries.specs.Lines.{SourceAt, LineSays, SizeSaid, TextSays, direction_word};
ghost use Rattle.entries.specs.Texts.{word_at};

use crate::entry::{Direction, Entry, Seat};
use crate::fields::{below_64, first_source, hex, is_name, small};
use fabric::parts::{Pin, Source};
use fabric::size::Size;
use words::numbers::decimal_or_most;
use words::walking::Words;

// How many words the longest line has: a cell's table, with four tracks as its sources.
const MOST_WORDS: usize = 13;

// The source that is all of these words.
fn source(words: &[&str]) -> Option<Source>
    ensures { IfSome result (λ s. SourceAt words.now 0 s) }
{
    let (source, rest) = first_source(words)?;
    rest.is_empty().then_some(source)
}

// The four sources that are all of these words.
fn sources(words: &[&str]) -> Option<[Source; 4]> {
    let (first, rest) = first_source(words)?;
    let (second, rest) = first_source(rest)?;
    let (third, rest) = first_source(rest)?;
    let fourth = source(rest)?;
    Some([first, second, third, fourth])
}

// A line about a cell; it says the same whatever its number.
fn cell_line<'a>(words: &[&'a str]) -> Option<Entry<'a>>
    ensures { IfSome result (λ e. (line : ℕ) → LineSays words.now line e) }
{
    match words {
        ["cell", cell, "table", table, "from", from @ ..] => Some(Entry::Table {
            cell: small(cell)?,
            table: hex(table)?,
            sources: sources(from)?,
        }),
        ["cell", cell, "holds", "0"] => Some(Entry::Holds {
            cell: small(cell)?,
            initial: false,
        }),
        ["cell", cell, "holds", "1"] => Some(Entry::Holds {
            cell: small(cell)?,
            initial: true,
        }),
        ["cell", cell, side, track, "from", from @ ..] => Some(Entry::Drive {
            cell: small(cell)?,
            side: side.parse().ok()?,
            track: small(track)?,
            source: source(from)?,
        }),
        _ => None,
    }
}

// in NAME BIT at N SIDE T, or the same with out; a bit's number is below 64
fn port_line<'a>(words: &[&'a str], direction: Direction, line: usize) -> Option<Entry<'a>>
    ensures { IfSome result (λ e. word_at words.now 0 ≡ direction_word direction → LineSays words.now line e) }
{
    let [_, name, bit, "at", cell, side, track] = words else {
        return None;
    };
    if !is_name(name) {
        return None;
    }
    let pin = Pin {
        cell: small(cell)?,
        side: side.parse().ok()?,
        track: small(track)?,
    };
    Some(Entry::Port(Seat {
        direction,
        name,
        bit: below_64(bit)?,
        pin,
        line,
    }))
}

// The size of a fabric that three words say; a number that doesn't fit 64 bits counts as the largest that does.
pub fn read_size(rows: &str, columns: &str, tracks: &str) -> Option<Size>
    ensures { SizeSaid rows.now columns.now tracks.now result }
{
    Some(Size {
        rows: decimal_or_most(rows)?,
        columns: decimal_or_most(columns)?,
        tracks: decimal_or_most(tracks)?,
    })
}

// What the line of that number says, if it can be read.
pub fn read_entry<'a>(words: &[&'a str], line: usize) -> Option<Entry<'a>>
    ensures { IfSome result (λ e. LineSays words.now line e) }
{
    match words {
        ["fabric", rows, columns, tracks] => Some(Entry::Fabric(read_size(rows, columns, tracks)?)),
        ["in", ..] => port_line(words, Direction::In, line),
        ["out", ..] => port_line(words, Direction::Out, line),
        _ => cell_line(words),
    }
}

// What the line of that number says, if it can be read, from its text. Its words go into an array with their count beside it: a `Vec`
// could fail for want of memory.
pub fn read_line<'a>(text: &'a str, line: usize) -> Option<Entry<'a>>
    ensures { IfSome result (λ e. TextSays text.now line e) }
{
    let mut words = [""; MOST_WORDS];
    let mut count = 0;
    for word in Words::new(text) {
        if count >= MOST_WORDS {
            return None;
        }
        words[count] = word;
        count += 1;
    }
    read_entry(&words[..count], line)
}
