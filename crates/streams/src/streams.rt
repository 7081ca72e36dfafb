// Streams: a line for each tick, with the name and the number of each input.
ghost use Rattle.std.specs.Prelude.{◌≡◌, ◌+◌, ◌*◌, ◌^◌, ◌<◌, ◌≤◌, length, IfSome, vec_len, MatchBool, MatchResult};
ghost use Rattle.std.specs.Str.Parse.{IsNumeral, digits_value};
ghost use Rattle.words.specs.Cuts.{Words};
ghost use Rattle.streams.specs.Lines.{AtLine, Playable, SomeLine, TickLine};

use crate::unplayed::Unplayed;
use listings::parts::Port;
use std::alloc::Global;
use words::numbers::decimal;
use words::walking;

// The numbers of the inputs, in the order of the listing, for one tick after the other: one list, since a list for each tick would take
// more room than its numbers. A tick has none where there are no inputs, so the ticks are counted.
#[derive(Drop)]
pub(crate) struct Stream {
    inputs: usize,
    pub ticks: usize,
    numbers: Vec<u64>,
    ghost full: { vec_len numbers ≡ ticks * inputs },
}

impl Stream {
    // The numbers of a tick.
    pub(crate) fn tick(&self, at: usize) -> &[u64]
        requires { at < self.now.ticks }
    {
        let start = at * self.inputs;
        &self.numbers[start..start + self.inputs]
    }
}

// Whether a number has no more bits than that.
fn fits(n: u64, width: usize) -> bool
    ensures { MatchBool result (n < 2 ^ width) (2 ^ width ≤ n) }
{
    if width >= 64 {
        return true;
    }
    n < 1 << width
}

// The number that a word writes, if it has no more bits than that.
fn number_of(word: &str, width: usize) -> Option<u64>
    ensures { IfSome result (λ n. IsNumeral 10 word.now × (n ≡ digits_value 10 word.now) × (n < 2 ^ width)) }
{
    decimal(word).filter(|n| fits(*n, width))
}

// The word behind a name, which stands at an even place.
fn word_behind<'a>(words: &[&'a str], name: &str) -> Option<&'a str> {
    words.chunks_exact(2).find_map(|pair| match pair {
        [word, behind] if *word == name => Some(*behind),
        _ => None,
    })
}

// The number of an input.
fn input_number(words: &[&str], port: &Port) -> Option<u64> {
    let word = word_behind(words, port.name.as_str())?;
    number_of(word, port.pins.len())
}

// Adds the numbers of all inputs.
fn add_inputs(
    numbers: &mut Vec<u64>,
    words: &[&str],
    ports: &[Port],
    line: usize,
) -> Result<(), Unplayed>
    ensures { MatchResult result (λ _. vec_len numbers.new ≡ vec_len numbers.old + length ports.now) (λ u. AtLine line u) }
{
    for port in ports {
        numbers.push(input_number(words, port).ok_or(Unplayed::Line(line))?)?;
    }
    Ok(())
}

// The words of a line, if there are that many; no more of them are kept, however long the line is.
fn words_of(heap: Global, text: &str, count: usize, line: usize) -> Result<Vec<&str>, Unplayed>
    ensures { MatchResult result (λ v. Words text.now v.items × (vec_len v ≡ count)) (λ u. AtLine line u) }
{
    let mut words = Vec::with_capacity(heap, count)?;
    for word in walking::Words::new(text) {
        if words.len() >= count {
            return Err(Unplayed::Line(line));
        }
        words.push(word)?;
    }
    if words.len() < count {
        return Err(Unplayed::Line(line));
    }
    Ok(words)
}

// Adds the numbers of a line: every input once, in any order.
fn add_tick(
    heap: Global,
    numbers: &mut Vec<u64>,
    text: &str,
    ports: &[Port],
    line: usize,
) -> Result<(), Unplayed>
    ensures { MatchResult result (λ _. TickLine (length ports.now) text.now × (vec_len numbers.new ≡ vec_len numbers.old + length ports.now)) (λ u. AtLine line u) }
{
    let words = words_of(heap, text, ports.len().saturating_mul(2), line)?;
    add_inputs(numbers, words.as_slice(), ports, line)
}

// The ticks of a stream for these inputs. A line has the number of the ticks before it.
pub(crate) fn read_stream(heap: Global, text: &str, ports: &[Port]) -> Result<Stream, Unplayed>
    ensures { MatchResult result (λ s. ((p : Playable (length ports.now) text.now) × (s.ticks ≡ length p.lines))) (λ u. SomeLine u) }
{
    let inputs = ports.len();
    let mut numbers = Vec::new(heap);
    let mut ticks = 0;
    for part in walking::Lines::new(text) {
        add_tick(heap, &mut numbers, part, ports, ticks)?;
        ticks += 1;
    }
    Ok(Stream {
        inputs,
        ticks,
        numbers,
    })
}
