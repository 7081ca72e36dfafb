// A design in numbers put on a fabric, as a listing: by `put`, or by `put_words`, which takes every sound design.
ghost use Rattle.std.specs.Prelude.{◌≡◌, length, IfOk, Err, vec_len, MatchOption, slice_index};
ghost use Rattle.fabric.specs.Code.{size_of};
ghost use Rattle.fabric.specs.Numbers.{room_length};
ghost use Rattle.putting.specs.declared.unput.Unput.TheVariants.{Turned};
ghost use Rattle.putting.specs.Refusing.{asked_refusal, expected};

use crate::pinning::ports;
use crate::unput::Unput;
use crate::widths::{bits, input_widths, output_widths};
use bitstream::{Made, put, put_words};
use design::encoded::Encoded;
use design::lookup::at;
use design::refusal::Refusal;
use fabric::grid::Grid;
use fabric::size::Size;
use listings::parts::Listing;
use std::alloc::Global;

// The most pins that are made room for: more than any fabric has.
const MOST_PINS: usize = 65535;

// A number of a design; 0 past the end.
fn number_at(numbers: &[u64], place: usize) -> u64
    ensures { result ≡ slice_index numbers.now place }
{
    at(numbers, place)
}

// How many numbers the design should have, as its counts say.
fn expected_len(numbers: &[u64]) -> u64
    ensures { result ≡ expected numbers.now }
{
    let inputs = number_at(numbers, 0);
    let registers = number_at(numbers, 1).saturating_mul(3);
    let outputs = number_at(numbers, 2);
    let nodes = number_at(numbers, 3).saturating_mul(4);
    4u64.saturating_add(inputs)
        .saturating_add(registers)
        .saturating_add(outputs)
        .saturating_add(nodes)
}

// The numbers of 16 bits, if each is.
fn narrowed(heap: Global, numbers: &[u64]) -> Result<Vec<u16>, Unput>
    ensures { IfOk result (λ v. vec_len v ≡ length numbers.now) }
{
    let mut design = Vec::new(heap);
    for (place, n) in numbers.iter().enumerate() {
        let place = place as u64;
        design.push(u16::try_from(*n).map_err(|_| Refusal::NumberTooLarge { place })?)?;
    }
    Ok(design)
}

// The room that a design takes; its pins are written.
fn put_room<F>(
    heap: Global,
    grid: Grid,
    design: &[u16],
    pins: &mut [[u16; 3]],
    put: F,
) -> Result<Vec<u16>, Unput>
where
    F: Fn(u64, u64, u64, &[u16], &mut [u16], &mut [u16]) -> Made,
    requires { F.IsAlwaysCallable put }
    ensures { IfOk result (λ v. vec_len v ≡ room_length (size_of grid)) }
{
    let mut room = Vec::from_elem(heap, 0, grid.room_len())?;
    match put(
        grid.columns as u64,
        grid.rows as u64,
        grid.tracks as u64,
        design,
        room.as_mut_slice(),
        pins.as_flattened_mut(),
    ) {
        Made::Placed => Ok(room),
        Made::Refused(refusal) => Err(Unput::from(refusal)),
    }
}

// Puts a design that fits 16 bits on the grid.
fn put_design<F>(heap: Global, grid: Grid, design: &[u16], put: F) -> Result<Listing, Unput>
where
    F: Fn(u64, u64, u64, &[u16], &mut [u16], &mut [u16]) -> Made,
    requires { F.IsAlwaysCallable put }
    ensures { IfOk result (λ l. l.grid ≡ grid) }
{
    let read = Encoded::new(design);
    let ins = input_widths(heap, read)?;
    let outs = output_widths(heap, read)?;
    let first_output = bits(ins.as_slice()).min(MOST_PINS);
    let needed = first_output.saturating_add(bits(outs.as_slice()));
    let mut pins = Vec::from_elem(heap, [0; 3], needed.min(MOST_PINS))?;
    let room = put_room(heap, grid, design, pins.as_mut_slice(), put)?;
    let inputs = ports(heap, "i", ins.as_slice(), pins.as_slice())?;
    let outputs = ports(heap, "o", outs.as_slice(), &pins[first_output..])?;
    Ok(Listing {
        grid,
        room,
        inputs,
        outputs,
    })
}

// The listing of a design on a fabric. The fabric is looked at first, then how many numbers there are, then each number. Each function that
// hands `put` on asks that it may be called, and the two public ones promise what this one does, word for word: so a reader has it at each.
fn listed<F>(heap: Global, size: Size, numbers: &[u64], put: F) -> Result<Listing, Unput>
where
    F: Fn(u64, u64, u64, &[u16], &mut [u16], &mut [u16]) -> Made,
    requires { F.IsAlwaysCallable put }
    ensures { MatchOption (asked_refusal size numbers.now) (IfOk result (λ l. size_of l.grid ≡ size)) (λ f. result ≡ Err (Turned f)) }
{
    let grid = Grid::try_from(size)?;
    let expected = expected_len(numbers);
    if numbers.len() as u64 != expected {
        return Err(Unput::from(Refusal::DesignLength { expected }));
    }
    let design = narrowed(heap, numbers)?;
    put_design(heap, grid, design.as_slice(), put)
}

// The listing of a design of single bits, as `put` makes it.
pub fn compiled(heap: Global, size: Size, numbers: &[u64]) -> Result<Listing, Unput>
    ensures { MatchOption (asked_refusal size numbers.now) (IfOk result (λ l. size_of l.grid ≡ size)) (λ f. result ≡ Err (Turned f)) }
{
    listed(heap, size, numbers, put)
}

// The listing of any sound design, as `put_words` makes it.
pub fn compiled_words(heap: Global, size: Size, numbers: &[u64]) -> Result<Listing, Unput>
    ensures { MatchOption (asked_refusal size numbers.now) (IfOk result (λ l. size_of l.grid ≡ size)) (λ f. result ≡ Err (Turned f)) }
{
    listed(heap, size, numbers, put_words)
}
