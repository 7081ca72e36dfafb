// Designs in numbers: refusals 2, 3 and 5, and counts.
use crate::support::zeros;
use design::encoded::{Encoded, validate};
use design::refusal::Refusal;
use design::soundness;
use std::process::Abort;
use std::test::Fail;

// Bits of inputs and of outputs, cells and tracks.
fn counts(numbers: &[u16]) -> Result<[u64; 4], Refusal> {
    validate(numbers)?;
    let counts = soundness::check(Encoded::new(numbers))?;
    Ok([
        counts.input_bits,
        counts.output_bits,
        counts.cells,
        counts.tracks,
    ])
}

fn counted(rt: &impl Abort, numbers: &[u16], expected: [u64; 4]) -> Result<(), Fail> {
    match counts(numbers) {
        Ok(counts) => {
            assert_eq!(rt; counts, expected);
            Ok(())
        },
        Err(_) => Err(Fail::new("refused")),
    }
}

fn refused(rt: &impl Abort, numbers: &[u16], turned: (u64, u64)) -> Result<(), Fail> {
    match counts(numbers) {
        Ok(_) => Err(Fail::new("not refused")),
        Err(refusal) => {
            assert_eq!(rt; (refusal.number(), refusal.place()), turned);
            Ok(())
        },
    }
}

#[test]
fn counts_cells_and_tracks(rt: HostRuntime) -> Result<(), Fail> {
    // an "and"; a register of width 4 that becomes itself and 1, shown
    counted(
        &rt,
        &[2, 0, 1, 3, 1, 1, 2, 0, 0, 0, 0, 0, 1, 0, 0, 3, 0, 1, 0],
        [2, 1, 2, 4],
    )?;
    counted(
        &rt,
        &[0, 1, 1, 3, 4, 7, 2, 0, 1, 0, 0, 0, 2, 4, 1, 0, 7, 0, 1, 0],
        [0, 4, 20, 20],
    )
}

#[test]
fn refuses_a_length(rt: HostRuntime) -> Result<(), Fail> {
    refused(&rt, &[], (2, 4))?;
    refused(&rt, &[2, 0, 1, 3], (2, 19))?;
    refused(&rt, &[0, 0, 0, 0, 0], (2, 4))
}

#[test]
fn refuses_many_nodes(rt: HostRuntime) -> Result<(), Fail> {
    let mut numbers: [u16; 4104] = zeros();
    numbers[3] = 1025;
    refused(&rt, &numbers, (3, 1024))
}

#[test]
fn refuses_a_node(rt: HostRuntime) -> Result<(), Fail> {
    // of no kind; naming itself; naming a later one
    refused(&rt, &[0, 0, 0, 1, 13, 0, 0, 0], (3, 0))?;
    refused(&rt, &[0, 0, 0, 1, 6, 0, 0, 0], (3, 0))?;
    refused(
        &rt,
        &[1, 0, 0, 3, 1, 0, 0, 0, 0, 10, 0, 0, 2, 0, 0, 0, 0],
        (3, 1),
    )
}

#[test]
fn refuses_a_name(rt: HostRuntime) -> Result<(), Fail> {
    refused(&rt, &[0, 1, 0, 0, 1, 0, 0], (3, 6))?;
    refused(&rt, &[0, 0, 1, 0, 0], (3, 4))
}

#[test]
fn refuses_what_is_not_sound(rt: HostRuntime) -> Result<(), Fail> {
    // registers: of width 0, of width 65, of another width than its node
    refused(&rt, &[0, 1, 0, 1, 0, 0, 0, 1, 0, 0, 0], (5, 0))?;
    refused(&rt, &[0, 1, 0, 1, 65, 0, 0, 1, 0, 0, 0], (5, 0))?;
    refused(&rt, &[0, 1, 0, 1, 2, 0, 0, 2, 1, 0, 0], (5, 0))?;
    // an output of an input that there isn't, after a register
    refused(
        &rt,
        &[0, 1, 1, 2, 1, 0, 0, 1, 1, 0, 0, 0, 0, 0, 0, 0],
        (5, 1),
    )?;
    // an input of width 65, after a register and an output
    refused(&rt, &[1, 1, 1, 1, 65, 1, 0, 0, 0, 1, 0, 0, 0], (5, 2))
}

// An input of one bit, and nodes that each name the one before twice; the last is shown.
fn doubling() -> [u16; 1206] {
    let mut numbers: [u16; 1206] = zeros();
    numbers[0] = 1;
    numbers[2] = 1;
    numbers[3] = 300;
    numbers[4] = 1;
    numbers[5] = 299;
    for k in 1..300u16 {
        let place = 6 + 4 * k as usize;
        numbers[place] = 3;
        numbers[place + 1] = k - 1;
        numbers[place + 2] = k - 1;
    }
    numbers
}

#[test]
fn caps_the_cells(rt: HostRuntime) -> Result<(), Fail> {
    counted(&rt, &doubling(), [1, 1, 65536, 65536])
}
