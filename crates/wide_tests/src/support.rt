// What several tests use.
use bitstream::Made;
use fabric::ticking::Done;

// A blank list.
pub(crate) fn zeros<const N: usize>() -> [u16; N] {
    [0; N]
}

pub(crate) fn levels<const N: usize>(level: u8) -> [u8; N] {
    [level; N]
}

// A list of sevens, to see that nothing is written.
pub(crate) fn sevens<const N: usize>() -> [u16; N] {
    [7; N]
}

pub(crate) fn all_sevens(numbers: &[u16]) -> bool {
    for k in 0..numbers.len() {
        if numbers[k] != 7 {
            return false;
        }
    }
    true
}

// What a tick answers: 0 for ticked, 10 for restless, else the refusal's number, and its place.
pub(crate) fn ticked(done: Done) -> (u64, u64) {
    match done {
        Done::Ticked => (0, 0),
        Done::Restless => (10, 0),
        Done::Turned(refusal) => (refusal.number(), refusal.place()),
    }
}

// What `put_words` answers: 0 for placed, else the refusal's number, and its place.
pub(crate) fn placed(made: Made) -> (u64, u64) {
    match made {
        Made::Placed => (0, 0),
        Made::Refused(refusal) => (refusal.number(), refusal.place()),
    }
}

pub(crate) fn is_ticked(done: Done) -> bool {
    match done {
        Done::Ticked => true,
        _ => false,
    }
}

pub(crate) fn is_placed(made: Made) -> bool {
    match made {
        Made::Placed => true,
        _ => false,
    }
}

// The first n of the list, or all.
pub(crate) fn front<T>(list: &mut [T], n: usize) -> &mut [T] {
    if n < list.len() {
        &mut list[0..n]
    } else {
        list
    }
}
