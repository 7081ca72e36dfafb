// The refusals of `put_words`, by number and place, and that nothing is written.
use crate::support::{all_sevens, front, placed, sevens, zeros};
use bitstream::put_words;
use std::process::Abort;

// Columns, rows and tracks; a design; the lengths of the room and of the pins; the refusal's number and place.
struct Case {
    size: [u64; 3],
    design: &'static [u16],
    room: usize,
    pins: usize,
    turned: (u64, u64),
}

fn answers(case: &Case, room: &mut [u16], pins: &mut [u16]) -> bool {
    let [across, down, tracks] = case.size;
    placed(put_words(across, down, tracks, case.design, room, pins)) == case.turned
}

// Whether the case is refused as it says, with nothing written.
fn right(case: &Case) -> bool {
    let mut room: [u16; 100] = sevens();
    let mut pins: [u16; 20] = sevens();
    answers(
        case,
        front(&mut room, case.room),
        front(&mut pins, case.pins),
    ) && all_sevens(&room)
        && all_sevens(&pins)
}

// The first case that isn't right.
fn first_wrong(cases: &[Case]) -> Option<usize> {
    for k in 0..cases.len() {
        if !right(&cases[k]) {
            return Some(k);
        }
    }
    None
}

fn all_answer(rt: &impl Abort, cases: &[Case]) {
    assert_eq!(rt; first_wrong(cases), None);
}

const AND: &[u16] = &[2, 0, 1, 3, 1, 1, 2, 0, 0, 0, 0, 0, 1, 0, 0, 3, 0, 1, 0];

const OR: &[u16] = &[2, 0, 1, 3, 1, 1, 2, 0, 0, 0, 0, 0, 1, 0, 0, 4, 0, 1, 0];
// a register of width 0 of an input that there isn't, which is shown too
const UNSOUND: &[u16] = &[0, 1, 1, 1, 0, 0, 0, 0, 0, 0, 0, 0];

const SIZES: [Case; 9] = [
    Case {
        size: [2, 0, 4],
        design: AND,
        room: 76,
        pins: 9,
        turned: (1, 0),
    },
    Case {
        size: [2, 33, 4],
        design: AND,
        room: 76,
        pins: 9,
        turned: (1, 0),
    },
    Case {
        size: [0, 1, 4],
        design: AND,
        room: 76,
        pins: 9,
        turned: (1, 1),
    },
    Case {
        size: [33, 1, 4],
        design: AND,
        room: 76,
        pins: 9,
        turned: (1, 1),
    },
    Case {
        size: [2, 1, 0],
        design: AND,
        room: 76,
        pins: 9,
        turned: (1, 2),
    },
    Case {
        size: [2, 1, 65],
        design: AND,
        room: 76,
        pins: 9,
        turned: (1, 2),
    },
    Case {
        size: [32, 32, 64],
        design: AND,
        room: 76,
        pins: 9,
        turned: (1, 3),
    },
    // the first of several
    Case {
        size: [0, 0, 0],
        design: &[],
        room: 0,
        pins: 0,
        turned: (1, 0),
    },
    Case {
        size: [33, 1, 65],
        design: &[],
        room: 0,
        pins: 0,
        turned: (1, 1),
    },
];

#[test]
fn refuses_sizes(rt: HostRuntime) {
    all_answer(&rt, &SIZES);
}

const LISTS: [Case; 10] = [
    Case {
        size: [2, 1, 4],
        design: &[],
        room: 76,
        pins: 9,
        turned: (2, 4),
    },
    Case {
        size: [2, 1, 4],
        design: &[2, 0, 1, 3],
        room: 76,
        pins: 9,
        turned: (2, 19),
    },
    Case {
        size: [2, 1, 4],
        design: &[0, 0, 0, 0, 0],
        room: 76,
        pins: 9,
        turned: (2, 4),
    },
    // nodes: of no kind; that names itself
    Case {
        size: [2, 1, 4],
        design: &[0, 0, 0, 1, 13, 0, 0, 0],
        room: 76,
        pins: 9,
        turned: (3, 0),
    },
    Case {
        size: [2, 1, 4],
        design: &[0, 0, 0, 2, 2, 1, 0, 0, 3, 0, 1, 0],
        room: 76,
        pins: 9,
        turned: (3, 1),
    },
    // a register, an output that names no node
    Case {
        size: [2, 1, 4],
        design: &[0, 1, 0, 0, 1, 0, 0],
        room: 76,
        pins: 9,
        turned: (3, 6),
    },
    Case {
        size: [2, 1, 4],
        design: &[0, 0, 1, 0, 0],
        room: 76,
        pins: 9,
        turned: (3, 4),
    },
    // the first of several
    Case {
        size: [2, 1, 4],
        design: &[0, 0, 0, 1, 13, 0, 0],
        room: 0,
        pins: 0,
        turned: (2, 8),
    },
    Case {
        size: [2, 1, 4],
        design: &[0, 0, 1, 1, 9, 13, 0, 0, 0],
        room: 0,
        pins: 0,
        turned: (3, 0),
    },
    Case {
        size: [2, 1, 4],
        design: &[0, 1, 1, 0, 1, 0, 0, 0],
        room: 0,
        pins: 0,
        turned: (3, 6),
    },
];

#[test]
fn refuses_lists(rt: HostRuntime) {
    all_answer(&rt, &LISTS);
}

const DESIGNS: [Case; 9] = [
    Case {
        size: [2, 1, 4],
        design: AND,
        room: 75,
        pins: 9,
        turned: (4, 0),
    },
    Case {
        size: [2, 1, 4],
        design: AND,
        room: 77,
        pins: 9,
        turned: (4, 0),
    },
    // a register of width 65; of another width than its node
    Case {
        size: [2, 1, 4],
        design: &[0, 1, 0, 1, 65, 0, 0, 1, 0, 0, 0],
        room: 76,
        pins: 9,
        turned: (5, 0),
    },
    Case {
        size: [2, 1, 4],
        design: &[0, 1, 0, 1, 2, 0, 0, 2, 1, 0, 0],
        room: 76,
        pins: 9,
        turned: (5, 0),
    },
    // after a register, an output of an input that there isn't; after both, an input of width 65
    Case {
        size: [2, 1, 4],
        design: &[0, 1, 1, 2, 1, 0, 0, 1, 1, 0, 0, 0, 0, 0, 0, 0],
        room: 76,
        pins: 9,
        turned: (5, 1),
    },
    Case {
        size: [2, 1, 4],
        design: &[1, 1, 1, 1, 65, 1, 0, 0, 0, 1, 0, 0, 0],
        room: 76,
        pins: 9,
        turned: (5, 2),
    },
    // the first of several
    Case {
        size: [2, 1, 4],
        design: UNSOUND,
        room: 75,
        pins: 0,
        turned: (4, 0),
    },
    Case {
        size: [2, 1, 4],
        design: UNSOUND,
        room: 76,
        pins: 0,
        turned: (5, 0),
    },
    Case {
        size: [2, 1, 4],
        design: &[1, 0, 1, 1, 65, 0, 0, 1, 0, 0],
        room: 76,
        pins: 0,
        turned: (5, 0),
    },
];

#[test]
fn refuses_designs(rt: HostRuntime) {
    all_answer(&rt, &DESIGNS);
}

const LACKS: [Case; 10] = [
    Case {
        size: [2, 1, 4],
        design: AND,
        room: 76,
        pins: 8,
        turned: (6, 3),
    },
    Case {
        size: [1, 1, 4],
        design: AND,
        room: 38,
        pins: 9,
        turned: (7, 2),
    },
    Case {
        size: [2, 1, 3],
        design: AND,
        room: 68,
        pins: 9,
        turned: (7, 4),
    },
    // the first of several
    Case {
        size: [1, 1, 3],
        design: OR,
        room: 34,
        pins: 0,
        turned: (6, 3),
    },
    Case {
        size: [1, 1, 3],
        design: OR,
        room: 34,
        pins: 9,
        turned: (7, 2),
    },
    Case {
        size: [2, 1, 3],
        design: OR,
        room: 68,
        pins: 9,
        turned: (7, 4),
    },
    // an input of two bits, a register of two bits; two rows
    Case {
        size: [1, 1, 4],
        design: &[1, 0, 1, 1, 2, 0, 0, 0, 0, 0],
        room: 38,
        pins: 12,
        turned: (7, 2),
    },
    Case {
        size: [1, 2, 3],
        design: &[1, 0, 1, 1, 2, 0, 0, 0, 0, 0],
        room: 68,
        pins: 12,
        turned: (7, 4),
    },
    Case {
        size: [1, 1, 4],
        design: &[0, 1, 0, 1, 2, 0, 0, 1, 0, 0, 0],
        room: 38,
        pins: 0,
        turned: (7, 2),
    },
    Case {
        size: [1, 2, 3],
        design: AND,
        room: 68,
        pins: 9,
        turned: (7, 4),
    },
];

#[test]
fn refuses_without_room(rt: HostRuntime) {
    all_answer(&rt, &LACKS);
}

#[test]
fn refuses_many_nodes(rt: HostRuntime) {
    let mut design: [u16; 4104] = zeros();
    design[3] = 1025;
    assert_eq!(rt;
        placed(put_words(2, 1, 4, &design, &mut [0; 1], &mut [])),
        (3, 1024)
    );
}

#[test]
fn keeps_the_rest(rt: HostRuntime) {
    let mut room: [u16; 76] = sevens();
    let mut pins: [u16; 12] = sevens();
    let made = put_words(2, 1, 4, AND, &mut room, &mut pins);
    assert_eq!(rt;
        (placed(made), pins[8] != 7, all_sevens(&pins[9..12])),
        ((0, 0), true, true)
    );
}
