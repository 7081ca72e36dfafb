// Designs put on fabrics that are just large enough, and played.
use crate::support::{front, is_placed, is_ticked, levels, zeros};
use bitstream::put_words;
use fabric::ticking::tick;
use std::process::Abort;

// The bits of a tick's inputs, and of the outputs that are expected.
pub(crate) struct Tick<const I: usize, const O: usize> {
    pub(crate) ins: [u8; I],
    pub(crate) outs: [u8; O],
}

// Columns, rows and tracks.
#[derive(Clone, Copy)]
pub(crate) struct Size(pub(crate) u16, pub(crate) u16, pub(crate) u16);

impl Size {
    fn cells(self) -> usize {
        self.0 as usize * self.1 as usize
    }

    fn tracks(self) -> usize {
        self.2 as usize
    }

    // How many numbers a cell has: 22, and one for each side and track.
    fn per_cell(self) -> usize {
        22 + 4 * self.2 as usize
    }

    fn pads(self) -> usize {
        self.cells().saturating_mul(4).saturating_mul(self.tracks())
    }
}

fn at(numbers: &[u16], place: usize) -> u16 {
    if place < numbers.len() {
        numbers[place]
    } else {
        0
    }
}

// Where among the pads, or the outputs, pin n is: three numbers, its cell, side and track.
fn pin_place(pins: &[u16; 54], n: usize, tracks: usize) -> usize {
    if n >= 18 {
        return usize::MAX;
    }
    let side = 4 * pins[3 * n] as usize + pins[3 * n + 1] as usize;
    side.saturating_mul(tracks)
        .saturating_add(pins[3 * n + 2] as usize)
}

// What the cells hold at first: the last of the 22 numbers of each.
fn hold_first(held: &mut [u8], room: &[u16], size: Size) {
    for c in 0..held.len() {
        let initial = at(room, size.per_cell().saturating_mul(c).saturating_add(21));
        held[c] = if initial == 1 { 1 } else { 0 };
    }
}

// Puts the input bits on the pads of their pins, and says whether each has one.
fn drive(pads: &mut [u8], pins: &[u16; 54], tracks: usize, ins: &[u8]) -> bool {
    for n in 0..ins.len() {
        let place = pin_place(pins, n, tracks);
        if place >= pads.len() {
            return false;
        }
        pads[place] = ins[n];
    }
    true
}

// Whether the output bits, whose pins come after those of so many inputs, are as expected.
fn shown(levels: &[u8], pins: &[u16; 54], inputs: usize, tracks: usize, outs: &[u8]) -> bool {
    for n in 0..outs.len() {
        let place = pin_place(pins, inputs.saturating_add(n), tracks);
        if place >= levels.len() || levels[place] != outs[n] {
            return false;
        }
    }
    true
}

fn ticks(size: Size, room: &[u16], held: &mut [u8], pads: &[u8], levels: &mut [u8]) -> bool {
    is_ticked(tick(
        size.0 as u64,
        size.1 as u64,
        size.2 as u64,
        room,
        held,
        pads,
        levels,
    ))
}

// Whether a tick over pads and levels of the fabric's length is as expected.
fn step_over<const I: usize, const O: usize>(
    size: Size,
    room: &[u16],
    pins: &[u16; 54],
    held: &mut [u8],
    t: &Tick<I, O>,
    pads: &mut [u8],
    levels: &mut [u8],
) -> bool {
    if !drive(pads, pins, size.tracks(), &t.ins) || !ticks(size, room, held, pads, levels) {
        return false;
    }
    shown(levels, pins, I, size.tracks(), &t.outs)
}

fn step<const I: usize, const O: usize>(
    size: Size,
    room: &[u16],
    pins: &[u16; 54],
    held: &mut [u8],
    t: &Tick<I, O>,
    stray: u8,
) -> bool {
    let mut pads: [u8; 3000] = levels(stray);
    let mut carried: [u8; 3000] = levels(7);
    step_over(
        size,
        room,
        pins,
        held,
        t,
        front(&mut pads, size.pads()),
        front(&mut carried, size.pads()),
    )
}

// How many ticks are played as expected, up to the first that isn't.
fn steps<const I: usize, const O: usize>(
    size: Size,
    room: &[u16],
    pins: &[u16; 54],
    held: &mut [u8],
    ticks: &[Tick<I, O>],
    stray: u8,
) -> usize {
    for k in 0..ticks.len() {
        if !step(size, room, pins, held, &ticks[k], stray) {
            return k;
        }
    }
    ticks.len()
}

// Puts a design on a fabric, and plays it: how many ticks go as expected.
fn play_over<const I: usize, const O: usize>(
    size: Size,
    design: &[u16],
    ticks: &[Tick<I, O>],
    stray: u8,
    room: &mut [u16],
    held: &mut [u8],
) -> usize {
    let mut pins: [u16; 54] = zeros();
    if !is_placed(put_words(
        size.0 as u64,
        size.1 as u64,
        size.2 as u64,
        design,
        room,
        &mut pins,
    )) {
        return 0;
    }
    hold_first(held, room, size);
    steps(size, room, &pins, held, ticks, stray)
}

fn play<const I: usize, const O: usize>(
    size: Size,
    design: &[u16],
    ticks: &[Tick<I, O>],
    stray: u8,
) -> usize {
    let mut room: [u16; 3600] = zeros();
    let mut held: [u8; 32] = levels(0);
    let length = size.per_cell().saturating_mul(size.cells());
    play_over(
        size,
        design,
        ticks,
        stray,
        front(&mut room, length),
        front(&mut held, size.cells()),
    )
}

// On each fabric all ticks go as expected, whatever the other pads carry: the first fabric where they don't.
fn first_wrong<const I: usize, const O: usize>(
    sizes: &[Size],
    design: &[u16],
    ticks: &[Tick<I, O>],
) -> Option<usize> {
    for k in 0..sizes.len() {
        if play(sizes[k], design, ticks, 0) != ticks.len()
            || play(sizes[k], design, ticks, 1) != ticks.len()
        {
            return Some(k);
        }
    }
    None
}

pub(crate) fn plays<const I: usize, const O: usize>(
    rt: &impl Abort,
    sizes: &[Size],
    design: &[u16],
    ticks: &[Tick<I, O>],
) {
    assert_eq!(rt; first_wrong(sizes, design, ticks), None);
}

const AND_TICKS: [Tick<2, 1>; 5] = [
    Tick {
        ins: [1, 0],
        outs: [0],
    },
    Tick {
        ins: [1, 1],
        outs: [1],
    },
    Tick {
        ins: [0, 1],
        outs: [0],
    },
    Tick {
        ins: [0, 0],
        outs: [0],
    },
    Tick {
        ins: [1, 1],
        outs: [1],
    },
];

#[test]
fn an_and(rt: HostRuntime) {
    let design = [2, 0, 1, 3, 1, 1, 2, 0, 0, 0, 0, 0, 1, 0, 0, 3, 0, 1, 0];
    plays(&rt, &[Size(2, 1, 4), Size(1, 2, 4)], &design, &AND_TICKS);
}

// The "and", with a node after it that nothing names.
#[test]
fn an_unreached_node(rt: HostRuntime) {
    let design = [
        2, 0, 1, 4, 1, 1, 2, 0, 0, 0, 0, 0, 1, 0, 0, 3, 0, 1, 0, 5, 0, 1, 0,
    ];
    plays(&rt, &[Size(2, 1, 4), Size(1, 2, 4)], &design, &AND_TICKS);
}

const TWICE_TICKS: [Tick<2, 2>; 4] = [
    Tick {
        ins: [0, 0],
        outs: [0, 0],
    },
    Tick {
        ins: [1, 0],
        outs: [1, 1],
    },
    Tick {
        ins: [0, 1],
        outs: [1, 1],
    },
    Tick {
        ins: [1, 1],
        outs: [0, 0],
    },
];

// A xor, named twice by an "and", which two outputs name.
#[test]
fn nodes_named_twice(rt: HostRuntime) {
    let design = [
        2, 0, 2, 4, 1, 1, 3, 3, 0, 0, 0, 0, 0, 1, 0, 0, 5, 0, 1, 0, 3, 2, 2, 0,
    ];
    plays(
        &rt,
        &[Size(8, 1, 10), Size(2, 4, 10)],
        &design,
        &TWICE_TICKS,
    );
}

const SHIFT_TICKS: [Tick<1, 3>; 6] = [
    Tick {
        ins: [0],
        outs: [1, 0, 1],
    },
    Tick {
        ins: [0],
        outs: [0, 1, 0],
    },
    Tick {
        ins: [1],
        outs: [0, 0, 1],
    },
    Tick {
        ins: [1],
        outs: [1, 0, 0],
    },
    Tick {
        ins: [0],
        outs: [1, 1, 0],
    },
    Tick {
        ins: [0],
        outs: [0, 1, 1],
    },
];

// Three registers, each of which becomes the one before, and the first the input.
#[test]
fn a_shift_register(rt: HostRuntime) {
    let design = [
        1, 3, 3, 4, 1, 1, 1, 0, 1, 0, 1, 1, 1, 2, 1, 2, 3, 0, 0, 0, 0, 1, 0, 0, 0, 1, 1, 0, 0, 1,
        2, 0, 0,
    ];
    plays(&rt, &[Size(6, 1, 7), Size(3, 2, 7)], &design, &SHIFT_TICKS);
}

const COUNTER_TICKS: [Tick<1, 2>; 9] = [
    Tick {
        ins: [1],
        outs: [0, 0],
    },
    Tick {
        ins: [1],
        outs: [1, 0],
    },
    Tick {
        ins: [1],
        outs: [0, 1],
    },
    Tick {
        ins: [1],
        outs: [1, 1],
    },
    Tick {
        ins: [1],
        outs: [0, 0],
    },
    Tick {
        ins: [0],
        outs: [1, 0],
    },
    Tick {
        ins: [0],
        outs: [1, 0],
    },
    Tick {
        ins: [1],
        outs: [1, 0],
    },
    Tick {
        ins: [0],
        outs: [0, 1],
    },
];

// Two bits that count where the input is 1.
#[test]
fn a_counter(rt: HostRuntime) {
    let design = [
        1, 2, 2, 6, 1, 1, 0, 3, 1, 0, 5, 1, 2, 0, 0, 0, 0, 1, 0, 0, 0, 1, 1, 0, 0, 5, 1, 0, 0, 3,
        1, 0, 0, 5, 2, 4, 0,
    ];
    plays(
        &rt,
        &[Size(7, 1, 8), Size(1, 7, 8)],
        &design,
        &COUNTER_TICKS,
    );
}
