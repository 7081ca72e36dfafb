// Designs put on fabrics of one row that are just large enough, and played.
use crate::support::{levels, placed, ticked, zeros};
use bitstream::put;
use fabric::ticking::tick;
use std::process::Abort;
use std::test::Fail;

// The bits of a tick's inputs, and of the outputs that are expected.
struct Tick {
    ins: &'static [u8],
    outs: &'static [u8],
}

fn at(numbers: &[u16], place: usize) -> u16 {
    if place < numbers.len() {
        numbers[place]
    } else {
        0
    }
}

// Where among the pads, or the outputs, pin n is: three numbers, its cell, side and track.
fn pin_place(pins: &[u16], n: usize, tracks: usize) -> usize {
    if n >= pins.len() / 3 {
        return usize::MAX;
    }
    let cell = pins[3 * n] as usize;
    let side = pins[3 * n + 1] as usize;
    let track = pins[3 * n + 2] as usize;
    (4 * cell + side)
        .saturating_mul(tracks)
        .saturating_add(track)
}

// How many numbers a cell has: 22, and one for each side and track.
fn per_cell(tracks: usize) -> usize {
    tracks.saturating_mul(4).saturating_add(22)
}

// What the cells hold at first: the last of the 22 numbers of each.
fn hold_first(held: &mut [u8], room: &[u16], tracks: usize) {
    for c in 0..held.len() {
        let initial = at(room, per_cell(tracks).saturating_mul(c).saturating_add(21));
        held[c] = if initial == 1 { 1 } else { 0 };
    }
}

// Puts the input bits on the pads of their pins.
fn drive(rt: &impl Abort, k: usize, pads: &mut [u8], pins: &[u16], tracks: usize, ins: &[u8]) {
    for n in 0..ins.len() {
        let place = pin_place(pins, n, tracks);
        assert!(rt; place < pads.len(), "tick {k}");
        pads[place] = ins[n];
    }
}

// Whether the output bits, whose pins come after those of so many inputs, are as expected.
fn shown(
    rt: &impl Abort,
    k: usize,
    levels: &[u8],
    pins: &[u16],
    inputs: usize,
    tracks: usize,
    outs: &[u8],
) {
    for n in 0..outs.len() {
        let place = pin_place(pins, inputs.saturating_add(n), tracks);
        assert!(rt; place < levels.len(), "tick {k}");
        assert_eq!(rt; levels[place], outs[n], "tick {k}");
    }
}

// A tick over pads, which carry the same level but for the inputs', and levels of the fabric's length.
fn step_over(
    rt: &impl Abort,
    k: usize,
    tracks: usize,
    room: &[u16],
    pins: &[u16],
    held: &mut [u8],
    t: &Tick,
    pads: &mut [u8],
    levels: &mut [u8],
) {
    drive(rt, k, pads, pins, tracks, t.ins);
    assert_eq!(rt;
        ticked(tick(
            held.len() as u64,
            1,
            tracks as u64,
            room,
            held,
            pads,
            levels
        )),
        (0, 0),
        "tick {k}"
    );
    shown(rt, k, levels, pins, t.ins.len(), tracks, t.outs);
}

fn step(
    rt: &impl Abort,
    k: usize,
    tracks: usize,
    room: &[u16],
    pins: &[u16],
    held: &mut [u8],
    t: &Tick,
    stray: u8,
) {
    let length = tracks.saturating_mul(4).saturating_mul(held.len());
    assert!(rt; length <= 320, "tick {k}");
    let mut pads: [u8; 320] = levels(stray);
    let mut carried: [u8; 320] = levels(7);
    step_over(
        rt,
        k,
        tracks,
        room,
        pins,
        held,
        t,
        &mut pads[0..length],
        &mut carried[0..length],
    );
}

// Puts a design on a fabric of one row, and plays it. All pads but the inputs' carry `stray`.
fn play_over(
    rt: &impl Abort,
    tracks: usize,
    design: &[u16],
    ticks: &[Tick],
    stray: u8,
    room: &mut [u16],
    held: &mut [u8],
) -> Result<(), Fail> {
    let mut pins: [u16; 18] = zeros();
    assert_eq!(rt;
        placed(put(held.len() as u64, 1, tracks as u64, design, room, &mut pins)),
        (0, 0)
    );
    hold_first(held, room, tracks);
    for k in 0..ticks.len() {
        step(rt, k, tracks, room, &pins, held, &ticks[k], stray);
    }
    Ok(())
}

fn play(
    rt: &impl Abort,
    cells: usize,
    tracks: usize,
    design: &[u16],
    ticks: &[Tick],
    stray: u8,
) -> Result<(), Fail> {
    let length = per_cell(tracks).saturating_mul(cells);
    assert!(rt; length <= 496 && cells <= 8);
    let mut room: [u16; 496] = zeros();
    let mut held: [u8; 8] = levels(0);
    play_over(
        rt,
        tracks,
        design,
        ticks,
        stray,
        &mut room[0..length],
        &mut held[0..cells],
    )
}

// Whatever the other pads carry.
fn plays(
    rt: &impl Abort,
    cells: usize,
    tracks: usize,
    design: &[u16],
    ticks: &[Tick],
) -> Result<(), Fail> {
    play(rt, cells, tracks, design, ticks, 0)?;
    play(rt, cells, tracks, design, ticks, 1)
}

const AND_TICKS: [Tick; 5] = [
    Tick {
        ins: &[1, 0],
        outs: &[0],
    },
    Tick {
        ins: &[1, 1],
        outs: &[1],
    },
    Tick {
        ins: &[0, 1],
        outs: &[0],
    },
    Tick {
        ins: &[0, 0],
        outs: &[0],
    },
    Tick {
        ins: &[1, 1],
        outs: &[1],
    },
];

#[test]
fn an_and(rt: HostRuntime) -> Result<(), Fail> {
    let design = [2, 0, 1, 3, 1, 1, 2, 0, 0, 0, 0, 0, 1, 0, 0, 3, 0, 1, 0];
    plays(&rt, 2, 4, &design, &AND_TICKS)
}

// The "and", with a node after it that nothing names.
#[test]
fn an_unreached_node(rt: HostRuntime) -> Result<(), Fail> {
    let design = [
        2, 0, 1, 4, 1, 1, 2, 0, 0, 0, 0, 0, 1, 0, 0, 3, 0, 1, 0, 5, 0, 1, 0,
    ];
    plays(&rt, 2, 4, &design, &AND_TICKS)
}

const TWICE_TICKS: [Tick; 4] = [
    Tick {
        ins: &[0, 0],
        outs: &[0, 0],
    },
    Tick {
        ins: &[1, 0],
        outs: &[1, 1],
    },
    Tick {
        ins: &[0, 1],
        outs: &[1, 1],
    },
    Tick {
        ins: &[1, 1],
        outs: &[0, 0],
    },
];

// A xor, named twice by an "and", which two outputs name.
#[test]
fn nodes_named_twice(rt: HostRuntime) -> Result<(), Fail> {
    let design = [
        2, 0, 2, 4, 1, 1, 3, 3, 0, 0, 0, 0, 0, 1, 0, 0, 5, 0, 1, 0, 3, 2, 2, 0,
    ];
    plays(&rt, 8, 10, &design, &TWICE_TICKS)
}

const SHIFT_TICKS: [Tick; 6] = [
    Tick {
        ins: &[0],
        outs: &[1, 0, 1],
    },
    Tick {
        ins: &[0],
        outs: &[0, 1, 0],
    },
    Tick {
        ins: &[1],
        outs: &[0, 0, 1],
    },
    Tick {
        ins: &[1],
        outs: &[1, 0, 0],
    },
    Tick {
        ins: &[0],
        outs: &[1, 1, 0],
    },
    Tick {
        ins: &[0],
        outs: &[0, 1, 1],
    },
];

// Three registers, each of which becomes the one before, and the first the input.
#[test]
fn a_shift_register(rt: HostRuntime) -> Result<(), Fail> {
    let design = [
        1, 3, 3, 4, 1, 1, 1, 0, 1, 0, 1, 1, 1, 2, 1, 2, 3, 0, 0, 0, 0, 1, 0, 0, 0, 1, 1, 0, 0, 1,
        2, 0, 0,
    ];
    plays(&rt, 6, 7, &design, &SHIFT_TICKS)
}

const COUNTER_TICKS: [Tick; 9] = [
    Tick {
        ins: &[1],
        outs: &[0, 0],
    },
    Tick {
        ins: &[1],
        outs: &[1, 0],
    },
    Tick {
        ins: &[1],
        outs: &[0, 1],
    },
    Tick {
        ins: &[1],
        outs: &[1, 1],
    },
    Tick {
        ins: &[1],
        outs: &[0, 0],
    },
    Tick {
        ins: &[0],
        outs: &[1, 0],
    },
    Tick {
        ins: &[0],
        outs: &[1, 0],
    },
    Tick {
        ins: &[1],
        outs: &[1, 0],
    },
    Tick {
        ins: &[0],
        outs: &[0, 1],
    },
];

// Two bits that count where the input is 1.
#[test]
fn a_counter(rt: HostRuntime) -> Result<(), Fail> {
    let design = [
        1, 2, 2, 6, 1, 1, 0, 3, 1, 0, 5, 1, 2, 0, 0, 0, 0, 1, 0, 0, 0, 1, 1, 0, 0, 5, 1, 0, 0, 3,
        1, 0, 0, 5, 2, 4, 0,
    ];
    plays(&rt, 7, 8, &design, &COUNTER_TICKS)
}
