// Designs of words: worked examples, and every operation.
use crate::runs::{Size, Tick, plays};
use crate::support::zeros;

// a: 4 bits 3, 5, 14, 0, and go: 1, 0, 1, 0
const SUM_TICKS: [Tick<5, 4>; 4] = [
    Tick {
        ins: [1, 1, 0, 0, 1],
        outs: [0, 0, 0, 0],
    },
    Tick {
        ins: [1, 0, 1, 0, 0],
        outs: [1, 1, 0, 0],
    },
    Tick {
        ins: [0, 1, 1, 1, 1],
        outs: [1, 1, 0, 0],
    },
    Tick {
        ins: [0, 0, 0, 0, 0],
        outs: [1, 0, 0, 0],
    },
];

// A register that takes an input in while another is 1.
#[test]
fn an_accumulator(rt: HostRuntime) {
    let design = [
        2, 1, 1, 5, 4, 1, 4, 0, 4, 2, 0, 0, 0, 0, 0, 1, 0, 0, 1, 0, 0, 0, 7, 2, 0, 0, 10, 1, 3, 2,
    ];
    plays(
        &rt,
        &[
            Size(20, 1, 25),
            Size(1, 20, 25),
            Size(5, 4, 25),
            Size(7, 3, 25),
        ],
        &design,
        &SUM_TICKS,
    );
}

// 2 and 5, 5 and 2, 4 and 4, 3 and 4, 4 and 3, 0 and 7, 7 and 0
const LESS_TICKS: [Tick<6, 1>; 7] = [
    Tick {
        ins: [0, 1, 0, 1, 0, 1],
        outs: [1],
    },
    Tick {
        ins: [1, 0, 1, 0, 1, 0],
        outs: [0],
    },
    Tick {
        ins: [0, 0, 1, 0, 0, 1],
        outs: [0],
    },
    Tick {
        ins: [1, 1, 0, 0, 0, 1],
        outs: [1],
    },
    Tick {
        ins: [0, 0, 1, 1, 1, 0],
        outs: [0],
    },
    Tick {
        ins: [0, 0, 0, 1, 1, 1],
        outs: [1],
    },
    Tick {
        ins: [1, 1, 1, 0, 0, 0],
        outs: [0],
    },
];

#[test]
fn a_comparison(rt: HostRuntime) {
    let design = [2, 0, 1, 3, 3, 3, 2, 0, 0, 0, 0, 0, 1, 0, 0, 8, 0, 1, 0];
    plays(
        &rt,
        &[
            Size(4, 1, 10),
            Size(1, 4, 10),
            Size(2, 2, 10),
            Size(5, 5, 11),
        ],
        &design,
        &LESS_TICKS,
    );
}

// 5, 3, 6, 4
const JOIN_TICKS: [Tick<1, 3>; 4] = [
    Tick {
        ins: [1],
        outs: [1, 0, 1],
    },
    Tick {
        ins: [0],
        outs: [1, 1, 0],
    },
    Tick {
        ins: [0],
        outs: [0, 1, 1],
    },
    Tick {
        ins: [0],
        outs: [0, 0, 1],
    },
];

// A register that begins with 5, and becomes its low bits above the input.
#[test]
fn a_shift_by_parts(rt: HostRuntime) {
    let design = [
        1, 1, 1, 4, 1, 3, 5, 3, 1, 0, 0, 0, 0, 1, 0, 0, 0, 11, 0, 2, 1, 12, 2, 0, 0,
    ];
    plays(
        &rt,
        &[Size(6, 1, 7), Size(1, 6, 7), Size(3, 2, 7), Size(2, 3, 7)],
        &design,
        &JOIN_TICKS,
    );
}

const FIVE_TICKS: [Tick<0, 3>; 7] = [
    Tick {
        ins: [],
        outs: [0, 0, 0],
    },
    Tick {
        ins: [],
        outs: [1, 0, 0],
    },
    Tick {
        ins: [],
        outs: [0, 1, 0],
    },
    Tick {
        ins: [],
        outs: [1, 1, 0],
    },
    Tick {
        ins: [],
        outs: [0, 0, 1],
    },
    Tick {
        ins: [],
        outs: [1, 0, 1],
    },
    Tick {
        ins: [],
        outs: [0, 0, 0],
    },
];

// A register that counts up to five, and begins again.
#[test]
fn a_counter_to_five(rt: HostRuntime) {
    let design = [
        0, 1, 1, 7, 3, 0, 6, 0, 1, 0, 0, 0, 2, 3, 5, 0, 9, 0, 1, 0, 2, 3, 0, 0, 2, 3, 1, 0, 7, 0,
        4, 0, 10, 2, 3, 5,
    ];
    plays(
        &rt,
        &[
            Size(27, 1, 27),
            Size(1, 27, 27),
            Size(9, 3, 27),
            Size(3, 9, 27),
        ],
        &design,
        &FIVE_TICKS,
    );
}

// 0 and 1, 2 and 3, 3 and 3
const BIT_TICKS: [Tick<4, 7>; 3] = [
    Tick {
        ins: [0, 0, 1, 0],
        outs: [1, 1, 1, 0, 1, 0, 0],
    },
    Tick {
        ins: [0, 1, 1, 1],
        outs: [1, 0, 1, 1, 1, 0, 0],
    },
    Tick {
        ins: [1, 1, 1, 1],
        outs: [0, 0, 1, 1, 0, 0, 1],
    },
];

// The opposite of a word of two bits; or, xor and equal of two words.
#[test]
fn operations_on_bits(rt: HostRuntime) {
    let design = [
        2, 0, 4, 6, 2, 2, 2, 3, 4, 5, 0, 0, 0, 0, 0, 1, 0, 0, 6, 0, 0, 0, 4, 0, 1, 0, 5, 0, 1, 0,
        9, 0, 1, 0,
    ];
    plays(&rt, &[Size(5, 3, 19), Size(1, 15, 19)], &design, &BIT_TICKS);
}

const EXCHANGE_TICKS: [Tick<0, 4>; 3] = [
    Tick {
        ins: [],
        outs: [1, 0, 0, 1],
    },
    Tick {
        ins: [],
        outs: [0, 1, 1, 0],
    },
    Tick {
        ins: [],
        outs: [1, 0, 0, 1],
    },
];

// Two registers that become each other.
#[test]
fn an_exchange(rt: HostRuntime) {
    let design = [0, 2, 2, 2, 2, 1, 1, 2, 2, 0, 0, 1, 1, 0, 0, 0, 1, 1, 0, 0];
    plays(
        &rt,
        &[Size(8, 1, 8), Size(4, 2, 8)],
        &design,
        &EXCHANGE_TICKS,
    );
}

// 2 bits of input, and pairs of nodes that take the low bit of the word before, and join it with itself
fn sharing() -> [u16; 4098] {
    let mut numbers: [u16; 4098] = zeros();
    numbers[0] = 1;
    numbers[2] = 1;
    numbers[3] = 1023;
    numbers[4] = 2;
    numbers[5] = 1022;
    for pair in 0..511u16 {
        let first = 10 + 8 * pair as usize;
        numbers[first] = 11;
        numbers[first + 2] = 1;
        numbers[first + 3] = 2 * pair;
        numbers[first + 4] = 12;
        numbers[first + 5] = 2 * pair + 1;
        numbers[first + 6] = 2 * pair + 1;
    }
    numbers
}

const SHARING_TICKS: [Tick<2, 2>; 3] = [
    Tick {
        ins: [1, 0],
        outs: [1, 1],
    },
    Tick {
        ins: [0, 1],
        outs: [0, 0],
    },
    Tick {
        ins: [1, 1],
        outs: [1, 1],
    },
];

// Nodes that are named twice, again and again, with no cell taken.
#[test]
fn shared_nodes(rt: HostRuntime) {
    plays(&rt, &[Size(2, 1, 4)], &sharing(), &SHARING_TICKS);
}
