// Ticks of a fabric of one cell.
use crate::support::ticked;
use fabric::ticking::tick;

// One cell with one track, which looks up the opposite of what it shows; with 1 for `holds` it shows what it held.
fn toggling(holds: u16) -> [u16; 26] {
    let mut bits = [0; 26];
    for k in 0..8usize {
        bits[2 * k] = 1;
    }
    bits[16] = 1;
    bits[20] = holds;
    bits
}

#[test]
fn toggles(rt: HostRuntime) {
    let mut kept = [7];
    let mut outs = [7; 4];
    assert_eq!(rt;
        ticked(tick(1, 1, 1, &toggling(0), &mut kept, &[0; 4], &mut outs)),
        (10, 0)
    );
    assert_eq!(rt; kept, [7]);
    assert_eq!(rt; outs, [7; 4]);
}

#[test]
fn holds(rt: HostRuntime) {
    let mut held = 0;
    for next in [1, 0, 1] {
        let mut kept = [held];
        assert_eq!(rt;
            ticked(tick(1, 1, 1, &toggling(1), &mut kept, &[0; 4], &mut [0; 4])),
            (0, 0)
        );
        assert_eq!(rt; kept, [next]);
        held = next;
    }
}

// Columns, rows and tracks; the lengths of bits, held bits, pads and outputs; the refusal's number and place.
struct Case {
    size: [u64; 3],
    lens: [usize; 4],
    turned: (u64, u64),
}

const CASES: [Case; 8] = [
    Case {
        size: [1, 0, 1],
        lens: [26, 1, 4, 4],
        turned: (1, 0),
    },
    Case {
        size: [33, 1, 1],
        lens: [26, 1, 4, 4],
        turned: (1, 1),
    },
    Case {
        size: [1, 1, 65],
        lens: [26, 1, 4, 4],
        turned: (1, 2),
    },
    Case {
        size: [32, 32, 64],
        lens: [26, 1, 4, 4],
        turned: (1, 3),
    },
    Case {
        size: [1, 1, 1],
        lens: [25, 2, 3, 5],
        turned: (4, 1),
    },
    Case {
        size: [1, 1, 1],
        lens: [26, 2, 3, 5],
        turned: (4, 2),
    },
    Case {
        size: [1, 1, 1],
        lens: [26, 1, 3, 5],
        turned: (4, 3),
    },
    Case {
        size: [1, 1, 1],
        lens: [26, 1, 4, 5],
        turned: (4, 4),
    },
];

#[test]
fn refusals(rt: HostRuntime) {
    for case in CASES.iter() {
        let [across, down, tracks] = case.size;
        let [bits, kept, pads, outs] = case.lens;
        assert!(rt; bits <= 26 && kept <= 8 && pads <= 8 && outs <= 8);
        let mut held = [7; 8];
        let mut shown = [7; 8];
        let done = tick(
            across,
            down,
            tracks,
            &toggling(1)[0..bits],
            &mut held[0..kept],
            &[0; 8][0..pads],
            &mut shown[0..outs],
        );
        assert_eq!(rt; ticked(done), case.turned);
        assert_eq!(rt; held, [7; 8]);
        assert_eq!(rt; shown, [7; 8]);
    }
}
