// Tests of the player of designs.
#![tactic(auto)]

#[cfg(test)]
mod tests {
    use design::encoded::Encoded;
    use player::fault::Fault;
    use player::player::Player;
    use player::stream::play;
    use std::alloc::Global;
    use std::process::Abort;
    use std::test::Fail;
    use std::time::{Duration, Instant};

    const ADD: u16 = 7;

    const SLICE: u16 = 11;

    const CONCAT: u16 = 12;

    // A stream of so many inputs in each tick.
    fn stream(heap: Global, inputs: u8, numbers: &[u64]) -> Result<Vec<Vec<u64>>, Fail> {
        let mut ticks = Vec::new(heap);
        for tick in numbers.chunks(inputs.max(1) as usize) {
            ticks.push(tick.to_vec(heap)?)?;
        }
        Ok(ticks)
    }

    // What all outputs show, tick after tick.
    fn played(heap: Global, numbers: &[u16], ticks: &[Vec<u64>]) -> Result<Vec<u64>, Fail> {
        let Ok(shown) = play(heap, Encoded::new(numbers), ticks) else {
            return Err(Fail::new("refused"));
        };
        let mut all = Vec::new(heap);
        for tick in shown.iter() {
            all.extend_from_slice(tick.as_slice())?;
        }
        Ok(all)
    }

    fn shows(
        rt: &impl Abort,
        heap: Global,
        numbers: &[u16],
        inputs: u8,
        given: &[u64],
        expected: &[u64],
    ) -> Result<(), Fail> {
        let ticks = stream(heap, inputs, given)?;
        assert_eq!(rt;
            played(heap, numbers, ticks.as_slice())?.as_slice(),
            expected
        );
        Ok(())
    }

    #[test]
    fn and_of_bits(rt: HostRuntime) -> Result<(), Fail> {
        let numbers = [2, 0, 1, 3, 1, 1, 2, 0, 0, 0, 0, 0, 1, 0, 0, 3, 0, 1, 0];
        shows(
            &rt,
            rt.alloc(),
            &numbers,
            2,
            &[0, 0, 0, 1, 1, 0, 1, 1],
            &[0, 0, 0, 1],
        )
    }

    // A sum that grows where `go` is 1; bits past a width don't matter.
    #[test]
    fn accumulator(rt: HostRuntime) -> Result<(), Fail> {
        let numbers = [
            2, 1, 1, 5, 4, 1, 4, 0, 4, 2, 0, 0, 0, 0, 0, 1, 0, 0, 1, 0, 0, 0, 7, 2, 0, 0, 10, 1, 3,
            2,
        ];
        shows(
            &rt,
            rt.alloc(),
            &numbers,
            2,
            &[3, 1, 5, 0, 14, 1, 0, 0],
            &[0, 3, 3, 1],
        )?;
        shows(
            &rt,
            rt.alloc(),
            &numbers,
            2,
            &[19, 3, 5, 2, 30, 65, 0],
            &[0, 3, 3, 1],
        )
    }

    #[test]
    fn comparison(rt: HostRuntime) -> Result<(), Fail> {
        let less = [2, 0, 1, 3, 3, 3, 2, 0, 0, 0, 0, 0, 1, 0, 0, 8, 0, 1, 0];
        shows(&rt, rt.alloc(), &less, 2, &[2, 5, 5, 2, 4, 4], &[1, 0, 0])
    }

    // A register whose bits move up, with the input as the lowest.
    #[test]
    fn shift_register(rt: HostRuntime) -> Result<(), Fail> {
        let numbers = [
            1, 1, 1, 4, 1, 3, 5, 3, 1, 0, 0, 0, 0, 1, 0, 0, 0, 11, 0, 2, 1, 12, 2, 0, 0,
        ];
        shows(&rt, rt.alloc(), &numbers, 1, &[1, 0, 0, 0], &[5, 3, 6, 4])
    }

    // A counter without inputs; the numbers given to it mean nothing.
    #[test]
    fn counter_to_five(rt: HostRuntime) -> Result<(), Fail> {
        let numbers = [
            0, 1, 1, 7, 3, 0, 6, 0, 1, 0, 0, 0, 2, 3, 5, 0, 9, 0, 1, 0, 2, 3, 0, 0, 2, 3, 1, 0, 7,
            0, 4, 0, 10, 2, 3, 5,
        ];
        shows(
            &rt,
            rt.alloc(),
            &numbers,
            1,
            &[7, 7, 7, 7, 7, 7, 7],
            &[0, 1, 2, 3, 4, 5, 0],
        )
    }

    // Two registers that become each other, tick by tick.
    #[test]
    fn exchange(rt: HostRuntime) -> Result<(), Fail> {
        let numbers = [0, 2, 2, 2, 2, 1, 1, 2, 2, 0, 0, 1, 1, 0, 0, 0, 1, 1, 0, 0];
        let Ok(mut player) = Player::new(rt.alloc(), Encoded::new(&numbers)) else {
            return Err(Fail::new("refused"));
        };
        for expected in [[1, 2], [2, 1], [1, 2]] {
            match player.tick(&[]) {
                Ok(shown) => assert_eq!(rt; shown.as_slice(), expected.as_slice()),
                Err(_) => return Err(Fail::new("no memory")),
            }
        }
        Ok(())
    }

    #[test]
    fn unsound(rt: HostRuntime) -> Result<(), Fail> {
        // an output of an input that there isn't, after a register
        let numbers = [0, 1, 1, 2, 1, 0, 0, 1, 1, 0, 0, 0, 0, 0, 0, 0];
        let nothing = Vec::new(rt.alloc());
        match play(rt.alloc(), Encoded::new(&numbers), nothing.as_slice()) {
            Err(Fault::Turned(refusal)) => {
                assert_eq!(rt; (refusal.number(), refusal.place()), (5, 1));
                Ok(())
            },
            _ => Err(Fail::new("not refused")),
        }
    }

    fn zeros<const N: usize>() -> [u16; N] {
        [0; N]
    }

    // A node on the one before: its low half for a slice, else an operation that names it twice.
    fn node(kind: u16, before: u16) -> [u16; 4] {
        if kind == SLICE {
            [SLICE, 0, 32, before]
        } else {
            [kind, before, before, 0]
        }
    }

    // A word of 64 bits, and 1,023 nodes on it, each on the one before, of two kinds in turn. One is shown.
    fn doubling(odd: u16, even: u16, shown: u16) -> [u16; 4102] {
        let mut numbers: [u16; 4102] = zeros();
        numbers[0] = 1;
        numbers[2] = 1;
        numbers[3] = 1024;
        numbers[4] = 64;
        numbers[5] = shown;
        for n in 1..1024u16 {
            let node = node(if n % 2 == 1 { odd } else { even }, n - 1);
            let place = 6 + 4 * n as usize;
            for k in 0..4usize {
                numbers[place + k] = node[k];
            }
        }
        numbers
    }

    // Named exponentially often, and played at once.
    #[test]
    fn shared_nodes(rt: HostRuntime) -> Result<(), Fail> {
        let start = Instant::now(&rt)?;
        let heap = rt.alloc();
        shows(&rt, heap, &doubling(ADD, ADD, 1023), 1, &[3, 5], &[0, 0])?;
        shows(
            &rt,
            heap,
            &doubling(ADD, ADD, 62),
            1,
            &[3, 5],
            &[0xc000_0000_0000_0000, 0x4000_0000_0000_0000],
        )?;
        shows(
            &rt,
            heap,
            &doubling(SLICE, CONCAT, 1022),
            1,
            &[0x1_0000_0005],
            &[0x5_0000_0005],
        )?;
        assert!(rt; start.elapsed(&rt)? < Duration::from_secs(1));
        Ok(())
    }
}
