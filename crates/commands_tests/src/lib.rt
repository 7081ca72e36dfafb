// Tests of pages, listings, streams and messages.
#![tactic(auto)]

#[cfg(test)]
mod tests {
    use commands::compiling::compile;
    use commands::said::Said;
    use commands::simulating::simulate;
    use design::encoded::Encoded;
    use design::refusal::Refusal;
    use fabric::size::Size;
    use pages::page::Page;
    use putting::putting::{compiled as compiled_bits, compiled_words};
    use putting::unput::Unput;
    use putting::widths::output_widths;
    use reading::lines::read;
    use reading::unread::Unread;
    use std::alloc::{AllocError, Global};
    use std::test::Fail;
    use words::cutting::{lines, words};
    use words::walking::Words;

    const LINES: &str = "fabric 1 2 3
cell 0 table 0008 from left 0 left 1 nothing nothing
cell 0 right 2 from own
cell 1 table aaaa from left 2 own below 63 above 0
cell 1 holds 1
cell 1 left 0 from right 1
cell 1 above 2 from own
in a 0 at 0 left 0
in a 1 at 0 left 1
out s 0 at 1 above 2
";

    // The same in another order, with more spaces and with things that say nothing.
    const MIXED: &str = "fabric  1 2  3
out s 0 at 1 above 2
 in a 1 at 0 left 1
cell 0 table 0008 from left 0 left 1 nothing nothing
cell 1 above 2 from own
in a 0 at 0 left 0
cell 1 holds 1
cell 0 left 0 from nothing
cell 1 table aaaa from left 2 own below 63 above 0
cell 1 left 0 from right 1
cell 0 right 2 from own ";

    const TOGGLE: &str =
        "fabric 1 1 1\ncell 0 table 0001 from own nothing nothing nothing\ncell 0 holds 0\ncell 0 right 0 from own\nout q 0 at 0 right 0\n";

    const RESTLESS: &str =
        "fabric 1 1 1\ncell 0 table 0001 from own nothing nothing nothing\ncell 0 right 0 from own\nout q 0 at 0 right 0\n";

    // Two bits that go from the left edge to the right one.
    const WIRES: &str =
        "fabric 1 1 2\ncell 0 right 0 from left 0\ncell 0 right 1 from left 1\nin a 0 at 0 left 0\nin a 1 at 0 left 1\nin b 0 at 0 above 0\nout x 0 at 0 right 0\nout x 1 at 0 right 1\nout y 0 at 0 right 1\n";

    // Two rows of two cells: a bit comes in at the last cell and goes out there, and another goes over a neighbour.
    const CORNERS: &str =
        "fabric 2 2 3\ncell 3 right 2 from below 1\ncell 1 above 1 from below 2\ncell 3 above 2 from right 0\nin a 0 at 3 below 1\nin b 0 at 3 right 0\nout x 0 at 3 right 2\nout y 0 at 1 above 1\n";

    // Why a listing isn't read: the number and the place.
    fn fault(heap: Global, text: &str) -> Option<(u64, u64)> {
        match read(heap, text) {
            Err(Unread::Size(refusal)) => Some((refusal.number(), refusal.place())),
            Err(Unread::Line { line, .. }) => Some((8, line as u64)),
            _ => None,
        }
    }

    // What a program says, with a mark before a refusal.
    fn marked(heap: Global, said: Result<Said, AllocError>) -> Result<String, AllocError> {
        match said {
            Ok(Said::Answer(text)) => Ok(text),
            Ok(Said::Refusal(text)) => format!(in heap; "! {text}"),
            Err(e) => Err(e),
        }
    }

    fn played(heap: Global, listing: &str, ticks: &str) -> Result<String, AllocError> {
        marked(heap, simulate(heap, listing.as_bytes(), ticks.as_bytes()))
    }

    // The text of a listing that is read; a mark where it isn't.
    fn printed(heap: Global, text: &str) -> Result<String, AllocError> {
        match read(heap, text) {
            Ok(listing) => listing.print(heap),
            Err(_) => String::from_str(heap, "!"),
        }
    }

    #[test]
    fn listings_come_back(rt: HostRuntime) -> Result<(), Fail> {
        for text in [LINES, MIXED] {
            assert_eq!(rt; printed(rt.alloc(), text)?.as_str(), LINES);
        }
        Ok(())
    }

    #[test]
    fn bad_lines(rt: HostRuntime) {
        let cases = [
            ("", 8, 0),
            ("fabric 1 1", 8, 0),
            ("fabric 1 1 1 1", 8, 0),
            ("fabric 1 1 x", 8, 0),
            ("fabric 1 1 1\n\n", 8, 1),
            ("fabric 1 1 1\ncell 1 holds 0", 8, 1),
            ("fabric 1 1 1\ncell 0 holds 2", 8, 1),
            ("fabric 1 1 1\ncell 0 holds 0\ncell 0 holds 0", 8, 2),
            ("fabric 1 1 1\ncell 0 table 00A8 from own own own own", 8, 1),
            ("fabric 1 1 1\ncell 0 table 008 from own own own own", 8, 1),
            ("fabric 1 1 1\ncell 0 table 0008 from own own own", 8, 1),
            (
                "fabric 1 1 1\ncell 0 table 0008 from own own own left 64",
                8,
                1,
            ),
            ("fabric 1 1 1\ncell 0 left 1 from own", 8, 1),
            (
                "fabric 1 1 1\ncell 0 left 0 from own\ncell 0 left 0 from nothing",
                8,
                2,
            ),
            ("fabric 1 1 1\nin 1a 0 at 0 left 0", 8, 1),
            ("fabric 1 1 1\nin abcdefghijklmnopq 0 at 0 left 0", 8, 1),
            ("fabric 1 1 1\nin a 0 at 0 left 0\nin b 0 at 0 left 0", 8, 2),
            (
                "fabric 1 1 1\nout a 0 at 0 left 0\nout b 1 at 0 right 0",
                8,
                2,
            ),
            ("fabric 1 1 1\nout a 0 at 0 left 1", 8, 1),
            ("fabric 1 2 1\nout a 0 at 0 right 0", 8, 1),
            ("fabric 1 1 1\nfabric 1 1 1", 8, 1),
            ("fabric 33 1 1", 1, 0),
            ("fabric 1 0 1", 1, 1),
            ("fabric 1 1 18446744073709551616", 1, 2),
            ("fabric 32 32 64", 1, 3),
        ];
        for (text, number, place) in cases {
            assert_eq!(rt; fault(rt.alloc(), text), Some((number, place)), "{}", text);
        }
    }

    #[test]
    fn plays(rt: HostRuntime) -> Result<(), Fail> {
        let cases = [
            (TOGGLE, "\n\n\n \n", "q 0\nq 1\nq 0\nq 1\n"),
            (RESTLESS, "\n\n", "restless at 0\n"),
            (WIRES, "a 2 b 0\n  b 1  a 1", "x 2 y 1\nx 1 y 0\n"),
            (CORNERS, "a 1 b 0\na 0 b 1\n", "x 1 y 0\nx 0 y 1\n"),
            (WIRES, "", ""),
        ];
        for (listing, ticks, shown) in cases {
            assert_eq!(rt; played(rt.alloc(), listing, ticks)?.as_str(), shown);
        }
        Ok(())
    }

    #[test]
    fn bad_streams(rt: HostRuntime) -> Result<(), Fail> {
        let cases = [
            ("a 1\n", "! refused 8 at 0: "),
            ("a 1 b 0\na 4 b 0", "! refused 8 at 1: "),
            ("a 1 a 1", "! refused 8 at 0: "),
            ("a 1 b 1 c 1", "! refused 8 at 0: "),
            ("a 1 b 1\n\n", "! refused 8 at 1: "),
            ("a 1 b 18446744073709551616", "! refused 8 at 0: "),
        ];
        for (ticks, begins) in cases {
            assert!(rt;
                played(rt.alloc(), WIRES, ticks)?
                    .as_str()
                    .starts_with(begins),
                "{}",
                ticks
            );
        }
        Ok(())
    }

    fn compiled(heap: Global, design: &str, rows: u64) -> Result<String, AllocError> {
        let size = Size {
            columns: 2,
            rows,
            tracks: 4,
        };
        marked(heap, compile(heap, size, design.as_bytes()))
    }

    #[test]
    fn bad_designs(rt: HostRuntime) -> Result<(), Fail> {
        let cases = [
            ("0 0 0 0", 0, "! refused 1 at 0: "),
            ("0 0 1\n1 0", 1, "! refused 2 at 9: "),
            ("0 0 1 1 65536 2 1 1 0", 1, "! refused 3 at 4: "),
            ("0 0\n1 one", 1, "! refused 8 at 1: "),
        ];
        for (design, rows, begins) in cases {
            assert!(rt;
                compiled(rt.alloc(), design, rows)?
                    .as_str()
                    .starts_with(begins),
                "{}",
                design
            );
        }
        Ok(())
    }

    // The words behind the head, where a word is wider than can be put yet.
    #[test]
    fn messages(rt: HostRuntime) -> Result<(), Fail> {
        assert_eq!(rt;
            compiled(rt.alloc(), "1 0 1 1 2 0 0 0 0 0", 1)?.as_str(),
            "! refused 9 at 1: only single bits, inputs, registers, and, xor and fabrics of one row can be had yet; node 1 is of another kind, or else a word is wider or the fabric has more rows"
        );
        assert_eq!(rt;
            played(rt.alloc(), WIRES, "a 4 b 0")?.as_str(),
            "! refused 8 at 0: line 1 of the stream can't be read: \"a 4 b 0\"; each line gives every input once, with a number that fits it: a of 2 bits b of 1 bits"
        );
        Ok(())
    }

    // The text of a listing of a design of words; a mark where there is none.
    fn printed_words(heap: Global, size: Size, numbers: &[u64]) -> Result<String, AllocError> {
        match compiled_words(heap, size, numbers) {
            Ok(listing) => listing.print(heap),
            Err(_) => String::from_str(heap, "!"),
        }
    }

    // An output that shows an input of 3 bits, which isn't of single bits.
    #[test]
    fn words_are_put(rt: HostRuntime) -> Result<(), Fail> {
        let size = Size {
            columns: 3,
            rows: 1,
            tracks: 8,
        };
        let numbers = [1, 0, 1, 1, 3, 0, 0, 0, 0, 0];
        assert_eq!(rt;
            compiled_bits(rt.alloc(), size, &numbers).err(),
            Some(Unput::Turned(Refusal::NotYet { node: 1 }))
        );
        let listing = printed_words(rt.alloc(), size, &numbers)?;
        assert_eq!(rt;
            played(rt.alloc(), listing.as_str(), "i0 5\ni0 2\n")?.as_str(),
            "o0 5\no0 2\n"
        );
        Ok(())
    }

    // All lines and all words at once; the readers go over them one by one.
    #[test]
    fn cut(rt: HostRuntime) -> Result<(), Fail> {
        let lines = lines(rt.alloc(), "a\n\nb c\n")?;
        assert_eq!(rt; lines.as_slice(), ["a", "", "b c"].as_slice());
        let words = words(rt.alloc(), "  b  c ")?;
        assert_eq!(rt; words.as_slice(), ["b", "c"].as_slice());
        let mut left = Words::new(" b ");
        assert!(rt; left.end().is_none());
        assert!(rt; left.end().is_some());
        Ok(())
    }

    #[test]
    fn pages(rt: HostRuntime) -> Result<(), Fail> {
        let mut page = Page::new(rt.alloc());
        page.add("cell");
        page.letter(b' ');
        page.number(1024);
        page.add("\n");
        assert_eq!(rt; page.done()?.as_str(), "cell 1024\n");
        let mut lost = Page::new(rt.alloc());
        lost.lose(AllocError);
        lost.add("cell");
        assert!(rt; lost.done().is_err());
        Ok(())
    }

    // An input of 3 bits and a register of 2; an output for a node of each kind.
    #[test]
    fn widths(rt: HostRuntime) -> Result<(), Fail> {
        let heap = rt.alloc();
        let design: [u16; 73] = [
            1, 1, 13, 13, 3, 2, 0, 1, 0, 1, 2, 3, 4, 5, 6, 7, 8, 9, 10, 11, 12, 0, 0, 0, 0, 1, 0,
            0, 0, 2, 5, 9, 0, 3, 0, 0, 0, 4, 1, 1, 0, 5, 2, 2, 0, 6, 0, 0, 0, 7, 1, 1, 0, 8, 0, 0,
            0, 9, 0, 0, 0, 10, 8, 2, 2, 11, 1, 2, 0, 12, 0, 1, 0,
        ];
        let widths = output_widths(heap, Encoded::new(&design))?;
        let expected = [3, 2, 5, 3, 2, 5, 3, 2, 1, 1, 5, 2, 5];
        assert_eq!(rt; widths.as_slice(), expected.as_slice());
        Ok(())
    }
}
