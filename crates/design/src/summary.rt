// What a pass over the nodes keeps of each: whether it is well-formed, and if so its width and its plain count of cells, capped at 65,536.
ghost use Rattle.std.specs.Prelude.{◌≡◌, ◌+◌, ◌*◌, ◌≤◌, min, ◌&&◌, ◌==◌, nat_le};

pub(crate) const CAP: u32 = 65536;

// A flag beside the two, and no `Option` of them: an operation works out its width and its cells from those of its operands whether they
// are well-formed or not, and an `Option` would be taken apart in each.
#[derive(Clone, Copy, Default)]
pub(crate) struct Summary {
    pub(crate) width: u16,
    pub(crate) formed: bool,
    pub(crate) cells: u32,
}

// A sum that stops at the cap.
pub(crate) fn capped(a: u32, b: u32) -> u32
    ensures { result ≡ min 65536 (a + b) }
{
    (a.min(CAP) + b.min(CAP)).min(CAP)
}

fn same_width(a: Summary, b: Summary) -> bool
    ensures { result ≡ (a.formed && (b.formed && a.width == b.width)) }
{
    a.formed && b.formed && a.width == b.width
}

fn mux_formed(choice: Summary, same: bool) -> bool
    ensures { result ≡ (choice.formed && (choice.width == 1 && same)) }
{
    choice.formed && choice.width == 1 && same
}

fn slice_formed(low: u16, width: u16, of: Summary) -> bool
    ensures { result ≡ (of.formed && (nat_le 1 width && nat_le (low + width) of.width)) }
{
    of.formed && 1 <= width && low as u32 + width as u32 <= of.width as u32
}

fn concat_formed(high: Summary, low: Summary) -> bool
    ensures { result ≡ (high.formed && (low.formed && nat_le (high.width + low.width) 64)) }
{
    high.formed && low.formed && high.width as u32 + low.width as u32 <= 64
}

pub(crate) fn width_ok(width: u16) -> bool
    ensures { result ≡ (nat_le 1 width && nat_le width 64) }
{
    1 <= width && width <= 64
}

// Each operation states its width, its form and its cells for itself: a name for clauses that are alike would hide what it is.
impl Summary {
    pub(crate) fn constant(width: u16) -> Summary
        ensures width { result.width ≡ width }
        ensures formed { result.formed ≡ (nat_le 1 width && nat_le width 64) }
        ensures cells { result.cells ≡ width }
    {
        Summary {
            width,
            formed: width_ok(width),
            cells: width as u32,
        }
    }

    // An operation of a result of some width on two operands of one width, with so many cells.
    fn binary(a: Summary, b: Summary, width: u16, cells: u32) -> Summary
        ensures width { result.width ≡ width }
        ensures formed { result.formed ≡ (a.formed && (b.formed && a.width == b.width)) }
        ensures cells { result.cells ≡ min 65536 (min 65536 (a.cells + b.cells) + cells) }
    {
        Summary {
            width,
            formed: same_width(a, b),
            cells: capped(capped(a.cells, b.cells), cells),
        }
    }

    // And, or, xor.
    pub(crate) fn bitwise(a: Summary, b: Summary) -> Summary
        ensures width { result.width ≡ a.width }
        ensures formed { result.formed ≡ (a.formed && (b.formed && a.width == b.width)) }
        ensures cells { result.cells ≡ min 65536 (min 65536 (a.cells + b.cells) + a.width) }
    {
        Summary::binary(a, b, a.width, a.width as u32)
    }

    pub(crate) fn add(a: Summary, b: Summary) -> Summary
        ensures width { result.width ≡ a.width }
        ensures formed { result.formed ≡ (a.formed && (b.formed && a.width == b.width)) }
        ensures cells { result.cells ≡ min 65536 (min 65536 (a.cells + b.cells) + 2 * a.width) }
    {
        Summary::binary(a, b, a.width, 2 * a.width as u32)
    }

    // Less, equal.
    pub(crate) fn comparison(a: Summary, b: Summary) -> Summary
        ensures width { result.width ≡ 1 }
        ensures formed { result.formed ≡ (a.formed && (b.formed && a.width == b.width)) }
        ensures cells { result.cells ≡ min 65536 (min 65536 (a.cells + b.cells) + a.width) }
    {
        Summary::binary(a, b, 1, a.width as u32)
    }

    pub(crate) fn not(a: Summary) -> Summary
        ensures width { result.width ≡ a.width }
        ensures formed { result.formed ≡ a.formed }
        ensures cells { result.cells ≡ min 65536 (a.cells + a.width) }
    {
        Summary {
            width: a.width,
            formed: a.formed,
            cells: capped(a.cells, a.width as u32),
        }
    }

    pub(crate) fn mux(choice: Summary, a: Summary, b: Summary) -> Summary
        ensures width { result.width ≡ a.width }
        ensures formed { result.formed ≡ (choice.formed && (choice.width == 1 && (a.formed && (b.formed && a.width == b.width)))) }
        ensures cells { result.cells ≡ min 65536 (choice.cells + min 65536 (min 65536 (a.cells + b.cells) + a.width)) }
    {
        let chosen = Summary::bitwise(a, b);
        Summary {
            width: a.width,
            formed: mux_formed(choice, chosen.formed),
            cells: capped(choice.cells, chosen.cells),
        }
    }

    pub(crate) fn slice(low: u16, width: u16, of: Summary) -> Summary
        ensures width { result.width ≡ width }
        ensures formed { result.formed ≡ (of.formed && (nat_le 1 width && nat_le (low + width) of.width)) }
        ensures cells { result.cells ≡ of.cells }
    {
        Summary {
            width,
            formed: slice_formed(low, width, of),
            cells: of.cells,
        }
    }

    // The width of what isn't well-formed may be too large, and is given as 0.
    pub(crate) fn concat(high: Summary, low: Summary) -> Summary
        ensures width { high.width + low.width ≤ 64 → result.width ≡ high.width + low.width }
        ensures formed { result.formed ≡ (high.formed && (low.formed && nat_le (high.width + low.width) 64)) }
        ensures cells { result.cells ≡ min 65536 (high.cells + low.cells) }
    {
        let width = high.width as u32 + low.width as u32;
        let width = if width <= 64 { width as u16 } else { 0 };
        Summary {
            width,
            formed: concat_formed(high, low),
            cells: capped(high.cells, low.cells),
        }
    }
}
