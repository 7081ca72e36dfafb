// Widths of words.
ghost use Rattle.std.specs.Prelude.{◌≡◌, ◌≤◌, min};

// How many bits a word has; at most 64.
#[derive(Clone, Copy)]
pub(crate) struct Width {
    pub(crate) bits: u32,
    ghost small: { bits ≤ 64 },
}

impl Width {
    // So many bits, cut at 64.
    pub(crate) fn of(bits: u16) -> Width
        ensures { result.bits ≡ min bits 64 }
    {
        Width {
            bits: bits.min(64) as u32,
        }
    }
}
