// Where the bits of an input or a register begin among those of all.
ghost use Rattle.std.specs.Prelude.{◌≡◌, ℕ, ◌<◌, ◌≤◌, min};
ghost use Rattle.design.specs.Designs.{total};
ghost use Rattle.netlist.specs.Starts.{Marked};

// So many bits, and those of the words from one up to another, of such widths; 65,535 stands for more.
fn bits_up_to<F: Fn(u16) -> u16>(bits: u16, from: u16, word: u16, width: F) -> u16
    requires { F.IsAlwaysCallable width }
    ensures { (widths : ℕ → ℕ) → ((j w : ℕ) → j < word → F.post width j w → w ≡ widths j) →
        from ≤ word → bits ≡ min 65535 (total from widths) → result ≡ min 65535 (total word widths) }
{
    (from..word).fold(bits, |bits, j| bits.saturating_add(width(j)))
}

// Where the words of a design begin. Where each is a single bit its number says it. Else it is marked how many bits come before each 64th
// word, so that at most 63 widths are summed for one: there may be 65,535 words and no heap for a place of each, and a sum over all words
// for each node would take words times nodes.
#[derive(Clone, Copy)]
pub(crate) enum Starts {
    Single,
    Marks([u16; 1024]),
}

impl Starts {
    // The marks of so many words, of such widths.
    pub(crate) fn new<F: Fn(u16) -> u16>(words: u16, width: F) -> Starts
        requires { F.IsAlwaysCallable width }
        ensures { (widths : ℕ → ℕ) → ((j w : ℕ) → j < words → F.post width j w → w ≡ widths j) → Marked result words widths }
    {
        let mut marks = [0; 1024];
        for q in 0..words / 64 {
            marks[q as usize + 1] = bits_up_to(
                marks[q as usize],
                64 * q,
                64 * (q + 1),
                |j| width(j),
            );
        }
        Starts::Marks(marks)
    }

    // How many bits the words before that one have, where the words are known to begin so; 65,535 stands for more.
    pub(crate) fn before<F: Fn(u16) -> u16>(&self, word: u16, width: F) -> u16
        requires { F.IsAlwaysCallable width }
        ensures { (words : ℕ) (widths : ℕ → ℕ) → Marked self.now words widths → word ≤ words →
            ((j w : ℕ) → j < word → F.post width j w → w ≡ widths j) → result ≡ min 65535 (total word widths) }
    {
        match self {
            Starts::Single => word,
            Starts::Marks(marks) => {
                let q = word / 64;
                bits_up_to(marks[q as usize], 64 * q, word, width)
            }
        }
    }
}
