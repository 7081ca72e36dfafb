// Words as numbers, bit by bit.
ghost use Rattle.std.specs.Prelude.{◌≡◌, ◌+◌, ◌^◌, ◌<◌};
ghost use Rattle.design.specs.Designs.{Word, number, word};

// Bit k of a number, the low one first; past the 64th there are none. Lowering has the same of 16 bits: one for both would be a public
// function of a crate below both, for a line, which is no plainer.
pub(crate) fn bit(n: u64, k: u32) -> bool
    ensures { result ≡ word n k }
{
    k < 64 && (n >> k) % 2 == 1
}

// One more bit on top of the k bits that a word was built of so far. A bit that is 0 adds nothing.
pub(crate) fn with_bit(n: u64, k: u32, top: bool) -> u64
    requires small { n < 2 ^ k }
    requires room { k < 64 }
    ensures word { (a : Word) → n ≡ number k a → top ≡ a k → result ≡ number (k + 1) a }
    ensures still_small { result < 2 ^ (k + 1) }
{
    if top { n + (1 << k) } else { n }
}
