// Comparisons of words, bit by bit.
ghost use Rattle.std.specs.Prelude.{◌≡◌};
ghost use Rattle.design.specs.Designs.{word, less_below, equal_below};

use crate::bits::bit;

// Two flags, and no `Ordering`: the definitions say each of the two bit by bit, and an `Ordering` would be put together and taken apart.
#[derive(Clone, Copy)]
pub(crate) struct Comparison {
    pub(crate) less: bool,
    pub(crate) equal: bool,
}

// From the low bit up: the highest bits that differ decide. A `fold` would carry the same two flags and be no plainer.
pub(crate) fn compare(a: u64, b: u64, width: u32) -> Comparison
    ensures less { result.less ≡ less_below (word a) (word b) width }
    ensures equal { result.equal ≡ equal_below (word a) (word b) width }
{
    let mut less = false;
    let mut equal = true;
    for k in 0..width {
        let x = bit(a, k);
        let y = bit(b, k);
        less = !x & y | !(x ^ y) & less;
        equal = !(x ^ y) & equal;
    }
    Comparison { less, equal }
}
