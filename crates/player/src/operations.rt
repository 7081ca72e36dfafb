// Words built of their bits, from the low one up.
ghost use Rattle.std.specs.Prelude.{◌≡◌, ℕ, ◌<◌, Bool};
ghost use Rattle.design.specs.Designs.{Word, number, word};
ghost use Rattle.player.specs.Operations.{and_word, or_word, xor_word, not_word, sum_word, less_word, equal_word, mux_word, slice_word, concat_word};

use crate::bits::{bit, with_bit};
use crate::comparing::compare;
use crate::width::Width;

// The word of the bits below a width.
pub(crate) fn joined<F: Fn(u32) -> bool>(width: Width, bit_at: F) -> u64
    requires callable { (k : ℕ) → k < width.bits → F.pre bit_at k }
    ensures { (a : Word) → ((k : ℕ) (b : Bool) → k < width.bits → F.post bit_at k b → b ≡ a k) → result ≡ number width.bits a }
{
    let mut n = 0;
    for k in 0..width.bits {
        n = with_bit(n, k, bit_at(k));
    }
    n
}

// The bits of a number below a width.
pub(crate) fn low_bits(n: u64, width: Width) -> u64
    ensures { result ≡ number width.bits (word n) }
{
    joined(width, |k| bit(n, k))
}

// The sum of two words, cut at a width. The carry goes from bit to bit, so this is a loop of its own: a closure that changes what it
// captures is no plainer.
pub(crate) fn sum(a: u64, b: u64, width: Width) -> u64
    ensures { result ≡ number width.bits (sum_word (word a) (word b)) }
{
    let mut n = 0;
    let mut carry = false;
    for k in 0..width.bits {
        let x = bit(a, k);
        let y = bit(b, k);
        n = with_bit(n, k, x ^ y ^ carry);
        carry = x & y | carry & (x ^ y);
    }
    n
}

pub(crate) fn and(a: u64, b: u64, width: Width) -> u64
    ensures { result ≡ number width.bits (and_word (word a) (word b)) }
{
    joined(width, |k| bit(a, k) & bit(b, k))
}

pub(crate) fn or(a: u64, b: u64, width: Width) -> u64
    ensures { result ≡ number width.bits (or_word (word a) (word b)) }
{
    joined(width, |k| bit(a, k) | bit(b, k))
}

pub(crate) fn xor(a: u64, b: u64, width: Width) -> u64
    ensures { result ≡ number width.bits (xor_word (word a) (word b)) }
{
    joined(width, |k| bit(a, k) ^ bit(b, k))
}

pub(crate) fn not(a: u64, width: Width) -> u64
    ensures { result ≡ number width.bits (not_word (word a)) }
{
    joined(width, |k| !bit(a, k))
}

// Whether one word of some width is less than, or equal to, another.
pub(crate) fn less(a: u64, b: u64, of: u32, width: Width) -> u64
    ensures { result ≡ number width.bits (less_word (word a) (word b) of) }
{
    let less = compare(a, b, of).less;
    joined(width, |k| k == 0 && less)
}

pub(crate) fn equal(a: u64, b: u64, of: u32, width: Width) -> u64
    ensures { result ≡ number width.bits (equal_word (word a) (word b) of) }
{
    let equal = compare(a, b, of).equal;
    joined(width, |k| k == 0 && equal)
}

pub(crate) fn mux(choice: u64, one: u64, zero: u64, width: Width) -> u64
    ensures { result ≡ number width.bits (mux_word (word choice) (word one) (word zero)) }
{
    low_bits(if bit(choice, 0) { one } else { zero }, width)
}

// The bits from `low` on.
pub(crate) fn slice(low: u16, of: u64, width: Width) -> u64
    ensures { result ≡ number width.bits (slice_word low (word of)) }
{
    joined(width, |k| bit(of, low as u32 + k))
}

// The bits of `low`, as many as its width says, and above them those of `high`.
pub(crate) fn concat(high: u64, low: u64, of: u32, width: Width) -> u64
    ensures { result ≡ number width.bits (concat_word (word high) (word low) of) }
{
    joined(
        width,
        |k| if k < of {
            bit(low, k)
        } else {
            bit(high, k - of)
        },
    )
}
