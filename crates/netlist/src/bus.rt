// The nets of a word.
ghost use Rattle.std.specs.Prelude.{◌≡◌, ℕ, ◌+◌, ◌-◌, ◌<◌, min, cond, nat_lt};
ghost use Rattle.netlist.specs.declared.parts.Net.TheVariants.{Zero, Input, Cell};
ghost use Rattle.netlist.specs.Rows.{no_bus, net_of};

use crate::parts::Net;
use std::array;

// The low bit first. Nets past the word's width are of no account. A bus is put together without a cell.
// A place for each bit of the widest word, since there is no heap here, and no length: who reads a bus knows the width.
#[derive(Clone, Copy)]
pub(crate) struct Bus {
    pub(crate) nets: [Net; 64],
}

impl Bus {
    // The net of bit k; past the last, `Zero`.
    pub(crate) fn net(self, k: usize) -> Net
        ensures { result ≡ net_of self k }
    {
        self.nets.get(k).copied().unwrap_or(Net::Zero)
    }

    // No net at any bit: the number 0.
    pub(crate) fn zero() -> Bus
        ensures is { result ≡ no_bus }
        ensures nets { (k : ℕ) → net_of result k ≡ Zero }
    {
        Bus {
            nets: [Net::Zero; 64],
        }
    }

    // One net for every bit.
    pub(crate) fn all(net: Net) -> Bus
        ensures { (k : ℕ) → k < 64 → net_of result k ≡ net }
    {
        Bus { nets: [net; 64] }
    }

    // The nets that a function gives for the bits.
    fn from_fn<F: Fn(u16) -> Net>(net: F) -> Bus
        requires { F.IsAlwaysCallable net }
        ensures { (k : ℕ) → k < 64 → F.post net k (net_of result k) }
    {
        Bus {
            nets: array::from_fn(|k| net(k as u16)),
        }
    }

    // The input bits from that number on.
    pub(crate) fn inputs(start: u16) -> Bus
        ensures { (k : ℕ) → k < 64 → net_of result k ≡ Input (min 65535 (start + k)) }
    {
        Bus::from_fn(|k| Net::Input(start.saturating_add(k)))
    }

    // What the cells from that number on show.
    pub(crate) fn cells(start: u16) -> Bus
        ensures { (k : ℕ) → k < 64 → net_of result k ≡ Cell (min 65535 (start + k)) }
    {
        Bus::from_fn(|k| Net::Cell(start.saturating_add(k)))
    }

    // The bits from that one on.
    pub(crate) fn slice(self, low: u16) -> Bus
        ensures { (k : ℕ) → k < 64 → net_of result k ≡ net_of self (low + k) }
    {
        Bus::from_fn(|k| self.net(low as usize + k as usize))
    }

    // The word above another, which has so many bits.
    pub(crate) fn above(self, low: Bus, split: u16) -> Bus
        ensures { (k : ℕ) → k < 64 → net_of result k ≡ cond (nat_lt k split) (net_of low k) (net_of self (k - split)) }
    {
        Bus::from_fn(
            |k|
                ensures { result ≡ cond (nat_lt k split) (net_of low k) (net_of self (k - split)) }
            {
                if k < split {
                    low.net(k as usize)
                } else {
                    self.net((k - split) as usize)
                }
            },
        )
    }
}
