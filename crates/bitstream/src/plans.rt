// What `put` is asked, and what it is to write.
ghost use Rattle.std.specs.Prelude.{◌≡◌, None};
ghost use Rattle.design.specs.Numbers.{soundness_refusal};
ghost use Rattle.design.specs.Encodings.{design_of, Counted};
ghost use Rattle.bitstream.specs.Fitting.{NetsExist, OutputsExist};

use design::counts::Counts;
use design::encoded::Encoded;
use fabric::grid::Grid;
use netlist::netlists::Netlist;
use route::plain::Plain;

// A sound design, with its counts, that is to be put on a fabric.
#[derive(Clone, Copy)]
pub(crate) struct Request<'a> {
    pub grid: Grid,
    pub design: Encoded<'a>,
    pub counts: Counts,
    ghost sound: { soundness_refusal (design_of design) ≡ None },
    ghost counted: { Counted (design_of design) counts },
}

// A netlist, the plain layout for it, and how many pins the design has: those of the input bits, then those of the output bits.
#[derive(Drop)]
pub(crate) struct Plan {
    pub netlist: Netlist,
    pub routing: Plain,
    pub pins: usize,
    ghost nets: { NetsExist netlist routing },
    ghost outputs: { OutputsExist netlist routing pins },
}
