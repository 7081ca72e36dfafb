// The words of a design's nodes in one tick: one pass over the nodes, in their order.
ghost use Rattle.design.specs.Encodings.{list_of};
ghost use Rattle.player.specs.Tables.{Wide, Evaluated, Tabled};

use crate::operations::{and, concat, equal, less, low_bits, mux, not, or, slice, sum, xor};
use crate::width::Width;
use design::analysis::Analysis;
use design::lookup::at;
use design::node::Node;

// What the words of one tick come from: a design, and the numbers of its inputs' and its registers' words.
#[derive(Clone, Copy)]
pub(crate) struct Tick<'a> {
    pub(crate) analysis: &'a Analysis<'a>,
    pub(crate) inputs: &'a [u64],
    pub(crate) registers: &'a [u64],
}

impl Tick<'_> {
    // The width of a node that is well-formed.
    fn width(self, n: u16) -> Width
        ensures { Wide (list_of self.entry.analysis.now.design) n result.bits }
    {
        Width::of(self.analysis.width(n))
    }

    // The word of node n, from the words of the nodes that it names.
    fn evaluate(self, known: &[u64], n: u16) -> u64
        ensures { let t = self.entry in Evaluated (list_of t.analysis.now.design) t.inputs.now t.registers.now known.now n result }
    {
        let width = self.width(n);
        match self.analysis.design.node(n) {
            Node::Input(i) => low_bits(at(self.inputs, i as usize), width),
            Node::Register(r) => low_bits(at(self.registers, r as usize), width),
            Node::Constant { value, .. } => low_bits(value as u64, width),
            Node::And(a, b) => and(at(known, a as usize), at(known, b as usize), width),
            Node::Or(a, b) => or(at(known, a as usize), at(known, b as usize), width),
            Node::Xor(a, b) => xor(at(known, a as usize), at(known, b as usize), width),
            Node::Not(a) => not(at(known, a as usize), width),
            Node::Add(a, b) => sum(at(known, a as usize), at(known, b as usize), width),
            Node::Less(a, b) => less(
                at(known, a as usize),
                at(known, b as usize),
                self.width(a).bits,
                width,
            ),
            Node::Equal(a, b) => equal(
                at(known, a as usize),
                at(known, b as usize),
                self.width(a).bits,
                width,
            ),
            Node::Mux { choice, one, zero } => mux(
                at(known, choice as usize),
                at(known, one as usize),
                at(known, zero as usize),
                width,
            ),
            Node::Slice { low, of, .. } => slice(low, at(known, of as usize), width),
            Node::Concat { high, low } => concat(
                at(known, high as usize),
                at(known, low as usize),
                self.width(low).bits,
                width,
            ),
        }
    }

    // The words of all nodes. Each comes from those before it, so they are written by their places: `iter_mut` would lend all of them. An
    // array, and no `Vec`: it is no longer than the most nodes, and can't fail for want of memory.
    pub(crate) fn table(self) -> [u64; 1024]
        ensures { let t = self.entry in Tabled (list_of t.analysis.now.design) t.inputs.now t.registers.now result }
    {
        let mut known = [0; 1024];
        let nodes = self.analysis.design.nodes();
        for n in 0..nodes {
            known[n as usize] = self.evaluate(&known, n);
        }
        known
    }
}
