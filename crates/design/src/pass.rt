// One pass over the nodes, in their order, that summarizes each from the summaries of the nodes that it names.
ghost use Rattle.std.specs.Prelude.{◌≡◌, ℕ, ◌<◌, ◌≤◌, true, length, slice_index_or};
ghost use Rattle.design.specs.declared.summary.Summary.{Summary};
ghost use Rattle.design.specs.Designs.{Expr};
ghost use Rattle.design.specs.Numbers.{nodes_of, names_below, expr_of, node_expr};
ghost use Rattle.design.specs.Summaries.{Summarizes, Known};
ghost use Rattle.design.specs.Encodings.{list_of, design_of};

use crate::encoded::Encoded;
use crate::lookup::at;
use crate::node::Node;
use crate::summary::Summary;

const BLANK: Summary = Summary {
    width: 0,
    formed: false,
    cells: 0,
};

fn summarize(design: Encoded<'_>, known: &[Summary], node: Node) -> Summary
    ensures { (e : ℕ → Expr) (n : ℕ) → n ≤ length known.now → names_below n node ≡ true →
        Known (design_of design.entry) e n known.now → Summarizes (design_of design.entry) (expr_of e node) result }
{
    match node {
        Node::Input(i) => Summary {
            width: design.input_width(i),
            formed: i < design.inputs(),
            cells: 0,
        },
        Node::Register(r) => Summary {
            width: design.register(r).width,
            formed: r < design.registers(),
            cells: 0,
        },
        Node::Constant { width, .. } => Summary::constant(width),
        Node::And(a, b) | Node::Or(a, b) | Node::Xor(a, b) => Summary::bitwise(
            at(known, a as usize),
            at(known, b as usize),
        ),
        Node::Not(a) => Summary::not(at(known, a as usize)),
        Node::Add(a, b) => Summary::add(at(known, a as usize), at(known, b as usize)),
        Node::Less(a, b) | Node::Equal(a, b) => Summary::comparison(
            at(known, a as usize),
            at(known, b as usize),
        ),
        Node::Mux { choice, one, zero } => Summary::mux(
            at(known, choice as usize),
            at(known, one as usize),
            at(known, zero as usize),
        ),
        Node::Slice { low, width, of } => Summary::slice(low, width, at(known, of as usize)),
        Node::Concat { high, low } => Summary::concat(
            at(known, high as usize),
            at(known, low as usize),
        ),
    }
}

// The summaries of all nodes. Each comes from those before it, so they are written by their places: `iter_mut` would lend all of them.
pub(crate) fn pass(design: Encoded<'_>) -> [Summary; 1024]
    ensures { Known (design_of design.entry) (node_expr (list_of design.entry)) (nodes_of (list_of design.entry)) result }
{
    let mut known = [BLANK; 1024];
    let nodes = design.nodes();
    for n in 0..nodes {
        known[n as usize] = summarize(design, &known, design.node(n));
    }
    known
}
