// What is wrong with a list of numbers that should be a design.
ghost use Rattle.std.specs.Prelude.{◌≡◌, ◌&&◌, ltb, nat_lt, Some, None, MatchResult};
ghost use Rattle.design.specs.Numbers.{registers_of, outputs_of, nodes_of, register_node, output_node, names_below, node_ok, first_failing, reading_refusal};

use crate::layout;
use crate::node::Node;
use crate::refusal::Refusal;

pub(crate) const MOST_NODES: u16 = 1024;

fn both_below(n: u16, a: u16, b: u16) -> bool
    ensures { result ≡ (nat_lt a n && nat_lt b n) }
{
    a < n && b < n
}

fn names_below(n: u16, node: Node) -> bool
    ensures { result ≡ names_below n node }
{
    match node {
        Node::Input(_) | Node::Register(_) | Node::Constant { .. } => true,
        Node::And(a, b) | Node::Or(a, b) | Node::Xor(a, b) => both_below(n, a, b),
        Node::Not(a) => a < n,
        Node::Add(a, b) | Node::Less(a, b) | Node::Equal(a, b) => both_below(n, a, b),
        Node::Mux { choice, one, zero } => choice < n && both_below(n, one, zero),
        Node::Slice { of, .. } => of < n,
        Node::Concat { high, low } => both_below(n, high, low),
    }
}

// A match: with `is_some_and`, which was tried, the proof of what the closure answers didn't close.
fn node_ok(numbers: &[u16], n: u16) -> bool
    ensures { result ≡ node_ok numbers.now n }
{
    match layout::node(numbers, n) {
        Some(node) => names_below(n, node),
        None => false,
    }
}

// Three searches, of nodes, registers and outputs: the library's `find` is what they share, and a function of their own over it would be no
// plainer, since it would have to hand its test on.

// The first node of no kind, or that names a node that is not earlier.
fn bad_node(numbers: &[u16]) -> Option<u16>
    ensures { result ≡ first_failing (node_ok numbers.now) (nodes_of numbers.now) }
{
    (0..layout::nodes(numbers)).find(|n| !node_ok(numbers, *n))
}

// The first register that names a node that there isn't.
fn dangling_register(numbers: &[u16]) -> Option<u16>
    ensures { result ≡ first_failing (λ k. ltb (register_node numbers.now k) (nodes_of numbers.now)) (registers_of numbers.now) }
{
    let nodes = layout::nodes(numbers);
    (0..layout::registers(numbers)).find(|k| layout::register_node(numbers, *k) >= nodes)
}

// The first output that names a node that there isn't.
fn dangling_output(numbers: &[u16]) -> Option<u16>
    ensures { result ≡ first_failing (λ k. ltb (output_node numbers.now k) (nodes_of numbers.now)) (outputs_of numbers.now) }
{
    let nodes = layout::nodes(numbers);
    (0..layout::outputs(numbers)).find(|k| layout::output_node(numbers, *k) >= nodes)
}

// The first fault of the list, if there is one. The numbers are of 16 bits, so none is above 65,535.
pub(crate) fn check(numbers: &[u16]) -> Result<(), Refusal>
    ensures { MatchResult result
        (λ _. reading_refusal numbers.now ≡ None)
        (λ refusal. reading_refusal numbers.now ≡ Some refusal) }
{
    let expected = layout::expected_length(numbers);
    if numbers.len() != expected {
        return Err(Refusal::DesignLength {
            expected: expected as u64,
        });
    }
    if layout::nodes(numbers) > MOST_NODES {
        return Err(Refusal::TooManyNodes);
    }
    if let Some(n) = bad_node(numbers) {
        return Err(Refusal::BadNode { node: n as u64 });
    }
    if let Some(register) = dangling_register(numbers) {
        return Err(Refusal::NoSuchNode {
            place: layout::register_place(numbers, register) as u64 + 2,
        });
    }
    if let Some(output) = dangling_output(numbers) {
        return Err(Refusal::NoSuchNode {
            place: layout::output_place(numbers, output) as u64,
        });
    }
    Ok(())
}
