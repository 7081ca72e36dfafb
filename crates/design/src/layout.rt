// Where the numbers of a design stand in its list, and what stands there. A number that is missing counts as 0.
ghost use Rattle.std.specs.Prelude.{◌≡◌, ◌+◌, ◌*◌, ◌^◌, ◌<◌};
ghost use Rattle.design.specs.Numbers.{inputs_of, registers_of, outputs_of, nodes_of, register_place, output_place, node_place, register_node, output_node, expected_length, decode, node_in};

use crate::lookup::at;
use crate::node::Node;

#[tactic(auto, unfolding(crate::specs::Numbers::inputs_of))]
pub(crate) fn inputs(numbers: &[u16]) -> u16
    ensures { result ≡ inputs_of numbers.now }
{
    at(numbers, 0)
}

#[tactic(auto, unfolding(crate::specs::Numbers::registers_of))]
pub(crate) fn registers(numbers: &[u16]) -> u16
    ensures { result ≡ registers_of numbers.now }
{
    at(numbers, 1)
}

#[tactic(auto, unfolding(crate::specs::Numbers::outputs_of))]
pub(crate) fn outputs(numbers: &[u16]) -> u16
    ensures { result ≡ outputs_of numbers.now }
{
    at(numbers, 2)
}

#[tactic(auto, unfolding(crate::specs::Numbers::nodes_of))]
pub(crate) fn nodes(numbers: &[u16]) -> u16
    ensures { result ≡ nodes_of numbers.now }
{
    at(numbers, 3)
}

#[tactic(auto, unfolding(crate::specs::Numbers::register_place))]
pub(crate) fn register_place(numbers: &[u16], register: u16) -> usize
    ensures place { result ≡ register_place numbers.now register }
    ensures bound { result < 2 ^ 19 }
{
    4 + inputs(numbers) as usize + 3 * register as usize
}

#[tactic(auto, unfolding(crate::specs::Numbers::output_place, crate::specs::Numbers::register_place))]
pub(crate) fn output_place(numbers: &[u16], output: u16) -> usize
    ensures place { result ≡ output_place numbers.now output }
    ensures bound { result < 2 ^ 20 }
{
    register_place(numbers, registers(numbers)) + output as usize
}

#[tactic(auto, unfolding(crate::specs::Numbers::node_place, crate::specs::Numbers::output_place))]
pub(crate) fn node_place(numbers: &[u16], node: u16) -> usize
    ensures place { result ≡ node_place numbers.now node }
    ensures bound { result < 2 ^ 21 }
{
    output_place(numbers, outputs(numbers)) + 4 * node as usize
}

#[tactic(auto, unfolding(crate::specs::Numbers::expected_length))]
pub(crate) fn expected_length(numbers: &[u16]) -> usize
    ensures { result ≡ expected_length numbers.now }
{
    node_place(numbers, nodes(numbers))
}

// The node that a register becomes, and the one that an output shows.
#[tactic(auto, unfolding(crate::specs::Numbers::register_node))]
pub(crate) fn register_node(numbers: &[u16], register: u16) -> u16
    ensures { result ≡ register_node numbers.now register }
{
    at(numbers, register_place(numbers, register) + 2)
}

#[tactic(auto, unfolding(crate::specs::Numbers::output_node))]
pub(crate) fn output_node(numbers: &[u16], output: u16) -> u16
    ensures { result ≡ output_node numbers.now output }
{
    at(numbers, output_place(numbers, output))
}

// A node from its kind and operands; above 12 there is no kind.
#[tactic(auto, using(std::proofs::lemmas::Bool::Decides::nat_tests), unfolding(crate::specs::Numbers::decode))]
fn decoded(kind: u16, a: u16, b: u16, c: u16) -> Option<Node>
    ensures { result ≡ decode kind a b c }
{
    match kind {
        0 => Some(Node::Input(a)),
        1 => Some(Node::Register(a)),
        2 => Some(Node::Constant { width: a, value: b }),
        3 => Some(Node::And(a, b)),
        4 => Some(Node::Or(a, b)),
        5 => Some(Node::Xor(a, b)),
        6 => Some(Node::Not(a)),
        7 => Some(Node::Add(a, b)),
        8 => Some(Node::Less(a, b)),
        9 => Some(Node::Equal(a, b)),
        10 => Some(Node::Mux {
            choice: a,
            one: b,
            zero: c,
        }),
        11 => Some(Node::Slice {
            low: a,
            width: b,
            of: c,
        }),
        12 => Some(Node::Concat { high: a, low: b }),
        _ => None,
    }
}

#[tactic(auto, unfolding(crate::specs::Numbers::node_in))]
pub(crate) fn node(numbers: &[u16], n: u16) -> Option<Node>
    ensures { result ≡ node_in numbers.now n }
{
    let place = node_place(numbers, n);
    decoded(
        at(numbers, place),
        at(numbers, place + 1),
        at(numbers, place + 2),
        at(numbers, place + 3),
    )
}
