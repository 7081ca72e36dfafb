// Which designs can be lowered: single bits, inputs, registers, and, xor.
ghost use Rattle.std.specs.Prelude.{◌≡◌, ◌<◌, is_some, Some, None, MatchResult};
ghost use Rattle.design.specs.Numbers.{inputs_of, registers_of, nodes_of, first_failing};
ghost use Rattle.netlist.specs.NotYet.{kind_landed, node_landed, input_single, register_single, lowering_refusal};

use design::encoded::Encoded;
use design::node::Node;
use design::refusal::Refusal;

fn kind_landed(node: Node) -> bool
    ensures { result ≡ kind_landed node }
{
    matches!(
        node,
        Node::Input(_) | Node::Register(_) | Node::And(_, _) | Node::Xor(_, _)
    )
}

// Whether node n can be lowered.
fn node_landed(design: Encoded<'_>, n: u16) -> bool
    ensures { n < nodes_of design.entry.numbers.now → result ≡ node_landed design.entry.numbers.now n }
{
    kind_landed(design.node(n))
}

// The first node that can't be lowered yet.
fn first_other(design: Encoded<'_>) -> Option<u16>
    ensures { result ≡ first_failing (node_landed design.entry.numbers.now) (nodes_of design.entry.numbers.now) }
{
    (0..design.nodes()).find(|n| !node_landed(design, *n))
}

// Two tests, of inputs and of registers: the library's `any` is what they share, as `find` is for the first node.
fn wide_input(design: Encoded<'_>) -> bool
    ensures { result ≡ is_some (first_failing (input_single design.entry.numbers.now) (inputs_of design.entry.numbers.now)) }
{
    (0..design.inputs()).any(|i| design.input_width(i) != 1)
}

fn wide_register(design: Encoded<'_>) -> bool
    ensures { result ≡ is_some (first_failing (register_single design.entry.numbers.now) (registers_of design.entry.numbers.now)) }
{
    (0..design.registers()).any(|r| design.register(r).width != 1)
}

// Whether the design can be lowered yet; else why it can't.
pub fn landed(design: Encoded<'_>) -> Result<(), Refusal>
    ensures { MatchResult result
        (λ _. lowering_refusal design.entry.numbers.now ≡ None)
        (λ refusal. lowering_refusal design.entry.numbers.now ≡ Some refusal) }
{
    if let Some(n) = first_other(design) {
        return Err(Refusal::NotYet { node: n as u64 });
    }
    if wide_input(design) || wide_register(design) {
        return Err(Refusal::NotYet {
            node: design.nodes() as u64,
        });
    }
    Ok(())
}
