// The nodes that a node names.
ghost use Rattle.std.specs.Prelude.{◌≡◌};
ghost use Rattle.netlist.specs.Lowerings.{operands_of, operand_list};

use design::node::Node;

// At most three, in the order in which they are laid out.
pub(crate) fn operands_of(node: Node) -> [Option<u16>; 3]
    ensures { result ≡ operand_list (operands_of node) }
{
    match node {
        Node::Input(_) | Node::Register(_) | Node::Constant { .. } => [None; 3],
        Node::Not(a) | Node::Slice { of: a, .. } => [Some(a), None, None],
        Node::And(a, b) | Node::Or(a, b) | Node::Xor(a, b) => [Some(a), Some(b), None],
        Node::Add(a, b) | Node::Less(a, b) | Node::Equal(a, b) => [Some(a), Some(b), None],
        Node::Concat { high, low } => [Some(high), Some(low), None],
        Node::Mux { choice, one, zero } => [Some(choice), Some(one), Some(zero)],
    }
}
