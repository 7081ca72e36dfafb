// A design in numbers that was read.
ghost use Rattle.std.specs.Prelude.{◌≡◌, ◌<◌, ◌≤◌, true, false, [], ◌∷◌, is_some, if◌then◌else◌, Some, None, MatchResult};
ghost use Rattle.design.specs.Designs.{word};
ghost use Rattle.design.specs.Numbers.{inputs_of, registers_of, outputs_of, nodes_of, register_node, output_node, node_in, names_below, design_in, reading_refusal};

use crate::lookup::at;
use crate::node::Node;
use crate::refusal::Refusal;
use crate::{faults, layout};

// The list is lent; reading it refuses nothing.
#[derive(Clone, Copy)]
pub struct Encoded<'a> {
    numbers: &'a [u16],
    ghost readable: { is_some (reading_refusal numbers.now) ≡ false },
}

// A register: its width, the number that it begins with, and the node that it becomes at the end of a tick.
#[derive(Clone, Copy, PartialEq, Eq, Debug)]
pub struct Register {
    pub width: u16,
    pub initial: u16,
    pub next: u16,
}

static EMPTY: [u16; 4] = [0; 4];

// Whether the numbers are a design: refusals 2 and 3.
pub fn validate(numbers: &[u16]) -> Result<(), Refusal>
    ensures { MatchResult result
        (λ _. reading_refusal numbers.now ≡ None)
        (λ refusal. reading_refusal numbers.now ≡ Some refusal) }
{
    Encoded::try_from(numbers)?;
    Ok(())
}

impl<'a> TryFrom<&'a [u16]> for Encoded<'a> {
    type Error = Refusal;

    ghost try_from_gives = { λ numbers r. MatchResult r
        (λ design. (reading_refusal numbers.now ≡ None) × (design.numbers.now ≡ numbers.now))
        (λ refusal. reading_refusal numbers.now ≡ Some refusal) };

    fn try_from(numbers: &'a [u16]) -> Result<Encoded<'a>, Refusal> {
        faults::check(numbers)?;
        Ok(Encoded { numbers })
    }
}

impl<'a> Encoded<'a> {
    // The design in the numbers; the empty design where `validate` refuses them.
    pub fn new(numbers: &'a [u16]) -> Encoded<'a>
        ensures list { result.numbers.now ≡ (if is_some (reading_refusal numbers.now) then 0 ∷ 0 ∷ 0 ∷ 0 ∷ [] else numbers.now) }
        ensures whole { reading_refusal numbers.now ≡ None → result.numbers.now ≡ numbers.now }
    {
        Encoded::try_from(numbers).unwrap_or(Encoded { numbers: &EMPTY })
    }

    pub fn inputs(self) -> u16
        ensures { result ≡ inputs_of self.entry.numbers.now }
    {
        layout::inputs(self.numbers)
    }

    pub fn registers(self) -> u16
        ensures { result ≡ registers_of self.entry.numbers.now }
    {
        layout::registers(self.numbers)
    }

    pub fn outputs(self) -> u16
        ensures { result ≡ outputs_of self.entry.numbers.now }
    {
        layout::outputs(self.numbers)
    }

    // At most 1,024.
    pub fn nodes(self) -> u16
        ensures count { result ≡ nodes_of self.entry.numbers.now }
        ensures few { result ≤ 1024 }
    {
        layout::nodes(self.numbers)
    }

    pub fn input_width(self, input: u16) -> u16
        ensures { result ≡ (design_in self.entry.numbers.now).input_width input }
    {
        at(self.numbers, 4 + input as usize)
    }

    pub fn register(self, register: u16) -> Register
        ensures width { result.width ≡ (design_in self.entry.numbers.now).register_width register }
        ensures initial { word result.initial ≡ (design_in self.entry.numbers.now).initial register }
        ensures next { result.next ≡ register_node self.entry.numbers.now register }
        ensures named { register < registers_of self.entry.numbers.now → result.next < nodes_of self.entry.numbers.now }
    {
        let place = layout::register_place(self.numbers, register);
        Register {
            width: at(self.numbers, place),
            initial: at(self.numbers, place + 1),
            next: layout::register_node(self.numbers, register),
        }
    }

    // The node that an output shows.
    pub fn output(self, output: u16) -> u16
        ensures node { result ≡ output_node self.entry.numbers.now output }
        ensures named { output < outputs_of self.entry.numbers.now → result < nodes_of self.entry.numbers.now }
    {
        layout::output_node(self.numbers, output)
    }

    // Node n, which names earlier nodes only; past the nodes, some node.
    pub fn node(self, n: u16) -> Node
        ensures is { n < nodes_of self.entry.numbers.now → node_in self.entry.numbers.now n ≡ Some result }
        ensures below { n < nodes_of self.entry.numbers.now → names_below n result ≡ true }
    {
        layout::node(self.numbers, n).unwrap_or(Node::Input(0))
    }
}
