// Laying out the nodes of a design as cells, each node at most once.
ghost use Rattle.std.specs.Prelude.{◌≡◌, ◌≤◌, min, Some, None, MatchResult};
ghost use Rattle.design.specs.Designs.{total};
ghost use Rattle.design.specs.Numbers.{design_in};
ghost use Rattle.design.specs.Encodings.{list_of, design_of, Counted};
ghost use Rattle.netlist.specs.Building.{Lowering};
ghost use Rattle.netlist.specs.NotYet.{lowering_refusal};
ghost use Rattle.netlist.specs.Starts.{Marked};
ghost use Rattle.netlist.specs.Lowerings.{LayAsks, LayGives, BuildAsks, BuildGives, Lowerable, RegistersIn, OutputsIn, netlist_of, Lowered, small_refusal, lower_refusal, words_refusal};

use crate::bus::Bus;
use crate::landed::landed;
use crate::netlists::Netlist;
use crate::operands::operands_of;
use crate::operations::{AND, EQUAL, LESS, NOT, OR, PASS, SAME, XOR};
use crate::parts::{Cell, Net};
use crate::row::{bit, constant};
use crate::starts::Starts;
use crate::work::Work;
use design::analysis::Analysis;
use design::counts::Counts;
use design::encoded::Encoded;
use design::node::Node;
use design::refusal::Refusal;
use design::soundness::check;

// A design that can be lowered, with what is known of its nodes, and where the bits of its inputs and of its registers begin.
#[derive(Drop)]
struct Task<'a> {
    analysis: Analysis<'a>,
    inputs: Starts,
    registers: Starts,
    ghost lowerable: { Lowerable (list_of analysis.design) },
    ghost inputs_begin: { Marked inputs (design_of analysis.design).inputs (design_of analysis.design).input_width },
    ghost registers_begin: { Marked registers (design_of analysis.design).registers (design_of analysis.design).register_width },
}

impl<'a> Task<'a> {
    // That of a design of words.
    fn of_words(design: Encoded<'a>) -> Task<'a>
        requires { Lowerable (list_of design) }
        ensures { list_of result.analysis.design ≡ list_of design.entry }
    {
        Task {
            analysis: Analysis::new(design),
            inputs: Starts::new(design.inputs(), |i| design.input_width(i)),
            registers: Starts::new(design.registers(), |r| design.register(r).width),
        }
    }

    // That of a design that has landed, so of single bits.
    fn of_bits(design: Encoded<'a>) -> Task<'a>
        requires lowerable { Lowerable (list_of design) }
        requires landed { lowering_refusal (list_of design) ≡ None }
        ensures { list_of result.analysis.design ≡ list_of design.entry }
    {
        Task {
            analysis: Analysis::new(design),
            inputs: Starts::Single,
            registers: Starts::Single,
        }
    }

    // The number of an input's first bit.
    fn input_start(&self, i: u16) -> u16
        ensures { i ≤ (design_of self.now.analysis.design).inputs → result ≡ min 65535 (total i (design_of self.now.analysis.design).input_width) }
    {
        let design = self.analysis.design;
        self.inputs.before(i, |j| design.input_width(j))
    }

    // The number of a register's first bit; past the last register how many bits there are.
    fn register_start(&self, r: u16) -> u16
        ensures { r ≤ (design_of self.now.analysis.design).registers → result ≡ min 65535 (total r (design_of self.now.analysis.design).register_width) }
    {
        let design = self.analysis.design;
        self.registers.before(r, |j| design.register(j).width)
    }
}

// The nets of node n, whose operands are laid out.
fn build(task: &Task<'_>, work: &mut Work, n: u16, node: Node) -> Bus
    requires { BuildAsks (list_of task.now.analysis.design) work.old n node }
    ensures { BuildGives (list_of task.now.analysis.design) work.old work.new n node result }
{
    let analysis = &task.analysis;
    match node {
        Node::Input(i) => Bus::inputs(task.input_start(i)),
        Node::Register(r) => Bus::cells(task.register_start(r)),
        Node::Constant { width, value } => work.push(width, |k| constant(value, k)),
        Node::And(a, b) => work.binary(AND, a, b, analysis.width(a)),
        Node::Or(a, b) => work.binary(OR, a, b, analysis.width(a)),
        Node::Xor(a, b) => work.binary(XOR, a, b, analysis.width(a)),
        Node::Not(a) => work.unary(NOT, a, analysis.width(a)),
        Node::Add(a, b) => work.add(a, b, analysis.width(a)),
        Node::Less(a, b) => work.compare(LESS, LESS, a, b, analysis.width(a)),
        Node::Equal(a, b) => work.compare(SAME, EQUAL, a, b, analysis.width(a)),
        Node::Mux { choice, one, zero } => work.choose(choice, one, zero, analysis.width(one)),
        Node::Slice { low, width: _, of } => work.bus(of).slice(low),
        Node::Concat { high, low } => work.bus(high).above(work.bus(low), analysis.width(low)),
    }
}

// Lays a node out, unless it is laid out already; no node is laid out at once. A node names earlier nodes only, so the recursion ends.
// Three calls and no loop over the operands, which would have to say what the calls before had laid out.
fn lay(task: &Task<'_>, work: &mut Work, node: Option<u16>)
    requires { LayAsks (list_of task.now.analysis.design) work.old node }
    ensures { LayGives (list_of task.now.analysis.design) work.old work.new node }
{
    let Some(n) = node else {
        return;
    };
    if work.has(n) {
        return;
    }
    let found = task.analysis.design.node(n);
    let [first, second, third] = operands_of(found);
    lay(task, work, first);
    lay(task, work, second);
    lay(task, work, third);
    let bus = build(task, work, n, found);
    work.note(n, bus);
}

// The cells of the registers, each with the net of the bit that it becomes. A `for` and no chain, since each turn changes the work that
// the next one reads; it sums by hand, since it lays out too, and the sum is the place of the next register's cells.
fn lay_registers(task: &Task<'_>, work: &mut Work)
    requires { RegistersIn (list_of task.now.analysis.design) work.old 0 }
    ensures { RegistersIn (list_of task.now.analysis.design) work.new (design_of task.now.analysis.design).registers }
{
    let design = task.analysis.design;
    let mut start: u16 = 0;
    for r in 0..design.registers() {
        let register = design.register(r);
        lay(task, work, Some(register.next));
        let next = work.bus(register.next);
        work.write(
            start,
            register.width,
            |k| Cell::register(next.net(k as usize), bit(register.initial, k)),
        );
        start += register.width;
    }
}

// The cells of the outputs, each of which passes a bit on. A `for` that sums, as above; the sum is the place of the next output's bits.
fn lay_outputs(task: &Task<'_>, work: &mut Work)
    requires { OutputsIn (list_of task.now.analysis.design) work.old 0 }
    ensures { OutputsIn (list_of task.now.analysis.design) work.new (design_of task.now.analysis.design).outputs }
{
    let design = task.analysis.design;
    let mut start: u16 = 0;
    for o in 0..design.outputs() {
        let node = design.output(o);
        lay(task, work, Some(node));
        let width = task.analysis.width(node);
        let first = work.cells.len() as u16;
        let bus = work.bus(node);
        work.push(width, |k| Cell::gate(PASS, bus.net(k as usize), Net::Zero));
        work.show(start, first, width);
        start += width;
    }
}

// The netlist of a design that can be lowered. Never inlined: the work takes some 300 KB of stack, which a caller would pay for designs too
// that it turns away.
#[inline(never)]
fn whole(task: &Task<'_>) -> Netlist
    ensures { Lowering (design_of task.now.analysis.design) (netlist_of result) }
{
    let register_bits = task.register_start(task.analysis.design.registers());
    let mut work = Work::new(register_bits as usize);
    lay_registers(task, &mut work);
    lay_outputs(task, &mut work);
    Netlist::new(&work.cells, work.outputs)
}

// The counts of a sound design that takes no more cells than any fabric has.
fn small(design: Encoded<'_>) -> Result<Counts, Refusal>
    ensures { MatchResult result
        (λ counts. (small_refusal (design_of design.entry) ≡ None) × Counted (design_of design.entry) counts)
        (λ refusal. small_refusal (design_of design.entry) ≡ Some refusal) }
{
    let counts = check(design)?;
    if counts.cells > 1024 {
        return Err(Refusal::Cells {
            needed: counts.cells,
        });
    }
    Ok(counts)
}

// The netlist of a design of single bits, inputs, registers, and, xor; or the first reason why there is none.
pub fn lower(design: Encoded<'_>) -> Result<Netlist, Refusal>
    ensures { MatchResult result
        (λ n. (lower_refusal design.entry.numbers.now ≡ None) × Lowered (design_in design.entry.numbers.now) n)
        (λ f. lower_refusal design.entry.numbers.now ≡ Some f) }
{
    small(design)?;
    landed(design)?;
    Ok(whole(&Task::of_bits(design)))
}

// The netlist of a design of words of up to 64 bits, or the first reason why there is none.
pub fn lower_words(design: Encoded<'_>) -> Result<Netlist, Refusal>
    ensures { MatchResult result
        (λ n. (words_refusal (list_of design.entry) ≡ None) × Lowering (design_of design.entry) (netlist_of n))
        (λ f. words_refusal (list_of design.entry) ≡ Some f) }
{
    let counts = small(design)?;
    if counts.tracks > 65535 {
        return Err(Refusal::NetTracks {
            needed: counts.tracks,
        });
    }
    Ok(whole(&Task::of_words(design)))
}
