// The rows of cells that an operation on nodes is laid out as.
ghost use Rattle.std.specs.Prelude.{◌≡◌, ◌+◌, ◌<◌, ◌≤◌};
ghost use Rattle.netlist.specs.Building.{gate_row, chain_row};
ghost use Rattle.netlist.specs.Rows.{net_of};
ghost use Rattle.netlist.specs.Works.{count_of, nets_at, zeros, RowAsks, RowLaid, Compared, Summed};

use crate::bus::Bus;
use crate::parts::{Cell, Net};
use crate::row::link;
use crate::work::Work;

// Tables: bit k is what a cell looks up where its first input counts 1, its second 2 and its third 4.
pub(crate) const PASS: u16 = 2;

pub(crate) const NOT: u16 = 1;

pub(crate) const AND: u16 = 8;

pub(crate) const OR: u16 = 14;

pub(crate) const XOR: u16 = 6;
// the first where the third is 1, else the second
const MUX: u16 = 172;
// the sum of three bits, and its carry
const SUM: u16 = 150;

const CARRY: u16 = 232;
// whether the first is less than the second, or they are equal and the third, of the bits below, is 1
pub(crate) const LESS: u16 = 212;
// whether the first two are equal; and the third, of the bits below, is 1
pub(crate) const SAME: u16 = 9;

pub(crate) const EQUAL: u16 = 144;

// Each row asks for room in the work, which no type of its operands alone can say. Two nodes and their width stay three parameters: a
// struct of them would be put together at each call in `build` and taken apart in each row, which is no plainer.
impl Work {
    // One gate a bit, of one node.
    pub(crate) fn unary(&mut self, table: u16, a: u16, width: u16) -> Bus
        requires { RowAsks self.old width }
        ensures { RowLaid self.old self.new width (gate_row table (nets_at self.old a) zeros zeros) result }
    {
        let a = self.bus(a);
        self.push(width, |k| Cell::gate(table, a.net(k as usize), Net::Zero))
    }

    // One gate a bit, of two nodes.
    pub(crate) fn binary(&mut self, table: u16, a: u16, b: u16, width: u16) -> Bus
        requires { RowAsks self.old width }
        ensures { RowLaid self.old self.new width (gate_row table (nets_at self.old a) (nets_at self.old b) zeros) result }
    {
        let a = self.bus(a);
        let b = self.bus(b);
        self.push(
            width,
            |k| Cell::gate(table, a.net(k as usize), b.net(k as usize)),
        )
    }

    // One gate a bit, of two nodes and a third bus.
    fn ternary(&mut self, table: u16, a: u16, b: u16, c: Bus, width: u16) -> Bus
        requires { RowAsks self.old width }
        ensures { RowLaid self.old self.new width (gate_row table (nets_at self.old a) (nets_at self.old b) (net_of c)) result }
    {
        let a = self.bus(a);
        let b = self.bus(b);
        self.push(
            width,
            |k| Cell::gate_of_three(
                table,
                a.net(k as usize),
                b.net(k as usize),
                c.net(k as usize),
            ),
        )
    }

    // The bits of a node where the low bit of another is 1, else those of a third.
    pub(crate) fn choose(&mut self, choice: u16, one: u16, zero: u16, width: u16) -> Bus
        requires { RowAsks self.old width }
        ensures { RowLaid self.old self.new width (gate_row 172 (nets_at self.old one) (nets_at self.old zero) (λ k. nets_at self.old choice 0)) result }
    {
        let all = Bus::all(self.bus(choice).net(0));
        self.ternary(MUX, one, zero, all, width)
    }

    // One cell a bit, of two nodes and of the cell of the bit below.
    fn chain(&mut self, first: u16, table: u16, a: u16, b: u16, width: u16) -> Bus
        requires { RowAsks self.old width }
        ensures { RowLaid self.old self.new width (chain_row first table (nets_at self.old a) (nets_at self.old b) (count_of self.old)) result }
    {
        let start = self.cells.len() as u16;
        let a = self.bus(a);
        let b = self.bus(b);
        self.push(
            width,
            |k| link(start, k, first, table, a.net(k as usize), b.net(k as usize)),
        )
    }

    // A chain from the low bit up, whose last cell has the result: so the higher bit decides.
    pub(crate) fn compare(&mut self, first: u16, table: u16, a: u16, b: u16, width: u16) -> Bus
        requires row { RowAsks self.old width }
        requires some { 1 ≤ width }
        ensures { Compared self.old self.new width (chain_row first table (nets_at self.old a) (nets_at self.old b) (count_of self.old)) result }
    {
        let states = self.chain(first, table, a, b, width);
        states.slice(width - 1)
    }

    // A chain of carries from the low bit up, and then a sum for each bit, of the two bits and the carry into them.
    pub(crate) fn add(&mut self, a: u16, b: u16, width: u16) -> Bus
        requires row { RowAsks self.old width }
        requires room { count_of self.old + width + width ≤ 1024 }
        ensures { Summed self.old self.new a b width result }
    {
        let carries = self.chain(CARRY, CARRY, a, b, width);
        let none = Bus::zero();
        let into = carries.above(none, 1);
        self.ternary(SUM, a, b, into, width)
    }
}
