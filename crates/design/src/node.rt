// A node of a design in numbers: an operation on earlier nodes, which it names by their numbers.

#[derive(Clone, Copy, PartialEq, Eq, Debug)]
pub enum Node {
    Input(u16),
    Register(u16),
    Constant { width: u16, value: u16 },
    And(u16, u16),
    Or(u16, u16),
    Xor(u16, u16),
    Not(u16),
    Add(u16, u16),
    Less(u16, u16),
    Equal(u16, u16),
    Mux { choice: u16, one: u16, zero: u16 },
    Slice { low: u16, width: u16, of: u16 },
    Concat { high: u16, low: u16 },
}
