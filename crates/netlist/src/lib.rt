// Netlists of four-input cells, and the lowering of designs to them: of every sound design, of words of up to 64 bits, and of those
// that have landed.
#![tactic(auto)]

mod bus;
pub mod landed;
pub mod laws;
pub mod lowering;
pub mod netlists;
mod operands;
mod operations;
pub mod parts;
mod row;
mod starts;
mod work;
