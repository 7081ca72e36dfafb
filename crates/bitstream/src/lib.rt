// Bits and pins: a design put on the fabric.
#![tactic(auto)]

ghost use Rattle.std.specs.Prelude.{IfOk};
ghost use Rattle.bitstream.specs.Puts.{PutSays, PutWordsSays};
ghost use Rattle.bitstream.specs.Plans.{Fits, CarriesOut};

mod pinning;
mod planning;
mod plans;
pub mod theorem;
mod writing;

use crate::planning::{plan, plan_words};
use crate::plans::Plan;
use design::refusal::Refusal;
use fabric::size::Size;

// What `put` answers. It stays an enum of its own, and no `Result`, so that C can read it.
#[derive(Clone, Copy, PartialEq, Eq, Debug)]
pub enum Made {
    // the room holds the fabric's bits, and the pins are written
    Placed,
    // turned away
    Refused(Refusal),
}

// Puts a design in numbers on a fabric of so many columns (`across`), rows (`down`) and tracks: single bits, inputs, registers, and, xor,
// and one row. The parameters stand alone so that C can call it.
pub fn put(
    across: u64,
    down: u64,
    tracks: u64,
    design: &[u16],
    room: &mut [u16],
    pins: &mut [u16],
) -> Made
    ensures { PutSays (record { columns = across; rows = down; tracks = tracks }) design.now room.old pins.old result room.new pins.new }
{
    let size = Size {
        columns: across,
        rows: down,
        tracks,
    };
    let planned = plan(size, design, room, pins);
    carry_out(planned, room, pins)
}

// The same of any sound design, of words of up to 64 bits, and any fabric; C is to call it in the place of `put`.
pub fn put_words(
    across: u64,
    down: u64,
    tracks: u64,
    design: &[u16],
    room: &mut [u16],
    pins: &mut [u16],
) -> Made
    ensures { PutWordsSays (record { columns = across; rows = down; tracks = tracks }) design.now room.old pins.old result room.new pins.new }
{
    let size = Size {
        columns: across,
        rows: down,
        tracks,
    };
    let planned = plan_words(size, design, room, pins);
    carry_out(planned, room, pins)
}

// Writes what is planned; where a design is refused, nothing.
fn carry_out(planned: Result<Plan, Refusal>, room: &mut [u16], pins: &mut [u16]) -> Made
    requires { IfOk planned (Fits room.old pins.old) }
    ensures { CarriesOut planned room.old pins.old result room.new pins.new }
{
    match planned {
        Err(refusal) => Made::Refused(refusal),
        Ok(plan) => {
            plan.write_room(room);
            plan.write_pins(pins);
            Made::Placed
        }
    }
}
