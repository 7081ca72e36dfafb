// A configured fabric with the pins of its inputs and outputs.
ghost use Rattle.std.specs.Prelude.{◌≡◌, vec_len};
ghost use Rattle.fabric.specs.Code.{size_of};
ghost use Rattle.fabric.specs.Numbers.{room_length};

use fabric::grid::Grid;
use fabric::parts::Pin;

// An input or an output: where each of its bits goes in or comes out, the low one first.
#[derive(Drop)]
pub struct Port {
    pub name: String,
    pub pins: Vec<Pin>,
}

// The fabric, the numbers that configure it, and its inputs and outputs.
#[derive(Drop)]
pub struct Listing {
    pub grid: Grid,
    pub room: Vec<u16>,
    pub inputs: Vec<Port>,
    pub outputs: Vec<Port>,
    ghost full: { vec_len room ≡ room_length (size_of grid) },
}
