// What a sound design takes up: bits of inputs and of outputs, and the cells and tracks of its plain layout, both capped at 65,536.
ghost use Rattle.std.specs.Prelude.{◌^◌, ◌<◌};

#[derive(Clone, Copy, PartialEq, Eq, Debug)]
pub struct Counts {
    pub input_bits: u64,
    pub output_bits: u64,
    pub cells: u64,
    pub tracks: u64,
    ghost few_inputs: { input_bits < 2 ^ 32 },
    ghost few_outputs: { output_bits < 2 ^ 32 },
}
