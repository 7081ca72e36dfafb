// Writing the pins of a plan.
ghost use Rattle.std.specs.Prelude.{◌≡◌, ◌*◌, ◌<◌, ◌≤◌, length};
ghost use Rattle.bitstream.specs.Plans.{pin_of, PinsWritten};

use crate::plans::Plan;
use fabric::parts::Pin;

impl Plan {
    // The pin of number m.
    fn pin(&self, m: usize) -> Pin
        requires { m < self.now.pins }
        ensures { result ≡ pin_of self.now m }
    {
        let inputs = self.routing.inputs as usize;
        if m < inputs {
            self.routing.input_pin(m as u16)
        } else {
            self.routing.output_pin(self.netlist.output(m - inputs))
        }
    }

    // The pins of the input bits, then those of the output bits; what lies past them stays. Three places are written at a time, and not a
    // chunk, since after a loop over `chunks_exact_mut` a proof knows nothing of what the chunks hold.
    pub(crate) fn write_pins(&self, pins: &mut [u16])
        requires { 3 * self.now.pins ≤ length pins.old }
        ensures { PinsWritten self.now self.now.pins pins.old pins.new }
    {
        for m in 0..self.pins {
            let pin = self.pin(m);
            pins[3 * m..3 * m + 3].copy_from_slice(&[pin.cell, u16::from(pin.side), pin.track]);
        }
    }
}
