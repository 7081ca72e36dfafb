// The ports of a design's words, from the list of pins that putting it on a fabric writes.
use fabric::parts::{Pin, Side};
use listings::parts::Port;
use std::alloc::{AllocError, Global};

// The pin of three numbers; above 3 the side is the last.
fn pin_of(numbers: &[u16; 3]) -> Pin {
    let [cell, side, track] = *numbers;
    Pin {
        cell,
        side: Side::at(side as usize),
        track,
    }
}

// The ports of these widths, named by a letter and their number; each has the pins behind those of the port before.
pub(crate) fn ports(
    heap: Global,
    letter: &str,
    widths: &[u16],
    pins: &[[u16; 3]],
) -> Result<Vec<Port>, AllocError> {
    let mut ports = Vec::new(heap);
    let mut pins = pins.iter().map(pin_of);
    for (i, width) in widths.iter().enumerate() {
        let name = format!(in heap; "{letter}{i}")?;
        let pins = pins.by_ref().take(*width as usize).collect(heap)?;
        ports.push(Port { name, pins })?;
    }
    Ok(ports)
}
