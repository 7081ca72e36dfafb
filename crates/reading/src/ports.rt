// The inputs and outputs of a listing that is being read.
ghost use Rattle.std.specs.Prelude.{IfErr};
ghost use Rattle.reading.specs.Faults.{Standing};

use crate::unread::Unread;
use entries::entry::Seat;
use fabric::parts::Pin;
use listings::parts::Port;
use std::alloc::{AllocError, Global};
use std::collections::BTreeMap;

// Where a bit is, and the line that says so; the rest of its seat is known from the port and the bit's number.
#[derive(Clone, Copy)]
pub(crate) struct Noted {
    pin: Pin,
    line: usize,
}

// An input or an output, with the bits that were said so far.
#[derive(Drop)]
struct DraftPort<'a> {
    name: &'a str,
    bits: BTreeMap<u16, Noted>,
}

impl DraftPort<'_> {
    // The port with its bits in order; a bit whose lower neighbour is missing can't stand.
    fn finished(&self, heap: Global) -> Result<Port, Unread>
        ensures { IfErr result (λ u. Standing u) }
    {
        let mut pins = Vec::new(heap);
        for (bit, noted) in self.bits.iter() {
            if usize::from(*bit) != pins.len() {
                return Err(Unread::misplaced(noted.line));
            }
            pins.push(noted.pin)?;
        }
        let name = String::from_str(heap, self.name)?;
        Ok(Port { name, pins })
    }
}

// Inputs or outputs, in the order in which the lines name them.
#[derive(Drop)]
pub(crate) struct DraftPorts<'a> {
    ports: Vec<DraftPort<'a>>,
}

impl<'a> DraftPorts<'a> {
    pub(crate) fn new(heap: Global) -> DraftPorts<'a> {
        DraftPorts {
            ports: Vec::new(heap),
        }
    }

    // Notes a seat; gives back what was said of that bit before.
    pub(crate) fn note(
        &mut self,
        heap: Global,
        seat: Seat<'a>,
    ) -> Result<Option<Noted>, AllocError> {
        let noted = Noted {
            pin: seat.pin,
            line: seat.line,
        };
        match self.ports.iter_mut().find(|port| port.name == seat.name) {
            Some(port) => Ok(port.bits.insert(seat.bit, noted)?),
            None => {
                let mut bits = BTreeMap::new(heap);
                bits.insert(seat.bit, noted)?;
                self.ports.push(DraftPort {
                    name: seat.name,
                    bits,
                })?;
                Ok(None)
            }
        }
    }

    pub(crate) fn finished(&self, heap: Global) -> Result<Vec<Port>, Unread>
        ensures { IfErr result (λ u. Standing u) }
    {
        self.ports
            .iter()
            .map(|port| port.finished(heap))
            .try_collect(heap)
    }
}
