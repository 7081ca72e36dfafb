// The plain placement: cell j of the netlist stands on cell j of the fabric.
ghost use Rattle.std.specs.Prelude.{◌≡◌};
ghost use Rattle.place.specs.Plain.{plain_occupant};

use netlist::parts::Net;

// The plain placement of so many cells.
#[derive(Clone, Copy, PartialEq, Eq, Debug)]
pub struct Placement {
    pub count: u16,
}

impl Placement {
    pub fn new(count: u16) -> Placement
        ensures { result.count ≡ count }
    {
        Placement { count }
    }

    // The fabric's cell on which a cell of the netlist stands.
    pub fn home(self, cell: u16) -> u16
        ensures { result ≡ cell }
    {
        cell
    }

    // The net of the cell that stands on a cell of the fabric, or zero where none does.
    #[tactic(auto, using(std::proofs::lemmas::Bool::Decides::nat_tests), unfolding(crate::specs::Plain::plain_occupant))]
    pub fn occupant(self, cell: u16) -> Net
        ensures { result ≡ plain_occupant self.count cell }
    {
        if cell < self.count {
            Net::Cell(cell)
        } else {
            Net::Zero
        }
    }
}
