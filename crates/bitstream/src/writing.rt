// Writing the bits of a plan into the room.
ghost use Rattle.std.specs.Prelude.{◌≡◌, ℕ, ◌<◌, length, slice_index};
ghost use Rattle.fabric.specs.Numbers.{room_length};
ghost use Rattle.fabric.specs.Fabrics.{cell_count};
ghost use Rattle.bitstream.specs.Plans.{grid_of, PlanHas, CellsWritten};

use crate::plans::Plan;

impl Plan {
    // The number at place j of those of the fabric's cell `at`, at which a netlist's cell stands: its table, its inputs, whether it
    // holds, what it holds at first, and then the tracks that go out on each side.
    fn number(&self, at: u16, j: usize) -> u16
        ensures { PlanHas self.now at j result }
    {
        let routing = self.routing;
        let cell = self.netlist.cell(at as usize);
        match j {
            0..16 => (cell.table >> j) % 2,
            16..20 => u16::from(routing.source(at, cell.inputs[j - 16])),
            20 => u16::from(cell.holds),
            21 => u16::from(cell.initial),
            _ => {
                let track = ((j - 22) % routing.grid.tracks) as u16;
                u16::from(routing.source(at, routing.carried(track)))
            }
        }
    }

    // The numbers of one cell of the fabric.
    fn write_cell(&self, at: u16, numbers: &mut [u16])
        ensures { (j : ℕ) → j < length numbers.old → PlanHas self.now at j (slice_index numbers.new j) }
    {
        for (j, written) in numbers.iter_mut().enumerate() {
            *written = self.number(at, j);
        }
    }

    // The numbers of the whole fabric, cell by cell: each cell's part of the room is lent on to be written. It is cut out by its places, a
    // form that is set for this code; after a loop over `chunks_exact_mut`, which was tried, a proof knows nothing of what the chunks hold.
    pub(crate) fn write_room(&self, room: &mut [u16])
        requires { length room.old ≡ room_length (grid_of self.now) }
        ensures { CellsWritten self.now (cell_count (grid_of self.now)) room.new }
    {
        let grid = self.routing.grid;
        let size = grid.per_cell();
        for at in 0..grid.cells() {
            let start = at * size;
            self.write_cell(at as u16, &mut room[start..start + size]);
        }
    }
}
