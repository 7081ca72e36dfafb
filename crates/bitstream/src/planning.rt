// Whether a design is put on a fabric, and how.
ghost use Rattle.std.specs.Prelude.{◌≡◌, Some, None, MatchResult};
ghost use Rattle.design.specs.Encodings.{design_of, list_of};
ghost use Rattle.fabric.specs.Code.{size_of};
ghost use Rattle.netlist.specs.Building.{Lowering};
ghost use Rattle.netlist.specs.Lowerings.{netlist_of};
ghost use Rattle.bitstream.specs.Puts.{put_refusal, plain_refusal, not_yet};
ghost use Rattle.bitstream.specs.Plans.{words_answer, put_answer, Accepts, Plans, PlanSays};

use crate::plans::{Plan, Request};
use design::counts::Counts;
use design::encoded::Encoded;
use design::refusal::Refusal;
use design::soundness::check;
use fabric::grid::Grid;
use fabric::size::Size;
use netlist::lowering::{lower, lower_words};
use netlist::netlists::Netlist;
use route::plain::Plain;

// The request, or why it is none: refusals 1 to 6. The room and the pins are lent for their lengths alone, and are written later: a struct
// of all four would have to be taken apart again, so it is no plainer.
fn accept<'a>(
    size: Size,
    numbers: &'a [u16],
    room: &[u16],
    pins: &[u16],
) -> Result<Request<'a>, Refusal>
    ensures { MatchResult result
        (λ r. (put_refusal size numbers.now room.now pins.now ≡ None)
        × Accepts size numbers.now room.now pins.now r)
        (λ f. put_refusal size numbers.now room.now pins.now ≡ Some f) }
{
    let grid = Grid::try_from(size)?;
    let design = Encoded::try_from(numbers)?;
    if room.len() != grid.room_len() {
        return Err(Refusal::RoomLength);
    }
    let counts = check(design)?;
    let needed = counts.input_bits + counts.output_bits;
    if (pins.len() as u64) < 3 * needed {
        return Err(Refusal::Pins { needed });
    }
    Ok(Request {
        grid,
        design,
        counts,
    })
}

impl Request<'_> {
    // Whether the plain layout has room on the fabric: refusal 7.
    fn plain_room(self) -> Result<(), Refusal>
        ensures { MatchResult result
            (λ _. plain_refusal (size_of self.entry.grid) (design_of self.entry.design) ≡ None)
            (λ f. plain_refusal (size_of self.entry.grid) (design_of self.entry.design) ≡ Some f) }
    {
        let Counts { cells, tracks, .. } = self.counts;
        if cells > self.grid.cells() as u64 {
            return Err(Refusal::Cells { needed: cells });
        }
        if tracks > self.grid.tracks as u64 {
            return Err(Refusal::NetTracks { needed: tracks });
        }
        Ok(())
    }

    // The plan for a netlist of the design, for which the plain layout has room.
    fn laid_out(self, netlist: Netlist) -> Plan
        requires room { plain_refusal (size_of self.grid) (design_of self.design) ≡ None }
        requires lowered { Lowering (design_of self.design) (netlist_of netlist) }
        ensures { (result.routing.grid ≡ self.entry.grid) × Plans (design_of self.entry.design) result }
    {
        let inputs = self.counts.input_bits;
        let Some(routing) = Plain::new(self.grid, inputs as u16, netlist.count() as u16) else {
            unreachable()
        };
        Plan {
            netlist,
            routing,
            pins: (inputs + self.counts.output_bits) as usize,
        }
    }

    // The netlist of a design that `put` takes by now: refusal 9, which is said before anything is built, but for the rows.
    fn lowered(self) -> Result<Netlist, Refusal>
        requires { plain_refusal (size_of self.grid) (design_of self.design) ≡ None }
        ensures { MatchResult result
            (λ n. (not_yet (size_of self.entry.grid) (list_of self.entry.design) ≡ None) × Lowering (design_of self.entry.design) (netlist_of n))
            (λ f. not_yet (size_of self.entry.grid) (list_of self.entry.design) ≡ Some f) }
    {
        let netlist = lower(self.design)?;
        if self.grid.rows != 1 {
            return Err(Refusal::NotYet {
                node: self.design.nodes() as u64,
            });
        }
        Ok(netlist)
    }
}

// What `put_words` is to write, or the first refusal that applies.
pub(crate) fn plan_words(
    size: Size,
    numbers: &[u16],
    room: &[u16],
    pins: &[u16],
) -> Result<Plan, Refusal>
    ensures { PlanSays (words_answer size numbers.now room.now pins.now) size numbers.now room.now pins.now result }
{
    let request = accept(size, numbers, room, pins)?;
    request.plain_room()?;
    let netlist = lower_words(request.design)?;
    Ok(request.laid_out(netlist))
}

// What `put` is to write, or the first refusal that applies.
pub(crate) fn plan(size: Size, numbers: &[u16], room: &[u16], pins: &[u16]) -> Result<Plan, Refusal>
    ensures { PlanSays (put_answer size numbers.now room.now pins.now) size numbers.now room.now pins.now result }
{
    let request = accept(size, numbers, room, pins)?;
    request.plain_room()?;
    let netlist = request.lowered()?;
    Ok(request.laid_out(netlist))
}
