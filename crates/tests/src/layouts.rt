// The plain placement and the plain layout.
use fabric::grid::Grid;
use netlist::parts::Net;
use place::plain::Placement;
use route::plain::Plain;
use std::test::Fail;

// 0 for zero, 100 and more for input bits, 200 and more for cells.
fn net_number(net: Net) -> u32 {
    match net {
        Net::Zero => 0,
        Net::Input(bit) => 100 + bit as u32,
        Net::Cell(cell) => 200 + cell as u32,
    }
}

#[test]
fn stands(rt: HostRuntime) {
    let p = Placement::new(3);
    assert_eq!(rt; p.home(2), 2);
    assert_eq!(rt; net_number(p.occupant(2)), 202);
    assert_eq!(rt; net_number(p.occupant(3)), 0);
}

// two by two cells, an input bit and three cells
#[test]
fn routes(rt: HostRuntime) -> Result<(), Fail> {
    let Some(p) = Plain::new(
        Grid {
            columns: 2,
            rows: 2,
            tracks: 4,
        },
        1,
        3,
    ) else {
        return Err(Fail::new("no room"));
    };
    // from the left on track 0; from above on track 2; from the cell itself; nothing
    assert_eq!(rt; u16::from(p.source(0, Net::Input(0))), 2 + 64 * 2);
    assert_eq!(rt; u16::from(p.source(3, Net::Cell(1))), 2 + 64 * 3 + 2);
    assert_eq!(rt; u16::from(p.source(2, Net::Cell(2))), 1);
    assert_eq!(rt; u16::from(p.source(2, Net::Cell(3))), 0);
    assert_eq!(rt; net_number(p.carried(3)), 202);
    Ok(())
}

#[test]
fn has_no_room(rt: HostRuntime) {
    let grid = Grid {
        columns: 2,
        rows: 2,
        tracks: 4,
    };
    assert!(rt; Plain::new(grid, 0, 5).is_none());
    assert!(rt; Plain::new(grid, 2, 3).is_none());
}
