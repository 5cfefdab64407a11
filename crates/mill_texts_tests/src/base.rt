use mill_base::{
    Box2, Cutter, Lattice, Unit, ceil_root, floor_root, offset, product, round_half_up, square,
    square_sum,
};
use std::test::Fail;

#[test]
fn roots_are_exact(rt: HostRuntime) -> Result<(), Fail> {
    let table: [(u64, u64, u64); 9] = [
        (0, 0, 0),
        (1, 1, 1),
        (2, 1, 2),
        (15, 3, 4),
        (16, 4, 4),
        (4294967295, 65535, 65536),
        (9999, 99, 100),
        (10000, 100, 100),
        (u64::MAX, 4294967295, 4294967296),
    ];
    for (n, floor, ceil) in table {
        assert_eq!(rt; (floor_root(n), ceil_root(n)), (floor, ceil));
    }
    Ok(())
}

#[test]
fn products_are_exact(rt: HostRuntime) -> Result<(), Fail> {
    let cone = Cutter::Cone {
        radius: 150,
        rise: 1,
        run: 2,
    };
    let found = (
        offset(-131071, 131071),
        product(262142, -262142),
        square(-262142),
        square_sum(3, -4),
        cone.radius(),
    );
    assert_eq!(rt; found, (-262142, -68718428164, 68718428164, 25, 150));
    Ok(())
}

#[test]
fn halves_go_up(rt: HostRuntime) -> Result<(), Fail> {
    let found = [
        round_half_up(5, 1),
        round_half_up(-5, 1),
        round_half_up(-1, 1),
        round_half_up(-7, 2),
        round_half_up(-9, 0),
        round_half_up(4611686018427387904, 63),
        round_half_up(-4611686018427387904, 63),
        round_half_up(4611686018427387904, 64),
    ];
    assert_eq!(rt; found, [3, -2, 0, -2, -9, 1, 0, 0]);
    Ok(())
}

#[test]
fn nodes_are_counted(rt: HostRuntime) -> Result<(), Fail> {
    let area = Box2 {
        x0: -200,
        y0: 7,
        x1: 0,
        y1: 7,
    };
    let square = Box2 {
        x0: 0,
        y0: 0,
        x1: 2000,
        y1: 2000,
    };
    let finest = Lattice {
        area: square,
        step: 1,
    };
    let found = [
        Lattice { area, step: 75 }.nodes(),
        Lattice { area, step: 100 }.nodes(),
        finest.nodes(),
    ];
    assert_eq!(rt; found, [4, 3, 4004001]);
    Ok(())
}

#[test]
fn nodes_come_row_by_row(rt: HostRuntime) -> Result<(), Fail> {
    let area = Box2 {
        x0: -200,
        y0: 7,
        x1: 0,
        y1: 17,
    };
    let lattice = Lattice { area, step: 75 };
    assert_eq!(rt; (lattice.node_columns(), lattice.node_rows()), (4, 2));
    let places: [(u32, (i32, i32)); 5] = [
        (0, (-200, 7)),
        (2, (-50, 7)),
        (3, (0, 7)),
        (4, (-200, 17)),
        (7, (0, 17)),
    ];
    for (number, place) in places {
        assert_eq!(rt; lattice.node(number), place);
    }
    Ok(())
}

#[test]
fn units_have_places_and_a_greatest_coordinate(rt: HostRuntime) -> Result<(), Fail> {
    let table: [(Unit, u32, i32); 2] = [
        (Unit::Hundredth, 2, 131_071),
        (Unit::Thousandth, 3, 524_287),
    ];
    for (unit, places, greatest) in table {
        assert_eq!(rt; (unit.places(), unit.greatest()), (places, greatest));
    }
    Ok(())
}
