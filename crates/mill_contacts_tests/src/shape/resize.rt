use mill_base::{Cutter, Pt3};
use mill_shape::{shrink, widen};

#[test]
fn wider_and_lower(rt: HostRuntime) {
    let cone = Cutter::Cone {
        radius: 100,
        rise: 3,
        run: 2,
    };
    let steepest = Cutter::Cone {
        radius: 10000,
        rise: 16,
        run: 1,
    };
    let found = [
        widen(Cutter::Flat { radius: 100 }, 50),
        widen(Cutter::Ball { radius: 100 }, 50),
        widen(cone, 5),
        widen(cone, 0),
        widen(Cutter::Ball { radius: 10000 }, 1024),
        widen(steepest, 1024),
    ];
    let wider = Cutter::Cone {
        radius: 105,
        rise: 3,
        run: 2,
    };
    let widest = Cutter::Cone {
        radius: 11024,
        rise: 16,
        run: 1,
    };
    let wanted = [
        (Cutter::Flat { radius: 150 }, 0),
        (Cutter::Ball { radius: 150 }, 50),
        (wider, 8),
        (cone, 0),
        (Cutter::Ball { radius: 11024 }, 1024),
        (widest, 16384),
    ];
    assert_eq!(rt; found, wanted);
}

#[test]
fn narrower_and_higher(rt: HostRuntime) {
    let cone = Cutter::Cone {
        radius: 10,
        rise: 3,
        run: 2,
    };
    let found = [
        shrink(Cutter::Flat { radius: 2 }),
        shrink(Cutter::Flat { radius: 1 }),
        shrink(Cutter::Ball { radius: 100 }),
        shrink(cone),
    ];
    let narrower = Cutter::Cone {
        radius: 9,
        rise: 3,
        run: 2,
    };
    let wanted = [
        Some((Cutter::Flat { radius: 1 }, 0)),
        None,
        Some((Cutter::Ball { radius: 99 }, 1)),
        Some((narrower, 2)),
    ];
    assert_eq!(rt; found, wanted);
}
