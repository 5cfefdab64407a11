use mill_base::{Cutter, Pt3};
use mill_shape::cut_height;

#[test]
fn heights_over_the_origin(rt: HostRuntime) {
    let tip = Pt3 { x: 0, y: 0, z: 0 };
    let ball = Cutter::Ball { radius: 100 };
    let cone = Cutter::Cone {
        radius: 100,
        rise: 1,
        run: 2,
    };
    let flat = Cutter::Flat { radius: 100 };
    let found = [
        cut_height(ball, tip, 60, 0),
        cut_height(ball, tip, 61, 0),
        cut_height(ball, tip, 100, 0),
        cut_height(cone, tip, 3, 0),
        cut_height(cone, tip, 99, 0),
        cut_height(flat, tip, 99, 0),
        cut_height(flat, tip, 100, 0),
    ];
    let wanted = [Some(20), Some(20), None, Some(1), Some(49), Some(0), None];
    assert_eq!(rt; found, wanted);
}

// 11024 is 13 * 848, and 5, 12 and 13 are the sides of a right triangle.
#[test]
fn heights_at_the_limits(rt: HostRuntime) {
    let lowest = Pt3 {
        x: -524287,
        y: -524287,
        z: -545000,
    };
    let ball = Cutter::Ball { radius: 11024 };
    let highest = Pt3 {
        x: 524287,
        y: 524287,
        z: 524303,
    };
    let cone = Cutter::Cone {
        radius: 11024,
        rise: 100,
        run: 7,
    };
    let found = [
        cut_height(ball, lowest, 5 * 848 - 524287, -524287),
        cut_height(ball, lowest, 524287, 524287),
        cut_height(cone, highest, 524287, 524287 - 7 * 1574),
        cut_height(cone, highest, 524287, -524287),
    ];
    assert_eq!(rt; found, [Some(-544152), None, Some(681703), None]);
}
