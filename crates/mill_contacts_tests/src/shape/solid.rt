use mill_base::{Cutter, Pt3};
use mill_shape::inside;

// What touches a cutter isn't inside it; one unit further in it is.
#[test]
fn touch_and_one_unit_further(rt: HostRuntime) {
    let flat = Cutter::Flat { radius: 100 };
    let ball = Cutter::Ball { radius: 100 };
    let cone = Cutter::Cone {
        radius: 100,
        rise: 1,
        run: 2,
    };
    let touching = [
        inside(flat, 1, [99, 0, 0]),
        inside(flat, 1, [100, 0, 1]),
        inside(ball, 2, [120, 0, 40]),
        inside(ball, 1, [100, 0, 500]),
        inside(cone, 1, [0, 2, 1]),
        inside(cone, 1, [0, 100, 500]),
    ];
    assert_eq!(rt; touching, [false; 6]);
    let further = [
        inside(flat, 1, [99, 0, 1]),
        inside(ball, 2, [120, 0, 41]),
        inside(ball, 1, [99, 0, 500]),
        inside(cone, 1, [0, 2, 2]),
        inside(cone, 1, [0, 99, 500]),
    ];
    assert_eq!(rt; further, [true; 5]);
}

// The greatest radius over the greatest denominator is 11024 * 2^20 = 11559501824, which is
// 13 * 889192448; 5, 12 and 13 are the sides of a right triangle.
#[test]
fn greatest_numbers(rt: HostRuntime) {
    let n = 1 << 20;
    let most = 1 << 42;
    let flat = Cutter::Flat { radius: 11024 };
    let ball = Cutter::Ball { radius: 11024 };
    let cone = Cutter::Cone {
        radius: 11024,
        rise: 100,
        run: 7,
    };
    let touching = [
        inside(flat, n, [4445962240, -10670309376, most]),
        inside(flat, n, [-most, -most, most]),
        inside(ball, n, [4445962240, 0, 889192448]),
        inside(ball, n, [most, most, -most]),
        inside(cone, n, [0, -11559501821, 165135740300]),
        inside(cone, n, [most, -most, most]),
    ];
    assert_eq!(rt; touching, [false; 6]);
    let further = [
        inside(flat, n, [4445962239, -10670309376, most]),
        inside(ball, n, [4445962240, 0, 889192449]),
        inside(cone, n, [0, -11559501821, 165135740301]),
    ];
    assert_eq!(rt; further, [true; 3]);
}
