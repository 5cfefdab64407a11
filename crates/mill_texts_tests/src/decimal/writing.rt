use mill_base::Unit;
use mill_decimal::{NumText, write_decimal};

#[test]
fn writes_decimals(rt: HostRuntime) {
    let table: [(i32, Unit, &[u8]); 10] = [
        (-5, Unit::Hundredth, b"-0.05"),
        (0, Unit::Hundredth, b"0.00"),
        (750, Unit::Hundredth, b"7.50"),
        (131_071, Unit::Hundredth, b"1310.71"),
        (i32::MIN, Unit::Hundredth, b"-21474836.48"),
        (-5, Unit::Thousandth, b"-0.005"),
        (0, Unit::Thousandth, b"0.000"),
        (7_050, Unit::Thousandth, b"7.050"),
        (524_287, Unit::Thousandth, b"524.287"),
        (i32::MIN, Unit::Thousandth, b"-2147483.648"),
    ];
    let mut out = NumText::new();
    for (number, unit, want) in table {
        write_decimal(number, unit, &mut out);
        assert_eq!(rt; out.as_bytes(), want);
    }
}
