ghost use Rattle.std.specs.Prelude.{◌≡◌, ◌^◌, ◌≤◌};
ghost use Rattle.mill_base.specs.Numbers.{round_half_up as round_half_up_of, Within};

/// The numerator over 2 to the power `bits`, rounded to the nearest whole number, halves up.
pub fn round_half_up(numerator: i128, bits: u32) -> i64
    requires { Within (2 ^ 62) numerator }
    ensures { result ≡ round_half_up_of numerator (2 ^ bits) }
{
    if bits > 63 {
        return 0;
    }
    nearest(numerator, bits)
}

/// The same for a power that fits 64 bits.
fn nearest(numerator: i128, bits: u32) -> i64
    requires numerator_ok { Within (2 ^ 62) numerator }
    requires bits_ok { bits ≤ 63 }
    ensures { result ≡ round_half_up_of numerator (2 ^ bits) }
{
    ((2 * numerator + i128::from(power_of_two(bits))) >> (bits + 1)) as i64
}

/// 2 to the power `bits`.
pub fn power_of_two(bits: u32) -> u64
    requires { bits ≤ 63 }
    ensures { result ≡ 2 ^ bits }
{
    1 << bits
}
