ghost use Rattle.std.specs.Prelude.{◌≡◌, ◌<◌, ◌≤◌, ◌/◌, ◌+◌, ◌*◌, pos, ◌≤ℤ◌, ◌+ℤ◌, ◌*ℤ◌, nat_abs};
ghost use Rattle.mill_base.specs.Numbers.{Within};
ghost use Rattle.mill_base.specs.declared.limits.TheConstants.{MAX_COORDINATE};
ghost use Rattle.mill_job.specs.declared.limits.TheConstants.{MAX_DISTANCE};
ghost use Rattle.mill_job.specs.Columns.{positions};
ghost use Rattle.mill_job.specs.Jobs.{IsFrom};

/// How many positions lie from `first` to `last` at steps of `pitch`.
pub fn count(first: i32, last: i32, pitch: i32) -> u32
    requires first_ok { Within MAX_COORDINATE first }
    requires last_ok { Within MAX_COORDINATE last }
    requires order { first ≤ℤ last }
    requires pitch_ok { IsFrom (pos 1) MAX_DISTANCE pitch }
    ensures value { result ≡ positions first last pitch }
    ensures some { 1 ≤ result }
    ensures bound { result ≤ 1048575 }
{
    (last - first).unsigned_abs() / pitch.unsigned_abs() + 1
}

/// The position of number `index`, from 0.
pub fn position(first: i32, last: i32, pitch: i32, index: u32) -> i32
    requires first_ok { Within MAX_COORDINATE first }
    requires last_ok { Within MAX_COORDINATE last }
    requires order { first ≤ℤ last }
    requires pitch_ok { IsFrom (pos 1) MAX_DISTANCE pitch }
    requires there { index < positions first last pitch }
    ensures value { result ≡ first +ℤ pos index *ℤ pitch }
    ensures low { first ≤ℤ result }
    ensures high { result ≤ℤ last }
{
    first + steps(last - first, pitch, index)
}

/// The length of `index` steps of `pitch`, of which there are no more than fit into `span`.
fn steps(span: i32, pitch: i32, index: u32) -> i32
    requires span_ok { IsFrom (pos 0) (pos 1048574) span }
    requires pitch_ok { IsFrom (pos 1) MAX_DISTANCE pitch }
    requires there { index < nat_abs span / nat_abs pitch + 1 }
    ensures value { result ≡ pos index *ℤ pitch }
    ensures low { pos 0 ≤ℤ result }
    ensures high { result ≤ℤ span }
{
    (index * pitch.unsigned_abs()) as i32
}
