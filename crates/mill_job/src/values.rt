ghost use Rattle.std.specs.Prelude.{◌≡◌, codes, neg_ℤ, pos, true, false, IfOk, IfErr, IfSome, None, Some, [], ◌∷◌, option_map};
ghost use Rattle.mill_base.specs.Numbers.{Within};
ghost use Rattle.mill_base.specs.Units.{greatest_of};
ghost use Rattle.toml.specs.Data.{as_integer, get_member};
ghost use Rattle.toml.specs.View.{table_view, view};
ghost use Rattle.mill_job.specs.Documents.{snap_of, unit_of, unit_texts};
ghost use Rattle.mill_job.specs.Habits.{flag_at, flag_fault, rapids_of, rapids_texts};
ghost use Rattle.mill_job.specs.Habits.{start_of, start_texts};
ghost use Rattle.mill_job.specs.Habits.{lengths_of, lengths_texts, words_of, words_texts};
ghost use Rattle.mill_job.specs.Jobs.{IsFrom};
ghost use Rattle.mill_job.specs.Keys.{name_of};
ghost use Rattle.mill_job.specs.Tables.{coordinate_fault, is_coordinate, is_from, kind_fault, number_at, number_fault, number_fault_if_there, number_given, number_or as number_or_other, text_fault_if_there};

use crate::fault::JobFault;
use crate::habits::{Rapids, Start, ToolLengths, Words};
use crate::key::Key;
use mill_base::Unit;
use mill_decimal::Snap;
use toml::{Table, Value};

/// The value at a key of a table.
pub fn find<'a>(table: &'a Table, key: Key) -> Option<&'a Value>
    ensures { option_map (λ v. view v.now) result ≡ get_member (name_of key) (table_view table.now) }
{
    table.get(key.name())
}

/// The number, which must be from `low` to `high`.
pub fn in_range(number: i64, key: Key, low: i32, high: i32) -> Result<i32, JobFault>
    ensures ok { IfOk result (λ z. (is_from low high number ≡ true) × (z ≡ number)) }
    ensures err { IfErr result (λ fault. (is_from low high number ≡ false) × (fault ≡ JobFault.Range key)) }
    ensures in_range { IfOk result (IsFrom low high) }
{
    if number < i64::from(low) || i64::from(high) < number {
        return Err(JobFault::Range(key));
    }
    Ok(number as i32)
}

/// The least coordinate of a unit.
fn least(unit: Unit) -> i32
    ensures { result ≡ neg_ℤ (pos (greatest_of unit)) }
{
    -unit.greatest()
}

/// The number, which must be a coordinate of the unit.
#[tactic(auto, unfolding(crate::specs::Tables::is_coordinate))]
pub fn as_coordinate(number: i64, key: Key, unit: Unit) -> Result<i32, JobFault>
    ensures ok { IfOk result (λ z. (is_coordinate unit number ≡ true) × (z ≡ number)) }
    ensures err { IfErr result (λ fault. (is_coordinate unit number ≡ false) × (fault ≡ JobFault.Range key)) }
    ensures in_range { IfOk result (Within (greatest_of unit)) }
{
    in_range(number, key, least(unit), unit.greatest())
}

/// The whole number from `low` to `high` that a value is.
pub fn whole_number(value: &Value, key: Key, low: i32, high: i32) -> Result<i32, JobFault>
    ensures ok { IfOk result (λ n. (kind_fault key (is_from low high) (as_integer (view value.now)) ≡ None) × (as_integer (view value.now) ≡ Some n)) }
    ensures err { IfErr result (λ fault. kind_fault key (is_from low high) (as_integer (view value.now)) ≡ Some fault) }
    ensures in_range { IfOk result (IsFrom low high) }
{
    let Some(number) = value.as_integer() else {
        return Err(JobFault::WrongKind(key));
    };
    in_range(number, key, low, high)
}

/// The whole number from `low` to `high` at a key.
#[tactic(auto, unfolding(crate::specs::Tables::number_fault, crate::specs::Tables::number_at, crate::specs::Tables::number_given))]
pub fn number(table: &Table, key: Key, low: i32, high: i32) -> Result<i32, JobFault>
    ensures ok { IfOk result (λ n. (number_fault key low high (table_view table.now) ≡ None) × (n ≡ number_at key (table_view table.now))) }
    ensures err { IfErr result (λ fault. number_fault key low high (table_view table.now) ≡ Some fault) }
    ensures in_range { IfOk result (IsFrom low high) }
{
    let value = find(table, key).ok_or(JobFault::Missing(key))?;
    whole_number(value, key, low, high)
}

/// The whole number from `low` to `high` at a key, and `other` where the document lacks the key.
#[tactic(auto, unfolding(crate::specs::Tables::number_fault_if_there, crate::specs::Tables::number_or, crate::specs::Tables::number_given))]
pub fn number_or(table: &Table, key: Key, low: i32, high: i32, other: i32) -> Result<i32, JobFault>
    requires { IsFrom low high other }
    ensures ok { IfOk result (λ n. (number_fault_if_there key low high (table_view table.now) ≡ None) × (n ≡ number_or_other key other (table_view table.now))) }
    ensures err { IfErr result (λ fault. number_fault_if_there key low high (table_view table.now) ≡ Some fault) }
    ensures in_range { IfOk result (IsFrom low high) }
{
    Ok(number_if_there(table, key, low, high)?.unwrap_or(other))
}

/// The whole number from `low` to `high` at a key, if the document has the key.
#[tactic(auto, unfolding(crate::specs::Tables::number_fault_if_there, crate::specs::Tables::number_given))]
pub fn number_if_there(
    table: &Table,
    key: Key,
    low: i32,
    high: i32,
) -> Result<Option<i32>, JobFault>
    ensures ok { IfOk result (λ given. (number_fault_if_there key low high (table_view table.now) ≡ None) × (given ≡ number_given key (table_view table.now))) }
    ensures err { IfErr result (λ fault. number_fault_if_there key low high (table_view table.now) ≡ Some fault) }
    ensures in_range { IfOk result (λ given. IfSome given (IsFrom low high)) }
{
    match find(table, key) {
        Some(value) => Ok(Some(whole_number(value, key, low, high)?)),
        None => Ok(None),
    }
}

/// The coordinate at a key.
pub fn coordinate(table: &Table, key: Key, unit: Unit) -> Result<i32, JobFault>
    ensures ok { IfOk result (λ n. (coordinate_fault unit key (table_view table.now) ≡ None) × (n ≡ number_at key (table_view table.now))) }
    ensures err { IfErr result (λ fault. coordinate_fault unit key (table_view table.now) ≡ Some fault) }
    ensures in_range { IfOk result (Within (greatest_of unit)) }
{
    number(table, key, least(unit), unit.greatest())
}

/// The depth at a key, from 0 to the unit's greatest coordinate; 0, which is none, where the document
/// doesn't say.
pub fn depth(table: &Table, key: Key, unit: Unit) -> Result<i32, JobFault>
    ensures ok { IfOk result (λ n. (number_fault_if_there key (pos 0) (pos (greatest_of unit)) (table_view table.now) ≡ None) × (n ≡ number_or_other key (pos 0) (table_view table.now))) }
    ensures err { IfErr result (λ fault. number_fault_if_there key (pos 0) (pos (greatest_of unit)) (table_view table.now) ≡ Some fault) }
    ensures in_range { IfOk result (IsFrom (pos 0) (pos (greatest_of unit))) }
{
    number_or(table, key, 0, unit.greatest(), 0)
}

/// The unit of the document's numbers.
#[tactic(auto, unfolding(crate::specs::Tables::text_fault_if_there, crate::specs::Documents::unit_of))]
pub fn unit(table: &Table) -> Result<Unit, JobFault>
    ensures ok { IfOk result (λ unit. (text_fault_if_there Key.Unit unit_texts (table_view table.now) ≡ None) × (unit ≡ unit_of (table_view table.now))) }
    ensures err { IfErr result (λ fault. text_fault_if_there Key.Unit unit_texts (table_view table.now) ≡ Some fault) }
{
    let Some(value) = find(table, Key::Unit) else {
        return Ok(Unit::Hundredth);
    };
    match value.as_str() {
        None => Err(JobFault::WrongKind(Key::Unit)),
        Some("hundredth") => Ok(Unit::Hundredth),
        Some("thousandth") => Ok(Unit::Thousandth),
        Some(_) => Err(JobFault::Range(Key::Unit)),
    }
}

/// How the document takes what is finer than a unit.
#[tactic(auto, unfolding(crate::specs::Tables::text_fault_if_there, crate::specs::Documents::snap_of))]
pub fn snap(table: &Table) -> Result<Snap, JobFault>
    ensures ok { IfOk result (λ snap.
        (text_fault_if_there Key.Snap (codes "nearest" ∷ codes "exact" ∷ []) (table_view table.now)
        ≡ None)
        × (snap ≡ snap_of (table_view table.now))) }
    ensures err { IfErr result (λ fault.
        text_fault_if_there Key.Snap (codes "nearest" ∷ codes "exact" ∷ []) (table_view table.now)
        ≡ Some fault) }
{
    let Some(value) = find(table, Key::Snap) else {
        return Ok(Snap::Nearest);
    };
    match value.as_str() {
        None => Err(JobFault::WrongKind(Key::Snap)),
        Some("nearest") => Ok(Snap::Nearest),
        Some("exact") => Ok(Snap::Exact),
        Some(_) => Err(JobFault::Range(Key::Snap)),
    }
}

/// How the document's machine moves its rapids.
#[tactic(auto, unfolding(crate::specs::Tables::text_fault_if_there, crate::specs::Habits::rapids_of))]
pub fn rapids(table: &Table) -> Result<Rapids, JobFault>
    ensures ok { IfOk result (λ rapids.
        (text_fault_if_there Key.Rapids rapids_texts (table_view table.now) ≡ None)
        × (rapids ≡ rapids_of (table_view table.now))) }
    ensures err { IfErr result (λ fault.
        text_fault_if_there Key.Rapids rapids_texts (table_view table.now) ≡ Some fault) }
{
    let Some(value) = find(table, Key::Rapids) else {
        return Ok(Rapids::Straight);
    };
    match value.as_str() {
        None => Err(JobFault::WrongKind(Key::Rapids)),
        Some("straight") => Ok(Rapids::Straight),
        Some("axes") => Ok(Rapids::Axes),
        Some(_) => Err(JobFault::Range(Key::Rapids)),
    }
}

/// From where the document's programs start.
#[tactic(auto, unfolding(crate::specs::Tables::text_fault_if_there, crate::specs::Habits::start_of))]
pub fn start(table: &Table) -> Result<Start, JobFault>
    ensures ok { IfOk result (λ start.
        (text_fault_if_there Key.Start start_texts (table_view table.now) ≡ None)
        × (start ≡ start_of (table_view table.now))) }
    ensures err { IfErr result (λ fault.
        text_fault_if_there Key.Start start_texts (table_view table.now) ≡ Some fault) }
{
    let Some(value) = find(table, Key::Start) else {
        return Ok(Start::Home);
    };
    match value.as_str() {
        None => Err(JobFault::WrongKind(Key::Start)),
        Some("home") => Ok(Start::Home),
        Some("anywhere") => Ok(Start::Anywhere),
        Some("change") => Ok(Start::Change),
        Some(_) => Err(JobFault::Range(Key::Start)),
    }
}

/// Which words the document's programs have.
#[tactic(auto, unfolding(crate::specs::Tables::text_fault_if_there, crate::specs::Habits::words_of))]
pub fn words(table: &Table) -> Result<Words, JobFault>
    ensures ok { IfOk result (λ words.
        (text_fault_if_there Key.Words words_texts (table_view table.now) ≡ None)
        × (words ≡ words_of (table_view table.now))) }
    ensures err { IfErr result (λ fault.
        text_fault_if_there Key.Words words_texts (table_view table.now) ≡ Some fault) }
{
    let Some(value) = find(table, Key::Words) else {
        return Ok(Words::Strict);
    };
    match value.as_str() {
        None => Err(JobFault::WrongKind(Key::Words)),
        Some("strict") => Ok(Words::Strict),
        Some("machine") => Ok(Words::Machine),
        Some(_) => Err(JobFault::Range(Key::Words)),
    }
}

/// What the document's machine does with the lengths of its tools.
#[tactic(auto, unfolding(crate::specs::Tables::text_fault_if_there, crate::specs::Habits::lengths_of))]
pub fn lengths(table: &Table) -> Result<ToolLengths, JobFault>
    ensures ok { IfOk result (λ lengths.
        (text_fault_if_there Key.Lengths lengths_texts (table_view table.now) ≡ None)
        × (lengths ≡ lengths_of (table_view table.now))) }
    ensures err { IfErr result (λ fault.
        text_fault_if_there Key.Lengths lengths_texts (table_view table.now) ≡ Some fault) }
{
    let Some(value) = find(table, Key::Lengths) else {
        return Ok(ToolLengths::Table);
    };
    match value.as_str() {
        None => Err(JobFault::WrongKind(Key::Lengths)),
        Some("table") => Ok(ToolLengths::Table),
        Some("one") => Ok(ToolLengths::One),
        Some(_) => Err(JobFault::Range(Key::Lengths)),
    }
}

/// The truth value at a key, false where the document lacks the key.
#[tactic(auto, unfolding(crate::specs::Habits::flag_fault, crate::specs::Habits::flag_at))]
pub fn flag(table: &Table, key: Key) -> Result<bool, JobFault>
    ensures ok { IfOk result (λ flag. (flag_fault key (table_view table.now) ≡ None)
        × (flag ≡ flag_at key (table_view table.now))) }
    ensures err { IfErr result (λ fault. flag_fault key (table_view table.now) ≡ Some fault) }
{
    let Some(value) = find(table, key) else {
        return Ok(false);
    };
    value.as_bool().ok_or(JobFault::WrongKind(key))
}
