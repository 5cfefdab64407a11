ghost use Rattle.std.specs.Prelude.{◌≡◌, ◌≤ℤ◌, pos, IfOk, IfErr, IfSome, None, Some};
ghost use Rattle.mill_base.specs.Solids.{IsSolid};
ghost use Rattle.mill_base.specs.Units.{greatest_of};
ghost use Rattle.toml.specs.View.{table_view};
ghost use Rattle.mill_job.specs.Holders.{has as has_value, holder_fault, holder_of, names_holder as names_one};
ghost use Rattle.mill_job.specs.Jobs.{IsFrom};
ghost use Rattle.mill_job.specs.Tables.{number_at, number_fault};

use crate::fault::JobFault;
use crate::key::Key;
use crate::values::{find, number};
use mill_base::{Cutter, MAX_RADIUS, Solid, Unit};
use toml::Table;

/// Whether the document has the key.
fn has(table: &Table, key: Key) -> bool
    ensures { result ≡ has_value key (table_view table.now) }
{
    find(table, key).is_some()
}

/// Whether the document has one of the holder's keys, or both.
#[tactic(auto, unfolding(crate::specs::Holders::names_holder))]
fn names_holder(table: &Table) -> bool
    ensures { result ≡ names_one (table_view table.now) }
{
    has(table, Key::HolderRadius) || has(table, Key::Stickout)
}

/// The holder's stickout, from 1 to the unit's greatest coordinate.
fn stickout(table: &Table, unit: Unit) -> Result<i32, JobFault>
    ensures ok { IfOk result (λ n. (number_fault Key.Stickout (pos 1) (pos (greatest_of unit)) (table_view table.now) ≡ None) × (n ≡ number_at Key.Stickout (table_view table.now))) }
    ensures err { IfErr result (λ fault. number_fault Key.Stickout (pos 1) (pos (greatest_of unit)) (table_view table.now) ≡ Some fault) }
    ensures in_range { IfOk result (IsFrom (pos 1) (pos (greatest_of unit))) }
{
    number(table, Key::Stickout, 1, unit.greatest())
}

/// The holder, a flat whose lower face is the stickout over the cutter's tip, if the document has
/// one of its keys; then it must have both.
#[tactic(auto, unfolding(crate::specs::Holders::holder_fault, crate::specs::Holders::holder_of))]
pub fn holder(table: &Table, unit: Unit) -> Result<Option<Solid>, JobFault>
    ensures ok { IfOk result (λ holder. (holder_fault unit (table_view table.now) ≡ None) × (holder ≡ holder_of (table_view table.now))) }
    ensures err { IfErr result (λ fault. holder_fault unit (table_view table.now) ≡ Some fault) }
    ensures in_range { IfOk result (λ holder. IfSome holder IsSolid) }
    ensures over_tip { IfOk result (λ holder. IfSome holder (λ solid. pos 1 ≤ℤ solid.lift)) }
{
    if !names_holder(table) {
        return Ok(None);
    }
    let radius = number(table, Key::HolderRadius, 1, MAX_RADIUS)?;
    let stickout = stickout(table, unit)?;
    Ok(Some(Solid::new(Cutter::Flat { radius }, stickout)))
}
