ghost use Rattle.std.specs.Prelude.{◌≡◌, ◌⊎◌, ◌≤◌, true, length, All, IfOk, IfErr, None, Some, [], ◌∷◌, is_some, map};
ghost use Rattle.toml.specs.View.{items_view, table_view};
ghost use Rattle.mill_job.specs.Jobs.{FitsJob};
ghost use Rattle.mill_job.specs.Tables.{first, kind_fault};
ghost use Rattle.mill_job.specs.Lists.{all_of, each_fault, is_count, steps_fault, steps_of, tables, tables_at};
ghost use Rattle.mill_job.specs.Steps.{step_of};
ghost use Rattle.mill_job.specs.declared.step_limits.TheConstants.{MAX_STEPS};

use crate::step::{Step, read_step};
use crate::step_limits::MAX_STEPS;
use crate::{Job, JobFault, Key, find};
use std::alloc::Global;
use toml::{Table, Value};

/// Whether each value is a table.
fn are_tables(values: &[Value]) -> bool
    ensures { result ≡ is_some (tables (items_view values.now)) }
{
    for value in values {
        if !value.is_table() {
            return false;
        }
    }
    true
}

/// The steps that the values are, each of which is a table.
fn each_step(alloc: Global, values: &[Value], job: &Job) -> Result<Vec<Step>, JobFault>
    requires { is_some (tables (items_view values.now)) ≡ true }
    ensures ok { IfOk result (λ steps. (each_fault job.now.fields (all_of (tables (items_view values.now))) ≡ None) × (steps.items ≡ map step_of (all_of (tables (items_view values.now))))) }
    ensures err { IfErr result (λ fault. (each_fault job.now.fields (all_of (tables (items_view values.now))) ≡ Some fault) ⊎ (fault ≡ JobFault.WantOfMemory)) }
    ensures fit { IfOk result (λ steps. All (λ step. FitsJob job.now.fields step.cutter) steps.items) }
{
    let mut steps = Vec::new(alloc);
    for value in values {
        let Some(table) = value.as_table() else {
            return Err(JobFault::WrongKind(Key::Steps));
        };
        let step = read_step(alloc, table, job)?;
        let Ok(()) = steps.push(step) else {
            return Err(JobFault::WantOfMemory);
        };
    }
    Ok(steps)
}

/// The steps that the values are, if they are 1 to 16 tables.
fn steps_in(alloc: Global, values: &[Value], job: &Job) -> Result<Vec<Step>, JobFault>
    ensures count { IfOk result (λ steps. kind_fault Key.Steps is_count (tables (items_view values.now)) ≡ None) }
    ensures ok { IfOk result (λ steps. (each_fault job.now.fields (all_of (tables (items_view values.now))) ≡ None) × (steps.items ≡ map step_of (all_of (tables (items_view values.now))))) }
    ensures err { IfErr result (λ fault. (first (kind_fault Key.Steps is_count (tables (items_view values.now)) ∷ each_fault job.now.fields (all_of (tables (items_view values.now))) ∷ []) ≡ Some fault) ⊎ (fault ≡ JobFault.WantOfMemory)) }
    ensures fit { IfOk result (λ steps. All (λ step. FitsJob job.now.fields step.cutter) steps.items) }
    ensures some { IfOk result (λ steps. 1 ≤ length steps.items) }
    ensures few { IfOk result (λ steps. length steps.items ≤ MAX_STEPS) }
{
    if !are_tables(values) {
        return Err(JobFault::WrongKind(Key::Steps));
    }
    if values.is_empty() || MAX_STEPS < values.len() {
        return Err(JobFault::Range(Key::Steps));
    }
    each_step(alloc, values, job)
}

/// The steps at `steps`.
#[tactic(auto, unfolding(crate::specs::Lists::steps_fault, crate::specs::Lists::tables_at))]
pub fn steps_at(alloc: Global, table: &Table, job: &Job) -> Result<Vec<Step>, JobFault>
    ensures ok { IfOk result (λ steps. (first (steps_fault (table_view table.now) ∷ each_fault job.now.fields (tables_at (table_view table.now)) ∷ []) ≡ None) × (steps.items ≡ steps_of (table_view table.now))) }
    ensures err { IfErr result (λ fault. (first (steps_fault (table_view table.now) ∷ each_fault job.now.fields (tables_at (table_view table.now)) ∷ []) ≡ Some fault) ⊎ (fault ≡ JobFault.WantOfMemory)) }
    ensures fit { IfOk result (λ steps. All (λ step. FitsJob job.now.fields step.cutter) steps.items) }
    ensures some { IfOk result (λ steps. 1 ≤ length steps.items) }
    ensures few { IfOk result (λ steps. length steps.items ≤ MAX_STEPS) }
{
    let Some(value) = find(table, Key::Steps) else {
        return Err(JobFault::Missing(Key::Steps));
    };
    let Some(values) = value.as_array() else {
        return Err(JobFault::WrongKind(Key::Steps));
    };
    steps_in(alloc, values, job)
}
