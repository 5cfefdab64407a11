ghost use Rattle.std.specs.Prelude.{◌≡◌, ◌⊎◌, IfOk, IfErr, None, Some};
ghost use Rattle.toml.specs.View.{table_view};
ghost use Rattle.mill_job.specs.Jobs.{FitsJob};
ghost use Rattle.mill_job.specs.Steps.{program_fault, program_of, step_fault, step_of};

use crate::{Job, JobFault, Key, Name, find, first_unknown, read_cutter};
use mill_base::Cutter;
use std::alloc::Global;
use toml::Table;

/// A program of a list, and the cutter that it is cut with.
#[derive(Debug, Drop)]
pub struct Step {
    /// The name of the program's file, as it stands in the list.
    pub program: Name,
    pub cutter: Cutter,
}

/// The keys of a step, in the format's order.
const STEP_KEYS: [Key; 5] = [Key::Program, Key::Cutter, Key::Radius, Key::Rise, Key::Run];

/// The program's name that a table gives.
#[tactic(auto, unfolding(crate::specs::Steps::program_fault, crate::specs::Steps::program_of))]
fn program(alloc: Global, table: &Table) -> Result<Name, JobFault>
    ensures ok { IfOk result (λ name. (program_fault (table_view table.now) ≡ None) × (name ≡ program_of (table_view table.now))) }
    ensures err { IfErr result (λ fault. (program_fault (table_view table.now) ≡ Some fault) ⊎ (fault ≡ JobFault.WantOfMemory)) }
{
    let Some(value) = find(table, Key::Program) else {
        return Err(JobFault::Missing(Key::Program));
    };
    let Some(text) = value.as_str() else {
        return Err(JobFault::WrongKind(Key::Program));
    };
    Ok(Name::copied(alloc, text)?)
}

/// The step that a table is, for a job.
pub fn read_step(alloc: Global, table: &Table, job: &Job) -> Result<Step, JobFault>
    ensures ok { IfOk result (λ step. (step_fault job.now.fields (table_view table.now) ≡ None) × (step ≡ step_of (table_view table.now))) }
    ensures err { IfErr result (λ fault. (step_fault job.now.fields (table_view table.now) ≡ Some fault) ⊎ (fault ≡ JobFault.WantOfMemory)) }
    ensures fits { IfOk result (λ step. FitsJob job.now.fields step.cutter) }
{
    if let Some(key) = first_unknown(table, &STEP_KEYS) {
        return Err(JobFault::Unknown(Name::copied(alloc, key.as_str())?));
    }
    let program = program(alloc, table)?;
    let cutter = read_cutter(table)?;
    if let Some(fault) = job.cutter_fault(&cutter) {
        return Err(fault);
    }
    Ok(Step { program, cutter })
}
