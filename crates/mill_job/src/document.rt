ghost use Rattle.std.specs.Prelude.{◌≡◌, ◌⊎◌, IsUtf8, IfOk, IfErr, Some, option_map, string_bytes};
ghost use Rattle.toml.specs.Parse.{parse_document};
ghost use Rattle.toml.specs.View.{table_view};
ghost use Rattle.mill_job.specs.Documents.{IsNoDocument};
ghost use Rattle.mill_job.specs.Keys.{is_name_of, unknown_but};

use crate::fault::JobFault;
use crate::key::Key;
use std::alloc::Global;
use toml::Table;

/// The TOML document that a text is.
///
/// # Errors
///
/// `Syntax` exactly where the text is no TOML document, or isn't UTF-8. The only other one is want of
/// memory.
pub fn read_document(alloc: Global, text: &[u8]) -> Result<Table, JobFault>
    ensures ok { IfOk result (λ table. IsUtf8 text.now × (parse_document text.now ≡ Some (table_view table))) }
    ensures err { IfErr result (λ fault. ((fault ≡ JobFault.Syntax) × IsNoDocument text.now) ⊎ (fault ≡ JobFault.WantOfMemory)) }
{
    let Ok(text) = str::from_utf8(text) else {
        return Err(JobFault::Syntax);
    };
    match toml::table_from_str(alloc, text) {
        Ok(table) => Ok(table),
        Err(error) if error.is_memory() => Err(JobFault::WantOfMemory),
        Err(_) => Err(JobFault::Syntax),
    }
}

/// Whether a text is that of one of these keys.
#[tactic(auto, unfolding(crate::specs::Keys::is_name_of))]
fn is_one_of(name: &str, keys: &[Key]) -> bool
    ensures { result ≡ is_name_of keys.now name.now }
{
    keys.iter().any(|key| name == key.name())
}

/// The first key of a table, by its bytes, that is none of these.
pub fn first_unknown<'a>(table: &'a Table, keys: &[Key]) -> Option<&'a String>
    ensures { option_map (λ name. string_bytes name.now) result ≡ unknown_but keys.now (table_view table.now) }
{
    for name in table.keys() {
        if !is_one_of(name.as_str(), keys) {
            return Some(name);
        }
    }
    None
}
