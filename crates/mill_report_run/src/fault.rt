//! What is told where there is no report.
ghost use Rattle.std.specs.Prelude.{◌↔◌, IfOk, IfSome, IsSome};
ghost use Rattle.mill_report_run.specs.inner.Loads.{IsReportFile};
ghost use Rattle.mill_report_run.specs.Reports.{IsFaultText};

use crate::line::fault_words;
use mill_answer::status_of_fault;
use mill_base::WantOfMemory;
use mill_document::fault_text;
use mill_load::{File, LoadFault};
use std::alloc::Global;

/// The document of what keeps a report from its files: the line that `verify` prints, and its
/// status.
///
/// The only error is want of memory, for the text.
pub(crate) fn fault_report(alloc: Global, fault: &LoadFault) -> Result<Vec<u8>, WantOfMemory>
    ensures { IfOk result (λ made. IsFaultText fault.now made.items) }
{
    let line = fault_words(alloc, fault)?;
    fault_text(alloc, &line, status_of_fault(fault).code())
}

/// The document of want of memory. It takes none.
pub(crate) fn memory_report() -> &'static [u8]
    ensures { IsFaultText LoadFault.Memory result.now }
{
    b"{\"line\":\"out of memory\",\"status\":5}\n"
}

/// The document of a file that could not be read, if it is one of the three that a report reads.
/// It takes no memory.
pub(crate) fn read_fault_report(file: File) -> Option<&'static [u8]>
    ensures told { IfSome result (λ text. IsFaultText (LoadFault.ReadFault file) text.now) }
    ensures files { IsSome result ↔ IsReportFile file }
{
    match file {
        File::Job => Some(b"{\"line\":\"read fault job\",\"status\":6}\n"),
        File::Part => Some(b"{\"line\":\"read fault part\",\"status\":6}\n"),
        File::Program => Some(b"{\"line\":\"read fault program\",\"status\":6}\n"),
        _ => None,
    }
}
