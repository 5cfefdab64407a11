//! The texts that a report is made of, and their checksums.
ghost use Rattle.std.specs.Prelude.{◌≡◌};
ghost use Rattle.mill_report_run.specs.inner.Sources.{texts_of_sources};
ghost use Rattle.mill_report_run.specs.Reports.{sums_of as sums_of_texts};

use crate::source::Source;
use mill_document::Sums;
use std::thread::Threads;

/// The texts of the three files, as they were read.
#[derive(Drop)]
pub(crate) struct Sources {
    pub job: Source,
    pub part: Source,
    pub program: Source,
}

/// The SHA-256 of the three texts, which are let go.
pub(crate) fn sums_of<R: Threads>(rt: &R, sources: Sources) -> Sums
    ensures { result ≡ sums_of_texts (texts_of_sources sources) }
{
    Sums {
        job: sources.job.sum(rt),
        part: sources.part.sum(rt),
        program: sources.program.sum(rt),
    }
}
