ghost use Rattle.std.specs.Prelude.{◌≡◌, ◌≤◌, All, length};
ghost use Rattle.mill_verify.specs.Files.{HasFewMoves, IsFileOf, job_of};
ghost use Rattle.mill_verify.specs.Lists.{moves_in};
ghost use Rattle.mill_verify.specs.declared.list.TheConstants.{MAX_FILES};

use mill_base::{Cutter, Move};
use mill_job::Job;
use std::marker::Model;

/// The moves of a file, and the cutter that makes them.
#[derive(Drop)]
pub struct CutFile {
    pub cutter: Cutter,
    pub moves: Vec<Move>,
}

impl Model for CutFile {
    ghost use Rattle.mill_verify.specs.Files.{File};

    ghost Value = { File };

    ghost view = { λ f. record { cutter = f.cutter; moves = f.moves.items } };
}

impl CutFile {
    /// Its cutter.
    pub(crate) fn cutter(&self) -> Cutter
        ensures { result ≡ self.now.cutter }
    {
        self.cutter
    }

    /// Its moves, in order.
    pub(crate) fn moves(&self) -> &[Move]
        ensures { result.now ≡ self.now.moves }
    {
        self.moves.as_slice()
    }
}

/// The job with the file's cutter.
pub(crate) fn job_with(job: &Job, file: &CutFile) -> Job
    requires { IsFileOf job.now.fields file.now }
    ensures { result.fields ≡ job_of job.now.fields file.now }
{
    job.with_cutter(file.cutter())
}

/// How many moves there are in all files.
pub(crate) fn moves_of(files: &[CutFile]) -> u64
    requires few { length files.now ≤ MAX_FILES }
    requires few_moves { All HasFewMoves files.now }
    ensures { result ≡ moves_in files.now }
{
    let mut moves = 0;
    for number in 0..files.len() {
        moves += files[number].moves().len() as u64;
    }
    moves
}
