//! The command `stock`: what a program leaves of the stock, stored as the surface through the columns'
//! tops.
ghost use Rattle.std.specs.Prelude.{◌≡◌, ℕ, List, All, Option, IfErr, IfOk, IsErrOf};
ghost use Rattle.mill_base.specs.Ranges.{MovesInRange};
ghost use Rattle.mill_base.specs.declared.motion.Move.{Move as AnyMove};
ghost use Rattle.mill_command.specs.Requests.{stock as asks_stock};
ghost use Rattle.mill_dexel.specs.Rows.{IsRowOf};
ghost use Rattle.mill_dexel.specs.Stocks.{IsStock};
ghost use Rattle.mill_io.specs.Readings.{AreHeld};
ghost use Rattle.mill_job.specs.declared.fields.JobFields.{JobFields as AnyJob};
ghost use Rattle.mill_surface.specs.Surfaces.{HasManyTriangles};
ghost use Rattle.mill_surface.specs.declared.fault.SurfaceFault.TheVariants.{TooManyTriangles};
ghost use Rattle.mill_run.specs.Answers.{stocked};
ghost use Rattle.mill_answer.specs.Calls.{CanCount, call_of};
ghost use Rattle.mill_run.specs.inner.Loads.{IsCutting, LoadsCutting};
ghost use Rattle.mill_load.specs.Loads.{NamesFault, OnlyLoads};
ghost use Rattle.mill_load.specs.declared.file.File.{File as AnyFile};
ghost use Rattle.mill_load.specs.declared.file.File.TheVariants.{Job as JobFile, Program as ProgramFile};
ghost use Rattle.mill_run.specs.Outcomes.{Serves, ShowsOr, answered};
ghost use Rattle.mill_run.specs.inner.Prints.{ShowsStockOr};
ghost use Rattle.mill_run.specs.Stock.{IsSurface, drawn as drawn_answer, stock_texts, triangles_line};

use mill_answer::Word::{Number, Text};
use mill_answer::{Status, line_of, tell, tell_fault, tell_made, tell_memory};
use mill_base::{MAX_TRIANGLES, Move, WantOfMemory};
use mill_dexel::{Row, cut_rows, uncut_rows};
use mill_io::{Failed, Shelf, Sink, store};
use mill_job::Job;
use mill_load::{File, LoadFault, load_job, load_program};
use mill_stl::write_stl;
use mill_surface::{SurfaceFault, surface, triangle_count};
use std::alloc::Global;

/// A job, and the moves that cut its stock.
#[derive(Drop)]
pub struct Cutting {
    pub job: Job,
    pub moves: Vec<Move>,
}

/// The text of a surface, and how many triangles it has.
#[derive(Drop)]
struct Drawn {
    text: Vec<u8>,
    triangles: u64,
}

/// The work of `stock`: reads the job and the program, stores the surface of what the program's moves
/// leave of the stock under `name`, and prints how many triangles it has, or what keeps it from that.
pub fn stock_program<S: Shelf, O: Sink>(
    alloc: Global,
    shelf: &mut S,
    job: &str,
    program: &str,
    name: &str,
    out: &mut O,
) -> Status
    requires { CanCount (S.shows shelf.old) (O.shows out.old) }
    ensures { Serves (asks_stock job.now program.now name.now)
        (call_of result (S.shows shelf.old) (S.shows shelf.new) (O.shows out.old) (O.shows out.new)) }
{
    match load_cutting(alloc, shelf, job, program) {
        Ok(cutting) => tell_stock(alloc, shelf, &cutting, name, out),
        Err(fault) => tell_fault(alloc, fault, out),
    }
}

/// Reads the job and then the program. The first that fails ends it.
fn load_cutting<S: Shelf>(
    alloc: Global,
    shelf: &mut S,
    job: &str,
    program: &str,
) -> Result<Cutting, LoadFault>
    ensures told { (contents : List ℕ → Option (List ℕ)) →
        AreHeld contents (S.shows shelf.old).log (S.shows shelf.new).log →
        LoadsCutting (stock_texts contents job.now program.now) result }
    ensures ready { IfOk result IsCutting }
    ensures failed { (names : AnyFile → List ℕ) → names JobFile ≡ job.now → names ProgramFile ≡ program.now →
        IfErr result (NamesFault names (S.shows shelf.new).log) }
    ensures store { OnlyLoads (S.shows shelf.old) (S.shows shelf.new) result }
{
    let job = match load_job(alloc, shelf, job) {
        Ok(job) => job,
        Err(fault) => return Err(fault),
    };
    let moves = match load_program(alloc, shelf, program, &job, File::Program) {
        Ok(moves) => moves,
        Err(fault) => return Err(fault),
    };
    Ok(Cutting { job, moves })
}

/// Stores the surface of what was cut and prints how many triangles it has, or that they are too many.
fn tell_stock<S: Shelf, O: Sink>(
    alloc: Global,
    shelf: &mut S,
    cutting: &Cutting,
    name: &str,
    out: &mut O,
) -> Status
    requires ready { IsCutting cutting.now }
    requires counts { CanCount (S.shows shelf.old) (O.shows out.old) }
    ensures shown { ShowsStockOr cutting.now name.now
        (call_of result (S.shows shelf.old) (S.shows shelf.new) (O.shows out.old) (O.shows out.new)) }
    ensures unread { (S.shows shelf.new).log ≡ (S.shows shelf.old).log }
{
    match draw(alloc, cutting) {
        Ok(drawn) => store_surface(alloc, shelf, name, &drawn, out),
        Err(SurfaceFault::TooManyTriangles { count }) => {
            tell_made(
                line_of_triangles(alloc, b"over", count),
                Status::TooLarge,
                out,
            )
        }
        Err(SurfaceFault::WantOfMemory) => tell_memory(out),
    }
}

/// Stores a surface, and then prints how many triangles it has.
///
/// The line is made before, so that nothing is stored where there is no memory for it. Where the
/// storing fails, nothing is printed.
fn store_surface<S: Shelf, O: Sink>(
    alloc: Global,
    shelf: &mut S,
    name: &str,
    drawn: &Drawn,
    out: &mut O,
) -> Status
    requires { CanCount (S.shows shelf.old) (O.shows out.old) }
    ensures shown { (job : AnyJob) (moves : List AnyMove) →
        ShowsOr (answered (stocked job moves name.now
        (drawn_answer drawn.now.text.items drawn.now.triangles)))
        (call_of result (S.shows shelf.old) (S.shows shelf.new) (O.shows out.old) (O.shows out.new)) }
    ensures unread { (S.shows shelf.new).log ≡ (S.shows shelf.old).log }
{
    let line = match line_of_triangles(alloc, b"stock", drawn.triangles) {
        Ok(line) => line,
        Err(WantOfMemory) => return tell_memory(out),
    };
    match store(shelf, name, &drawn.text) {
        Ok(()) => tell(out, &line, Status::Done),
        Err(Failed) => Status::WriteFault,
    }
}

/// The surface of the stock after all moves, as a text. Whether it has too many triangles is known by
/// the job alone, and told before anything is cut.
fn draw(alloc: Global, cutting: &Cutting) -> Result<Drawn, SurfaceFault>
    requires { IsCutting cutting.now }
    ensures drawn { IfOk result (λ drawn.
        IsSurface cutting.now.job.fields cutting.now.moves.items drawn.text.items drawn.triangles) }
    ensures many { (count : ℕ) → IsErrOf result (TooManyTriangles count)
        → HasManyTriangles cutting.now.job.fields count }
{
    let job = &cutting.job;
    let triangles = triangle_count(job);
    if triangles > MAX_TRIANGLES as u64 {
        return Err(SurfaceFault::TooManyTriangles { count: triangles });
    }
    let rows = rows_after(alloc, job, &cutting.moves)?;
    let tris = surface(alloc, job, &rows)?;
    let text = write_stl(alloc, &tris, job.fields.unit)?;
    Ok(Drawn { text, triangles })
}

/// The rows of the stock after all moves.
fn rows_after(alloc: Global, job: &Job, moves: &[Move]) -> Result<Vec<Row>, WantOfMemory>
    requires { MovesInRange moves.now }
    ensures stock { IfOk result (λ rows. IsStock job.now.fields moves.now rows.items) }
    ensures rows_ok { IfOk result (λ rows. All (IsRowOf job.now.fields) rows.items) }
{
    let mut rows = uncut_rows(alloc, job)?;
    for step in moves {
        cut_rows(job, &mut rows, step);
    }
    Ok(rows)
}

/// The line of so many triangles, with this word before them.
fn line_of_triangles(alloc: Global, word: &[u8], count: u64) -> Result<Vec<u8>, WantOfMemory>
    ensures { IfOk result (λ made. made.items ≡ triangles_line word.now count) }
{
    line_of(alloc, &[Text(word)], &[Text(b"triangles"), Number(count)])
}
