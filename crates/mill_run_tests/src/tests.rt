// The program over files and output in memory: what it prints, how it ends and what it stores.
//
// Each table is one text: the proof of a test then costs the same however many rows there are. A
// row is a line with a command's words, and behind `=>` the status and what is printed, but for its
// last line's end. In a row `\n` is a line's end. A text between `<` and `>` in the place of the
// last word becomes the file `program`; it may have several parts, with ` + ` between them, and a
// part may stand there so many times, as in `3 * M2`.
//
// A row is looked at by a function of its own, and functions with a loop do nothing else: the proof
// of a test costs the more, the more values are alive beside a loop and a `?`.
ghost use Rattle.std.specs.Prelude.{◌≡◌, IfOk};
ghost use Rattle.mill_answer.specs.Calls.{CanCount};

use mill_io::{MemFile, MemShelf, MemSink, Shelf, Sink, read_whole};
use mill_run::run;
use mill_tables::{halves, numbers, owned_words, with_lines};
use std::alloc::{AllocError, Global};
use std::process::Abort;
use std::test::Fail;
use std::thread::Threads;

/// Looks that what is told of a row is what it wants.
pub(crate) fn same<R: Abort>(rt: &R, told: &str, wanted: &str, row: &str) {
    assert_eq!(rt; told, wanted, "{row}");
}

mod drops;
mod failures;
mod levels;
mod missing;
mod plans;
mod rests;
mod samples;
mod stocks;
mod untaken;
mod verdicts;

/// The files of every store: behind `#` a name, and then the text. `groove` is two plates, with a
/// groove between them that is one unit narrower than the cutter of `groove-job`; `peak` is the
/// point (0, 0, 3), and `wall` the line from (2, -1, 3) to (2, 3, 3); `planned` is what is planned
/// for `job` and `plate`, and `stocked` what `down` leaves of the stock of `job`. The list `two`
/// cuts with a ball and then with a flat cutter.
const FILES: &str = r#"# job
cutter = "flat"
radius = 150
floor = 0
top = 300
clear = 400
area = [0, 0, 200, 200]
home = [100, 100]
pitch = 100
sample = 50
allowance = 0
band = 0
# wide
cutter = "flat"
radius = 100
floor = 0
top = 400
clear = 400
area = [0, 0, 1000, 1000]
home = [0, 0]
pitch = 100
sample = 50
allowance = 50
band = 0
# one-key
cutter = "flat"
# no-key
depth = 1
# plate
solid plate
facet normal 0 0 1
outer loop
vertex 0 0 2
vertex 2 0 2
vertex 2 2 2
endloop
endfacet
facet normal 0 0 1
outer loop
vertex 0 0 2
vertex 2 2 2
vertex 0 2 2
endloop
endfacet
endsolid plate
# groove
solid
facet normal 0 0 1
outer loop
vertex 0 0 2
vertex 4 0 2
vertex 4 10 2
endloop
endfacet
facet normal 0 0 1
outer loop
vertex 0 0 2
vertex 4 10 2
vertex 0 10 2
endloop
endfacet
facet normal 0 0 1
outer loop
vertex 5.99 0 2
vertex 10 0 2
vertex 10 10 2
endloop
endfacet
facet normal 0 0 1
outer loop
vertex 5.99 0 2
vertex 10 10 2
vertex 5.99 10 2
endloop
endfacet
endsolid
# corner
solid
facet normal 0 0 1
outer loop
vertex 0 0 2
vertex 10 0 2
vertex 0 10 2
endloop
endfacet
endsolid
# peak
solid
facet normal 0 0 1
outer loop
vertex 0 0 3
vertex 0 0 3
vertex 0 0 3
endloop
endfacet
endsolid
# wall
solid
facet normal 0 0 1
outer loop
vertex 2 -1 3
vertex 2 3 3
vertex 2 3 3
endloop
endfacet
endsolid
# empty
solid
endsolid
# cut-short
solid
# down
G21 G90
G1 Z2
G0 Z4
M2
# deep
G21 G90
G1 Z1
M2
# low
G21 G90
G0 Z1.99
M2
# off-grid
G21 G90
G1 Z2.001
M2
# two
steps = [
{ program = "down", cutter = "ball", radius = 150 },
{ program = "down", cutter = "flat", radius = 150 },
]
# planned
%
G17 G21 G90
G1 X0.00 Y0.00 Z2.00
G1 X1.00 Y0.00 Z2.00
G1 X2.00 Y0.00 Z2.00
G1 X2.00 Y1.00 Z2.00
G1 X1.00 Y1.00 Z2.00
G1 X0.00 Y1.00 Z2.00
G1 X0.00 Y2.00 Z2.00
G1 X1.00 Y2.00 Z2.00
G1 X2.00 Y2.00 Z2.00
G0 X2.00 Y2.00 Z4.00
G0 X1.00 Y1.00 Z4.00
M2
%
# stocked
solid stock
facet normal 0 0 1
outer loop
vertex 0.00 0.00 2.00
vertex 1.00 0.00 2.00
vertex 1.00 1.00 2.00
endloop
endfacet
facet normal 0 0 1
outer loop
vertex 0.00 0.00 2.00
vertex 1.00 1.00 2.00
vertex 0.00 1.00 2.00
endloop
endfacet
facet normal 0 0 1
outer loop
vertex 1.00 0.00 2.00
vertex 2.00 0.00 2.00
vertex 2.00 1.00 2.00
endloop
endfacet
facet normal 0 0 1
outer loop
vertex 1.00 0.00 2.00
vertex 2.00 1.00 2.00
vertex 1.00 1.00 2.00
endloop
endfacet
facet normal 0 0 1
outer loop
vertex 0.00 1.00 2.00
vertex 1.00 1.00 2.00
vertex 1.00 2.00 2.00
endloop
endfacet
facet normal 0 0 1
outer loop
vertex 0.00 1.00 2.00
vertex 1.00 2.00 2.00
vertex 0.00 2.00 2.00
endloop
endfacet
facet normal 0 0 1
outer loop
vertex 1.00 1.00 2.00
vertex 2.00 1.00 2.00
vertex 2.00 2.00 2.00
endloop
endfacet
facet normal 0 0 1
outer loop
vertex 1.00 1.00 2.00
vertex 2.00 2.00 2.00
vertex 1.00 2.00 2.00
endloop
endfacet
endsolid stock
# no-triangles
solid stock
endsolid stock
# out
before
"#;

/// More files, made of FILES: `NAME: OF: OLD -> NEW; OLD -> NEW`. `thousandths` is the same as
/// `job`; the numbers of `tenth` are those of `job`, in thousandths, for `low-plate`, which is 0.2
/// mm high. `narrow` ends 0.50 before the last columns. A `held` and a `slim` job have a holder, as
/// far over the tip as their name says. A `plate-ball` is `job` with a ball, which may leave as
/// much as its name says. `turning` asks for a spindle, and the programs of `loose` start anywhere.
/// On a rapid of `axes` each axis runs at a speed of its own.
/// Something stands beside the plate of `clamped`, in the middle of `vice`, and at two places of
/// `boxed`.
const MADE: &str = r#"thousandths: job: cutter -> unit = "thousandth"\ncutter; 00 -> 000; 50 -> 500
tenth: job: cutter -> unit = "thousandth"\ncutter
low-plate: plate:  2\n ->  0.2\n
tenth-planned: planned: 0.00 -> 0.000; 1.00 -> 0.100; 2.00 -> 0.200; 4.00 -> 0.400
plate-ball-99: job: flat -> ball; allowance = 0 -> allowance = 99
plate-ball-100: job: flat -> ball; allowance = 0 -> allowance = 100
layered: job: band = 0 -> band = 0\nlayer = 50
band-50: job: band = 0 -> band = 50
band-51: job: band = 0 -> band = 51
band-151: job: band = 0 -> band = 151
low-clear: job: clear = 400 -> clear = 200
no-stock: job: 300 -> 0; 400 -> 0; 200, 200 -> 0, 0; 100, 100 -> 0, 0
cut-99: job: band = 0 -> band = 0\nmax_cut = 99
cut-100: job: band = 0 -> band = 0\nmax_cut = 100
cut-131072: job: band = 0 -> band = 0\nmax_cut = 131072
held-50: job: band = 0 -> band = 0\nholder_radius = 200\nstickout = 50
held-100: job: band = 0 -> band = 0\nholder_radius = 200\nstickout = 100
held-300: job: band = 0 -> band = 0\nholder_radius = 200\nstickout = 300
held-none: job: band = 0 -> band = 0\nholder_radius = 200
held-thin: job: band = 0 -> band = 0\nholder_radius = 150\nstickout = 1
slim-99: job: 150 -> 60; [0, 0, 200 -> [0, 0, 300; pitch = 100 -> pitch = 50; allowance = 0 -> allowance = 300; band = 0 -> band = 0\nholder_radius = 120\nstickout = 99
slim-100: job: 150 -> 60; [0, 0, 200 -> [0, 0, 300; pitch = 100 -> pitch = 50; allowance = 0 -> allowance = 200; band = 0 -> band = 0\nlayer = 100\nholder_radius = 120\nstickout = 100
turning: job: band = 0 -> band = 0\nspindle = true
loose: job: band = 0 -> band = 0\nstart = "anywhere"
axes: job: band = 0 -> band = 0\nrapids = "axes"
loose-planned: planned: G90 -> G90\nG0 Z4.00\nG0 X1.00 Y1.00
clamped: job: band = 0 -> band = 0\nkeep_out = [[340, -100, 500, 100, 350]]
clamped-planned: planned: Z2.00\nG1 X2.00 Y0.00 Z2.00\nG1 X2.00 Y1.00 Z2.00\n -> Z2.00\n
vice: wide: band = 0 -> band = 0\nkeep_out = [[450, 450, 550, 550, 220]]
boxed: wide: clear = 400 -> clear = 450\nkeep_out = [[150, -100, 250, 100, 220], [300, -20, 300, 20, 400]]
dot: peak: 0 0 3 -> 0.4 0 0.5
ball: wide: flat -> ball
groove-job: wide: top = 400 -> top = 300; allowance = 50 -> allowance = 0
fine: wide: top = 400 -> top = 300; 1000 -> 2000; band = 0 -> band = 0\nraster = 1
narrow: plate: vertex 2 -> vertex 1.5
point: peak: 0 0 3 -> 5 5 3
beside: peak: 0 0 3 -> 2.8 1 3
far-wall: wall: vertex 2 -> vertex 4
one-row: job: 200, 200 -> 200, 0
many-columns: job: pitch = 100 -> pitch = 1; 200, 200 -> 317, 317
deep-stocked: stocked: 2.00\n -> 1.00\n
high: peak: 0 0 3 -> 0 0 3.01
abnormal: cut-short: solid\n -> solid\nfacet abnormal
ball-alone: two: },\n{ program = "down", cutter = "flat", radius = 150 },\n] -> }]
first-low: two: down", cutter = "ball -> low", cutter = "ball
second-low: two: down", cutter = "flat -> low", cutter = "flat
second-off-grid: two: down", cutter = "flat -> off-grid", cutter = "flat
second-absent: two: down", cutter = "flat -> absent", cutter = "flat
second-narrow: two: "flat", radius = 150 -> "flat", radius = 50
third: two: ]\n -> { program = "down", cutter = "flat", radius = 150 }]\n"#;

/// The text of one of FILES.
fn text_of(name: &str) -> Result<&'static str, Fail> {
    for file in FILES.split("# ") {
        match file.split_once('\n') {
            Some((first, text)) if first == name => return Ok(text),
            _ => {}
        }
    }
    Err("no such file".into())
}

/// A text after one change.
fn changed(alloc: Global, text: &str, change: &str) -> Result<String, Fail> {
    let (old, new) = change.split_once(" -> ").ok_or("a change without ->")?;
    Ok(text.replace(alloc, old, new)?)
}

/// The text of a row of MADE.
fn made_text(alloc: Global, of: &str, changes: &str) -> Result<String, Fail> {
    let mut text = String::from_str(alloc, text_of(of)?)?;
    for change in changes.split("; ") {
        text = changed(alloc, &text, change)?;
    }
    Ok(text)
}

fn add_file(
    alloc: Global,
    files: &mut Vec<MemFile>,
    name: &str,
    bytes: &[u8],
) -> Result<(), AllocError> {
    let name = Vec::from_slice(alloc, name.as_bytes())?;
    let bytes = Vec::from_slice(alloc, bytes)?;
    Ok(files.push(MemFile { name, bytes })?)
}

/// Adds a file of FILES.
fn add_given(alloc: Global, files: &mut Vec<MemFile>, file: &str) -> Result<(), AllocError> {
    match file.split_once('\n') {
        Some((name, text)) => add_file(alloc, files, name, text.as_bytes()),
        None => Ok(()),
    }
}

/// Adds a file of MADE.
fn add_made(alloc: Global, files: &mut Vec<MemFile>, row: &str) -> Result<(), Fail> {
    let (name, rest) = row.split_once(": ").ok_or("a row without a file")?;
    let (of, changes) = rest.split_once(": ").ok_or("a row without changes")?;
    let changes = with_lines(alloc, changes)?;
    let text = made_text(alloc, of, &changes)?;
    Ok(add_file(alloc, files, name, text.as_bytes())?)
}

/// All files: `program` with these bytes, `garbled`, which isn't a text, FILES and MADE.
fn files(alloc: Global, program: &[u8]) -> Result<Vec<MemFile>, Fail> {
    let mut files = Vec::new(alloc);
    add_file(alloc, &mut files, "program", program)?;
    add_file(alloc, &mut files, "garbled", b"\xff")?;
    for file in FILES.split("# ") {
        add_given(alloc, &mut files, file)?;
    }
    for row in MADE.lines() {
        add_made(alloc, &mut files, row)?;
    }
    Ok(files)
}

/// What the outside allows: the store's file that can be written, its room, and the store's calls
/// that fail; the sink's room, and the sink's calls that fail. Here no call fails.
const SOUND: &str = "out 1000, 200";

/// A room, and the numbers of the calls that fail.
fn limits(alloc: Global, words: &str) -> Result<(usize, Vec<u64>), Fail> {
    let (room, fails) = words.split_once(' ').unwrap_or((words, ""));
    Ok((room.parse()?, numbers(alloc, fails)?))
}

fn store(alloc: Global, program: &[u8], allowed: &str) -> Result<MemShelf, Fail>
    ensures reads { IfOk result (λ s. (⟦<MemShelf as Shelf>⟧.shows s).read_faults ≡ 0) }
    ensures writes { IfOk result (λ s. (⟦<MemShelf as Shelf>⟧.shows s).write_faults ≡ 0) }
{
    let (out, words) = allowed.split_once(' ').ok_or("a store without a room")?;
    let (room, fails) = limits(alloc, words)?;
    let files = files(alloc, program)?;
    Ok(MemShelf::new(alloc, files, out, room, &fails)?)
}

fn sink(alloc: Global, allowed: &str) -> Result<MemSink, Fail>
    ensures { IfOk result (λ s. (⟦<MemSink as Sink>⟧.shows s).faults ≡ 0) }
{
    let (room, fails) = limits(alloc, allowed)?;
    Ok(MemSink::new(alloc, room, &fails)?)
}

/// The status of a call. What else its contract says isn't needed here, and is met in this place
/// alone.
fn code_of<R: Threads + Sync>(
    rt: &R,
    alloc: Global,
    words: &[String],
    shelf: &mut MemShelf,
    sink: &mut MemSink,
) -> u8
    requires { CanCount (⟦<MemShelf as Shelf>⟧.shows shelf.old) (⟦<MemSink as Sink>⟧.shows sink.old) }
{
    run(rt, alloc, words, shelf, sink).code()
}

/// The status and what was printed, as in a row, and the store as it was left.
#[derive(Drop)]
struct Ended {
    told: String,
    shelf: MemShelf,
}

/// The status and what a sink holds.
fn told(alloc: Global, code: u8, sink: &MemSink) -> Result<String, Fail> {
    let printed = str::from_utf8(sink.written())?;
    Ok(format!(in alloc; "{code} {printed}")?)
}

/// Calls the program, with these bytes as the file `program`.
fn call<R: Threads + Sync>(
    rt: &R,
    alloc: Global,
    words: &[String],
    program: &[u8],
    allowed: &str,
) -> Result<Ended, Fail> {
    let (to_store, to_sink) = allowed.split_once(", ").ok_or("nothing of the sink")?;
    let mut shelf = store(alloc, program, to_store)?;
    let mut sink = sink(alloc, to_sink)?;
    let code = code_of(rt, alloc, words, &mut shelf, &mut sink);
    let told = told(alloc, code, &sink)?;
    Ok(Ended { told, shelf })
}

/// A part of a program's text, as often as it stands there.
fn part_of(alloc: Global, part: &str) -> Result<String, Fail> {
    let (count, text) = part.split_once(" * ").unwrap_or(("1", part));
    Ok(text.repeat(alloc, count.parse()?)?)
}

/// The text of a program by a row.
fn program(alloc: Global, row: &str) -> Result<String, Fail> {
    let row = with_lines(alloc, row.trim_end_matches('>'))?;
    let mut text = String::new(alloc);
    for part in row.split(" + ") {
        text.push_str(&part_of(alloc, part)?)?;
    }
    Ok(text)
}

/// Calls the program with a row's words.
fn answer<R: Threads + Sync>(
    rt: &R,
    alloc: Global,
    command: &str,
    allowed: &str,
) -> Result<Ended, Fail> {
    let Some((command, text)) = command.split_once('<') else {
        return call(rt, alloc, &owned_words(alloc, command)?, b"", allowed);
    };
    let command = format!(in alloc; "{command} program")?;
    let text = program(alloc, text)?;
    call(
        rt,
        alloc,
        &owned_words(alloc, &command)?,
        text.as_bytes(),
        allowed,
    )
}

/// The text that a file holds at the end.
fn held(alloc: Global, shelf: &mut MemShelf, name: &str) -> Result<String, Fail> {
    let bytes = read_whole(alloc, shelf, name, 1000)?;
    Ok(String::from_str(alloc, str::from_utf8(&bytes)?)?)
}

/// What was told, and behind a bar what this file holds now.
fn told_and_left(alloc: Global, ended: &mut Ended, file: &str) -> Result<String, Fail> {
    let left = held(alloc, &mut ended.shelf, file)?;
    Ok(format!(in alloc; "{}|{left}", ended.told)?)
}

/// Looks at a row: that it says what is told, and that `out` is left as it was.
fn look<R: Threads + Sync + Abort>(rt: &R, alloc: Global, row: &str) -> Result<(), Fail> {
    let (command, says) = halves(row)?;
    let mut ended = answer(rt, alloc, command, SOUND)?;
    let told = told_and_left(alloc, &mut ended, "out")?;
    let says = with_lines(alloc, says)?;
    let wanted = format!(in alloc; "{says}\n|{}", text_of("out")?)?;
    same(rt, &told, &wanted, row);
    Ok(())
}

/// Looks at each row of a table.
fn each_says<R: Threads + Sync + Abort>(rt: &R, alloc: Global, table: &str) -> Result<(), Fail> {
    for row in table.lines() {
        look(rt, alloc, row)?;
    }
    Ok(())
}

/// What a row that stores a text should tell, and the text that OUT should hold: that of another
/// file.
fn stored_as(alloc: Global, ended: &mut Ended, rest: &str) -> Result<String, Fail> {
    let (says, file) = rest.split_once(" => ").ok_or("a row without a file")?;
    let text = held(alloc, &mut ended.shelf, file)?;
    Ok(format!(in alloc; "0 {says}\n|{text}")?)
}

/// Looks at a row with a command whose last word is OUT, which may be written; with what it tells,
/// and with the file whose text OUT holds then.
fn look_at_stored<R: Threads + Sync + Abort>(rt: &R, alloc: Global, row: &str) -> Result<(), Fail> {
    let (command, rest) = halves(row)?;
    let (_, out) = command.rsplit_once(' ').ok_or("a row without OUT")?;
    let allowed = format!(in alloc; "{out} 1000, 200")?;
    let mut ended = answer(rt, alloc, command, &allowed)?;
    let told = told_and_left(alloc, &mut ended, out)?;
    same(rt, &told, &stored_as(alloc, &mut ended, rest)?, row);
    same(
        rt,
        &held(alloc, &mut ended.shelf, "plate")?,
        text_of("plate")?,
        row,
    );
    Ok(())
}

/// Looks at each row of a table of texts that are stored.
fn each_stores<R: Threads + Sync + Abort>(rt: &R, alloc: Global, table: &str) -> Result<(), Fail> {
    for row in table.lines() {
        look_at_stored(rt, alloc, row)?;
    }
    Ok(())
}
