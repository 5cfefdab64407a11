// Whole reads and writes over each shelf and sink, with ample memory and with a call that fails.
//
// Each table is one text: the proof of a test then costs the same however many rows there are. A
// row is a line with acts, and behind `=>` what comes of each. An act is a file's name and one of
// `creates`, `appends TEXT`, `stores TEXT`, `reads LIMIT` of the whole file, `pieces LIMIT` and
// `from PLACE`. Texts that may be empty have quotes.
use crate::tables::same;
use mill_io::{
    Failed, FileShelf, MemFile, MemShelf, MemSink, PieceEnd, Pieces, Shelf, StdSink, read_whole,
    store, write_whole,
};
use mill_tables::halves;
use std::alloc::{AllocError, Global};
use std::process::Abort;
use std::test::Fail;
use std::{env, fs, process, str};

fn file(alloc: Global, name: &str, bytes: &[u8]) -> Result<MemFile, AllocError> {
    Ok(MemFile {
        name: Vec::from_slice(alloc, name.as_bytes())?,
        bytes: Vec::from_slice(alloc, bytes)?,
    })
}

// Two files of one name, one that is empty and one more.
fn files(alloc: Global) -> Result<Vec<MemFile>, Fail> {
    let mut files = Vec::new(alloc);
    files.push(file(alloc, "a", b"one")?)?;
    files.push(file(alloc, "a", b"two")?)?;
    files.push(file(alloc, "b", b"")?)?;
    files.push(file(alloc, "d", b"old")?)?;
    Ok(files)
}

// A shelf with these, in which the file that can be written has room for 3 bytes.
fn shelf(alloc: Global, out_name: &str, fails: &[u64]) -> Result<MemShelf, Fail> {
    let files = files(alloc)?;
    Ok(MemShelf::new(alloc, files, out_name, 3, fails)?)
}

// What a read of the whole file gives.
fn read<S: Shelf>(alloc: Global, shelf: &mut S, name: &str, limit: u64) -> Result<String, Fail> {
    match read_whole(alloc, shelf, name, limit) {
        Ok(bytes) => Ok(format!(in alloc; "{:?}", str::from_utf8(&bytes)?)?),
        Err(end) => Ok(format!(in alloc; "{end:?}")?),
    }
}

// The bytes that are given in pieces of at most two, and the last answer. After its last answer a
// call answers it again, and reads nothing.
fn pieces<S: Shelf>(alloc: Global, shelf: &mut S, name: &str, limit: u64) -> Result<String, Fail> {
    let mut pieces = Pieces::new(shelf, name, limit);
    let mut given = Vec::new(alloc);
    let mut last = Ok(0);
    for _ in 0..6 {
        last = next_piece(&mut pieces, &mut given)?;
    }
    Ok(format!(in alloc; "{:?} {last:?}", str::from_utf8(&given)?)?)
}

// The answer of one call, whose bytes come behind those that were given.
fn next_piece<S: Shelf>(
    pieces: &mut Pieces<'_, S>,
    given: &mut Vec<u8>,
) -> Result<Result<usize, PieceEnd>, AllocError> {
    let mut buf = [0u8; 2];
    let answer = pieces.next(&mut buf);
    if let Ok(count) = answer {
        given.extend_from_slice(&buf[..count])?;
    }
    Ok(answer)
}

// What a read of at most three bytes gives: how many they are, and all that they are read into.
fn three<S: Shelf>(alloc: Global, shelf: &mut S, name: &str, from: u64) -> Result<String, Fail> {
    let mut buf = [0u8; 3];
    match shelf.read(name, from, &mut buf) {
        Ok(count) => Ok(format!(in alloc; "{count} {:?}", str::from_utf8(&buf)?)?),
        Err(Failed) => Ok(String::from_str(alloc, "Failed")?),
    }
}

// What an act on a file gives.
fn act<S: Shelf>(alloc: Global, shelf: &mut S, name: &str, act: &str) -> Result<String, Fail> {
    let (verb, word) = act.split_once(' ').unwrap_or((act, ""));
    match verb {
        "reads" => read(alloc, shelf, name, word.parse()?),
        "pieces" => pieces(alloc, shelf, name, word.parse()?),
        "from" => three(alloc, shelf, name, word.parse()?),
        _ => change(alloc, shelf, name, verb, word.trim_matches('"').as_bytes()),
    }
}

fn change<S: Shelf>(
    alloc: Global,
    shelf: &mut S,
    name: &str,
    verb: &str,
    bytes: &[u8],
) -> Result<String, Fail> {
    let count = match verb {
        "creates" => shelf.create(name).and(Ok(0)),
        "stores" => store(shelf, name, bytes).and(Ok(bytes.len())),
        _ => shelf.append(name, bytes),
    };
    Ok(format!(in alloc; "{count:?}")?)
}

// What acts on the files of a folder give, with a comma between any two.
fn told<S: Shelf>(alloc: Global, shelf: &mut S, folder: &str, acts: &str) -> Result<String, Fail> {
    let mut told = String::new(alloc);
    for each in acts.split(", ") {
        add(alloc, &mut told, shelf, folder, each)?;
    }
    Ok(told)
}

fn add<S: Shelf>(
    alloc: Global,
    told: &mut String,
    shelf: &mut S,
    folder: &str,
    act: &str,
) -> Result<(), Fail> {
    if !told.is_empty() {
        told.push_str(", ")?;
    }
    told.push_str(&told_of_one(alloc, shelf, folder, act)?)?;
    Ok(())
}

fn told_of_one<S: Shelf>(
    alloc: Global,
    shelf: &mut S,
    folder: &str,
    text: &str,
) -> Result<String, Fail> {
    let (name, doing) = text.split_once(' ').ok_or("an act without a name")?;
    let name = format!(in alloc; "{folder}{name}")?;
    act(alloc, shelf, &name, doing)
}

// Does the acts of each row on a shelf of its own, in which a call may fail and one file may be
// written: a row begins with the call's number or `-`, and the file's name and a colon.
fn each_agrees<R: Abort>(rt: &R, alloc: Global, table: &str) -> Result<(), Fail> {
    for row in table.lines() {
        agrees(rt, alloc, row)?;
    }
    Ok(())
}

fn agrees<R: Abort>(rt: &R, alloc: Global, row: &str) -> Result<(), Fail> {
    let (acts, wanted) = halves(row)?;
    same(rt, &told_in_memory(alloc, acts)?, wanted, row);
    Ok(())
}

fn told_in_memory(alloc: Global, row: &str) -> Result<String, Fail> {
    let (call, row) = row.split_once(' ').ok_or("a row without a call")?;
    let (name, acts) = row.split_once(": ").ok_or("a row without a colon")?;
    let mut shelf = shelf_in_which(alloc, name, call)?;
    told(alloc, &mut shelf, "", acts)
}

// A shelf in which this call fails, or none if it isn't a number.
fn shelf_in_which(alloc: Global, out_name: &str, call: &str) -> Result<MemShelf, Fail> {
    match call.parse() {
        Ok(call) => shelf(alloc, out_name, &[call]),
        Err(_) => shelf(alloc, out_name, &[]),
    }
}

#[test]
fn reads_whole_files_in_memory(rt: HostRuntime) -> Result<(), Fail> {
    each_agrees(
        &rt,
        rt.alloc(),
        r#"- out: a reads 3 => "one"
- out: a reads 2 => TooLong
- out: b reads 0 => ""
- out: c reads 9 => ReadFault
0 out: a reads 3 => ReadFault
1 out: a reads 3 => ReadFault
2 out: a reads 3 => "one""#,
    )
}

// In the row before the last a read behind the last answer would fail, and in some others it would
// succeed.
#[test]
fn gives_a_file_in_pieces(rt: HostRuntime) -> Result<(), Fail> {
    each_agrees(
        &rt,
        rt.alloc(),
        r#"- out: a pieces 3 => "one" Ok(0)
- out: a pieces 2 => "on" Err(TooLong)
- out: a pieces 1 => "" Err(TooLong)
- out: b pieces 0 => "" Ok(0)
- out: c pieces 9 => "" Err(ReadFault)
0 out: a pieces 3 => "" Err(ReadFault)
1 out: a pieces 3 => "on" Err(ReadFault)
3 out: a pieces 3 => "one" Ok(0)
2 out: a pieces 3 => "one" Err(ReadFault)"#,
    )
}

#[test]
fn writes_one_file_in_memory(rt: HostRuntime) -> Result<(), Fail> {
    each_agrees(
        &rt,
        rt.alloc(),
        r#"3 out: a creates, out creates, out appends 12, out appends 3, out appends 345, out appends 45, out reads 9 => Err(Failed), Ok(0), Ok(2), Err(Failed), Ok(1), Err(Failed), "123""#,
    )
}

#[test]
fn stores_a_file_in_memory(rt: HostRuntime) -> Result<(), Fail> {
    each_agrees(
        &rt,
        rt.alloc(),
        r#"- out: out stores "123", out reads 9, a reads 9 => Ok(3), "123", "one"
- out: out stores "12345", out reads 9, a reads 9 => Err(Failed), "123", "one"
- out: out stores "", out reads 9, a reads 9 => Ok(0), "", "one"
- d: d stores "12", d reads 9, a reads 9 => Ok(2), "12", "one"
0 d: d stores "123", d reads 9, a reads 9 => Err(Failed), "old", "one"
1 d: d stores "123", d reads 9, a reads 9 => Err(Failed), "", "one""#,
    )
}

fn hello_is_written<R: Abort>(
    rt: &R,
    mut sink: MemSink,
    wanted: Result<(), Failed>,
    written: &[u8],
) {
    let told = write_whole(&mut sink, b"hello");
    assert_eq!(rt; (told, sink.written()), (wanted, written));
}

#[test]
fn writes_to_memory(rt: HostRuntime) -> Result<(), Fail> {
    let sink = MemSink::new(rt.alloc(), 5, &[1])?;
    hello_is_written(&rt, sink, Ok(()), b"hello");
    let sink = MemSink::new(rt.alloc(), 3, &[])?;
    hello_is_written(&rt, sink, Err(Failed), b"hel");
    let sink = MemSink::new(rt.alloc(), 5, &[0])?;
    hello_is_written(&rt, sink, Err(Failed), b"");
    Ok(())
}

// How the names of files begin that are this process's alone, among the files that pass.
fn folder(rt: &HostRuntime) -> Result<String, Fail> {
    let name = format!(in rt.alloc(); "mill-io-{}-", process::id(rt.process()))?;
    passing(rt, &name)
}

fn passing(rt: &HostRuntime, name: &str) -> Result<String, Fail> {
    let path = env::temp_dir(rt)?.join(rt.alloc(), name)?;
    let path = path.to_str().ok_or("a path that is not text")?;
    Ok(String::from_str(rt.alloc(), path)?)
}

fn remove(rt: &HostRuntime, folder: &str, name: &str) -> Result<(), Fail> {
    let path = format!(in rt.alloc(); "{folder}{name}")?;
    Ok(fs::remove_file(rt, path.as_str())?)
}

fn long_text(alloc: Global) -> Result<String, Fail> {
    Ok(String::from_utf8(vec![in alloc; b'7'; 70000]?)?)
}

fn told_of_text(rt: &HostRuntime, folder: &str, text: &str) -> Result<String, Fail> {
    let acts = format!(in rt.alloc();
        "long reads 9, long stores what goes, long stores {text}, long reads 69999, long reads 70000"
    )?;
    let mut shelf = FileShelf::new(rt.alloc(), rt);
    told(rt.alloc(), &mut shelf, folder, &acts)
}

// What a real file gives for which 70000 bytes are stored.
fn told_of_a_long_file(rt: &HostRuntime, folder: &str) -> Result<String, Fail> {
    let long = long_text(rt.alloc())?;
    let told = told_of_text(rt, folder, &long)?;
    Ok(told.replace(rt.alloc(), long.as_str(), "LONG")?)
}

#[test]
fn stores_and_reads_a_real_file(rt: HostRuntime) -> Result<(), Fail> {
    let folder = folder(&rt)?;
    let told = told_of_a_long_file(&rt, &folder)?;
    remove(&rt, &folder, "long")?;
    assert_eq!(rt;
        told.as_str(),
        r#"ReadFault, Ok(9), Ok(70000), TooLong, "LONG""#
    );
    Ok(())
}

// The file `second` comes in place of `first`.
fn rename_second(rt: &HostRuntime, folder: &str) -> Result<(), Fail> {
    let first = format!(in rt.alloc(); "{folder}first")?;
    let second = format!(in rt.alloc(); "{folder}second")?;
    Ok(fs::rename(rt, &second, &first)?)
}

// What reads give around that rename.
fn told_around_a_rename(rt: &HostRuntime, folder: &str) -> Result<String, Fail> {
    let mut shelf = FileShelf::new(rt.alloc(), rt);
    let acts = "first stores first, second stores other, first from 0";
    let before = told(rt.alloc(), &mut shelf, folder, acts)?;
    rename_second(rt, folder)?;
    let acts =
        "first from 3, first from 1, second from 0, first from 2, first stores more, first from 2";
    let behind = told(rt.alloc(), &mut shelf, folder, acts)?;
    Ok(format!(in rt.alloc(); "{before}, {behind}")?)
}

// A file that is replaced while it is read is read on as it was, also at a place before; a store
// closes it.
#[test]
fn reads_a_replaced_file_as_it_was(rt: HostRuntime) -> Result<(), Fail> {
    let folder = folder(&rt)?;
    let told = told_around_a_rename(&rt, &folder)?;
    remove(&rt, &folder, "first")?;
    let wanted = r#"Ok(5), Ok(5), 3 "fir", 2 "st\0", 3 "irs", Failed, 3 "her", Ok(4), 2 "re\0""#;
    assert_eq!(rt; told.as_str(), wanted);
    Ok(())
}

#[test]
fn writes_to_standard_output(rt: HostRuntime) {
    assert_eq!(rt;
        write_whole(&mut StdSink::new(&rt), b"a line on standard output\n"),
        Ok(())
    );
}
