//! Makes the calls of README, guide and examples again, over copies of the files that they name, and prints what they
//! print.
//!
//! The file `commands` has a line for each. `ctwasm WORD..` is a call; it may end with `>FILE`, which keeps what is
//! written as a file, and else that is printed, with a line `status N` behind it where the status isn't 0. `same A B`
//! prints `same` where two files have the same bytes, and else `differ`; `last FILE` prints the last line of a file,
//! `first N FILE` its first N lines, `shows FILE` all of it, with a line end behind it, `bytes FILE` its bytes in
//! hexadecimal, 16 in a line, `end N FILE` its last N bytes so, and `size FILE` how many bytes it has. No file outside
//! this program's memory is changed.
#![tactic(auto)]

use ctw_io::{DirShelf, Fault, Loaded, OutSink, Shelf, Sink, SureShelf, SureSink, send};
use ctwasm_top::{Status, ctwasm};
use itoa::Buffer;
use std::alloc::{AllocError, AllocFailed, Global};
use std::process::ExitCode;

/// The greatest size of a file, in bytes.
const MOST: u64 = 67_108_864;

/// Why the calls weren't made to the end.
enum Stop {
    /// A file can't be read, or the text not written.
    Failed,
    /// Memory was wanting.
    NoMemory,
}

impl From<AllocError> for Stop {
    fn from(_error: AllocError) -> Stop {
        Stop::NoMemory
    }
}

impl<T: Drop> From<AllocFailed<T>> for Stop {
    fn from(_failed: AllocFailed<T>) -> Stop {
        Stop::NoMemory
    }
}

impl From<Fault> for Stop {
    fn from(fault: Fault) -> Stop {
        match fault {
            Fault::Failed => Stop::Failed,
            Fault::NoMemory => Stop::NoMemory,
        }
    }
}

/// What is told of a status; nothing where the work was done.
fn status_line(status: Status) -> &'static [u8] {
    match status {
        Status::Done => b"",
        Status::Refused => b"status 1\n",
        Status::Usage => b"status 2\n",
        Status::NoLabelling => b"status 3\n",
        Status::ReadFault => b"status 4\n",
        Status::WriteFault => b"status 5\n",
        Status::NoMemory => b"status 6\n",
        Status::SaveFault => b"status 7\n",
    }
}

/// Puts a file of the folder on the shelf, if it isn't there yet.
fn fetch<D: Shelf>(
    alloc: Global,
    disk: &mut D,
    shelf: &mut SureShelf,
    name: &str,
) -> Result<(), Stop> {
    if shelf.file(name).is_some() {
        return Ok(());
    }
    match disk.load(alloc, name, MOST)? {
        Loaded::Whole(bytes) => {
            shelf.save(name, &bytes)?;
            Ok(())
        }
        Loaded::More | Loaded::Missing => Ok(()),
    }
}

/// Puts the files that words name on the shelf.
fn fetch_all<D: Shelf>(
    alloc: Global,
    disk: &mut D,
    shelf: &mut SureShelf,
    words: &[String],
) -> Result<(), Stop> {
    for word in words {
        fetch(alloc, disk, shelf, word.as_str())?;
        if let Some((_, file)) = word.as_str().split_once('=') {
            fetch(alloc, disk, shelf, file)?;
        }
    }
    Ok(())
}

/// The words of a line, between single blanks.
fn words_of(alloc: Global, line: &str) -> Result<Vec<String>, AllocError> {
    let mut words = Vec::new(alloc);
    for word in line.split(' ') {
        words.push(String::from_str(alloc, word)?)?;
    }
    Ok(words)
}

/// Makes a call; what it writes is kept as a file, or printed.
fn call<D: Shelf, K: Sink>(
    alloc: Global,
    disk: &mut D,
    shelf: &mut SureShelf,
    out: &mut K,
    line: &str,
) -> Result<(), Stop> {
    let (line, kept) = match line.split_once(" >") {
        Some((line, file)) => (line, Some(file)),
        None => (line, None),
    };
    let words = words_of(alloc, line)?;
    fetch_all(alloc, disk, shelf, &words)?;
    let mut written = SureSink::new(alloc, 65_536);
    let status = ctwasm(alloc, &words, shelf, &mut written);
    match kept {
        Some(file) => shelf.save(file, written.taken())?,
        None => send(out, written.taken())?,
    }
    send(out, status_line(status))?;
    Ok(())
}

/// Whether two files have the same bytes.
fn is_same<D: Shelf>(
    alloc: Global,
    disk: &mut D,
    shelf: &mut SureShelf,
    line: &str,
) -> Result<bool, Stop> {
    let Some((a, b)) = line.split_once(' ') else {
        return Ok(false);
    };
    fetch(alloc, disk, shelf, a)?;
    fetch(alloc, disk, shelf, b)?;
    match (shelf.file(a), shelf.file(b)) {
        (Some(x), Some(y)) => Ok(x == y),
        _ => Ok(false),
    }
}

/// A digit of a byte in hexadecimal.
fn digit(b: u8) -> u8 {
    match b % 16 {
        n @ 0..=9 => b'0' + n,
        n => b'a' + (n - 10),
    }
}

/// A file of the shelf, which is put there first if it isn't there yet.
fn file_of<'a, D: Shelf>(
    alloc: Global,
    disk: &mut D,
    shelf: &'a mut SureShelf,
    name: &str,
) -> Result<&'a [u8], Stop> {
    fetch(alloc, disk, shelf, name)?;
    match shelf.file(name) {
        Some(bytes) => Ok(bytes),
        None => Err(Stop::Failed),
    }
}

/// Prints bytes in hexadecimal, each behind a blank, 16 in a line.
fn print_bytes<K: Sink>(alloc: Global, out: &mut K, bytes: &[u8]) -> Result<(), Stop> {
    let mut text = Vec::new(alloc);
    for line in bytes.chunks(16) {
        for b in line {
            text.push(b' ')?;
            text.push(digit(*b / 16))?;
            text.push(digit(*b))?;
        }
        text.push(b'\n')?;
    }
    send(out, &text)?;
    Ok(())
}

/// The last bytes, so many, or all where there are fewer.
fn end_of(bytes: &[u8], count: usize) -> &[u8] {
    if count >= bytes.len() {
        return bytes;
    }
    &bytes[bytes.len() - count..]
}

/// Prints the first lines, so many, or all where there are fewer.
fn print_first<K: Sink>(out: &mut K, bytes: &[u8], count: usize) -> Result<(), Stop> {
    for line in bytes.split_inclusive(|b| *b == b'\n').take(count) {
        send(out, line)?;
    }
    Ok(())
}

/// A number, and what stands behind the blank after it.
fn numbered(words: &str) -> Result<(usize, &str), Stop> {
    let Some((number, name)) = words.split_once(' ') else {
        return Err(Stop::Failed);
    };
    match number.parse::<u32>() {
        Ok(number) => Ok((number as usize, name)),
        Err(_) => Err(Stop::Failed),
    }
}

/// Prints bytes, and a line end behind them where they have none.
fn print_all<K: Sink>(out: &mut K, bytes: &[u8]) -> Result<(), Stop> {
    send(out, bytes)?;
    if !bytes.ends_with(b"\n") {
        send(out, b"\n")?;
    }
    Ok(())
}

/// Prints the last line of a file.
fn print_last<D: Shelf, K: Sink>(
    alloc: Global,
    disk: &mut D,
    shelf: &mut SureShelf,
    out: &mut K,
    name: &str,
) -> Result<(), Stop> {
    fetch(alloc, disk, shelf, name)?;
    let Some(bytes) = shelf.file(name) else {
        return Err(Stop::Failed);
    };
    let Ok(text) = std::str::from_utf8(bytes) else {
        return Err(Stop::Failed);
    };
    let whole = match text.strip_suffix("\n") {
        Some(lines) => lines,
        None => text,
    };
    match whole.rsplit_once('\n') {
        Some((_, last)) => send(out, last.as_bytes())?,
        None => send(out, whole.as_bytes())?,
    }
    send(out, b"\n")?;
    Ok(())
}

/// Does what a line says.
fn follow<D: Shelf, K: Sink>(
    alloc: Global,
    disk: &mut D,
    shelf: &mut SureShelf,
    out: &mut K,
    line: &str,
) -> Result<(), Stop> {
    send(out, b"$ ")?;
    send(out, line.as_bytes())?;
    send(out, b"\n")?;
    if let Some(words) = line.strip_prefix("ctwasm ") {
        return call(alloc, disk, shelf, out, words);
    }
    if let Some(files) = line.strip_prefix("same ") {
        let told: &[u8] = if is_same(alloc, disk, shelf, files)? {
            b"same\n"
        } else {
            b"differ\n"
        };
        send(out, told)?;
    }
    if let Some(name) = line.strip_prefix("last ") {
        return print_last(alloc, disk, shelf, out, name);
    }
    if let Some(words) = line.strip_prefix("first ") {
        let (count, name) = numbered(words)?;
        return print_first(out, file_of(alloc, disk, shelf, name)?, count);
    }
    if let Some(name) = line.strip_prefix("shows ") {
        return print_all(out, file_of(alloc, disk, shelf, name)?);
    }
    if let Some(name) = line.strip_prefix("bytes ") {
        return print_bytes(alloc, out, file_of(alloc, disk, shelf, name)?);
    }
    if let Some(words) = line.strip_prefix("end ") {
        let (count, name) = numbered(words)?;
        let bytes = file_of(alloc, disk, shelf, name)?;
        return print_bytes(alloc, out, end_of(bytes, count));
    }
    if let Some(name) = line.strip_prefix("size ") {
        let mut buffer = Buffer::new();
        let size = file_of(alloc, disk, shelf, name)?.len();
        send(out, buffer.format(size).as_bytes())?;
        send(out, b"\n")?;
    }
    Ok(())
}

/// Does what each line of the file `commands` says.
fn replay<D: Shelf, K: Sink>(alloc: Global, disk: &mut D, out: &mut K) -> Result<(), Stop> {
    let Loaded::Whole(bytes) = disk.load(alloc, "commands", MOST)? else {
        return Err(Stop::Failed);
    };
    let Ok(text) = std::str::from_utf8(&bytes) else {
        return Err(Stop::Failed);
    };
    let mut shelf = SureShelf::new(alloc, Vec::new(alloc));
    for line in text.lines() {
        follow(alloc, disk, &mut shelf, out, line)?;
    }
    Ok(())
}

fn main(rt: HostRuntime) -> ExitCode {
    let mut disk = DirShelf::new(&rt);
    let mut out = OutSink::new(&rt);
    match replay(rt.alloc(), &mut disk, &mut out) {
        Ok(()) => ExitCode::from(0),
        Err(Stop::Failed) => ExitCode::from(4),
        Err(Stop::NoMemory) => ExitCode::from(6),
    }
}
