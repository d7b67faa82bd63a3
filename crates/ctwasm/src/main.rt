//! The program: the command line over the files of the working directory and standard output.
#![tactic(auto)]

ghost use Rattle.std.specs.Prelude.{◌≡◌, Some, slice_get};
ghost use Rattle.ctwasm.specs.Numbers.{statuses};

use ctw_io::{DirShelf, OutSink};
use ctwasm_top::{Status, ctwasm};
use std::env;
use std::io::{self, ErrorKind};
use std::process::ExitCode;

/// Where the words can't be had from the system.
const NO_WORDS: u8 = 8;

/// The number of a status, from 0 to 7; so it is never the one that says that there were no words.
fn number(status: Status) -> u8
    ensures { slice_get statuses result ≡ Some status }
{
    match status {
        Status::Done => 0,
        Status::Refused => 1,
        Status::Usage => 2,
        Status::NoLabelling => 3,
        Status::ReadFault => 4,
        Status::WriteFault => 5,
        Status::NoMemory => 6,
        Status::SaveFault => 7,
    }
}

/// The words after the program's name.
fn words(rt: &HostRuntime) -> io::Result<Vec<String>> {
    let mut words = Vec::new(rt.alloc());
    for word in env::args(rt)?.skip(1) {
        words.push(word)?;
    }
    Ok(words)
}

fn main(rt: HostRuntime) -> ExitCode {
    let words = match words(&rt) {
        Ok(words) => words,
        Err(error) if error.kind() == ErrorKind::OutOfMemory => {
            return ExitCode::from(number(Status::NoMemory));
        }
        Err(_) => return ExitCode::from(NO_WORDS),
    };
    let mut shelf = DirShelf::new(&rt);
    let mut out = OutSink::new(&rt);
    ExitCode::from(number(ctwasm(rt.alloc(), &words, &mut shelf, &mut out)))
}
