use ctw_io::{Shelf, SureShelf, SureSink};
use ctw_tests::bytes_of;
use ctwasm_top::{Status, ctwasm};
use std::alloc::{AllocError, Global};
use std::process::Abort;

/// What `ctwasm` writes for words that have none of its forms.
pub const USAGE: &str = "\
usage: ctwasm check M
       ctwasm canon M
       ctwasm text M
       ctwasm assemble T
       ctwasm infer M MARKS
       ctwasm strip M
       ctwasm link NAME=M..
       ctwasm run SCRIPT VAULT SEALED NAME=M..
       ctwasm once M VAULT SEALED EXPORT ARG..
       ctwasm work SEED SIZE
       ctwasm mul COMMAND..
";

/// The words of a line, between single blanks.
pub fn words_of(alloc: Global, line: &str) -> Result<Vec<String>, AllocError> {
    let mut words = Vec::new(alloc);
    for word in line.split(' ') {
        words.push(String::from_str(alloc, word)?)?;
    }
    Ok(words)
}

/// Saves a file, given in hexadecimal.
pub fn save(rt: &impl Abort, alloc: Global, shelf: &mut impl Shelf, name: &str, digits: &str) {
    let bytes = bytes_of(alloc, digits).expect(rt, "memory");
    assert_eq!(rt; shelf.save(name, &bytes), Ok(()));
}

/// A shelf with these files, given by their names and in hexadecimal, which doesn't fail.
pub fn shelf_of(rt: &impl Abort, alloc: Global, files: &[(&str, &str)]) -> SureShelf {
    let mut shelf = SureShelf::new(alloc, Vec::new(alloc));
    for (name, digits) in files {
        save(rt, alloc, &mut shelf, *name, *digits);
    }
    shelf
}

/// What the words of a line write over this shelf, where they do their work.
pub fn written(rt: &impl Abort, alloc: Global, line: &str, shelf: &mut impl Shelf) -> Vec<u8> {
    let words = words_of(alloc, line).expect(rt, "memory");
    let mut out = SureSink::new(alloc, 1000);
    assert_eq!(rt;
        ctwasm(alloc, &words, shelf, &mut out),
        Status::Done,
        "{line}"
    );
    Vec::from_slice(alloc, out.taken()).expect(rt, "memory")
}

/// The words of a line, over this shelf, have this status, and these bytes are written.
pub fn writes(
    rt: &impl Abort,
    alloc: Global,
    line: &str,
    shelf: &mut impl Shelf,
    status: Status,
    bytes: &[u8],
) {
    let words = words_of(alloc, line).expect(rt, "memory");
    let mut out = SureSink::new(alloc, 1000);
    assert_eq!(rt; ctwasm(alloc, &words, shelf, &mut out), status, "{line}");
    assert_eq!(rt; out.taken(), bytes, "{line}");
}

/// The same, with text, and the status 1 for a refusal, else 0.
pub fn says(rt: &impl Abort, alloc: Global, line: &str, shelf: &mut impl Shelf, text: &str) {
    let status = if text.starts_with("refused ") {
        Status::Refused
    } else {
        Status::Done
    };
    writes(rt, alloc, line, shelf, status, text.as_bytes());
}

/// The same for words over one file m, given in hexadecimal.
pub fn says_of(rt: &impl Abort, alloc: Global, line: &str, module: &str, text: &str) {
    let mut shelf = shelf_of(rt, alloc, &[("m", module)]);
    says(rt, alloc, line, &mut shelf, text);
}

/// The canonical spelling of a module is this, both in hexadecimal.
pub fn is_spelled(rt: &impl Abort, alloc: Global, module: &str, want: &str) {
    let mut shelf = shelf_of(rt, alloc, &[("m", module)]);
    let bytes = bytes_of(alloc, want).expect(rt, "memory");
    writes(rt, alloc, "canon m", &mut shelf, Status::Done, &bytes);
}

/// The stripped module of a valid one is this, both in hexadecimal.
pub fn is_stripped(rt: &impl Abort, alloc: Global, module: &str, want: &str) {
    let mut shelf = shelf_of(rt, alloc, &[("m", module)]);
    let bytes = bytes_of(alloc, want).expect(rt, "memory");
    writes(rt, alloc, "strip m", &mut shelf, Status::Done, &bytes);
}

/// The file s has these bytes, in hexadecimal.
pub fn is_sealed(rt: &impl Abort, alloc: Global, shelf: &SureShelf, want: &str) {
    let bytes = bytes_of(alloc, want).expect(rt, "memory");
    assert_eq!(rt; shelf.file("s"), Some(bytes.as_slice()));
}
