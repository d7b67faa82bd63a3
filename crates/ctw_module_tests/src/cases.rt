ghost use Rattle.std.specs.Prelude.{◌<◌, length};

use ctw_tests::{answer, bytes_of};
use std::alloc::{AllocError, Global};
use std::process::Abort;

/// The bytes that a short text spells.
pub fn bytes_in(rt: &impl Abort, alloc: Global, text: &str) -> Vec<u8>
    ensures { length result.items < 1000 }
{
    let bytes = bytes_of(alloc, text).expect(rt, "memory");
    assert!(rt; bytes.len() < 1000);
    bytes
}

/// What a call gave, as text, is the answer of its row.
pub fn agrees(rt: &impl Abort, row: &str, given: Result<String, AllocError>) {
    let given = given.expect(rt, "memory");
    assert_eq!(rt; given.as_str(), answer(row), "{row}");
}
