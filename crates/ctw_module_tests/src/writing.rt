use crate::cases::bytes_in;
use ctw_read::read;
use ctw_write::{ModuleWriter, canon};
use std::alloc::{AllocError, Global};

/// The first eight bytes of a plain module.
const PLAIN: &str = "00 61 73 6D 01 00 00 00";

/// No types, with their count in five bytes.
const NO_TYPES: &str = "00 61 73 6D 01 00 00 00 01 05 80 80 80 80 00";

/// A plain module with padded numbers, an empty section, custom sections at many places and locals in many groups.
const LOOSE: &str = "\
00 61 73 6D 01 00 00 00 -- magic and version
00 82 00 01 61 -- custom section 'a'
01 85 00 81 00 60 00 00 -- a type
00 02 01 62 -- custom section 'b'
02 01 00 -- imports
00 02 01 63 -- custom section 'c'
03 02 01 00 -- a function
00 02 01 64 -- custom section 'd'
05 04 01 00 82 00 -- a memory of two pages
00 02 01 65 -- custom section 'e'
0A 10 01 -- code
0E 04 01 7F 00 7E 02 7F 01 7E -- three narrow and one wide
41 80 00 1A 0B -- a number that is dropped
00 02 01 66 -- custom section 'f'";

/// The same, canonically.
const TIGHT: &str = "\
00 61 73 6D 01 00 00 00 -- magic and version
00 02 01 61 -- custom section 'a'
01 04 01 60 00 00 -- a type
00 02 01 62 -- custom section 'b'
00 02 01 63 -- custom section 'c'
03 02 01 00 -- a function
00 02 01 64 -- custom section 'd'
05 03 01 00 02 -- a memory of two pages
00 02 01 65 -- custom section 'e'
0A 0B 01 -- code
09 02 03 7F 01 7E -- three narrow and one wide
41 00 1A 0B -- a number that is dropped
00 02 01 66 -- custom section 'f'";

/// A CT module with all sections and all that only CT modules have; it is canonical.
const LABELLED: &str = "\
00 61 73 6D 01 00 43 54 -- magic and version
01 12 03 -- types
61 02 7F 79 01 7A -- trusted, public narrow and secret wide to secret narrow
60 00 00 -- untrusted, without parameters and result
62 00 00 02 7F 7E 01 7F -- a variant of entry zero
02 1E 04 -- imports
01 6D 01 66 00 01 -- 'm' 'f', a function of type one
01 6D 01 67 03 7F 00 -- 'm' 'g', a constant public narrow
01 6D 01 74 01 70 00 01 -- 'm' 't', a table
01 6D 01 79 02 11 01 02 -- 'm' 'y', a secret memory
03 02 01 01 -- a function of type one
06 07 01 7A 01 E0 41 05 0B -- a mutable secret narrow
07 05 01 01 61 00 01 -- 'a', function one
08 01 01 -- start
09 07 01 00 23 00 0B 01 00 -- function zero from global zero on
0A 28 01 26 01 02 7A -- code with two secret locals
41 01 0E 01 00 00 -- a branch table
41 00 04 40 05 0B -- an if with an empty else
41 00 E0 28 02 04 -- a secret load
20 00 E0 6A 21 00 -- a secret sum
41 05 E1 E3 1A -- classified, declassified and dropped
20 00 1A 01 01 0B -- dropped
0B 09 01 00 41 00 0B 03 01 02 03 -- a data segment";

#[test]
fn the_canonical_spelling_is_written(rt: HostRuntime) {
    // a section without items is left out, numbers and groups become minimal, canonical bytes stay as they are
    let table = [(NO_TYPES, PLAIN), (LOOSE, TIGHT), (LABELLED, LABELLED)];
    for (digits, want) in table {
        let bytes = bytes_in(&rt, rt.alloc(), digits);
        let module = read(rt.alloc(), &bytes).expect(&rt, "a module");
        let spelled = canon(rt.alloc(), &module).expect(&rt, "memory");
        assert!(rt; spelled == bytes_in(&rt, rt.alloc(), want), "{digits}");
    }
}

/// A plain module with a custom section and an empty one.
fn written(alloc: Global) -> Result<Vec<u8>, AllocError> {
    let mut writer = ModuleWriter::new(alloc, false)?;
    writer.section(0, &[0x01, 0x61])?;
    writer.section(1, &[0x00])?;
    Ok(writer.finish())
}

#[test]
fn sections_are_written_one_after_another(rt: HostRuntime) {
    let bytes = written(rt.alloc()).expect(&rt, "memory");
    let want = "00 61 73 6D 01 00 00 00 00 02 01 61 01 01 00";
    assert!(rt; bytes == bytes_in(&rt, rt.alloc(), want));
}
