ghost use Rattle.std.specs.Prelude.{◌<◌, length};
ghost use Rattle.ctw_module_tests.specs.Small.{IsSmall};

use crate::cases::bytes_in;
use ctw_link::{LinkedSet, Part, link};
use ctw_modcheck::check;
use ctw_ops::Name;
use ctw_read::read;
use std::alloc::Global;
use std::process::Abort;

/// A module that exports a function, a memory and a global.
const EXPORTER: &str = "\
00 61 73 6D 01 00 43 54
01 04 01 60 00 00
03 02 01 00
05 03 01 00 01
06 06 01 7F 00 41 07 0B
07 0D 03 01 66 00 00 01 6D 02 00 01 67 03 00
0A 04 01 02 00 0B";

/// A module that imports these from `a`, and defines two functions, a table and a global.
/// The first function is a block.
const IMPORTER: &str = "\
00 61 73 6D 01 00 43 54
01 04 01 60 00 00
02 15 03 01 61 01 66 00 00 01 61 01 6D 02 00 01 01 61 01 67 03 7F 00
03 03 02 00 00
04 04 01 70 00 02
06 07 01 79 01 E0 42 05 0B
0A 0B 02 05 00 02 40 0B 0B 03 00 01 0B";

/// The store numbers of a part's first globals.
fn globals(rt: &impl Abort, set: &LinkedSet, part: u32, numbers: &[u32]) {
    let parts = set.parts();
    assert!(rt; (part as usize) < parts.len());
    assert!(rt; parts[part as usize].module.global_count() as usize == numbers.len());
    for index in 0..parts[part as usize].module.global_count() {
        assert!(rt; set.global_of(part, index) == numbers[index as usize]);
    }
}

/// The store numbers of a part's memory and table.
fn memory_and_table(
    rt: &impl Abort,
    set: &LinkedSet,
    part: u32,
    memory: Option<u32>,
    table: Option<u32>,
) {
    let parts = set.parts();
    assert!(rt; (part as usize) < parts.len());
    assert!(rt; set.memory_of(part) == memory);
    assert!(rt; set.table_of(part) == table);
}

/// A function of a part by its index: its number in the store, the part and index that define it, and where the block
/// at the start of its body ends.
fn function(
    rt: &impl Abort,
    set: &LinkedSet,
    (part, index): (u32, u32),
    number: u32,
    owner: (u32, u32),
    ends: Option<(usize, Option<usize>)>,
) {
    let parts = set.parts();
    assert!(rt; (part as usize) < parts.len());
    assert!(rt; index < parts[part as usize].module.func_count());
    let func = set.func(part, index);
    assert!(rt; func == number);
    assert!(rt; set.owner(func) == owner);
    assert!(rt; set.blocks(func).ends(0) == ends);
}

/// A part of this name, whose module these bytes spell; it is valid and small.
fn part_of<'a>(rt: &impl Abort, alloc: Global, name: &str, bytes: &'a [u8]) -> Part<'a>
    requires { length bytes.now < 1000 }
    ensures { IsSmall result }
{
    let module = read(alloc, bytes).expect(rt, "a module");
    check(alloc, &module).expect(rt, "a valid module");
    assert!(rt; module.func_count() < 1000);
    assert!(rt; module.global_count() < 1000);
    let name = String::from_str(alloc, name).expect(rt, "memory");
    Part {
        name: Name::new(name),
        module,
    }
}

/// Two small parts, linked.
fn linked<'a>(rt: &impl Abort, alloc: Global, first: Part<'a>, second: Part<'a>) -> LinkedSet<'a>
    requires first { IsSmall first }
    requires second { IsSmall second }
{
    let parts = vec![in alloc; first, second].expect(rt, "memory");
    link(alloc, parts).ok().expect(rt, "parts that match")
}

#[test]
fn each_index_leads_to_the_number_of_its_kind(rt: HostRuntime) {
    let alloc = rt.alloc();
    let exporter = bytes_in(&rt, alloc, EXPORTER);
    let importer = bytes_in(&rt, alloc, IMPORTER);
    let first = part_of(&rt, alloc, "a", &exporter);
    let second = part_of(&rt, alloc, "b", &importer);
    let set = linked(&rt, alloc, first, second);
    function(&rt, &set, (0, 0), 0, (0, 0), None);
    function(&rt, &set, (1, 0), 0, (0, 0), None);
    function(&rt, &set, (1, 1), 1, (1, 1), Some((2, None)));
    function(&rt, &set, (1, 2), 2, (1, 2), None);
    globals(&rt, &set, 0, &[0]);
    globals(&rt, &set, 1, &[0, 1]);
    memory_and_table(&rt, &set, 0, Some(0), None);
    memory_and_table(&rt, &set, 1, Some(0), Some(0));
}
