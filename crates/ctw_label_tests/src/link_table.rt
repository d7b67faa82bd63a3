ghost use Rattle.std.specs.Prelude.{◌≡◌, ◌<◌, length};

use crate::cases::{module_under, numbered, points_of, row_bytes};
use ctw_flow::Graph;
use ctw_links::{Links, collect};
use ctw_ops::Profile;
use ctw_sites::Points;
use ctw_tests::answer;
use std::alloc::{AllocError, Global};
use std::process::Abort;

/// What a row is about, the sections of a plain module, and its count of sites, links and public sites: `a>b.r` is the
/// link from site a to site b, whose least rule is r, and `a!r` a site that is public by rule r, the least one.
///
/// The rules by number: yield 1, operand 2, select 3, local 4, global 5, memory 6, argument 7, branch 8, targets 9,
/// leave 10, table 11, init 12; and condition 13, index 14, address 15, divide 16, grow 17, offset 18.
///
/// Each rule has rows with live code and with dead code, but for init and offset. These two speak of the constant
/// expressions with which globals and segments begin. They stand in no body, so no code before them makes them dead.
const LINKS: &str = "\
yield, of a local, a global, the memory and a call: 01060160017F017F 03020100 0503010001 0606017F0041000B 0A1701150020001A23001A41002802001A410010001A3F000B => 11 sites 0>4.1 0>8.7 1>9.1 1>10.10 2>5.1 3>7.1 8>0.7 10>1.10 6!15
yield, in dead code: 01060160017F017F 03020100 0A070105000020000B => 3 sites 0>2.1 1>2.10 2>1.10
operand, of an addition: 01070160027F7F017F 03020100 0A09010700200020016A0B => 7 sites 0>3.1 1>4.1 2>6.10 3>5.2 4>5.2 5>3.2 5>4.2 5>6.1 6>2.10
operand, an unknown one in dead code: 0105016000017F 03020100 0A080106000041016A0B => 4 sites 0>3.10 1>2.2 2>1.2 2>3.1 3>0.10
select, its operands and the condition: 01080160037F7F7F017F 03020100 0A0B0109002000200120021B0B => 9 sites 0>4.1 1>5.1 2>6.1 3>8.10 4>7.3 5>7.3 6>7.3 7>4.3 7>5.3 7>6.3 7>8.1 8>3.10
select, an unknown operand in dead code: 0105016000017F 03020100 0A0A01080000410141021B0B => 5 sites 0>4.10 1>3.3 2>3.3 3>1.3 3>2.3 3>4.1 4>0.10
select, two unknown operands in dead code and no push: 0105016000017F 03020100 0A06010400001B0B => 2 sites 0>1.10 1>0.10
select, two unknown operands and what uses its value: 0105016000017F 03020100 0A07010500001B450B => 4 sites 0>3.10 1>2.2 2>1.2 2>3.1 3>0.10
local, tee and set: 01060160017F017F 03020100 0A0E010C01017F20002201210020010B => 6 sites 0>3.1 0>4.4 1>5.10 2>3.4 2>4.1 2>5.1 3>2.4 4>0.4 5>1.10
local, in dead code: 01050160017F00 03020100 0A0B010900002100220021000B => 2 sites 0>1.1 1>0.4
local, known values in dead code: 01050160017F00 03020100 0A0B010900004101220021000B => 3 sites 0>1.4 0>2.1 1>0.4 2>0.4
global, set: 01050160017F00 03020100 0606017F0141000B 0A08010600200024000B => 3 sites 0>2.1 1>2.5 2>1.5
global, in dead code: 010401600000 03020100 0606017F0141000B 0A0B010900002400230024000B => 2 sites 0>1.1 1>0.5
global, a known value in dead code: 010401600000 03020100 0606017F0141000B 0A0901070000410124000B => 2 sites 0>1.5 1>0.5
memory, a store: 01060160027F7F00 03020100 0503010001 0A0B010900200020013602000B => 5 sites 0>3.1 1>4.1 2>4.6 4>2.6 3!15
memory, a store with an unknown address in dead code: 010401600000 03020100 0503010001 0A0A0108000041013602000B => 2 sites 0>1.6 1>0.6
argument, of a call: 01070160027F7F017F 03020100 0A0A0108002001200010000B => 6 sites 0>3.7 0>4.1 1>3.1 1>4.7 2>5.1 3>0.7 4>1.7 5>2.10
argument, an unknown one in dead code: 01070160027F7F017F 03020100 0A0901070000410110000B => 5 sites 1>3.7 2>4.1 3>1.7 4>2.10
argument, of an imported function: 01060160017F017F 020701016D01660000 03020100 0A08010600200010000B => 6 sites 0>4.7 1>5.1 2>4.1 3>5.10 4>0.7 5>3.10
argument, of an indirect call: 01060160017F017F 03020100 040401700002 0A0B010900200041001100000B => 7 sites 0>2.1 1>6.10 2>4.7 4>2.7 4>4.11 5>5.11 5>6.1 6>1.10 3!14
argument, of an indirect call in dead code: 01060160017F017F 03020100 040401700002 0A08010600001100000B => 5 sites 1>4.10 2>2.11 3>3.11 3>4.1 4>1.10
argument, a known one of an indirect call in dead code: 01050160017F00 03020100 040401700002 0A0C010A0000410141001100000B => 4 sites 1>3.7 3>1.7 3>3.11 2!14
branch, out of a block: 01060160017F017F 03020100 0A0B010900027F20000C000B0B => 5 sites 0>4.1 1>3.10 2>3.1 2>4.8 3>1.10 4>2.8
branch, out of the body: 01060160017F017F 03020100 0A0801060020000C000B => 3 sites 0>2.1 1>2.8 2>1.8
branch, to a loop with nothing: 01060160017F017F 03020100 0A0B010900037F20000C000B0B => 5 sites 0>4.1 1>3.10 2>3.1 3>1.10
branch, on a condition: 01070160027F7F017F 03020100 0A0D010B00027F200020010D000B0B => 8 sites 0>5.1 1>6.1 2>4.10 3>4.1 3>5.8 3>7.1 4>2.10 5>3.8 7>3.10 6!13
branch, on a condition in dead code: 0105016000017F 03020100 0A090107000041010D000B => 3 sites 0>2.1 2>0.10 1!13
branch, of an unknown value in dead code: 0105016000017F 03020100 0A0A010800027F000C000B0B => 3 sites 0>2.10 1>2.1 2>0.10
branch, of a known value in dead code: 0105016000017F 03020100 0A0C010A00027F0041010C000B0B => 4 sites 0>2.10 1>2.1 1>3.8 2>0.10 3>1.8
branch, of a known value on a condition in dead code: 0105016000017F 03020100 0A0E010C00027F00410141010D000B0B => 6 sites 0>2.10 1>2.1 1>3.8 1>5.1 2>0.10 3>1.8 5>1.10 4!13
targets, of a block and the body: 01070160027F7F017F 03020100 0A0F010D00027F200020010E0100010B0B => 7 sites 0>5.1 1>6.1 2>3.9 2>4.10 2>5.8 3>2.9 3>4.1 4>2.10 5>2.8 6!14
targets, the default's own: 01060160017F017F 03020100 0A0C010A00200020000E0100000B => 4 sites 0>2.1 0>3.1 1>1.9 1>2.8 2>1.8 3!14
targets, in dead code: 0105016000017F 03020100 0A0C010A00027F000E0100010B0B => 3 sites 0>1.9 0>2.10 1>0.9 1>2.1 2>0.10
targets, known values in dead code: 0105016000017F 03020100 0A10010E00027F00410141000E0100010B0B => 5 sites 0>1.9 0>2.10 0>3.8 1>0.9 1>2.1 2>0.10 3>0.8 4!14
leave, two arms: 01070160027F7F017F 03020100 0A0E010C002000047F20010541010B0B => 8 sites 0>3.1 1>6.1 2>5.10 4>5.1 4>6.10 4>7.10 5>2.10 6>4.10 7>4.10 3!13
leave, a dead arm: 01060160017F017F 03020100 0A0D010B002000047F000541010B0B => 6 sites 0>2.1 1>4.10 3>4.1 3>5.10 4>1.10 5>3.10 2!13
leave, a loop: 01060160017F017F 03020100 0A09010700037F20000B0B => 5 sites 0>4.1 1>3.10 2>3.1 2>4.10 3>1.10 4>2.10
leave, by return: 01060160017F017F 03020100 0A0701050020000F0B => 3 sites 0>2.1 1>2.10 2>1.10
leave, by return in dead code: 0105016000017F 03020100 0A06010400000F0B => 1 sites
leave, by return of a known value in dead code: 0105016000017F 03020100 0A080106000041010F0B => 2 sites 0>1.10 1>0.10
leave, two arms in dead code: 0105016000017F 03020100 0A0D010B0000047F41010541020B0B => 5 sites 0>2.10 1>2.1 1>3.10 1>4.10 2>0.10 3>1.10 4>1.10
leave, a loop in dead code: 0105016000017F 03020100 0A0A01080000037F41010B0B => 4 sites 0>2.10 1>2.1 1>3.10 2>0.10 3>1.10
table, entries and then indirect calls: 01060160017F017F 0303020000 040401700002 0908010041000B020100 0A1002040020000B0900200041001100000B => 10 sites 0>2.11 0>4.1 1>3.11 1>4.10 2>0.11 2>2.11 2>5.1 2>7.11 3>1.11 3>3.11 3>8.11 3>9.10 4>1.10 5>7.7 7>2.11 7>5.7 8>3.11 8>9.1 9>3.10 6!14
table, types that erase alike and one that doesn't: 010D0360017F0060017E0060017F00 021303016D01660000016D01670001016D01680002 040401700002 0909010041000B03020100 => 3 sites 0>2.11 1>1.11 2>0.11 2>2.11
table, an indirect call and another in dead code: 0105016000017F 03020100 040401700002 0A0F010D0041001100000F41001100000B => 7 sites 0>3.10 0>6.10 2>2.11 2>3.1 2>5.11 3>0.10 5>2.11 5>6.1 6>0.10 1!14 4!14
init, a global that begins as another: 020801016D0167037F00 0606017F0023000B => 2 sites 0>1.12 1>0.12
condition, an unknown one in dead code: 010401600000 03020100 0A080106000004400B0B => 0 sites
condition, a known one in dead code: 010401600000 03020100 0A0A01080000410104400B0B => 1 sites 0!13
condition, a select of unknown operands: 010401600000 03020100 0A08010600001B0D000B => 1 sites 0!13
index, of a table of branches: 01050160017F00 03020100 0A0901070020000E00000B => 2 sites 0>1.1 1!14
index, in dead code: 010401600000 03020100 0A0A0108000041000E00000B => 1 sites 0!14
index, an unknown one in dead code: 010401600000 03020100 0A08010600000E00000B => 0 sites
address, of a load: 01060160017F017F 03020100 0503010001 0A0901070020002802000B => 5 sites 0>3.1 1>4.10 2>4.1 4>1.10 3!15
address, an unknown one in dead code: 010401600000 03020100 0503010001 0A09010700002802001A0B => 2 sites 0>1.1
address, a known one of a load in dead code: 010401600000 03020100 0503010001 0A0B0109000041002802001A0B => 3 sites 0>2.1 1!15
address, a known one of a store in dead code: 010401600000 03020100 0503010001 0A0C010A0000410041013602000B => 3 sites 0>2.6 2>0.6 1!15
divide, a quotient: 01070160027F7F017F 03020100 0A09010700200020016E0B => 7 sites 0>3.1 1>4.1 2>6.10 3>5.2 4>5.2 5>3.2 5>4.2 5>6.1 6>2.10 5!16
divide, a remainder: 01070160027E7E017E 03020100 0A0901070020002001810B => 7 sites 0>3.1 1>4.1 2>6.10 3>5.2 4>5.2 5>3.2 5>4.2 5>6.1 6>2.10 5!16
divide, in dead code: 0105016000017F 03020100 0A06010400006D0B => 3 sites 0>2.10 1>2.1 2>0.10 1!16
divide, known operands in dead code: 0105016000017F 03020100 0A0A01080000410141026D0B => 5 sites 0>4.10 1>3.2 2>3.2 3>1.2 3>2.2 3>4.1 4>0.10 3!16
divide, not a product of 32 bits: 01070160027F7F017F 03020100 0A09010700200020016C0B => 7 sites 0>3.1 1>4.1 2>6.10 3>5.2 4>5.2 5>3.2 5>4.2 5>6.1 6>2.10
divide, not a product of 64 bits: 01070160027E7E017E 03020100 0A09010700200020017E0B => 7 sites 0>3.1 1>4.1 2>6.10 3>5.2 4>5.2 5>3.2 5>4.2 5>6.1 6>2.10
grow, of a memory: 01060160017F017F 03020100 0503010001 0A08010600200040000B => 5 sites 0>3.1 1>4.10 4>1.10 3!17
grow, an unknown operand in dead code: 010401600000 03020100 0503010001 0A080106000040001A0B => 2 sites
grow, a known operand in dead code: 010401600000 03020100 0503010001 0A0A01080000410040001A0B => 3 sites 1!17
offset, of an element and a segment: 020F02016D0167037F00016D0168037F00 040401700002 0503010001 0906010023000B00 0B06010023010B00 => 3 sites 0!18 1!18
";

/// Rows as above, of modules under the profile in which multiplications leak.
const MULTIPLIED: &str = "\
divide, a product of 32 bits: 01070160027F7F017F 03020100 0A09010700200020016C0B => 7 sites 0>3.1 1>4.1 2>6.10 3>5.2 4>5.2 5>3.2 5>4.2 5>6.1 6>2.10 5!16
divide, a product of 64 bits: 01070160027E7E017E 03020100 0A09010700200020017E0B => 7 sites 0>3.1 1>4.1 2>6.10 3>5.2 4>5.2 5>3.2 5>4.2 5>6.1 6>2.10 5!16
divide, a product of unknown operands in dead code: 0105016000017F 03020100 0A06010400006C0B => 3 sites 0>2.10 1>2.1 2>0.10 1!16
divide, a product of known operands in dead code: 0105016000017E 03020100 0A0A01080000420142027E0B => 5 sites 0>4.10 1>3.2 2>3.2 3>1.2 3>2.2 3>4.1 4>0.10 3!16
divide, a quotient: 01070160027F7F017F 03020100 0A09010700200020016D0B => 7 sites 0>3.1 1>4.1 2>6.10 3>5.2 4>5.2 5>3.2 5>4.2 5>6.1 6>2.10 5!16
divide, a remainder: 01070160027E7E017E 03020100 0A0901070020002001820B => 7 sites 0>3.1 1>4.1 2>6.10 3>5.2 4>5.2 5>3.2 5>4.2 5>6.1 6>2.10 5!16
divide, not a difference of 32 bits: 01070160027F7F017F 03020100 0A09010700200020016B0B => 7 sites 0>3.1 1>4.1 2>6.10 3>5.2 4>5.2 5>3.2 5>4.2 5>6.1 6>2.10
divide, not a difference of 64 bits: 01070160027E7E017E 03020100 0A09010700200020017D0B => 7 sites 0>3.1 1>4.1 2>6.10 3>5.2 4>5.2 5>3.2 5>4.2 5>6.1 6>2.10
";

/// Trusted functions, opcodes in them that release what they push, and a row as above: a push that is released has no
/// link by the rule yield.
const RELEASED: [(&[u32], &[(u32, u32)], &str); 19] = [
    (
        &[0],
        &[],
        "trust alone: 01060160017F017F 03020100 0A0901070020004101710B => 6 sites 0>2.1 1>5.10 2>4.2 3>4.2 4>2.2 4>3.2 4>5.1 5>1.10",
    ),
    (
        &[0],
        &[(0, 2)],
        "of an operation: 01060160017F017F 03020100 0A0901070020004101710B => 6 sites 0>2.1 1>5.10 2>4.2 3>4.2 4>2.2 4>3.2 5>1.10",
    ),
    (
        &[0],
        &[(0, 0)],
        "of a local: 01060160017F017F 03020100 0A0901070020004101710B => 6 sites 1>5.10 2>4.2 3>4.2 4>2.2 4>3.2 4>5.1 5>1.10",
    ),
    (
        &[0],
        &[(0, 1)],
        "of a constant, which has no yield: 01060160017F017F 03020100 0A0901070020004101710B => 6 sites 0>2.1 1>5.10 2>4.2 3>4.2 4>2.2 4>3.2 4>5.1 5>1.10",
    ),
    (
        &[0],
        &[(0, 2), (0, 0)],
        "two: 01060160017F017F 03020100 0A0901070020004101710B => 6 sites 1>5.10 2>4.2 3>4.2 4>2.2 4>3.2 5>1.10",
    ),
    (
        &[0],
        &[(0, 0), (0, 2), (0, 5), (0, 8), (0, 10)],
        "of a local, a global, the memory, a call and its size: 01060160017F017F 03020100 0503010001 0606017F0041000B 0A1701150020001A23001A41002802001A410010001A3F000B => 11 sites 0>8.7 1>10.10 8>0.7 10>1.10 6!15",
    ),
    (
        &[0],
        &[(0, 3)],
        "of a select: 01080160037F7F7F017F 03020100 0A0B0109002000200120021B0B => 9 sites 0>4.1 1>5.1 2>6.1 3>8.10 4>7.3 5>7.3 6>7.3 7>4.3 7>5.3 7>6.3 8>3.10",
    ),
    (
        &[0],
        &[(0, 1)],
        "of a tee: 01060160017F017F 03020100 0A0E010C01017F20002201210020010B => 6 sites 0>3.1 0>4.4 1>5.10 2>3.4 2>5.1 3>2.4 4>0.4 5>1.10",
    ),
    (
        &[0],
        &[(0, 2)],
        "of an indirect call: 01060160017F017F 03020100 040401700002 0A0B010900200041001100000B => 7 sites 0>2.1 1>6.10 2>4.7 4>2.7 4>4.11 5>5.11 6>1.10 3!14",
    ),
    (
        &[0],
        &[(0, 0)],
        "of a block: 01060160017F017F 03020100 0A0B010900027F20000C000B0B => 5 sites 0>4.1 1>3.10 2>4.8 3>1.10 4>2.8",
    ),
    (
        &[0],
        &[(0, 0)],
        "of a loop: 01060160017F017F 03020100 0A09010700037F20000B0B => 5 sites 0>4.1 1>3.10 2>4.10 3>1.10 4>2.10",
    ),
    (
        &[0],
        &[(0, 1)],
        "of an if: 01070160027F7F017F 03020100 0A0E010C002000047F20010541010B0B => 8 sites 0>3.1 1>6.1 2>5.10 4>6.10 4>7.10 5>2.10 6>4.10 7>4.10 3!13",
    ),
    (
        &[0],
        &[(0, 3)],
        "of a branch on a condition, whose value leaves the block too: 01070160027F7F017F 03020100 0A0D010B00027F200020010D000B0B => 8 sites 0>5.1 1>6.1 2>4.10 3>4.1 3>5.8 3>7.10 4>2.10 5>3.8 7>3.10 6!13",
    ),
    (
        &[0],
        &[(0, 0)],
        "of a local that goes back to it, which another rule links: 01050160017F00 03020100 0A08010600200021000B => 2 sites 0>1.4 1>0.4",
    ),
    (
        &[0],
        &[(0, 2)],
        "of a quotient, whose operands have to be public all the same: 01070160027F7F017F 03020100 0A09010700200020016E0B => 7 sites 0>3.1 1>4.1 2>6.10 3>5.2 4>5.2 5>3.2 5>4.2 6>2.10 5!16",
    ),
    (
        &[0],
        &[(0, 1)],
        "in dead code: 01060160017F017F 03020100 0A070105000020000B => 3 sites 1>2.10 2>1.10",
    ),
    (
        &[0],
        &[(0, 0)],
        "of the first of three functions: 01060160017F017F 030403000000 0A1003040020000B040020000B040020000B => 9 sites 1>6.10 2>7.1 3>7.10 4>8.1 5>8.10 6>1.10 7>3.10 8>5.10",
    ),
    (
        &[1, 2],
        &[(2, 0), (1, 0)],
        "of the others: 01060160017F017F 030403000000 0A1003040020000B040020000B040020000B => 9 sites 0>6.1 1>6.10 3>7.10 5>8.10 6>1.10 7>3.10 8>5.10",
    ),
    (
        &[1],
        &[(1, 1)],
        "of a call, behind an imported function: 01060160017F017F 020701016D01660000 03020100 0A08010600200010000B => 6 sites 0>4.7 2>4.1 3>5.10 4>0.7 5>3.10",
    ),
];

/// Adds the links from a node.
fn add_links(alloc: Global, out: &mut String, graph: &Graph, from: u32) -> Result<(), AllocError>
    requires { from < length graph.now }
{
    for k in 0..graph.count() {
        if let Some((to, rule)) = graph.out(from, k) {
            out.push_str(&format!(in alloc; " {from}>{to}.{rule}")?)?;
        }
    }
    Ok(())
}

/// The links and the public sites, behind the count of sites.
fn told(alloc: Global, links: &Links) -> Result<String, AllocError>
    requires { length links.now.musts ≡ length links.now.graph }
{
    let graph = links.graph();
    let count = graph.count();
    let mut out = format!(in alloc; "{count} sites")?;
    for from in 0..count {
        add_links(alloc, &mut out, graph, from)?;
    }
    for site in 0..count {
        if let Some(rule) = links.must(site) {
            out.push_str(&format!(in alloc; " {site}!{rule}")?)?;
        }
    }
    Ok(out)
}

/// Whether each two nodes of a graph are linked by the rule that the first one's list has.
fn agree(graph: &Graph) -> bool {
    for from in 0..graph.count() {
        for k in 0..graph.count() {
            if let Some((to, rule)) = graph.out(from, k) {
                if to >= graph.count() || graph.rule(from, to) != Some(rule) {
                    return false;
                }
            }
        }
    }
    true
}

/// Whether the module of a row has the links and the public sites that its answer says.
fn holds(rt: &impl Abort, alloc: Global, row: &str, profile: Profile, points: &Points) -> bool {
    let bytes = row_bytes(rt, alloc, row);
    let m = module_under(rt, alloc, &bytes, profile);
    let s = numbered(rt, alloc, &m);
    let links = collect(alloc, &m, &s, points).expect(rt, "memory");
    let text = told(alloc, &links).expect(rt, "memory");
    agree(links.graph()) && text.as_str() == answer(row)
}

#[test]
fn links_and_public_sites_have_their_least_rules(rt: HostRuntime) {
    let points = Points::new(rt.alloc());
    for row in LINKS.lines() {
        assert!(rt;
            holds(&rt, rt.alloc(), row, Profile::Divide, &points),
            "{row}"
        );
    }
}

#[test]
fn multiplications_are_public_where_they_leak(rt: HostRuntime) {
    let points = Points::new(rt.alloc());
    for row in MULTIPLIED.lines() {
        assert!(rt;
            holds(&rt, rt.alloc(), row, Profile::Multiply, &points),
            "{row}"
        );
    }
}

#[test]
fn released_pushes_have_no_link_from_their_yields(rt: HostRuntime) {
    for (trusted, releases, row) in RELEASED {
        let points = points_of(&rt, rt.alloc(), trusted, releases);
        assert!(rt;
            holds(&rt, rt.alloc(), row, Profile::Divide, &points),
            "{row}"
        );
    }
}
