ghost use Rattle.std.specs.Prelude.{◌≡◌, ◌<◌, ◌≤◌, ◌^◌, ◌*◌, ℕ, IfOk, OnOk};
ghost use Rattle.ctw_ops.specs.declared.types.Label.{Label};
ghost use Rattle.ctw_ops.specs.Tree.{Module};
ghost use Rattle.ctw_form.specs.Spelled.{Spells};
ghost use Rattle.ctw_write.specs.Canon.{canon};
ghost use Rattle.ctw_script.specs.Scripts.{HasReading};
ghost use Rattle.ctw_gen.specs.Draws.{state};
ghost use Rattle.ctw_gen.specs.Workload.{workload_module, marks, script, moves, vault};

use crate::draws::Draws;
use crate::section::{put_codes, put_exports, put_memories, put_types, put_uses};
use ctw_ops::{Name, Octets};
use ctw_write::put_header;
use std::alloc::{AllocError, Global};

/// The mark of the parameter of `main`.
const MARKS: &str = "secret param \"main\" 0";

/// A call of `main` with a number from the vault, and a turn as long as there may be.
const SCRIPT: &str = "begin 0 \"m\" \"main\" *\nturn 0 1000000\n";

/// A module with what it is run by.
#[derive(Debug, Drop)]
pub struct Workload {
    /// The bytes of a plain module.
    pub module: Octets,
    /// The text of marks for it.
    pub marks: Name,
    /// The text of a script, in which it is the part `m`.
    pub script: Name,
    /// The bytes of a vault.
    pub vault: Octets,
}

/// The workload of a seed below 2^31 and a size of at most 20,000: a plain module, canonically spelled, of so many
/// functions that draws make, and of a function `main` that calls each of them once; with marks, a script and a vault of
/// four bytes. Its module is the only one that the bytes spell; that it is valid is the law `workloads_are_valid`. The
/// error is for want of memory alone.
pub fn generate(alloc: Global, seed: u32, size: u32) -> Result<Workload, AllocError>
    requires seed { seed < 2 ^ 31 }
    requires size { size ≤ 20000 }
    ensures module { IfOk result (λ w. w.«module» ≡ canon (workload_module seed size)) }
    ensures spelled { IfOk result (λ w. Spells w.«module» (workload_module seed size)) }
    ensures only { IfOk result (λ w. (m : Module Label) → Spells w.«module» m → m ≡ workload_module seed size) }
    ensures marks { IfOk result (λ w. w.marks ≡ marks) }
    ensures script { IfOk result (λ w. w.script ≡ script) }
    ensures moves { IfOk result (λ w. HasReading w.script moves) }
    ensures vault { IfOk result (λ w. w.vault ≡ vault seed size) }
{
    let mut draws = Draws::new(seed);
    let bytes = write_module(alloc, &mut draws, size)?;
    let vault = draw_vault(alloc, &mut draws)?;
    Ok(Workload {
        module: Octets::new(bytes),
        marks: Name::new(String::from_str(alloc, MARKS)?),
        script: Name::new(String::from_str(alloc, SCRIPT)?),
        vault: Octets::new(vault),
    })
}

/// The bytes of the module, by the draws from a seed on.
fn write_module(alloc: Global, draws: &mut Draws, size: u32) -> Result<Vec<u8>, AllocError>
    requires { size ≤ 20000 }
    ensures bytes { IfOk result (λ v. v.items ≡ canon (workload_module draws.old size)) }
    ensures drawn { OnOk result (draws.new ≡ state draws.old (3 * size)) }
{
    let mut out = Vec::new(alloc);
    put_header(&mut out, false)?;
    put_types(alloc, &mut out)?;
    put_uses(alloc, &mut out, size)?;
    put_memories(alloc, &mut out)?;
    put_exports(alloc, &mut out, size)?;
    put_codes(alloc, &mut out, draws, size)?;
    Ok(out)
}

/// Four bytes, each the remainder of a draw.
fn draw_vault(alloc: Global, draws: &mut Draws) -> Result<Vec<u8>, AllocError>
    ensures { (seed size : ℕ) → draws.old ≡ state seed (3 * size) → IfOk result (λ v. v.items ≡ vault seed size) }
{
    let mut bytes = Vec::with_capacity(alloc, 4)?;
    for _ in 0..4_u32 {
        bytes.push((draws.draw() % 256) as u8)?;
    }
    Ok(bytes)
}
