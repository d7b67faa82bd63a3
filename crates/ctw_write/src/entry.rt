//! Appending the code of the functions of a module. Where memory runs out, some bytes may be there.
ghost use Rattle.std.specs.Prelude.{◌≡◌, ◌+◌, ◌<◌, ◌≤◌, ◌^◌, ◌++◌, ◌∷◌, [], ℕ, List, length, replicate, Some, OnOk, IfOk};
ghost use Rattle.ctw_ops.specs.ValueType.{ValueType};
ghost use Rattle.ctw_ops.specs.declared.types.Label.{Label};
ghost use Rattle.ctw_ops.specs.Tree.{Function, type_named, function_entries};
ghost use Rattle.ctw_leb.specs.Spelling.{u32_text};
ghost use Rattle.ctw_form.specs.Sections.{Group};
ghost use Rattle.ctw_form.specs.Spelled.{group_of};
ghost use Rattle.ctw_module.specs.Trees.{tree};
ghost use Rattle.ctw_module.specs.Lookup.{function_named, imported_count, locals_named};
ghost use Rattle.ctw_write.specs.Canon.{all_texts, vector_text, groups_of, group_text, body_text, code_text, items_text, canon};
ghost use Rattle.ctw_write.specs.Runs.{Ahead};

use crate::code::put_body;
use crate::text::{put_section, put_sized};
use ctw_flat::byte_of_type;
use ctw_leb::put_u32;
use ctw_module::Module;
use ctw_ops::{ExternTag, FuncType, ValType};
use std::alloc::{AllocError, Global};

/// A run of equal locals that isn't written yet, behind groups that are.
#[derive(Clone, Copy, Debug, PartialEq, Eq)]
pub struct Run {
    /// How many groups are written.
    pub groups: u32,
    /// How many locals the run has.
    pub count: u32,
    /// Their type.
    pub ty: ValType,
}

/// A group of so many locals.
pub fn put_group(out: &mut Vec<u8>, count: u32, ty: ValType) -> Result<(), AllocError>
    ensures { OnOk result (out.new.items ≡ out.old.items ++ group_text (group_of count ty)) }
{
    put_u32(out, count)?;
    out.push(byte_of_type(ty))?;
    Ok(())
}

/// One local behind a run: it belongs to it, or the run is written and a new one begins. So many groups and locals are
/// fewer than 2^32.
pub fn with_local(out: &mut Vec<u8>, run: Run, ty: ValType) -> Result<Run, AllocError>
    requires some { 0 < run.count }
    requires room { run.groups + run.count + 1 < 2 ^ 32 }
    ensures ahead { (whole : List Group) (types : List (ValueType Label)) → Ahead whole out.old.items run (ty ∷ types)
        → IfOk result (λ next. Ahead whole out.new.items next types) }
    ensures some { IfOk result (λ next. 0 < next.count) }
    ensures room { IfOk result (λ next. next.groups + next.count ≤ run.groups + run.count + 1) }
{
    let Run {
        groups,
        count,
        ty: own,
    } = run;
    if byte_of_type(ty) == byte_of_type(own) {
        return Ok(Run {
            groups,
            count: count + 1,
            ty: own,
        });
    }
    put_group(out, count, own)?;
    Ok(Run {
        groups: groups + 1,
        count: 1,
        ty,
    })
}

/// How many parameters a defined function has; none where its type index names no entry.
pub fn param_count(m: &Module, f: u32) -> u32
    requires there { f < length (function_entries (tree m.now)) }
    requires short { length (canon (tree m.now)) < 2 ^ 32 }
    ensures { (function : Function Label) → function_named (tree m.now) f ≡ Some function
        → result ≡ length (type_named (tree m.now) function.type).params }
{
    let index = m.type_of_func(f);
    if index >= m.type_count() {
        return 0;
    }
    let ty = m.func_type(index);
    params_of(&ty)
}

/// How many parameters a type has; they are fewer than 2^32.
pub fn params_of(ty: &FuncType) -> u32
    requires { length ty.now.params < 2 ^ 32 }
    ensures { result ≡ length ty.now.params }
{
    ty.params.len() as u32
}

/// The declared locals of a defined function, in the fewest groups.
fn put_locals(alloc: Global, out: &mut Vec<u8>, m: &Module, f: u32) -> Result<(), AllocError>
    requires named { (function : Function Label) × (function_named (tree m.now) f ≡ Some function) }
    requires short { length (canon (tree m.now)) < 2 ^ 32 }
    ensures { (function : Function Label) → function_named (tree m.now) f ≡ Some function
        → OnOk result (out.new.items ≡ out.old.items ++ vector_text group_text (groups_of function.locals)) }
{
    let first = param_count(m, f);
    let count = m.local_count(f) - first;
    if count == 0 {
        return put_u32(out, 0);
    }
    let mut texts = Vec::new(alloc);
    let mut run = Run {
        groups: 0,
        count: 1,
        ty: m.local(f, first),
    };
    for i in 1..count {
        run = with_local(&mut texts, run, m.local(f, first + i))?;
    }
    let Run { groups, count, ty } = run;
    put_group(&mut texts, count, ty)?;
    put_u32(out, groups + 1)?;
    out.extend_from_slice(&texts)
}

/// The instructions of a defined function.
fn put_instructions(out: &mut Vec<u8>, m: &Module, f: u32) -> Result<(), AllocError>
    requires { (function : Function Label) × (function_named (tree m.now) f ≡ Some function) }
    ensures { (function : Function Label) → function_named (tree m.now) f ≡ Some function
        → OnOk result (out.new.items ≡ out.old.items ++ body_text function.body) }
{
    let Some(body) = m.body(f) else {
        unreachable!();
    };
    put_body(out, &body)
}

/// The code of a defined function.
fn put_entry(alloc: Global, out: &mut Vec<u8>, m: &Module, f: u32) -> Result<(), AllocError>
    requires named { (function : Function Label) × (function_named (tree m.now) f ≡ Some function)
        × (length (code_text function) < 2 ^ 32) }
    requires short { length (canon (tree m.now)) < 2 ^ 32 }
    ensures { (function : Function Label) → function_named (tree m.now) f ≡ Some function
        → OnOk result (out.new.items ≡ out.old.items ++ code_text function) }
{
    let mut entry = Vec::new(alloc);
    put_locals(alloc, &mut entry, m, f)?;
    put_instructions(&mut entry, m, f)?;
    put_sized(out, &entry)
}

/// The code of the defined functions behind their count.
fn codes(alloc: Global, out: &mut Vec<u8>, m: &Module) -> Result<(), AllocError>
    requires { length (canon (tree m.now)) < 2 ^ 32 }
    ensures { OnOk result (out.new.items ≡ out.old.items ++ vector_text code_text (tree m.now).functions) }
{
    let imported = m.imported_count(ExternTag::Func);
    let count = m.func_count() - imported;
    put_u32(out, count)?;
    for i in 0..count {
        put_entry(alloc, out, m, imported + i)?;
    }
    Ok(())
}

/// The section of code, if there are defined functions.
pub(crate) fn put_codes(alloc: Global, out: &mut Vec<u8>, m: &Module) -> Result<(), AllocError>
    requires { length (canon (tree m.now)) < 2 ^ 32 }
    ensures { OnOk result (out.new.items ≡ out.old.items ++ items_text 10 code_text (tree m.now).functions) }
{
    if m.func_count() == m.imported_count(ExternTag::Func) {
        return Ok(());
    }
    let mut contents = Vec::new(alloc);
    codes(alloc, &mut contents, m)?;
    put_section(out, 10, &contents)
}
