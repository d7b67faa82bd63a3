//! Appending what the code of a module's functions becomes. Where memory runs out, some bytes may be there.
ghost use Rattle.std.specs.Prelude.{◌≡◌, ◌<◌, ◌^◌, ◌++◌, length, map, Some, OnOk};
ghost use Rattle.ctw_ops.specs.declared.types.Label.{Label};
ghost use Rattle.ctw_ops.specs.Types.{erase_value_type};
ghost use Rattle.ctw_ops.specs.Tree.{Function};
ghost use Rattle.ctw_ops.specs.Erasure.{erase_code, erase_function, erase_module};
ghost use Rattle.ctw_module.specs.Trees.{tree};
ghost use Rattle.ctw_module.specs.Lookup.{function_named};
ghost use Rattle.ctw_write.specs.Canon.{vector_text, groups_of, group_text, body_text, code_text, items_text, canon};
ghost use Rattle.ctw_strip.specs.Stripped.{HasShortTexts};

use crate::code::put_body;
use ctw_leb::put_u32;
use ctw_module::Module;
use ctw_ops::{ExternTag, erase_type};
use ctw_write::entry::{Run, param_count, put_group, with_local};
use ctw_write::text::{put_section, put_sized};
use std::alloc::{AllocError, Global};

/// The declared locals of a defined function, which are public then, in the fewest groups.
fn put_locals(alloc: Global, out: &mut Vec<u8>, m: &Module, f: u32) -> Result<(), AllocError>
    requires named { (function : Function Label) × (function_named (tree m.now) f ≡ Some function) }
    requires short { length (canon (tree m.now)) < 2 ^ 32 }
    ensures { (function : Function Label) → function_named (tree m.now) f ≡ Some function
        → OnOk result (out.new.items
        ≡ out.old.items ++ vector_text group_text (groups_of (map erase_value_type function.locals))) }
{
    let first = param_count(m, f);
    let count = m.local_count(f) - first;
    if count == 0 {
        return put_u32(out, 0);
    }
    let mut texts = Vec::new(alloc);
    let mut run = Run {
        groups: 0,
        count: 1,
        ty: erase_type(m.local(f, first)),
    };
    for i in 1..count {
        run = with_local(&mut texts, run, erase_type(m.local(f, first + i)))?;
    }
    let Run { groups, count, ty } = run;
    put_group(&mut texts, count, ty)?;
    put_u32(out, groups + 1)?;
    out.extend_from_slice(&texts)
}

/// The instructions of a defined function.
fn put_instructions(out: &mut Vec<u8>, m: &Module, f: u32) -> Result<(), AllocError>
    requires { (function : Function Label) × (function_named (tree m.now) f ≡ Some function) }
    ensures { (function : Function Label) → function_named (tree m.now) f ≡ Some function
        → OnOk result (out.new.items ≡ out.old.items ++ body_text (erase_code (tree m.now).types function.body)) }
{
    let Some(body) = m.body(f) else {
        unreachable!();
    };
    put_body(out, m, &body)
}

/// The code of a defined function.
fn put_entry(alloc: Global, out: &mut Vec<u8>, m: &Module, f: u32) -> Result<(), AllocError>
    requires named { (function : Function Label) × (function_named (tree m.now) f ≡ Some function)
        × (length (code_text (erase_function (tree m.now).types function)) < 2 ^ 32) }
    requires short { length (canon (tree m.now)) < 2 ^ 32 }
    ensures { (function : Function Label) → function_named (tree m.now) f ≡ Some function
        → OnOk result (out.new.items ≡ out.old.items ++ code_text (erase_function (tree m.now).types function)) }
{
    let mut entry = Vec::new(alloc);
    put_locals(alloc, &mut entry, m, f)?;
    put_instructions(&mut entry, m, f)?;
    put_sized(out, &entry)
}

/// The code of the defined functions behind their count.
fn codes(alloc: Global, out: &mut Vec<u8>, m: &Module) -> Result<(), AllocError>
    requires { HasShortTexts (tree m.now) }
    ensures { OnOk result (out.new.items
        ≡ out.old.items ++ vector_text code_text (erase_module (tree m.now)).functions) }
{
    let imported = m.imported_count(ExternTag::Func);
    let count = m.func_count() - imported;
    put_u32(out, count)?;
    for i in 0..count {
        put_entry(alloc, out, m, imported + i)?;
    }
    Ok(())
}

/// The section of code, if there are defined functions.
pub(crate) fn put_codes(alloc: Global, out: &mut Vec<u8>, m: &Module) -> Result<(), AllocError>
    requires { HasShortTexts (tree m.now) }
    ensures { OnOk result (out.new.items
        ≡ out.old.items ++ items_text 10 code_text (erase_module (tree m.now)).functions) }
{
    if m.func_count() == m.imported_count(ExternTag::Func) {
        return Ok(());
    }
    let mut contents = Vec::new(alloc);
    codes(alloc, &mut contents, m)?;
    put_section(out, 10, &contents)
}
