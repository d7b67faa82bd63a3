ghost use Rattle.std.specs.Prelude.{◌≡◌, ◌++◌, Ok, OnOk, IfOk};
ghost use Rattle.std.specs.String.{string_bytes};
ghost use Rattle.ctw_ops.specs.Valid.{IsValid};
ghost use Rattle.ctw_module.specs.Trees.{tree, view_module};
ghost use Rattle.ctw_text.specs.Denotes.{assembled};
ghost use Rattle.ctw_text.specs.Print.{print_module, text_of};
ghost use Rattle.ctw_print.specs.Texts.{ct_text, maybe_text, table_line, memory_line, start_line, declarations_text, spaces_text, contents_text, module_text};

use crate::field::{
    put_customs, put_elements, put_exports, put_functions, put_globals, put_imports, put_segments,
    put_type_fields,
};
use crate::item::{put_memory, put_number, put_table};
use ctw_module::Module;
use std::alloc::{AllocError, Global};

/// The text of a module that is valid under its profile, one field a line and one instruction a line, with a line feed
/// at the end. Read as a text, it is the module again. The error is for want of memory alone.
///
/// Fields stand two blanks in and in this order: types, imports, functions, the table, the memory, globals, exports,
/// start, elements, data segments, custom sections. Instructions are plain and stand four blanks in, `else` and `end`
/// too, but for the closing end of a body. Indexes are numbers and constants signed decimals; `offset=` stands where it
/// isn't 0, and `align=` where it isn't natural. In strings the printed ASCII characters but quotes and backslashes
/// stand for themselves, and all other bytes as two hexadecimal digits behind a backslash.
pub fn print(alloc: Global, m: &Module) -> Result<String, AllocError>
    requires { IsValid (view_module m.now) }
    ensures text { IfOk result (λ text. string_bytes text ≡ text_of (print_module (tree m.now))) }
    ensures read_back { IfOk result (λ text. assembled (string_bytes text) ≡ Ok (tree m.now)) }
{
    let bytes = m.bytes();
    let mut out = String::with_capacity(alloc, bytes.len())?;
    put_module(&mut out, m)?;
    Ok(out)
}

/// The module.
fn put_module(out: &mut String, m: &Module) -> Result<(), AllocError>
    requires { IsValid (tree m.now) }
    ensures { OnOk result (string_bytes out.new ≡ string_bytes out.old ++ module_text (tree m.now)) }
{
    out.push_str("(module")?;
    put_kind(out, m.is_ct())?;
    put_declarations(out, m)?;
    put_spaces(out, m)?;
    put_contents(out, m)?;
    out.push_str("\n)\n")
}

/// The word of a CT module.
fn put_kind(out: &mut String, ct: bool) -> Result<(), AllocError>
    ensures { OnOk result (string_bytes out.new ≡ string_bytes out.old ++ ct_text ct) }
{
    if ct {
        return out.push_str(" ct");
    }
    Ok(())
}

/// The types, imports and functions.
fn put_declarations(out: &mut String, m: &Module) -> Result<(), AllocError>
    requires { IsValid (tree m.now) }
    ensures { OnOk result (string_bytes out.new ≡ string_bytes out.old ++ declarations_text (tree m.now)) }
{
    put_type_fields(out, m)?;
    put_imports(out, m)?;
    put_functions(out, m)
}

/// The defined table, if there is one.
fn put_defined_table(out: &mut String, m: &Module) -> Result<(), AllocError>
    ensures { OnOk result (string_bytes out.new
        ≡ string_bytes out.old ++ maybe_text table_line (tree m.now).table) }
{
    match m.defined_table() {
        None => Ok(()),
        Some(limits) => {
            out.push_str("\n  ")?;
            put_table(out, limits)
        }
    }
}

/// The defined memory, if there is one.
fn put_defined_memory(out: &mut String, m: &Module) -> Result<(), AllocError>
    ensures { OnOk result (string_bytes out.new
        ≡ string_bytes out.old ++ maybe_text memory_line (tree m.now).memory) }
{
    match m.defined_memory() {
        None => Ok(()),
        Some(ty) => {
            out.push_str("\n  ")?;
            put_memory(out, ty)
        }
    }
}

/// The defined table, memory and globals, and the exports.
fn put_spaces(out: &mut String, m: &Module) -> Result<(), AllocError>
    requires { IsValid (tree m.now) }
    ensures { OnOk result (string_bytes out.new ≡ string_bytes out.old ++ spaces_text (tree m.now)) }
{
    put_defined_table(out, m)?;
    put_defined_memory(out, m)?;
    put_globals(out, m)?;
    put_exports(out, m)
}

/// The start function, if there is one.
fn put_start(out: &mut String, m: &Module) -> Result<(), AllocError>
    ensures { OnOk result (string_bytes out.new ≡ string_bytes out.old ++ maybe_text start_line (tree m.now).start) }
{
    match m.start() {
        None => Ok(()),
        Some(function) => {
            out.push_str("\n  (start ")?;
            put_number(out, function)?;
            out.push(')')
        }
    }
}

/// The start function, elements, data segments and custom sections.
fn put_contents(out: &mut String, m: &Module) -> Result<(), AllocError>
    requires { IsValid (tree m.now) }
    ensures { OnOk result (string_bytes out.new ≡ string_bytes out.old ++ contents_text (tree m.now)) }
{
    put_start(out, m)?;
    put_elements(out, m)?;
    put_segments(out, m)?;
    put_customs(out, m)
}
