ghost use Rattle.std.specs.Prelude.{◌≡◌, ◌≤◌, ◌++◌, length, OnOk, IfOk};
ghost use Rattle.ctw_ops.specs.Typing.{optional};
ghost use Rattle.ctw_ops.specs.Valid.{AreTypes};
ghost use Rattle.ctw_ops.specs.Erasure.{erase_module};
ghost use Rattle.ctw_leb.specs.Spelling.{u32_text};
ghost use Rattle.ctw_module.specs.Trees.{tree};
ghost use Rattle.ctw_write.specs.Canon.{type_entry_text, import_text, table_text, memory_text, global_text, export_text, element_text, segment_text, code_text, items_text, start_text, customs_text, placed_text, sections_text, canon};
ghost use Rattle.ctw_write.specs.Ready.{IsReady};
ghost use Rattle.ctw_strip.specs.Stripped.{HasShortTexts};

use crate::entry::put_codes;
use crate::section::{
    put_elements, put_globals, put_imports, put_memories, put_segments, put_types, put_uses,
};
use ctw_module::Module;
use ctw_write::put_header;
use ctw_write::section::{put_customs, put_exports, put_start, put_tables};
use std::alloc::{AllocError, Global};

/// The canonical spelling of the erased module of a module, whose type entries are valid, as those of each valid module
/// are. It is plain: labels are public, types untrusted, variants are left out, and where the index of one stood, that of
/// its base stands; classify and declassify are left out. All else stays, custom sections too.
///
/// The spelling is never longer than the bytes that the module was read from, but may be longer than a plain module's
/// file may be: then no reader takes it. The error is for want of memory alone.
pub fn strip(alloc: Global, m: &Module) -> Result<Vec<u8>, AllocError>
    requires { AreTypes (tree m.now).types }
    ensures bytes { IfOk result (λ v. v.items ≡ canon (erase_module (tree m.now))) }
    ensures shorter { IfOk result (λ v. length v.items ≤ length m.now.bytes) }
{
    let bytes = m.bytes();
    let mut out = Vec::with_capacity(alloc, bytes.len())?;
    put_header(&mut out, false)?;
    put_sections(alloc, &mut out, m)?;
    Ok(out)
}

/// The sections of the erased module.
fn put_sections(alloc: Global, out: &mut Vec<u8>, m: &Module) -> Result<(), AllocError>
    requires ready { IsReady m.now }
    requires short { HasShortTexts (tree m.now) }
    ensures { OnOk result (out.new.items ≡ out.old.items ++ sections_text (erase_module (tree m.now))) }
{
    put_declarations(alloc, out, m)?;
    put_spaces(alloc, out, m)?;
    put_uses_of_spaces(alloc, out, m)?;
    put_contents(alloc, out, m)
}

/// The sections of types, imports and functions, with the custom sections up to them.
fn put_declarations(alloc: Global, out: &mut Vec<u8>, m: &Module) -> Result<(), AllocError>
    requires { HasShortTexts (tree m.now) }
    ensures { OnOk result (out.new.items ≡ out.old.items
        ++ customs_text 0 (tree m.now).customs
        ++ placed_text 1 (items_text 1 type_entry_text (erase_module (tree m.now)).types) (tree m.now).customs
        ++ placed_text 2 (items_text 2 import_text (erase_module (tree m.now)).imports) (tree m.now).customs
        ++ placed_text 3 (items_text 3 (λ f. u32_text f.type) (erase_module (tree m.now)).functions)
        (tree m.now).customs) }
{
    put_customs(alloc, out, m, 0)?;
    put_types(alloc, out, m)?;
    put_customs(alloc, out, m, 1)?;
    put_imports(alloc, out, m)?;
    put_customs(alloc, out, m, 2)?;
    put_uses(alloc, out, m)?;
    put_customs(alloc, out, m, 3)
}

/// The sections of the defined table, memory and globals, with the custom sections behind them.
fn put_spaces(alloc: Global, out: &mut Vec<u8>, m: &Module) -> Result<(), AllocError>
    requires ready { IsReady m.now }
    requires short { HasShortTexts (tree m.now) }
    ensures { OnOk result (out.new.items ≡ out.old.items
        ++ placed_text 4 (items_text 4 table_text (optional (tree m.now).table)) (tree m.now).customs
        ++ placed_text 5 (items_text 5 memory_text (optional (erase_module (tree m.now)).memory)) (tree m.now).customs
        ++ placed_text 6 (items_text 6 global_text (erase_module (tree m.now)).globals) (tree m.now).customs) }
{
    put_tables(alloc, out, m)?;
    put_customs(alloc, out, m, 4)?;
    put_memories(alloc, out, m)?;
    put_customs(alloc, out, m, 5)?;
    put_globals(alloc, out, m)?;
    put_customs(alloc, out, m, 6)
}

/// The sections of exports, the start function and elements, with the custom sections behind them.
fn put_uses_of_spaces(alloc: Global, out: &mut Vec<u8>, m: &Module) -> Result<(), AllocError>
    requires ready { IsReady m.now }
    requires short { HasShortTexts (tree m.now) }
    ensures { OnOk result (out.new.items ≡ out.old.items
        ++ placed_text 7 (items_text 7 export_text (tree m.now).exports) (tree m.now).customs
        ++ placed_text 8 (start_text (tree m.now).start) (tree m.now).customs
        ++ placed_text 9 (items_text 9 element_text (erase_module (tree m.now)).elements) (tree m.now).customs) }
{
    put_exports(alloc, out, m)?;
    put_customs(alloc, out, m, 7)?;
    put_start(alloc, out, m)?;
    put_customs(alloc, out, m, 8)?;
    put_elements(alloc, out, m)?;
    put_customs(alloc, out, m, 9)
}

/// The sections of code and data, with the custom sections behind them.
fn put_contents(alloc: Global, out: &mut Vec<u8>, m: &Module) -> Result<(), AllocError>
    requires ready { IsReady m.now }
    requires short { HasShortTexts (tree m.now) }
    ensures { OnOk result (out.new.items ≡ out.old.items
        ++ placed_text 10 (items_text 10 code_text (erase_module (tree m.now)).functions) (tree m.now).customs
        ++ placed_text 11 (items_text 11 segment_text (erase_module (tree m.now)).segments) (tree m.now).customs) }
{
    put_codes(alloc, out, m)?;
    put_customs(alloc, out, m, 10)?;
    put_segments(alloc, out, m)?;
    put_customs(alloc, out, m, 11)
}
