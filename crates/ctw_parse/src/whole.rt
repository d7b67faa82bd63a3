ghost use Rattle.std.specs.Prelude.{◌≡◌, ◌<◌, ◌^◌, ◌++◌, Ok, Err, length, List, OnOk, IfOk, IfErr, IfSome, IsSome, All};
ghost use Rattle.ctw_leb.specs.Spelling.{u32_text};
ghost use Rattle.ctw_text.specs.Limits.{first};
ghost use Rattle.ctw_write.specs.Canon.{table_text, memory_text, import_text, export_text, global_text, element_text, segment_text, items_text, start_text, customs_text, placed_text, canon};
ghost use Rattle.ctw_parse.specs.WideCanon.{wide_entry_text, wide_code_text, wide_sections_text, wide_canon};
ghost use Rattle.ctw_write.specs.KeepsLimits.{Is32, AreSizes, IsLimitedExtern, IsLimitedConstant, IsLimitedElement, IsLimitedSegment, IsLimitedOp};
ghost use Rattle.ctw_parse.specs.Numbers.{IsNumberedEntry, AreNumbered, AreShortFrom, HasNumbers};
ghost use Rattle.ctw_parse.specs.Written.{CanBeWritten};
ghost use Rattle.std.specs.Prelude.{[], Some, None};
ghost use Rattle.ctw_text.specs.Limits.{narrow, excess_of};
ghost use Rattle.ctw_text.specs.Denotes.{InExcess, name_fault};
ghost use Rattle.ctw_parse.specs.Assembled.{all_excess, after_names, assembled, HasModule, IsAssembly};
ghost use Rattle.ctw_text.specs.Fields.{fields_of};
ghost use Rattle.ctw_text.specs.Names.{named, wide_of};
ghost use Rattle.ctw_parse.specs.Told.{fault_of};

use crate::excess::{Excess, first_excess};
use crate::fault::TextFault;
use crate::section::{
    put_codes, put_customs, put_elements, put_exports, put_globals, put_imports, put_memories,
    put_segments, put_start, put_tables, put_types, put_uses,
};
use ctw_lex::tokens;
use ctw_names::{Fault, FaultKind, NamesFault, Wide, named};
use ctw_ops::What;
use ctw_pieces::{Spelled, pieces};
use ctw_text::Piece;
use ctw_write::put_header;
use std::alloc::{AllocError, Global};

/// The greatest count of bytes of a plain module.
const MOST_PLAIN_BYTES: u32 = 2_097_152;

/// The sections of types, imports and functions, with the custom sections up to them.
fn put_declarations(alloc: Global, out: &mut Vec<u8>, m: &Wide) -> Result<(), AllocError>
    ensures written { OnOk result (out.new.items ≡ out.old.items
        ++ customs_text 0 m.now.customs
        ++ placed_text 1 (items_text 1 wide_entry_text m.now.types) m.now.customs
        ++ placed_text 2 (items_text 2 import_text m.now.imports) m.now.customs
        ++ placed_text 3 (items_text 3 (λ f. u32_text f.type) m.now.functions) m.now.customs) }
    ensures types { OnOk result (AreNumbered IsNumberedEntry wide_entry_text m.now.types) }
    ensures imports { OnOk result (AreNumbered (λ i. IsLimitedExtern i.kind) import_text m.now.imports) }
    ensures uses { OnOk result (AreNumbered (λ f. Is32 f.type) (λ f. u32_text f.type) m.now.functions) }
    ensures customs { OnOk result (AreShortFrom 0 3 m.now.customs) }
{
    put_customs(alloc, out, m.customs.as_slice(), 0)?;
    put_types(alloc, out, m.types.as_slice())?;
    put_customs(alloc, out, m.customs.as_slice(), 1)?;
    put_imports(alloc, out, m.imports.as_slice())?;
    put_customs(alloc, out, m.customs.as_slice(), 2)?;
    put_uses(alloc, out, m.functions.as_slice())?;
    put_customs(alloc, out, m.customs.as_slice(), 3)
}

/// The sections of tables, memories and globals, with the custom sections behind them.
fn put_spaces(alloc: Global, out: &mut Vec<u8>, m: &Wide) -> Result<(), AllocError>
    requires { CanBeWritten m.now }
    ensures written { OnOk result (out.new.items ≡ out.old.items
        ++ placed_text 4 (items_text 4 table_text m.now.tables) m.now.customs
        ++ placed_text 5 (items_text 5 memory_text m.now.memories) m.now.customs
        ++ placed_text 6 (items_text 6 global_text m.now.globals) m.now.customs) }
    ensures tables { OnOk result (AreNumbered AreSizes table_text m.now.tables) }
    ensures memories { OnOk result (AreNumbered (λ t. AreSizes t.limits) memory_text m.now.memories) }
    ensures globals { OnOk result (AreNumbered (λ g. IsLimitedConstant g.init) global_text m.now.globals) }
    ensures customs { OnOk result (AreShortFrom 4 6 m.now.customs) }
{
    put_tables(alloc, out, m.tables.as_slice())?;
    put_customs(alloc, out, m.customs.as_slice(), 4)?;
    put_memories(alloc, out, m.memories.as_slice())?;
    put_customs(alloc, out, m.customs.as_slice(), 5)?;
    put_globals(alloc, out, m.globals.as_slice())?;
    put_customs(alloc, out, m.customs.as_slice(), 6)
}

/// The sections of exports, the start function and elements, with the custom sections behind them.
fn put_uses_of_spaces(alloc: Global, out: &mut Vec<u8>, m: &Wide) -> Result<(), AllocError>
    requires { CanBeWritten m.now }
    ensures written { OnOk result (out.new.items ≡ out.old.items
        ++ placed_text 7 (items_text 7 export_text m.now.exports) m.now.customs
        ++ placed_text 8 (start_text (first m.now.start)) m.now.customs
        ++ placed_text 9 (items_text 9 element_text m.now.elements) m.now.customs) }
    ensures exports { OnOk result (AreNumbered (λ e. Is32 e.index) export_text m.now.exports) }
    ensures start { OnOk result (IfSome (first m.now.start) Is32) }
    ensures elements { OnOk result (AreNumbered IsLimitedElement element_text m.now.elements) }
    ensures customs { OnOk result (AreShortFrom 7 9 m.now.customs) }
{
    put_exports(alloc, out, m.exports.as_slice())?;
    put_customs(alloc, out, m.customs.as_slice(), 7)?;
    put_start(alloc, out, m.start.as_slice())?;
    put_customs(alloc, out, m.customs.as_slice(), 8)?;
    put_elements(alloc, out, m.elements.as_slice())?;
    put_customs(alloc, out, m.customs.as_slice(), 9)
}

/// The sections of code and data, with the custom sections behind them.
fn put_filling(alloc: Global, out: &mut Vec<u8>, m: &Wide) -> Result<(), AllocError>
    requires { CanBeWritten m.now }
    ensures written { OnOk result (out.new.items ≡ out.old.items
        ++ placed_text 10 (items_text 10 wide_code_text m.now.functions) m.now.customs
        ++ placed_text 11 (items_text 11 segment_text m.now.segments) m.now.customs) }
    ensures codes { OnOk result (AreNumbered (λ f. All IsLimitedOp f.code) wide_code_text m.now.functions) }
    ensures segments { OnOk result (AreNumbered IsLimitedSegment segment_text m.now.segments) }
    ensures customs { OnOk result (AreShortFrom 10 11 m.now.customs) }
{
    put_codes(alloc, out, m.functions.as_slice())?;
    put_customs(alloc, out, m.customs.as_slice(), 10)?;
    put_segments(alloc, out, m.segments.as_slice())?;
    put_customs(alloc, out, m.customs.as_slice(), 11)
}

/// The canonical bytes of a module without limits.
pub(crate) fn write(alloc: Global, m: &Wide) -> Result<Vec<u8>, AllocError>
    requires { CanBeWritten m.now }
    ensures written { IfOk result (λ bytes. bytes.items ≡ wide_canon m.now) }
    ensures numbers { OnOk result (HasNumbers m.now) }
{
    let mut out = Vec::new(alloc);
    put_header(&mut out, m.ct)?;
    put_declarations(alloc, &mut out, m)?;
    put_spaces(alloc, &mut out, m)?;
    put_uses_of_spaces(alloc, &mut out, m)?;
    put_filling(alloc, &mut out, m)?;
    Ok(out)
}

/// The first limit that a module with these canonical bytes passes.
#[tactic(auto, unfolding(ctw_ops::specs::Limits::most_plain_bytes))]
fn limit_passed(m: &Wide, bytes: &[u8]) -> Option<Excess>
    requires { bytes.now ≡ wide_canon m.now }
    ensures { result ≡ first (all_excess m.now) }
{
    if !m.ct && bytes.len() > MOST_PLAIN_BYTES as usize {
        return Some(Excess {
            what: What::Bytes,
            limit: MOST_PLAIN_BYTES,
        });
    }
    first_excess(m)
}

/// The canonical bytes of a module without limits, if it passes none.
fn within_limits(alloc: Global, m: &Wide) -> Result<Vec<u8>, TextFault>
    requires { CanBeWritten m.now }
    ensures none { IfOk result (λ bytes. first (all_excess m.now) ≡ None) }
    ensures bytes { IfOk result (λ bytes. bytes.items ≡ wide_canon m.now) }
    ensures numbers { OnOk result (HasNumbers m.now) }
    ensures fault { IfErr result (λ f. IfSome (fault_of f) (λ fault. IfSome (first (all_excess m.now)) (λ e. fault ≡ InExcess e))) }
    ensures some { IfErr result (λ f. IfSome (fault_of f) (λ fault. IsSome (first (all_excess m.now)))) }
{
    let bytes = write(alloc, m)?;
    if let Some(excess) = limit_passed(m, bytes.as_slice()) {
        return Err(TextFault::TooMany {
            what: excess.what,
            limit: excess.limit,
        });
    }
    Ok(bytes)
}

/// A fault of the third pass. A place of 2^32 or more has no number; it is answered as want of memory.
fn at_name(fault: Fault) -> TextFault
    ensures { IfSome (fault_of result) (λ f. f ≡ name_fault fault) }
{
    let Fault {
        kind,
        place: start,
        extent,
    } = fault;
    if extent > (u32::MAX - start) as usize {
        return TextFault::NoMemory;
    }
    let end = start + extent as u32;
    match kind {
        FaultKind::UnknownName => TextFault::UnknownName { start, end },
        FaultKind::DoubleName => TextFault::DoubleName { start, end },
        FaultKind::Mismatch => TextFault::Unexpected { start, end },
    }
}

/// The third and the fourth pass: the canonical bytes of the module that pieces stand for.
fn after_pieces<'a>(alloc: Global, ct: bool, items: Vec<Piece<'a>>) -> Result<Vec<u8>, TextFault>
    requires written { CanBeWritten (wide_of ct (fields_of items.items)) }
    requires same { excess_of (wide_of ct (fields_of items.items)) ≡ [] → wide_canon (wide_of ct (fields_of items.items)) ≡ canon (narrow (wide_of ct (fields_of items.items))) }
    ensures bytes { IfOk result (λ bytes. HasModule ct (fields_of items.entry.items) bytes.items) }
    ensures fault { IfErr result (λ f. IfSome (fault_of f) (λ fault. after_names (named ct (fields_of items.entry.items)) ≡ Err fault)) }
{
    match named(alloc, ct, items) {
        Ok(m) => within_limits(alloc, &m),
        Err(NamesFault::Bad(fault)) => Err(at_name(fault)),
        Err(NamesFault::NoMemory) => Err(TextFault::NoMemory),
    }
}

/// The canonical bytes of the module that a text denotes (W3C WebAssembly Core 1.0, chapters 5 and 6).
///
/// The text is shorter than 2^30 bytes. The passes are its tokens, the grammar with the ranges of numbers, names, and
/// limits; of the first pass that finds a fault the error is the leftmost one. `NoMemory` may come for any text.
/// The bytes spell that module, so a reader of files takes them: `read` of `ctw_read` accepts them.
pub fn assemble(alloc: Global, text: &str) -> Result<Vec<u8>, TextFault>
    requires { length text.now < 2 ^ 30 }
    ensures bytes { IfOk result (λ bytes. IsAssembly text.now bytes.items) }
    ensures fault { IfErr result (λ f. IfSome (fault_of f) (λ fault. assembled text.now ≡ Err fault)) }
{
    let tokens = tokens(alloc, text)?;
    let Spelled { is_ct, items } = pieces(alloc, &tokens, text.len() as u32)?;
    after_pieces(alloc, is_ct, items)
}
