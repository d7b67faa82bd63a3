//! The fourth pass: the first limit that a module passes.
ghost use Rattle.std.specs.Prelude.{◌≡◌, ◌+◌, ◌<◌, ◌≤◌, ℕ, nat_lt, nat_le, true, false, length, flat_map, Bool, None};
ghost use Rattle.ctw_ops.specs.declared.types.Label.{Label};
ghost use Rattle.ctw_ops.specs.Equal.{same_type};
ghost use Rattle.ctw_text.specs.Limits.{over, first, entry_excess, is_table, is_memory, count_if, import_excess, nesting_excess, locals_excess, function_excess, excess_of, runs};
ghost use Rattle.ctw_parse.specs.Ends.{is_end, spaces_excess};

use ctw_flat::byte_of_type;
use ctw_names::{Op, OpKind, Wide, WideEntry, WideExtern, WideFunction, WideImport};
use ctw_ops::{ValType, What};
use std::marker::Model;

/// The greatest count of parameters of a type.
const MOST_PARAMS: u32 = 1000;

/// The greatest count of declared locals of a function.
const MOST_LOCALS: u32 = 50_000;

/// The greatest count of declared locals of all functions.
const MOST_LOCALS_OF_ALL: u32 = 1_000_000;

/// The greatest count of blocks that are open at one place.
const MOST_NESTING: u32 = 4096;

/// What is too much, and how much there may be.
#[derive(Clone, Copy, Debug, PartialEq, Eq)]
pub(crate) struct Excess {
    /// What is too much.
    pub what: What,
    /// How much there may be.
    pub limit: u32,
}

impl Model for Excess {
    ghost use Rattle.ctw_text.specs.Limits.{Excess as Passed};

    ghost Value = { Passed };

    ghost view = { λ e. record { what = e.what; limit = e.limit } };

    ghost inverse = { λ e. record { what = e.what; limit = e.limit } };
}

/// The excess, if there is one.
fn over(passed: bool, what: What, limit: u32) -> Option<Excess>
    ensures { result ≡ first (over passed what limit) }
{
    if passed {
        Some(Excess { what, limit })
    } else {
        None
    }
}

/// The first excess of an entry.
#[tactic(auto, unfolding(ctw_ops::specs::Limits::most_params))]
fn entry_excess(entry: &WideEntry) -> Option<Excess>
    ensures { result ≡ first (entry_excess entry.now) }
{
    if entry.ty.params.len() > MOST_PARAMS as usize {
        return over(true, What::Params, MOST_PARAMS);
    }
    over(entry.ty.results.len() > 1, What::Results, 1)
}

/// The first excess of entries.
fn types_excess(entries: &[WideEntry]) -> Option<Excess>
    ensures { result ≡ first (flat_map entry_excess entries.now) }
{
    for entry in entries {
        if let Some(excess) = entry_excess(entry) {
            return Some(excess);
        }
    }
    None
}

/// Whether an import is a table.
fn is_table(import: &WideImport) -> bool
    ensures { result ≡ is_table import.now }
{
    matches!(import.kind, WideExtern::Table(_))
}

/// Whether an import is a memory.
fn is_memory(import: &WideImport) -> bool
    ensures { result ≡ is_memory import.now }
{
    matches!(import.kind, WideExtern::Memory(_))
}

/// The first excess among imports: a second table or a second memory.
fn imports_excess(imports: &[WideImport]) -> Option<Excess>
    ensures { result ≡ first (import_excess false false imports.now) }
{
    let mut table = false;
    let mut memory = false;
    for import in imports {
        if is_table(import) {
            if table {
                return Some(Excess {
                    what: What::Tables,
                    limit: 1,
                });
            }
            table = true;
        }
        if is_memory(import) {
            if memory {
                return Some(Excess {
                    what: What::Memories,
                    limit: 1,
                });
            }
            memory = true;
        }
    }
    None
}

/// How many imports are tables.
fn imported_tables(imports: &[WideImport]) -> usize
    ensures count { result ≡ count_if is_table imports.now }
    ensures few { result ≤ length imports.now }
{
    let mut count = 0;
    for import in imports {
        if is_table(import) {
            count += 1;
        }
    }
    count
}

/// How many imports are memories.
fn imported_memories(imports: &[WideImport]) -> usize
    ensures count { result ≡ count_if is_memory imports.now }
    ensures few { result ≤ length imports.now }
{
    let mut count = 0;
    for import in imports {
        if is_memory(import) {
            count += 1;
        }
    }
    count
}

/// Whether there are more than one of these and those together.
fn more_than_one(these: usize, those: usize) -> bool
    ensures { result ≡ nat_lt 1 (these + those) }
{
    if these == 0 {
        those > 1
    } else {
        these > 1 || those > 0
    }
}

/// The excess of tables and memories, imported and defined.
fn spaces_excess(m: &Wide) -> Option<Excess>
    ensures { result ≡ first (spaces_excess m.now) }
{
    if more_than_one(imported_tables(m.imports.as_slice()), m.tables.len()) {
        return over(true, What::Tables, 1);
    }
    over(
        more_than_one(imported_memories(m.imports.as_slice()), m.memories.len()),
        What::Memories,
        1,
    )
}

/// The first excess of instructions: more open blocks than there may be.
fn nesting_excess(ops: &[Op]) -> Option<Excess>
    ensures { result ≡ first (nesting_excess 0 ops.now) }
{
    let mut depth: u32 = 0;
    for op in ops {
        match op.kind {
            OpKind::Opens(_, _) => {
                if depth >= MOST_NESTING {
                    return Some(Excess {
                        what: What::Nesting,
                        limit: MOST_NESTING,
                    });
                }
                depth += 1;
            }
            OpKind::End => depth = depth.saturating_sub(1),
            _ => {}
        }
    }
    None
}

/// Whether a run of equal types ends with the one of this number.
fn is_end(types: &[ValType], i: usize) -> bool
    requires { i < length types.now }
    ensures { result ≡ is_end types.now i }
{
    if i + 1 == types.len() {
        return true;
    }
    byte_of_type(types[i]) != byte_of_type(types[i + 1])
}

/// The first excess of locals, before which so many stand in other functions.
fn locals_excess(before: u32, locals: &[ValType]) -> Option<Excess>
    requires { before ≤ 1000000 }
    ensures excess { result ≡ first (locals_excess 0 before (runs locals.now)) }
    ensures few { result ≡ None → length locals.now ≤ 50000 }
    ensures few_of_all { result ≡ None → before + length locals.now ≤ 1000000 }
{
    for i in 0..locals.len() {
        if is_end(locals, i) {
            if i + 1 > MOST_LOCALS as usize {
                return over(true, What::Locals, MOST_LOCALS);
            }
            if before as usize + i + 1 > MOST_LOCALS_OF_ALL as usize {
                return over(true, What::Locals, MOST_LOCALS_OF_ALL);
            }
        }
    }
    None
}

/// The first excess of functions.
fn functions_excess(functions: &[WideFunction]) -> Option<Excess>
    ensures { result ≡ first (function_excess 0 functions.now) }
{
    let mut before: u32 = 0;
    for function in functions {
        if let Some(excess) = locals_excess(before, function.locals.as_slice()) {
            return Some(excess);
        }
        if let Some(excess) = nesting_excess(function.code.as_slice()) {
            return Some(excess);
        }
        before += function.locals.len() as u32;
    }
    None
}

/// The first limit that a module passes, but for its bytes, in the order in which a reader of its bytes meets them.
pub(crate) fn first_excess(m: &Wide) -> Option<Excess>
    ensures { result ≡ first (excess_of m.now) }
{
    if let Some(excess) = types_excess(m.types.as_slice()) {
        return Some(excess);
    }
    if let Some(excess) = imports_excess(m.imports.as_slice()) {
        return Some(excess);
    }
    if let Some(excess) = spaces_excess(m) {
        return Some(excess);
    }
    functions_excess(m.functions.as_slice())
}
