ghost use Rattle.std.specs.Prelude.{◌≡◌, ◌&&◌, not, if◌then◌else◌, ◌<◌, ◌≤◌, ◌^◌, ◌-◌, ◌↔◌, ℕ, length, map, slice_get, option_map, Some, Option, IfSome, IsNone, All, take};
ghost use Rattle.ctw_ops.specs.declared.types.Label.{Label};
ghost use Rattle.std.specs.Prelude.{IsTrue};
ghost use Rattle.std.specs.List.{list_all};
ghost use Rattle.ctw_ops.specs.Types.{byte_types, is_type_byte};
ghost use Rattle.ctw_ops.specs.Limits.{most_params};
ghost use Rattle.ctw_ops.specs.WithinLimits.{IsOctet, IsWithinLimits};
ghost use Rattle.ctw_form.specs.Slots.{runs_of, element_functions};
ghost use Rattle.ctw_module.specs.Runs.{IsRunsOf};
ghost use Rattle.ctw_ops.specs.Tree.{Function, function_entries, global_types, memory_among, table_among, type_named};
ghost use Rattle.ctw_flat.specs.Spelled.{IsLimitedBody};
ghost use Rattle.ctw_form.specs.Spelled.{Spells, export_of};
ghost use Rattle.ctw_module.specs.Trees.{tree, parts, code_of};
ghost use Rattle.ctw_module.specs.Lookup.{export_in, imported_count, imported_of, function_named, locals_named, global_inits};
ghost use Rattle.ctw_form.specs.Shown.{constant_of};
ghost use Rattle.ctw_module.specs.Given.{import_given, HasTypeNamed};

use crate::locals::{count_of, lend, param_type, part, type_in};
use crate::types::{Custom, Element, ExternKind, Global1, Import};
use ctw_flat::Body;
use ctw_form::{
    CodeSlot, ElementSlot, ExportEntry, ImportEntry, ImportKind, LocalRun, Segment, TypeEntry,
};
use ctw_ops::{ExternTag, FuncType, Limits, MemType, Profile, Trust, ValType};
use indexmap::IndexMap;
use std::marker::Model;

/// A module as a view of its file's bytes, which spell it. It holds an index over them, by which each
/// reader takes constant time, or logarithmic time for a local; no reader takes memory.
///
/// Contracts see the bytes and the profile. The module that the bytes spell is `tree` of them, and `view_module` is the
/// same under the profile. An index that a reader is given names a
/// thing that is there, where its answer has no None for others.
#[derive(Drop)]
pub struct Module<'a> {
    pub(crate) bytes: &'a [u8],
    pub(crate) profile: Profile,
    pub(crate) ct: bool,
    pub(crate) types: Vec<TypeEntry<'a>>,
    pub(crate) imports: Vec<ImportEntry<'a>>,
    pub(crate) functions: Vec<u32>,
    pub(crate) imported: usize,
    pub(crate) imported_globals: usize,
    pub(crate) codes: Vec<CodeSlot<'a>>,
    pub(crate) runs: Vec<LocalRun>,
    pub(crate) globals: Vec<Global1>,
    pub(crate) memory: Option<MemType>,
    pub(crate) defined_memory: Option<MemType>,
    pub(crate) table: Option<Limits>,
    pub(crate) defined_table: Option<Limits>,
    pub(crate) exports: Vec<ExportEntry<'a>>,
    pub(crate) names: IndexMap<&'a str, (ExternTag, u32)>,
    pub(crate) start: Option<u32>,
    pub(crate) elements: Vec<ElementSlot>,
    pub(crate) element_functions: Vec<u32>,
    pub(crate) segments: Vec<Segment<'a>>,
    pub(crate) customs: Vec<Custom<'a>>,
}

impl<'a> Model for Module<'a> {
    ghost use Rattle.ctw_module.specs.Trees.{Lent};

    ghost Value = { Lent };

    ghost use Rattle.ctw_module.specs.View.{IsView, lent_by};

    ghost view = { λ m. lent_by m };

    ghost invariant = { λ m. IsView m (lent_by m) };
}

impl<'a> Module<'a> {
    /// The file's bytes, which spell the module; it keeps the limits of every file.
    pub fn bytes(&self) -> &'a [u8]
        ensures bytes { result.now ≡ self.now.bytes }
        ensures octets { All IsOctet self.now.bytes }
        ensures short { length self.now.bytes < 2 ^ 32 }
        ensures spelled { Spells self.now.bytes (tree self.now) }
        ensures limits { IsWithinLimits (tree self.now) }
    {
        self.bytes
    }

    /// Which operations are taken to leak their operands where the module is checked and run: Divide as it is read.
    pub fn profile(&self) -> Profile
        ensures { result ≡ self.now.profile }
    {
        self.profile
    }

    /// The same module under another profile; nothing else changes.
    pub fn with_profile(self, p: Profile) -> Module<'a>
        ensures { result ≡ record { bytes = self.entry.bytes; profile = p } }
    {
        Module { profile: p, ..self }
    }

    /// Whether it is a CT module, and not a plain one.
    pub fn is_ct(&self) -> bool
        ensures { result ≡ (tree self.now).ct }
    {
        self.ct
    }

    /// How many type entries there are.
    pub fn type_count(&self) -> u32
        ensures { result ≡ length (tree self.now).types }
    {
        self.types.len() as u32
    }

    /// The type of a type entry.
    pub fn func_type(&self, i: u32) -> FuncType<'a>
        requires { i < length (tree self.now).types }
        ensures { result ≡ type_named (tree self.now) i }
    {
        let entry = &self.types[i as usize];
        lend(&entry.ty)
    }

    /// The index of the entry that a type entry is a variant of; None where it is no variant.
    pub fn variant_of(&self, i: u32) -> Option<u32>
        requires { i < length (tree self.now).types }
        ensures { slice_get (map (λ entry. entry.base) (tree self.now).types) i ≡ Some result }
    {
        let variant = &self.types[i as usize];
        variant.base
    }

    /// How many imports there are.
    pub fn import_count(&self) -> u32
        ensures { result ≡ length (tree self.now).imports }
    {
        self.imports.len() as u32
    }

    /// An import. A function's type is that of the entry that it names, or an untrusted one without
    /// parameters and result where it names none.
    pub fn import(&self, i: u32) -> Import<'a>
        requires { i < length (tree self.now).imports }
        ensures import { slice_get (tree self.now).imports i ≡ Some (import_given result) }
        ensures typed { HasTypeNamed (tree self.now) result.kind }
    {
        let entry = &self.imports[i as usize];
        let kind = match entry.kind {
            ImportKind::Func(type_index) => ExternKind::Func {
                type_index,
                ty: self.type_or_none(type_index),
            },
            ImportKind::Table(limits) => ExternKind::Table(limits),
            ImportKind::Memory(ty) => ExternKind::Memory(ty),
            ImportKind::Global(ty) => ExternKind::Global(ty),
        };
        Import {
            module: entry.module,
            name: entry.name,
            kind,
        }
    }

    /// How many things of a kind are imported.
    pub fn imported_count(&self, kind: ExternTag) -> u32
        ensures { result ≡ imported_of kind (tree self.now) }
    {
        match kind {
            ExternTag::Func => self.imported as u32,
            ExternTag::Table => only_imported(self.table.is_some(), self.defined_table.is_some()),
            ExternTag::Memory => {
                only_imported(self.memory.is_some(), self.defined_memory.is_some())
            }
            ExternTag::Global => self.imported_globals as u32,
        }
    }

    /// How many functions there are, imported ones first.
    pub fn func_count(&self) -> u32
        ensures { result ≡ length (function_entries (tree self.now)) }
    {
        self.functions.len() as u32
    }

    /// The index of a function's type entry.
    pub fn type_of_func(&self, f: u32) -> u32
        requires { f < length (function_entries (tree self.now)) }
        ensures { slice_get (function_entries (tree self.now)) f ≡ Some result }
    {
        self.functions[f as usize]
    }

    /// A function's instructions with the closing end; None exactly for an imported function.
    pub fn body(&self, f: u32) -> Option<Body<'a>>
        requires { f < length (function_entries (tree self.now)) }
        ensures imported { IsNone result ↔ (f < imported_count (tree self.now)) }
        ensures bytes { IfSome result (λ body. body ≡ code_of self.now (f - imported_count (tree self.now))) }
        ensures spelled { IfSome result (λ body. (function : Function Label)
            × (function_named (tree self.now) f ≡ Some function) × IsLimitedBody body function.body) }
    {
        if (f as usize) < self.imported {
            return None;
        }
        let slot = &self.codes[f as usize - self.imported];
        Some(Body::new(slot.code))
    }

    /// How many globals there are, imported ones first.
    pub fn global_count(&self) -> u32
        ensures { result ≡ length (global_types (tree self.now)) }
    {
        self.globals.len() as u32
    }

    /// A global. An imported one has no initial value.
    pub fn global(&self, g: u32) -> Global1
        requires { g < length (global_types (tree self.now)) }
        ensures typed { slice_get (global_types (tree self.now)) g ≡ Some result.ty }
        ensures init { slice_get (global_inits (tree self.now)) g ≡ Some (option_map constant_of result.init) }
    {
        self.globals[g as usize]
    }

    /// The memory, imported or defined.
    pub fn memory(&self) -> Option<MemType>
        ensures { result ≡ memory_among (tree self.now).imports (tree self.now).memory }
    {
        self.memory
    }

    /// The memory that the module defines itself.
    pub fn defined_memory(&self) -> Option<MemType>
        ensures { result ≡ (tree self.now).memory }
    {
        self.defined_memory
    }

    /// The table, imported or defined.
    pub fn table(&self) -> Option<Limits>
        ensures { result ≡ table_among (tree self.now).imports (tree self.now).table }
    {
        self.table
    }

    /// The table that the module defines itself.
    pub fn defined_table(&self) -> Option<Limits>
        ensures { result ≡ (tree self.now).table }
    {
        self.defined_table
    }

    /// The index of the start function, if there is one.
    pub fn start(&self) -> Option<u32>
        ensures { result ≡ (tree self.now).start }
    {
        self.start
    }

    /// The kind and the index of the first export of a name; None where no export has it.
    pub fn export_named(&self, name: &str) -> Option<(ExternTag, u32)>
        ensures { result ≡ export_in name.now (tree self.now).exports }
    {
        self.names.get(name).copied()
    }

    /// How many exports there are.
    pub fn export_count(&self) -> u32
        ensures { result ≡ length (tree self.now).exports }
    {
        self.exports.len() as u32
    }

    /// The name, the kind and the index of an export.
    pub fn export(&self, i: u32) -> (&'a str, ExternTag, u32)
        requires { i < length (tree self.now).exports }
        ensures { slice_get (tree self.now).exports i ≡ Some (export_of result.0.now result.1 result.2) }
    {
        let entry = &self.exports[i as usize];
        (entry.name, entry.kind, entry.index)
    }

    /// How many locals a defined function has, its parameters among them. It has no parameters where its
    /// type index names no entry.
    pub fn local_count(&self, f: u32) -> u32
        requires defined { imported_count (tree self.now) ≤ f }
        requires there { f < length (function_entries (tree self.now)) }
        ensures { result ≡ length (locals_named (tree self.now) f) }
    {
        let _ = &self.bytes;
        let params = self.params_of(f);
        let runs = self.runs_of(f);
        params.len() as u32 + count_of(runs)
    }

    /// The type of a local of a defined function; parameters come first.
    #[inline(always)]
    pub fn local(&self, f: u32, i: u32) -> ValType
        requires { i < length (locals_named (tree self.now) f) }
        ensures { slice_get (locals_named (tree self.now) f) i ≡ Some result }
    {
        let params = self.params_of(f);
        if (i as usize) < params.len() {
            return param_type(params[i as usize]);
        }
        let runs = self.runs_of(f);
        type_in(runs, i - params.len() as u32)
    }

    /// How many elements there are.
    pub fn element_count(&self) -> u32
        ensures { result ≡ length (tree self.now).elements }
    {
        self.elements.len() as u32
    }

    /// An element; None exactly at or past their count.
    pub fn element(&self, i: u32) -> Option<Element<'_>>
        ensures { result ≡ slice_get (tree self.now).elements i }
    {
        let i = i as usize;
        if i >= self.elements.len() {
            return None;
        }
        let slot = self.elements[i];
        let start = self.functions_before(i);
        Some(Element {
            table: slot.table,
            offset: slot.offset,
            functions: part(&self.element_functions, start, slot.functions),
        })
    }

    /// How many data segments there are.
    pub fn segment_count(&self) -> u32
        ensures { result ≡ length (tree self.now).segments }
    {
        self.segments.len() as u32
    }

    /// A data segment; None exactly at or past their count.
    pub fn segment(&self, i: u32) -> Option<Segment<'a>>
        ensures { result ≡ slice_get (tree self.now).segments i }
    {
        let segment = self.segments.get(i as usize)?;
        Some(Segment {
            memory: segment.memory,
            offset: segment.offset,
            bytes: segment.bytes,
        })
    }

    /// How many custom sections there are.
    pub fn custom_count(&self) -> u32
        ensures { result ≡ length (tree self.now).customs }
    {
        self.customs.len() as u32
    }

    /// A custom section; None exactly at or past their count.
    pub fn custom(&self, i: u32) -> Option<Custom<'a>>
        ensures { result ≡ slice_get (tree self.now).customs i }
    {
        let custom = self.customs.get(i as usize)?;
        Some(Custom {
            place: custom.place,
            name: custom.name,
            bytes: custom.bytes,
        })
    }

    /// The type that an index names; an untrusted one without parameters and result where it names none.
    #[inline(always)]
    fn type_or_none(&self, index: u32) -> FuncType<'a>
        ensures { result ≡ type_named (tree self.now) index }
    {
        match self.types.get(index as usize) {
            Some(found) => lend(&found.ty),
            None => FuncType {
                trust: Trust::Untrusted,
                params: &self.bytes[..0],
                result: None,
            },
        }
    }

    /// The bytes of a defined function's parameters.
    #[inline(always)]
    fn params_of(&self, f: u32) -> &'a [u8]
        requires { (function : Function Label) × (function_named (tree self.now) f ≡ Some function) }
        ensures types { (function : Function Label) → function_named (tree self.now) f ≡ Some function
            → byte_types result.now ≡ (type_named (tree self.now) function.type).params }
        ensures typed { IsTrue (list_all is_type_byte result.now) }
        ensures few { length result.now ≤ most_params }
    {
        let ty = self.type_or_none(self.functions[f as usize]);
        ty.params
    }

    /// How many runs of locals the first defined functions have.
    fn runs_before(&self, defined: usize) -> usize
        requires { defined ≤ length (parts self.now).entries }
        ensures { result ≡ length (runs_of (take defined (parts self.now).entries)) }
    {
        if defined == 0 {
            return 0;
        }
        let slot = &self.codes[defined - 1];
        slot.runs
    }

    /// The runs of a defined function's declared locals.
    fn runs_of(&self, f: u32) -> &[LocalRun]
        requires { (function : Function Label) × (function_named (tree self.now) f ≡ Some function) }
        ensures { IsRunsOf (tree self.now) f result.now }
    {
        let defined = f as usize - self.imported;
        let start = self.runs_before(defined);
        let end = self.runs_before(defined + 1);
        part(&self.runs, start, end)
    }

    /// How many functions the first elements have.
    fn functions_before(&self, elements: usize) -> usize
        requires { elements ≤ length (tree self.now).elements }
        ensures { result ≡ length (element_functions (take elements (tree self.now).elements)) }
    {
        if elements == 0 {
            return 0;
        }
        self.elements[elements - 1].functions
    }
}

/// How many are imported of a kind of which a module has at most one: whether there is one, and whether it is defined.
fn only_imported(there: bool, defined: bool) -> u32
    ensures { result ≡ (if there && not defined then 1 else 0) }
{
    u32::from(there && !defined)
}
