ghost use Rattle.std.specs.Prelude.{◌≡◌, ◌==◌, OnOk, ℕ, List, map, if◌then◌else◌};
ghost use Rattle.ctw_ops.specs.declared.types.Label.{Label};
ghost use Rattle.ctw_ops.specs.Tree.{Element as TreeElement};
ghost use Rattle.std.specs.Option.{option_to_list};
ghost use Rattle.ctw_form.specs.Sections.{Entry, TypeSection, ImportSection, FunctionSection, TableSection, MemorySection, GlobalSection, ExportSection, StartSection, ElementSection, CodeSection, DataSection, CustomSection, Parts, no_parts, with_section};
ghost use Rattle.ctw_form.specs.Shown.{global_in};
ghost use Rattle.ctw_form.specs.Slots.{runs_of, coded_behind, headed, headed_behind, element_functions};
ghost use Rattle.ctw_module.specs.Gathers.{Gathers};

use crate::types::Custom;
use ctw_form::{
    CodeSlot, ElementSlot, ExportEntry, GlobalEntry, ImportEntry, LocalRun, Segment, TypeEntry,
};
use ctw_ops::{Limits, MemType};
use std::alloc::{AllocError, Global};

/// What the sections of a file have brought so far.
#[derive(Drop)]
pub struct Found<'a> {
    /// The id of the last section that has items; 0 where there is none.
    pub place: u8,
    /// The type entries.
    pub types: Vec<TypeEntry<'a>>,
    /// The imports.
    pub imports: Vec<ImportEntry<'a>>,
    /// The type indexes of the defined functions.
    pub uses: Vec<u32>,
    /// The defined table.
    pub table: Option<Limits>,
    /// The defined memory.
    pub memory: Option<MemType>,
    /// The defined globals.
    pub globals: Vec<GlobalEntry>,
    /// The exports.
    pub exports: Vec<ExportEntry<'a>>,
    /// The start function.
    pub start: Option<u32>,
    /// The elements.
    pub elements: Vec<ElementSlot>,
    /// The functions of all elements.
    pub element_functions: Vec<u32>,
    /// The code of the defined functions.
    pub codes: Vec<CodeSlot<'a>>,
    /// The runs of locals of all of them.
    pub runs: Vec<LocalRun>,
    /// The data segments.
    pub segments: Vec<Segment<'a>>,
    /// The custom sections.
    pub customs: Vec<Custom<'a>>,
}

/// The id of the last section that has items, behind a section with so many.
fn place_behind(id: u8, count: usize, place: u8) -> u8
    ensures { result ≡ (if count == 0 then place else id) }
{
    if count == 0 { place } else { id }
}

impl<'a> Found<'a> {
    /// Nothing.
    pub fn new(alloc: Global) -> Found<'a>
        ensures { Gathers result no_parts }
    {
        Found {
            place: 0,
            types: Vec::new(alloc),
            imports: Vec::new(alloc),
            uses: Vec::new(alloc),
            table: None,
            memory: None,
            globals: Vec::new(alloc),
            exports: Vec::new(alloc),
            start: None,
            elements: Vec::new(alloc),
            element_functions: Vec::new(alloc),
            codes: Vec::new(alloc),
            runs: Vec::new(alloc),
            segments: Vec::new(alloc),
            customs: Vec::new(alloc),
        }
    }

    /// Takes a type section.
    pub fn take_types(&mut self, types: Vec<TypeEntry<'a>>)
        ensures { (p : Parts) → Gathers self.old p → Gathers self.new (with_section p (TypeSection types.entry.items)) }
    {
        self.place = place_behind(1, types.len(), self.place);
        self.types = types;
    }

    /// Takes an import section.
    pub fn take_imports(&mut self, imports: Vec<ImportEntry<'a>>)
        ensures { (p : Parts) → Gathers self.old p
            → Gathers self.new (with_section p (ImportSection imports.entry.items)) }
    {
        self.place = place_behind(2, imports.len(), self.place);
        self.imports = imports;
    }

    /// Takes a function section.
    pub fn take_uses(&mut self, uses: Vec<u32>)
        ensures { (p : Parts) → Gathers self.old p → Gathers self.new (with_section p (FunctionSection uses.items)) }
    {
        self.place = place_behind(3, uses.len(), self.place);
        self.uses = uses;
    }

    /// Takes a table section.
    pub fn take_table(&mut self, table: Option<Limits>)
        ensures { (p : Parts) → Gathers self.old p
            → Gathers self.new (with_section p (TableSection (option_to_list table))) }
    {
        self.place = place_behind(4, usize::from(table.is_some()), self.place);
        self.table = table;
    }

    /// Takes a memory section.
    pub fn take_memory(&mut self, memory: Option<MemType>)
        ensures { (p : Parts) → Gathers self.old p
            → Gathers self.new (with_section p (MemorySection (option_to_list memory))) }
    {
        self.place = place_behind(5, usize::from(memory.is_some()), self.place);
        self.memory = memory;
    }

    /// Takes a global section.
    pub fn take_globals(&mut self, globals: Vec<GlobalEntry>)
        ensures { (p : Parts) → Gathers self.old p
            → Gathers self.new (with_section p (GlobalSection (map global_in globals.items))) }
    {
        self.place = place_behind(6, globals.len(), self.place);
        self.globals = globals;
    }

    /// Takes an export section.
    pub fn take_exports(&mut self, exports: Vec<ExportEntry<'a>>)
        ensures { (p : Parts) → Gathers self.old p
            → Gathers self.new (with_section p (ExportSection exports.entry.items)) }
    {
        self.place = place_behind(7, exports.len(), self.place);
        self.exports = exports;
    }

    /// Takes a start section.
    pub fn take_start(&mut self, function: u32)
        ensures { (p : Parts) → Gathers self.old p → Gathers self.new (with_section p (StartSection function)) }
    {
        self.place = 8;
        self.start = Some(function);
    }

    /// Takes an element section.
    pub fn take_elements(&mut self, elements: Vec<ElementSlot>, functions: Vec<u32>)
        ensures { (p : Parts) (l : List (TreeElement Label)) → map headed elements.items ≡ headed_behind 0 l
            → functions.items ≡ element_functions l
            → Gathers self.old p → Gathers self.new (with_section p (ElementSection l)) }
    {
        self.place = place_behind(9, elements.len(), self.place);
        self.elements = elements;
        self.element_functions = functions;
    }

    /// Takes a code section.
    pub fn take_codes(&mut self, codes: Vec<CodeSlot<'a>>, runs: Vec<LocalRun>)
        ensures { (p : Parts) (l : List Entry) → codes.entry.items ≡ coded_behind 0 l → runs.items ≡ runs_of l
            → Gathers self.old p → Gathers self.new (with_section p (CodeSection l)) }
    {
        self.place = place_behind(10, codes.len(), self.place);
        self.codes = codes;
        self.runs = runs;
    }

    /// Takes a data section.
    pub fn take_segments(&mut self, segments: Vec<Segment<'a>>)
        ensures { (p : Parts) → Gathers self.old p
            → Gathers self.new (with_section p (DataSection segments.entry.items)) }
    {
        self.place = place_behind(11, segments.len(), self.place);
        self.segments = segments;
    }

    /// Takes a custom section.
    pub fn take_custom(&mut self, name: &'a str, bytes: &'a [u8]) -> Result<(), AllocError>
        ensures { OnOk result ((p : Parts) → Gathers self.old p
            → Gathers self.new (with_section p (CustomSection name.now bytes.now))) }
    {
        let place = self.place;
        self.customs.push(Custom { place, name, bytes })?;
        Ok(())
    }
}
