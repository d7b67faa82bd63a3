ghost use Rattle.std.specs.Prelude.{◌≡◌, ◌<◌, [], fold, flat_map, length, IfOk, OnOk, filter_map, slice_get};
ghost use Rattle.ctw_ops.specs.declared.types.Label.{Label};
ghost use Rattle.ctw_ops.specs.Code.{Code};
ghost use Rattle.ctw_ops.specs.IndirectCalls.{indirect_calls};
ghost use Rattle.ctw_ops.specs.Tree.{function_entries};
ghost use Rattle.ctw_ops.specs.Valid.{IsValid};
ghost use Rattle.ctw_flat.specs.Instructions.{op_of};
ghost use Rattle.ctw_flat.specs.Spelled.{IsBody};
ghost use Rattle.ctw_module.specs.Trees.{tree, view_module};
ghost use Rattle.ctw_link.specs.Users.{element_entries, call_entries, user_entries, with_entry, first_uses};
ghost use Rattle.ctw_link.specs.Marks.{MarksThose, AllBelow, call_in};

use ctw_flat::{Body, Instr};
use ctw_module::{Element, Module};
use smallvec::SmallVec;
use std::alloc::{AllocError, Global};

/// Type entries of a module, each once, in the order in which they are found.
#[derive(Drop)]
struct EntriesUsed {
    /// Which of the module's entries are found.
    seen: Vec<bool>,
    entries: SmallVec<u32, 16>,
    ghost marked: { MarksThose seen.items entries.items },
}

impl EntriesUsed {
    /// None of so many entries.
    fn new(alloc: Global, count: u32) -> Result<EntriesUsed, AllocError>
        ensures none { IfOk result (λ used. used.entries.items ≡ []) }
        ensures count { IfOk result (λ used. length used.seen.items ≡ count) }
    {
        Ok(EntriesUsed {
            seen: vec![in alloc; false; count as usize]?,
            entries: SmallVec::new(alloc),
        })
    }

    /// An entry, which is behind the others where it isn't among them. Takes constant time.
    fn take(&mut self, entry: u32) -> Result<(), AllocError>
        requires { entry < length self.old.seen.items }
        ensures entries { OnOk result (self.new.entries.items ≡ with_entry self.old.entries.items entry) }
        ensures count { OnOk result (length self.new.seen.items ≡ length self.old.seen.items) }
    {
        if self.seen[entry as usize] {
            return Ok(());
        }
        self.entries.push(entry)?;
        self.seen[entry as usize] = true;
        Ok(())
    }

    /// That of an indirect call.
    fn take_call(&mut self, instr: &Instr) -> Result<(), AllocError>
        requires { AllBelow (length self.old.seen.items) (call_in (op_of instr.now) []) }
        ensures entries { OnOk result (self.new.entries.items
            ≡ fold with_entry self.old.entries.items (call_in (op_of instr.now) [])) }
        ensures count { OnOk result (length self.new.seen.items ≡ length self.old.seen.items) }
    {
        match instr {
            Instr::CallIndirect { index } => self.take(*index),
            _ => Ok(()),
        }
    }

    /// Those of a body's indirect calls.
    fn take_calls(&mut self, body: &Body) -> Result<(), AllocError>
        requires { (code : Code Label) × IsBody body.now code
            × AllBelow (length self.old.seen.items) (indirect_calls code) }
        ensures entries { (code : Code Label) → IsBody body.now code
            → OnOk result (self.new.entries.items ≡ fold with_entry self.old.entries.items (indirect_calls code)) }
        ensures count { OnOk result (length self.new.seen.items ≡ length self.old.seen.items) }
    {
        let end = body.code().len();
        let mut place = 0;
        'opcodes: while place < end {
            let (instr, next) = match body.instr_at(place) {
                Ok(read) => read,
                Err(_) => unreachable!(),
            };
            self.take_call(&instr)?;
            place = next;
        }
        Ok(())
    }

    /// Those of all bodies.
    fn take_bodies(&mut self, m: &Module) -> Result<(), AllocError>
        requires valid { IsValid (view_module m.now) }
        requires count { length self.old.seen.items ≡ length (tree m.now).types }
        ensures { OnOk result (self.new.entries.items
            ≡ fold with_entry self.old.entries.items (call_entries (tree m.now))) }
    {
        'functions: for f in 0..m.func_count() {
            let Some(body) = m.body(f) else {
                continue;
            };
            self.take_calls(&body)?;
        }
        Ok(())
    }

    /// Those of the functions of an element.
    fn take_element(&mut self, m: &Module, element: &Element) -> Result<(), AllocError>
        requires valid { IsValid (view_module m.now) }
        requires functions { AllBelow (length (function_entries (tree m.now))) element.now.functions }
        requires count { length self.old.seen.items ≡ length (tree m.now).types }
        ensures entries { OnOk result (self.new.entries.items
            ≡ fold with_entry self.old.entries.items
            (filter_map (slice_get (function_entries (tree m.now))) element.now.functions)) }
        ensures count { OnOk result (length self.new.seen.items ≡ length self.old.seen.items) }
    {
        'functions: for k in 0..element.count() {
            self.take(m.type_of_func(element.func(k)))?;
        }
        Ok(())
    }

    /// Those of the functions of all elements.
    fn take_elements(&mut self, m: &Module) -> Result<(), AllocError>
        requires valid { IsValid (view_module m.now) }
        requires count { length self.old.seen.items ≡ length (tree m.now).types }
        ensures entries { OnOk result (self.new.entries.items
            ≡ fold with_entry self.old.entries.items (element_entries (tree m.now))) }
        ensures count { OnOk result (length self.new.seen.items ≡ length self.old.seen.items) }
    {
        'elements: for i in 0..m.element_count() {
            let Some(element) = m.element(i) else {
                unreachable!();
            };
            self.take_element(m, &element)?;
        }
        Ok(())
    }
}

/// The type entries of a module's table users, each once, in the order in which they are first used: those of the
/// functions in its elements, and then those of its indirect calls. Takes linear time.
pub fn entries_used(alloc: Global, m: &Module) -> Result<SmallVec<u32, 16>, AllocError>
    requires { IsValid (view_module m.now) }
    ensures { IfOk result (λ entries. entries.items ≡ first_uses (user_entries (tree m.now))) }
{
    let mut used = EntriesUsed::new(alloc, m.type_count())?;
    used.take_elements(m)?;
    used.take_bodies(m)?;
    Ok(used.entries)
}
