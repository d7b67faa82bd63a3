ghost use Rattle.std.specs.Prelude.{◌≡◌, ◌≤◌, ◌<◌, Some, length, slice_get};
ghost use Rattle.ctw_ops.specs.declared.types.Label.{Label};
ghost use Rattle.ctw_ops.specs.Tree.{Function, function_entries};
ghost use Rattle.ctw_ops.specs.Bodies.{context_of};
ghost use Rattle.ctw_module.specs.Trees.{tree, view_module};
ghost use Rattle.ctw_module.specs.Lookup.{imported_count, function_named, locals_named};
ghost use Rattle.ctw_valid.specs.Named.{AreTyped};

use ctw_module::Module;
use ctw_ops::{FuncType, GlobalType, Label, Profile, Trust, ValType};

/// What a defined function's body may name, besides its labels.
#[derive(Drop)]
pub struct Around<'a> {
    whole: &'a Module<'a>,
    f: u32,
    /// How many locals there are.
    locals: u32,
    /// The function's trust.
    pub trust: Trust,
    /// The type of the function's result.
    pub result: Option<ValType>,
    /// Which operations may take no secret.
    pub profile: Profile,
    ghost typed: { AreTyped (tree whole.now) },
    ghost defined: { imported_count (tree whole.now) ≤ f },
    ghost counted: { locals ≡ length (locals_named (tree whole.now) f) },
    ghost there: { f < length (function_entries (tree whole.now)) },
}

impl<'a> Around<'a> {
    ghost use Rattle.ctw_valid.specs.Scope.{types_of, functions_of, globals_of, locals_of, memory_of, table_of, scope_of_body};

    /// What the body of a function may name.
    pub fn new(whole: &'a Module<'a>, f: u32) -> Around<'a>
        requires typed { AreTyped (tree whole.now) }
        requires defined { imported_count (tree whole.now) ≤ f }
        requires there { f < length (function_entries (tree whole.now)) }
        ensures { (function : Function Label) → function_named (tree whole.now) f ≡ Some function
            → scope_of_body result ≡ context_of (view_module whole.now) function }
    {
        let ty = whole.func_type(whole.type_of_func(f));
        Around {
            whole,
            f,
            locals: whole.local_count(f),
            trust: ty.trust,
            result: ty.result,
            profile: whole.profile(),
        }
    }

    /// A function's type; None exactly where there is no such function.
    pub fn function(&self, index: u32) -> Option<FuncType<'a>>
        ensures { result ≡ slice_get (functions_of self.now) index }
    {
        if index >= self.whole.func_count() {
            return None;
        }
        Some(self.whole.func_type(self.whole.type_of_func(index)))
    }

    /// The type of a type entry; None exactly where there is no such entry.
    pub fn entry(&self, index: u32) -> Option<FuncType<'a>>
        ensures { result ≡ slice_get (types_of self.now) index }
    {
        if index >= self.whole.type_count() {
            return None;
        }
        Some(self.whole.func_type(index))
    }

    /// A local's type; None exactly where there is no such local.
    #[inline(always)]
    pub fn local(&self, index: u32) -> Option<ValType>
        ensures { result ≡ slice_get (locals_of self.now) index }
    {
        if index >= self.locals {
            return None;
        }
        Some(self.whole.local(self.f, index))
    }

    /// A global's type; None exactly where there is no such global.
    pub fn global(&self, index: u32) -> Option<GlobalType>
        ensures { result ≡ slice_get (globals_of self.now) index }
    {
        if index >= self.whole.global_count() {
            return None;
        }
        Some(self.whole.global(index).ty)
    }

    /// The memory's label; None exactly where there is no memory.
    #[tactic(auto, unfolding(crate::specs::Scope::memory_of))]
    pub fn memory(&self) -> Option<Label>
        ensures { result ≡ memory_of self.now }
    {
        match self.whole.memory() {
            Some(memory) => Some(memory.label),
            None => None,
        }
    }

    /// Whether there is a table.
    #[tactic(auto, unfolding(crate::specs::Scope::table_of))]
    pub fn has_table(&self) -> bool
        ensures { result ≡ table_of self.now }
    {
        self.whole.table().is_some()
    }
}
