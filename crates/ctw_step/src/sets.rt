//! What a running call reads of a linked set.
ghost use Rattle.std.specs.Prelude.{◌≡◌, ◌<◌, ◌≤◌, ◌-◌, ℕ, length, Some, slice_get};
ghost use Rattle.ctw_ops.specs.declared.types.ExternTag.TheVariants.{Func, Global as Globals, Memory as Memories, Table as Tables};
ghost use Rattle.ctw_flat.specs.Blocks.{ends_in};
ghost use Rattle.ctw_flat.specs.Positions.{TellsEnds};
ghost use Rattle.ctw_semantics.specs.Instances.{FunctionInstance};
ghost use Rattle.ctw_link.specs.Sets.{set_of, defined};
ghost use Rattle.ctw_link.specs.Numbers.{number_in, owners};
ghost use Rattle.ctw_step.specs.SetInstances.{instances};
ghost use Rattle.ctw_ops.specs.declared.types.Label.{Label};
ghost use Rattle.ctw_ops.specs.Tree.{Function, TypeEntry, function_entries, type_named};
ghost use Rattle.ctw_step.specs.Reducing.{InPart};
ghost use Rattle.ctw_ops.specs.Valid.{IsValid};
ghost use Rattle.ctw_module.specs.Trees.{tree, view_module};
ghost use Rattle.ctw_module.specs.Lookup.{imported_count, function_named};
ghost use Rattle.ctw_link.specs.Linked.{code_at, code_in};
ghost use Rattle.ctw_step.specs.Calls.{IsCallee, Knows};

use crate::calls::Callee;
use ctw_flat::{BlockMap, Body};
use ctw_link::LinkedSet;
use ctw_module::Module;
use ctw_ops::{FuncType, Profile};

/// The body of a function of the store.
pub fn body_of<'a>(set: &LinkedSet<'a>, func: u32) -> Body<'a>
    requires { func < defined Func (set_of set.now) }
    ensures { result ≡ code_in set.now func }
{
    let (part, index) = set.owner(func);
    let Some(body) = set.parts()[part as usize].module.body(index) else {
        unreachable!();
    };
    body
}

/// Where the blocks of a body of the store end.
pub fn blocks_of<'s, 'a>(set: &'s LinkedSet<'a>, func: u32) -> &'s BlockMap
    requires { func < defined Func (set_of set.now) }
    ensures { TellsEnds (code_in set.now func) (ends_in result.now) }
{
    set.blocks(func)
}

/// The number in the store of a part's function.
pub fn function_in(set: &LinkedSet, part: u32, index: u32) -> u32
    requires { (n : ℕ) × (number_in (set_of set.now) Func part index ≡ Some n) }
    ensures number { number_in (set_of set.now) Func part index ≡ Some result }
    ensures there { result < defined Func (set_of set.now) }
{
    set.func(part, index)
}

/// The number in the store of a part's global.
pub fn global_in(set: &LinkedSet, part: u32, index: u32) -> u32
    requires { (n : ℕ) × (number_in (set_of set.now) Globals part index ≡ Some n) }
    ensures { number_in (set_of set.now) Globals part index ≡ Some result }
{
    set.global_of(part, index)
}

/// The number in the store of a part's memory.
pub fn memory_in(set: &LinkedSet, part: u32) -> u32
    requires { (n : ℕ) × (number_in (set_of set.now) Memories part 0 ≡ Some n) }
    ensures { number_in (set_of set.now) Memories part 0 ≡ Some result }
{
    let Some(number) = set.memory_of(part) else {
        unreachable!();
    };
    number
}

/// The number in the store of a part's table.
pub fn table_in(set: &LinkedSet, part: u32) -> u32
    requires { (n : ℕ) × (number_in (set_of set.now) Tables part 0 ≡ Some n) }
    ensures { number_in (set_of set.now) Tables part 0 ≡ Some result }
{
    let Some(number) = set.table_of(part) else {
        unreachable!();
    };
    number
}

/// Which operations leak in a part.
pub fn profile_in(set: &LinkedSet, part: u32) -> Profile
    requires { part < length set.now }
    ensures { (func index : ℕ) (fn : FunctionInstance) → slice_get (owners (set_of set.now)) func ≡ Some (part, index)
        → slice_get (instances set.now) func ≡ Some fn → fn.part.profile ≡ result }
{
    set.parts()[part as usize].module.profile()
}

/// How many of all locals aren't parameters.
fn without(all: u32, params: usize) -> u32
    requires { params ≤ all }
    ensures { result ≡ all - params }
{
    all - params as u32
}

/// What a call has to know of a function that a module defines.
fn callee_in(home: &Module, func: u32, index: u32) -> Callee
    requires valid { IsValid (view_module home.now) }
    requires low { imported_count (tree home.now) ≤ index }
    requires high { index < length (function_entries (tree home.now)) }
    ensures number { result.func ≡ func }
    ensures known { (f : Function Label) → function_named (tree home.now) index ≡ Some f
        → Knows (code_at home.now index) (type_named (tree home.now) f.type) f result }
{
    let Some(_) = home.body(index) else {
        unreachable!();
    };
    let ty = home.func_type(home.type_of_func(index));
    let params = ty.params.len();
    Callee {
        func,
        params,
        declared: without(home.local_count(index), params),
        has_result: ty.result.is_some(),
    }
}

/// What a call has to know of a function of the store.
pub fn callee_of(set: &LinkedSet, func: u32) -> Callee
    requires { func < defined Func (set_of set.now) }
    ensures number { result.func ≡ func }
    ensures known { (fn : FunctionInstance) → slice_get (instances set.now) func ≡ Some fn
        → IsCallee (code_in set.now) (instances set.now) result fn }
{
    let (part, index) = set.owner(func);
    callee_in(&set.parts()[part as usize].module, func, index)
}

/// The type of a function that a module defines.
fn type_of<'a>(home: &Module<'a>, index: u32) -> FuncType<'a>
    requires valid { IsValid (view_module home.now) }
    requires low { imported_count (tree home.now) ≤ index }
    requires high { index < length (function_entries (tree home.now)) }
    ensures { (f : Function Label) → function_named (tree home.now) index ≡ Some f
        → result ≡ type_named (tree home.now) f.type }
{
    home.func_type(home.type_of_func(index))
}

/// The type of a function of the store.
pub fn type_in<'a>(set: &LinkedSet<'a>, func: u32) -> FuncType<'a>
    requires { func < defined Func (set_of set.now) }
    ensures { (fn : FunctionInstance) → slice_get (instances set.now) func ≡ Some fn → result ≡ fn.type }
{
    let (part, index) = set.owner(func);
    type_of(&set.parts()[part as usize].module, index)
}

/// The type of a part's type entry.
pub fn entry_in<'a>(set: &LinkedSet<'a>, part: u32, entry: u32) -> FuncType<'a>
    requires { (func : ℕ) × (fn : FunctionInstance) × InPart set.now part func fn × (entry < length fn.part.types) }
    ensures { (func : ℕ) (fn : FunctionInstance) (t : TypeEntry Label) → InPart set.now part func fn
        → slice_get fn.part.types entry ≡ Some t → result ≡ t.type }
{
    set.parts()[part as usize].module.func_type(entry)
}
