//! What parts export, by names.
ghost use Rattle.std.specs.Prelude.{◌≡◌, ◌≤◌, ◌<◌, length, Some, None, option_map, MatchOption, IfSome};
ghost use Rattle.std.specs.List.{position_from};
ghost use Rattle.ctw_ops.specs.declared.types.ExternTag.{ExternTag as Tag};
ghost use Rattle.ctw_ops.specs.declared.types.ExternTag.TheVariants.{Func, Memory};
ghost use Rattle.ctw_link.specs.Externals.{has_name};
ghost use Rattle.ctw_semantics.specs.Sound.{Shape};
ghost use Rattle.ctw_link.specs.Sets.{set_of, defined};
ghost use Rattle.ctw_link.specs.Numbers.{number_in};
ghost use Rattle.ctw_link.specs.Linked.{HasFunction};
ghost use Rattle.ctw_link.specs.SetInstances.{set_instances, IsShapeOf, LeadsToFunction, LeadsToMemory};
ghost use Rattle.ctw_link.specs.Exports.{exported};
ghost use Rattle.ctw_session.specs.Exporting.{IsExport, HasMemory};

use ctw_link::{LinkedSet, Part};
use ctw_ops::{ExternTag, FuncType, Label};

/// What a part exports.
#[derive(Clone, Copy, Debug, PartialEq, Eq)]
pub struct Export {
    /// The part.
    pub part: u32,
    /// The kind of the thing.
    pub tag: ExternTag,
    /// Its index in the part.
    pub index: u32,
}

/// A function that a part exports.
#[derive(Drop)]
pub struct ExportedFunction<'a> {
    /// Its number in the store.
    pub number: u32,
    /// Its type.
    pub ty: FuncType<'a>,
}

/// A memory that a part exports.
#[derive(Clone, Copy, Debug, PartialEq, Eq)]
pub struct ExportedMemory {
    /// Its number in the store.
    pub number: u32,
    /// The label of its bytes.
    pub label: Label,
}

/// The first part of a name.
fn part_named(parts: &[Part], name: &str) -> Option<u32>
    requires { length parts.now ≤ 64 }
    ensures { result ≡ position_from (has_name name.now) 0 (set_of parts.now) }
{
    'parts: for i in 0..parts.len() {
        if parts[i].name.as_str() == name {
            return Some(i as u32);
        }
    }
    None
}

/// What the first part of a name exports under a name.
fn export_of(set: &LinkedSet, part: &str, name: &str) -> Option<Export>
    ensures { MatchOption result ((tag : Tag) → exported tag (set_of set.now) part.now name.now ≡ None)
        (IsExport set.now part.now name.now) }
{
    let part = part_named(set.parts(), part)?;
    let module = &set.parts()[part as usize].module;
    let (tag, index) = module.export_named(name)?;
    Some(Export { part, tag, index })
}

/// A function of a part.
fn function_at<'a>(set: &LinkedSet<'a>, part: u32, index: u32) -> ExportedFunction<'a>
    requires { HasFunction set.now part index }
    ensures number { number_in (set_of set.now) Func part index ≡ Some result.number }
    ensures there { result.number < defined Func (set_of set.now) }
    ensures ty { LeadsToFunction (set_instances (set_of set.now)) result.ty result.number }
{
    let module = &set.parts()[part as usize].module;
    ExportedFunction {
        number: set.func(part, index),
        ty: module.func_type(module.type_of_func(index)),
    }
}

/// The memory of a part that has one.
fn memory_at(set: &LinkedSet, part: u32) -> ExportedMemory
    requires { HasMemory set.now part }
    ensures number { number_in (set_of set.now) Memory part 0 ≡ Some result.number }
    ensures label { (shape : Shape) → IsShapeOf (set_of set.now) shape → LeadsToMemory shape result.label result.number }
{
    let Some(number) = set.memory_of(part) else {
        unreachable!();
    };
    let Some(ty) = set.parts()[part as usize].module.memory() else {
        unreachable!();
    };
    ExportedMemory {
        number,
        label: ty.label,
    }
}

/// The function that the part of a name exports under a name; None exactly where no part has the name, or the part
/// exports no function under the other.
pub fn exported_function<'a>(
    set: &LinkedSet<'a>,
    part: &str,
    name: &str,
) -> Option<ExportedFunction<'a>>
    ensures number { option_map (λ f. f.number) result ≡ exported Func (set_of set.now) part.now name.now }
    ensures there { IfSome result (λ f. f.number < defined Func (set_of set.now)) }
    ensures ty { IfSome result (λ f. LeadsToFunction (set_instances (set_of set.now)) f.ty f.number) }
{
    let export = export_of(set, part, name)?;
    match export.tag {
        ExternTag::Func => Some(function_at(set, export.part, export.index)),
        _ => None,
    }
}

/// The memory that the part of a name exports under a name; None exactly where no part has the name, or the part exports
/// no memory under the other.
pub fn exported_memory(set: &LinkedSet, part: &str, name: &str) -> Option<ExportedMemory>
    ensures number { option_map (λ m. m.number) result ≡ exported Memory (set_of set.now) part.now name.now }
    ensures label { (shape : Shape) → IsShapeOf (set_of set.now) shape
        → IfSome result (λ m. LeadsToMemory shape m.label m.number) }
{
    let export = export_of(set, part, name)?;
    match export.tag {
        ExternTag::Memory => Some(memory_at(set, export.part)),
        _ => None,
    }
}
