ghost use Rattle.std.specs.Prelude.{◌≡◌, ◌∷◌, []};
ghost use Rattle.ctw_text.specs.declared.fields.Item.TheVariants as items;
ghost use Rattle.ctw_text.specs.declared.fields.Raw.TheVariants as raws;
ghost use Rattle.ctw_text.specs.Names.{Space as TextSpace, constant_faults, constant_in, zero_offset};
ghost use Rattle.ctw_names.specs.Noted.{noted};
ghost use Rattle.ctw_names.specs.Spaces.{space_in};
ghost use Rattle.ctw_names.specs.Wides.{constant_of};

use crate::fault::Faults;
use crate::resolve::{find, note};
use crate::space::Space;
use crate::wide::WideConstant;
use ctw_ops::{Label, ValType, Width};
use ctw_text::{FrontList, Item, Leaf, LeafKind, Raw};

/// The number 0.
pub fn zero() -> WideConstant
    ensures { constant_of result ≡ zero_offset }
{
    WideConstant::Number(
        ValType {
            width: Width::W32,
            label: Label::Public,
        },
        0,
    )
}

/// The number of a constant instruction; 0 for another one.
fn leaf_constant(leaf: Leaf) -> WideConstant
    ensures { (S : TextSpace) → constant_of result ≡ constant_in S (items.Op (raws.Single leaf) ∷ []) }
{
    match leaf.kind {
        LeafKind::Const { width, label, bits } => {
            WideConstant::Number(ValType { width, label }, bits)
        }
        _ => zero(),
    }
}

/// The constant of an instruction.
fn item_constant(space: &Space, item: &Item) -> WideConstant
    ensures { constant_of result ≡ constant_in (space_in space.now) (item.now ∷ []) }
{
    let Item::Op(raw) = item else {
        return zero();
    };
    match raw {
        Raw::Single(leaf) => leaf_constant(*leaf),
        Raw::Uses(_, x) => WideConstant::ValueOf(find(&space.globals, x)),
        Raw::Targets(_) => zero(),
        Raw::Indirect(_) => zero(),
        Raw::Opens(_, _, _) => zero(),
        Raw::Else(_) => zero(),
        Raw::End(_) => zero(),
    }
}

/// A constant expression.
pub fn constant(space: &Space, code: &FrontList<Item>) -> WideConstant
    ensures { constant_of result ≡ constant_in (space_in space.now) code.now }
{
    if code.len() == 0 {
        return zero();
    }
    item_constant(space, code.at(0))
}

/// Notes the fault of a constant's first instruction.
fn note_item(space: &Space, item: &Item, faults: &mut Faults)
    ensures { faults.new ≡ noted faults.old (constant_faults (space_in space.now) (item.now ∷ [])) }
{
    let Item::Op(raw) = item else {
        return;
    };
    let Raw::Uses(_, x) = raw else {
        return;
    };
    note(&space.globals, x, faults);
}

/// Notes a fault where a constant expression names an unknown global.
pub fn note_constant(space: &Space, code: &FrontList<Item>, faults: &mut Faults)
    ensures { faults.new ≡ noted faults.old (constant_faults (space_in space.now) code.now) }
{
    if code.len() == 0 {
        return;
    }
    note_item(space, code.at(0), faults);
}
