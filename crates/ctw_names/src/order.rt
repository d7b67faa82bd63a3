ghost use Rattle.std.specs.Prelude.{◌≡◌, ◌∷◌, [], ◌++◌, List, IfOk};
ghost use Rattle.ctw_text.specs.declared.fields.Item.{Item as FieldItem};
ghost use Rattle.ctw_text.specs.Fields.{unfolded};
ghost use Rattle.ctw_names.specs.Pending.{pending};

use ctw_text::{FrontList, Item, Raw};
use std::alloc::{AllocError, Global};

/// Takes one item. `folds` says whether a folded instruction is to come; the answer says whether one is then.
fn step<'a>(
    item: Item<'a>,
    folds: bool,
    held: &mut FrontList<Raw<'a>>,
    raws: &mut Vec<Raw<'a>>,
) -> Result<bool, AllocError>
    ensures { IfOk result (λ folds_then. (items : List FieldItem) → raws.new.items ++ pending folds_then held.new items
        ≡ raws.old.items ++ pending folds held.old (item.entry ∷ items)) }
{
    match item {
        Item::Folds => Ok(true),
        Item::Unfolds => {
            let Some(raw) = held.pop() else {
                return Ok(false);
            };
            raws.push(raw)?;
            Ok(false)
        }
        Item::Op(raw) => {
            if folds {
                held.push(raw)?;
                return Ok(false);
            }
            raws.push(raw)?;
            Ok(false)
        }
    }
}

/// The instructions of items in the order in which they run: a folded one comes after its operands.
pub fn run_order<'a>(alloc: Global, code: FrontList<Item<'a>>) -> Result<Vec<Raw<'a>>, AllocError>
    ensures { IfOk result (λ raws. raws.items ≡ unfolded [] code.entry) }
{
    let mut code = code;
    let mut held = FrontList::new(alloc);
    let mut raws = Vec::new(alloc);
    let mut folds = false;
    'items: while let Some(item) = code.pop() {
        folds = step(item, folds, &mut held, &mut raws)?;
    }
    Ok(raws)
}
