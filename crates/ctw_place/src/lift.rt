//! What stands behind what pushes, where a value goes under another site. Where memory runs out, some bytes may be there.
ghost use Rattle.std.specs.Prelude.{◌≡◌, ◌++◌, Option, OnOk};
ghost use Rattle.ctw_labels.specs.Fits.{label_at};
ghost use Rattle.ctw_labels.specs.Links.{at_tag};
ghost use Rattle.ctw_write.specs.Canon.{all_texts, op_text};
ghost use Rattle.ctw_place.specs.Flat.{raise_ops, lift_ops};

use crate::labels::Labels;
use ctw_flat::Instr;
use ctw_labels::Tag;
use ctw_ops::{Label, Width};
use ctw_write::code::put_instr;
use std::alloc::AllocError;
use std::marker::Model;

/// A value that goes under another site.
#[derive(Clone, Copy, Debug, PartialEq, Eq)]
pub struct Lift {
    /// Its width.
    pub width: Width,
    /// Where it comes from.
    pub source: Tag,
    /// Where it goes.
    pub target: Tag,
    /// Whether it may lose its secrecy.
    pub free: bool,
}

impl Model for Lift {
    ghost use Rattle.ctw_labels.specs.Sited.{Lift};
    ghost use Rattle.ctw_labels.specs.declared.tag.Tag.{Tag};

    ghost Value = { Lift Tag };

    ghost view = { λ l. record { width = l.width; source = l.source; target = l.target; free = l.free } };

    ghost inverse = { λ l. record { width = l.width; source = l.source; target = l.target; free = l.free } };
}

/// A classify where a public value becomes secret, a declassify where a secret one is set free, and else nothing.
fn put_raise(
    out: &mut Vec<u8>,
    from: Label,
    to: Label,
    free: bool,
    width: Width,
) -> Result<(), AllocError>
    ensures { OnOk result (out.new.items ≡ out.old.items ++ all_texts op_text (raise_ops from to free width)) }
{
    match (from, to) {
        (Label::Public, Label::Secret) => put_instr(out, &Instr::Classify { width }),
        (Label::Secret, Label::Public) => {
            if free {
                put_instr(out, &Instr::Declassify { width })
            } else {
                Ok(())
            }
        }
        (Label::Public, Label::Public) | (Label::Secret, Label::Secret) => Ok(()),
    }
}

/// What stands behind a push.
pub fn put_lift(out: &mut Vec<u8>, labels: &Labels, lift: Option<Lift>) -> Result<(), AllocError>
    ensures { OnOk result (out.new.items
        ≡ out.old.items ++ all_texts op_text (lift_ops (at_tag (label_at labels.now)) lift)) }
{
    match lift {
        Some(l) => {
            let from = labels.of(l.source);
            let to = labels.of(l.target);
            put_raise(out, from, to, l.free, l.width)
        }
        None => Ok(()),
    }
}
