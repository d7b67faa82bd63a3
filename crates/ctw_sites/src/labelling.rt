ghost use Rattle.std.specs.Prelude.{◌≡◌, ◌<◌, length, replicate, slice_get, slice_set, Some, IfOk};
ghost use Rattle.ctw_ops.specs.declared.types.Label.TheVariants.{Public};

use crate::sites::Sites;
use ctw_ops::Label;
use std::alloc::{AllocError, Global};
use std::marker::Model;

/// A label for each site, in their order.
#[derive(Drop)]
pub struct Labelling {
    pub(crate) labels: Vec<Label>,
}

impl Model for Labelling {
    ghost use Rattle.std.specs.Prelude.{List};
    ghost use Rattle.ctw_ops.specs.declared.types.Label.{Label};

    ghost Value = { List Label };

    ghost view = { λ l. l.labels.items };
}

impl Labelling {
    /// Makes every site public.
    pub fn new(alloc: Global, s: &Sites) -> Result<Labelling, AllocError>
        ensures { IfOk result (λ l. l ≡ replicate (length s.now) Public) }
    {
        Ok(Labelling {
            labels: vec![in alloc; Label::Public; s.count() as usize]?,
        })
    }

    /// A site's label.
    pub fn at(&self, site: u32) -> Label
        requires { site < length self.now }
        ensures { slice_get self.now site ≡ Some result }
    {
        self.labels[site as usize]
    }

    /// Gives a site a label; the others keep theirs.
    pub fn set(&mut self, site: u32, label: Label)
        requires { site < length self.old }
        ensures { self.new ≡ slice_set self.old site label }
    {
        self.labels[site as usize] = label;
    }
}
