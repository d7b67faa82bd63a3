ghost use Rattle.std.specs.Prelude.{◌≡◌, ◌≤◌, length};
ghost use Rattle.ctw_labels.specs.Fits.{label_at};
ghost use Rattle.ctw_labels.specs.Links.{at_tag};
ghost use Rattle.ctw_sites.specs.Packed.{most_sites};

use ctw_labels::Tag;
use ctw_ops::Label;
use ctw_sites::{Labelling, Sites};
use std::marker::Model;

/// The labels of sites, by number and by tag.
#[derive(Drop)]
pub struct Labels<'a> {
    count: u32,
    labels: &'a Labelling,
}

impl<'a> Model for Labels<'a> {
    ghost use Rattle.std.specs.Prelude.{◌≡◌, List, length};
    ghost use Rattle.ctw_ops.specs.declared.types.Label.{Label};

    ghost Value = { List Label };

    ghost view = { λ l. l.labels.now };

    ghost invariant = { λ l. l.count ≡ length l.labels.now };
}

impl<'a> Labels<'a> {
    /// Those of a labelling, which has a label for each of the sites.
    pub fn new(s: &Sites, labels: &'a Labelling) -> Labels<'a>
        requires { length labels.now ≡ length s.now }
        ensures labels { result ≡ labels.now }
        ensures few { length s.now ≤ most_sites }
    {
        Labels {
            count: s.count(),
            labels,
        }
    }

    /// A site's label; Public where there is no such site.
    pub fn at(&self, site: u32) -> Label
        ensures { result ≡ label_at self.now site }
    {
        if site >= self.count {
            return Label::Public;
        }
        self.labels.at(site)
    }

    /// A tag's label.
    pub fn of(&self, tag: Tag) -> Label
        ensures { result ≡ at_tag (label_at self.now) tag }
    {
        match tag {
            Tag::At { site } => self.at(site),
            Tag::Fixed => Label::Public,
        }
    }
}
