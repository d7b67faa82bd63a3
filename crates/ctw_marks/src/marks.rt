ghost use Rattle.std.specs.Prelude.{◌≡◌, ◌<◌, length, slice_get, Some};

use ctw_labels::SiteName;
use ctw_ops::Label;
use ctw_sites::Points;
use std::marker::Model;

/// Sites by name, each with the label that it has to have, in the order of the file; the functions that are trusted,
/// and the opcodes in them that release what they push.
#[derive(Drop)]
pub struct Marks {
    pub(crate) labels: Vec<(SiteName, Label)>,
    pub(crate) points: Points,
}

impl Model for Marks {
    ghost use Rattle.std.specs.Prelude.{◌<◌, ◌^◌, length};
    ghost use Rattle.ctw_marks.specs.Readings.{MarkList};

    ghost Value = { MarkList };

    ghost view = { λ m. record { labels = m.labels.items; points = m.points } };

    ghost invariant = { λ m. length m.labels.items < 2 ^ 32 };
}

impl Marks {
    /// How many sites have labels, by one line each.
    pub fn count(&self) -> u32
        ensures { result ≡ length self.now.labels }
    {
        self.labels.len() as u32
    }

    /// The site and the label of this number, from 0.
    pub fn mark(&self, i: u32) -> (SiteName, Label)
        requires { i < length self.now.labels }
        ensures { slice_get self.now.labels i ≡ Some result }
    {
        self.labels[i as usize]
    }

    /// The trusted functions and the releases.
    pub fn points(&self) -> &Points
        ensures { result.now ≡ self.now.points }
    {
        &self.points
    }
}
