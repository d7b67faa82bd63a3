ghost use Rattle.std.specs.Prelude.{◌≡◌, ◌<◌, ◌^◌, length, IfOk};
ghost use Rattle.ctw_ops.specs.Plain.{IsPlainModule};
ghost use Rattle.ctw_ops.specs.Valid.{IsValid};
ghost use Rattle.ctw_labels.specs.Points.{AreReleases};
ghost use Rattle.ctw_labels.specs.SitedModule.{sites as sites_of};
ghost use Rattle.ctw_place.specs.Bodies.{HasShortTexts};
ghost use Rattle.ctw_place.specs.Made.{IsMade};
ghost use Rattle.ctw_place.specs.Settings.{module_of, points_of};

use crate::entry::codes;
use crate::functions::{Functions, label_functions};
use crate::setting::Setting;
use crate::variants::Variants;
use std::alloc::{AllocError, Global};

/// What is made of a module before its sections are written.
#[derive(Drop)]
pub struct Made {
    /// Its functions.
    pub functions: Functions,
    /// All variants.
    pub variants: Variants,
    /// The code of the defined functions behind their count.
    pub codes: Vec<u8>,
}

/// Makes the functions and their code, and the variants.
pub fn make(alloc: Global, setting: &Setting) -> Result<Made, AllocError>
    requires plain { IsPlainModule (module_of setting.now) }
    requires valid { IsValid (module_of setting.now) }
    requires releases { AreReleases (points_of setting.now) }
    requires sites { length (sites_of (module_of setting.now)) < 2 ^ 32 }
    requires short { HasShortTexts setting.now }
    ensures { IfOk result (λ made. IsMade setting.now made) }
{
    let mut variants = Variants::new(alloc);
    let functions = label_functions(alloc, setting, &mut variants)?;
    let codes = codes(alloc, setting, &functions, &mut variants)?;
    Ok(Made {
        functions,
        variants,
        codes,
    })
}
