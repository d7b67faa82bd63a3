//! The command that labels a module by marks.
ghost use Rattle.std.specs.Prelude.{◌≡◌, ◌≢◌, ◌≤◌, ◌<◌, ◌^◌, false, length, Some, Err, IfOk};
ghost use Rattle.ctw_ops.specs.Valid.{IsValid};
ghost use Rattle.ctw_module.specs.Trees.{view_module};
ghost use Rattle.ctw_labels.specs.Points.{AreReleases};
ghost use Rattle.ctw_labels.specs.SitedModule.{sites as sites_of};
ghost use Rattle.ctw_sites.specs.Packed.{most_sites};
ghost use Rattle.ctw_lines.specs.Lines.{infer_line};
ghost use Rattle.ctw_io.specs.Files.{Files};
ghost use Rattle.ctw_inputs.specs.declared.said.Status.TheVariants.{Refused};
ghost use Rattle.ctw_inputs.specs.declared.said.Stop.TheVariants.{ReadFault};
ghost use Rattle.ctw_inputs.specs.Outcome.{ends};
ghost use Rattle.ctw_inputs.specs.Settling.{IsStop, HasReadCause};
ghost use Rattle.ctwasm_top.specs.Findings.{OnSaid, GivesLabels, LabelsBy, IsOfSites, SaysModule, SaysBytes, SaysFiles};

use ctw_infer::{InferFault, infer_sites};
use ctw_inputs::{MARKS_LIMIT, MODULE_LIMIT, Said, Stop, load_file, read_valid, refuse, text_of};
use ctw_io::Shelf;
use ctw_lines::{infer_line, marks_line};
use ctw_marks::{MarkFault, Marks, read_marks};
use ctw_module::Module;
use ctw_ops::Profile;
use ctw_place::place;
use ctw_sites::{Labelling, Sites, SitesFault};
use ctw_witness::witness_text;
use std::alloc::Global;

/// Refuses to label a module.
fn refuse_infer(alloc: Global, fault: InferFault) -> Stop
    ensures told { IsStop result (ends Refused (infer_line fault)) }
    ensures quiet { result ≢ ReadFault }
{
    refuse(infer_line(alloc, &fault))
}

/// The least labelling of a plain module's sites that fits marks; where none does, the lines of a flow or a refusal are
/// said.
fn label_sites(alloc: Global, m: &Module, s: &Sites, marks: &Marks) -> Result<Labelling, Stop>
    requires plain { (view_module m.now).ct ≡ false }
    requires valid { IsValid (view_module m.now) }
    requires sites { s.now ≡ sites_of (view_module m.now) }
    requires few { length (sites_of (view_module m.now)) ≤ most_sites }
    requires points { AreReleases marks.now.points }
    ensures told { GivesLabels (view_module m.now) marks.now result }
    ensures labelling { IfOk result (λ l. length l ≡ length s.now) }
    ensures quiet { result ≢ Err ReadFault }
{
    match infer_sites(alloc, m, s, marks) {
        Ok(labels) => Ok(labels),
        Err(InferFault::Flow(flow)) => {
            let text = witness_text(alloc, s, &flow)?;
            Err(Stop::Says(Said::no_labelling(text.into_bytes())))
        }
        Err(InferFault::TrustCall { caller, at, callee }) => {
            let fault = InferFault::TrustCall { caller, at, callee };
            Err(refuse_infer(alloc, fault))
        }
        Err(InferFault::TrustTable { func }) => {
            Err(refuse_infer(alloc, InferFault::TrustTable { func }))
        }
        Err(InferFault::Labelled) | Err(InferFault::TooManySites { .. }) => unreachable!(),
        Err(InferFault::NoMemory) => Err(Stop::NoMemory),
    }
}

/// A plain module's marks, its sites, and the least labelling that fits.
#[derive(Drop)]
pub struct Labelled {
    /// The marks.
    pub marks: Marks,
    /// The sites.
    pub sites: Sites,
    /// The labels of the sites.
    pub labels: Labelling,
}

/// A valid module's least labelling by a text of marks. In its place are said the refusal of a CT module, of the marks
/// or of the module, or the lines of a flow.
pub fn label_by(alloc: Global, m: &Module, text: &str) -> Result<Labelled, Stop>
    requires valid { IsValid (view_module m.now) }
    requires short { length text.now < 2 ^ 32 }
    ensures told { LabelsBy (view_module m.now) text.now result }
    ensures labelling { IfOk result (IsOfSites (view_module m.now)) }
    ensures quiet { result ≢ Err ReadFault }
{
    if m.is_ct() {
        return Err(refuse_infer(alloc, InferFault::Labelled));
    }
    let marks = match read_marks(alloc, text, m) {
        Ok(marks) => marks,
        Err(MarkFault::NoMemory) => return Err(Stop::NoMemory),
        Err(fault) => return Err(refuse(marks_line(alloc, fault))),
    };
    let sites = match Sites::of(alloc, m) {
        Ok(sites) => sites,
        Err(SitesFault::TooManySites { count }) => {
            let fault = InferFault::TooManySites { count };
            return Err(refuse_infer(alloc, fault));
        }
        Err(SitesFault::NoMemory) => return Err(Stop::NoMemory),
    };
    match label_sites(alloc, m, &sites, &marks) {
        Ok(labels) => Ok(Labelled {
            marks,
            sites,
            labels,
        }),
        Err(stop) => Err(stop),
    }
}

/// What is said of a valid module by a text of marks: the canonical bytes of the placed module, the lines of a flow, or
/// a refusal.
fn label_module(alloc: Global, m: &Module, text: &str) -> Result<Said, Stop>
    requires valid { IsValid (view_module m.now) }
    requires short { length text.now < 2 ^ 32 }
    ensures told { OnSaid result (SaysModule (view_module m.now) text.now) }
    ensures quiet { result ≢ Err ReadFault }
{
    let labelled = label_by(alloc, m, text)?;
    let bytes = place(
        alloc,
        m,
        &labelled.sites,
        labelled.marks.points(),
        &labelled.labels,
    )?;
    Ok(Said::done(bytes))
}

/// What is said of the bytes of a module's file and of a file of marks.
fn label_bytes(
    alloc: Global,
    profile: Profile,
    file: &str,
    marks_file: &str,
    bytes: &[u8],
    marks: &[u8],
) -> Result<Said, Stop>
    requires bytes { length bytes.now < 2 ^ 32 }
    requires marks { length marks.now < 2 ^ 32 }
    ensures told { OnSaid result (SaysBytes profile file.now marks_file.now bytes.now marks.now) }
    ensures quiet { result ≢ Err ReadFault }
{
    let text = text_of(alloc, marks_file, marks)?;
    let module = read_valid(alloc, profile, file, bytes)?;
    label_module(alloc, &module, text)
}

/// `infer M MARKS`: says the canonical bytes of the placed module under the least labelling that fits the marks; where
/// none fits, the lines of a flow of a secret into a public place.
#[tactic(auto, unfolding(ctw_inputs::specs::Inputs::module_limit, ctw_inputs::specs::Inputs::marks_limit))]
pub fn infer_file<F: Shelf>(
    alloc: Global,
    profile: Profile,
    file: &str,
    marks_file: &str,
    shelf: &mut F,
) -> Result<Said, Stop>
    ensures told { (files : Files) → F.files shelf.old ≡ Some files
        → OnSaid result (SaysFiles files profile file.now marks_file.now) }
    ensures unchanged { F.files shelf.new ≡ F.files shelf.old }
    ensures cause { HasReadCause (F.faults shelf.old) (F.faults shelf.new) result }
{
    let bytes = load_file(alloc, shelf, file, MODULE_LIMIT)?;
    let marks = load_file(alloc, shelf, marks_file, MARKS_LIMIT)?;
    label_bytes(alloc, profile, file, marks_file, &bytes, &marks)
}
