ghost use Rattle.std.specs.Prelude.{◌≡◌, ℕ, false, length, IfOk, IfErr, IsOkUnless};
ghost use Rattle.ctw_ops.specs.declared.types.Label.{Label};
ghost use Rattle.ctw_ops.specs.Valid.{IsValid};
ghost use Rattle.ctw_module.specs.Trees.{view_module};
ghost use Rattle.ctw_labels.specs.Points.{AreReleases};
ghost use Rattle.ctw_labels.specs.Kept.{IsKept};
ghost use Rattle.ctw_labels.specs.Fits.{IsLabelling, IsBelowAll, Fits, label_at};
ghost use Rattle.ctw_labels.specs.SitedModule.{sites as sites_of};
ghost use Rattle.ctw_infer.specs.declared.fault.InferFault.TheVariants.{NoMemory};
ghost use Rattle.ctw_infer.specs.Answers.{IsMisuse, IsInferable, IsRefusedPlain, IsRefused, fault_of_sites};
ghost use Rattle.ctw_infer.specs.Searched.{IsWithin};
ghost use Rattle.ctw_least.specs.Marked.{marks_on};

use crate::fault::InferFault;
use crate::marked::{ends, marked};
use crate::search::search;
use crate::trust::{first_call, first_entry};
use ctw_links::collect;
use ctw_marks::Marks;
use ctw_module::Module;
use ctw_ops::Label;
use ctw_sites::{Labelling, Points, Sites, SitesFault};
use std::alloc::Global;

/// Why a module isn't labelled whose sites aren't numbered.
fn fault_of_sites(fault: SitesFault) -> InferFault
    ensures { result ≡ fault_of_sites fault }
{
    match fault {
        SitesFault::TooManySites { count } => InferFault::TooManySites { count },
        SitesFault::NoMemory => InferFault::NoMemory,
    }
}

/// Whether no function that isn't trusted calls one that is, and no element has a trusted one; else where trust is
/// misused first.
fn keep_trust(m: &Module, p: &Points) -> Result<(), InferFault>
    ensures kept { IfOk result (λ _. IsKept (view_module m.now) p.now) }
    ensures misused { IfErr result (λ e. IsMisuse (view_module m.now) p.now e) }
{
    if let Some(call) = first_call(m, p) {
        return Err(InferFault::TrustCall {
            caller: call.caller,
            at: call.at,
            callee: call.callee,
        });
    }
    if let Some(func) = first_entry(m, p) {
        return Err(InferFault::TrustTable { func });
    }
    Ok(())
}

/// What `infer` answers of a plain module whose sites are numbered, for callers that go on with them.
pub fn infer_sites(
    alloc: Global,
    m: &Module,
    s: &Sites,
    marks: &Marks,
) -> Result<Labelling, InferFault>
    requires plain { (view_module m.now).ct ≡ false }
    requires valid { IsValid (view_module m.now) }
    requires sites { s.now ≡ sites_of (view_module m.now) }
    requires points { AreReleases marks.now.points }
    ensures labelling { IfOk result (λ l. IsLabelling (view_module m.now) l) }
    ensures fits { IfOk result (λ l. Fits (view_module m.now) marks.now.points
        (marks_on (sites_of (view_module m.now)) marks.now.labels) (label_at l)) }
    ensures least { IfOk result (λ l. (k : ℕ → Label) → Fits (view_module m.now) marks.now.points
        (marks_on (sites_of (view_module m.now)) marks.now.labels) k
        → IsBelowAll (length (sites_of (view_module m.now))) (label_at l) k) }
    ensures refused { IfErr result (λ e. IsRefusedPlain (view_module m.now) marks.now.points
        (marks_on (sites_of (view_module m.now)) marks.now.labels) e) }
    ensures within { IfErr result (λ e. IsWithin (length s.now) e) }
{
    let points = marks.points();
    if let Err(fault) = keep_trust(m, points) {
        return Err(fault);
    }
    let links = collect(alloc, m, s, points)?;
    let starts = marked(alloc, s, marks, Label::Secret)?;
    let goals = ends(alloc, s, &links, marks)?;
    search(alloc, s, &links, &starts, &goals)
}

/// The least labelling that fits a module and its marks: it has each marked site at its label, the module that has
/// these labels is valid, trust is kept, and it is below each other one that does so. The module is valid, and where it
/// is plain each release of the marks stands in a trusted function. A mark whose name is no site's says nothing.
///
/// The faults come in this order, each exactly where none before it does: `Labelled` for a CT module, `TooManySites`
/// with the count of sites where they are more than 16,777,216, `TrustCall` with the first direct call of a trusted
/// function in one that isn't trusted, by function and opcode, `TrustTable` with the first trusted function in an
/// element, and `Flow` where no labelling fits: a secret's way into a public place, than which none is shorter, and of
/// those of its length none comes before it by its sites, with the least rule of each link and the least reason why the
/// last site is public. `NoMemory` may come for any module.
pub fn infer(alloc: Global, m: &Module, marks: &Marks) -> Result<Labelling, InferFault>
    requires valid { IsValid (view_module m.now) }
    requires points { (view_module m.now).ct ≡ false → AreReleases marks.now.points }
    ensures inferable { IfOk result (λ _. IsInferable (view_module m.now)) }
    ensures labelling { IfOk result (λ l. IsLabelling (view_module m.now) l) }
    ensures fits { IfOk result (λ l. Fits (view_module m.now) marks.now.points
        (marks_on (sites_of (view_module m.now)) marks.now.labels) (label_at l)) }
    ensures least { IfOk result (λ l. (k : ℕ → Label) → Fits (view_module m.now) marks.now.points
        (marks_on (sites_of (view_module m.now)) marks.now.labels) k
        → IsBelowAll (length (sites_of (view_module m.now))) (label_at l) k) }
    ensures refused { IfErr result (λ e. IsRefused (view_module m.now) marks.now.points
        (marks_on (sites_of (view_module m.now)) marks.now.labels) e) }
    ensures fitting { IsInferable (view_module m.now) → (k : ℕ → Label) → Fits (view_module m.now) marks.now.points
        (marks_on (sites_of (view_module m.now)) marks.now.labels) k → IsOkUnless result NoMemory }
{
    if m.is_ct() {
        return Err(InferFault::Labelled);
    }
    let sites = match Sites::of(alloc, m) {
        Ok(sites) => sites,
        Err(fault) => return Err(fault_of_sites(fault)),
    };
    infer_sites(alloc, m, &sites, marks)
}
