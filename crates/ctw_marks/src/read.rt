// Marks: what the lines of a text ask for, in a module.
ghost use Rattle.std.specs.Prelude.{◌≡◌, ◌<◌, ◌≤◌, ◌+◌, ◌^◌, ◌||◌, ◌++◌, ◌∷◌, ℕ, false, [], length, IfOk, IfErr, OnOk};
ghost use Rattle.ctw_ops.specs.Valid.{IsValid};
ghost use Rattle.ctw_module.specs.Trees.{view_module};
ghost use Rattle.ctw_labels.specs.Points.{has_number, AreReleases};
ghost use Rattle.ctw_marks.specs.declared.fault.MarkFault.TheVariants.{NoMemory};
ghost use Rattle.ctw_marks.specs.Pushed.{MayBePushes};
ghost use Rattle.ctw_marks.specs.Readings.{HasReading, HasFault};
ghost use Rattle.ctw_marks.specs.Taken.{trusts, trusts_in, Takes, IsBad, TakesAll, StopsIn, TakesRelease, IsBadRelease};

use crate::entry::{Entry, entries};
use crate::fault::MarkFault;
use crate::marks::Marks;
use crate::order::{Order, Subject};
use crate::place::{function_of, site_of, trusted_function};
use crate::pushes::has_push;
use ctw_labels::SiteName;
use ctw_lex::{LexFault, tokens};
use ctw_module::Module;
use ctw_ops::Label;
use ctw_sites::Points;
use std::alloc::{AllocError, Global};

// Adds the function that a line trusts, if it does.
fn add_trust(m: &Module, order: &Option<Order>, points: &mut Points) -> Result<(), AllocError>
    ensures trusted { OnOk result ((g : ℕ) → has_number g points.new.trusted
        ≡ (trusts (view_module m.now) order.now g || has_number g points.old.trusted)) }
    ensures releases { points.new.releases ≡ points.old.releases }
{
    let Some(Order::Trust { func }) = order else {
        return Ok(());
    };
    match trusted_function(m, func) {
        Some(f) => points.add_trust(f),
        None => Ok(()),
    }
}

// The functions that lines trust.
fn trusted_by(alloc: Global, m: &Module, entries: &[Entry]) -> Result<Points, AllocError>
    ensures trusted { IfOk result (λ p. (g : ℕ) →
        has_number g p.trusted ≡ trusts_in (view_module m.now) entries.now g) }
    ensures releases { IfOk result (λ p. p.releases ≡ []) }
{
    let mut points = Points::new(alloc);
    'entries: for entry in entries {
        add_trust(m, &entry.order, &mut points)?;
    }
    Ok(points)
}

// Adds a release, of a trusted function at an opcode that pushes.
fn add_release(
    alloc: Global,
    m: &Module,
    func: &Subject,
    at: Option<u32>,
    line: u32,
    pushes: &mut Option<Points>,
    points: &mut Points,
) -> Result<(), MarkFault>
    requires plain { (view_module m.now).ct ≡ false }
    requires valid { IsValid (view_module m.now) }
    requires pushes { MayBePushes (view_module m.now) pushes.old }
    ensures kept { OnOk result (MayBePushes (view_module m.now) pushes.new) }
    ensures taken { OnOk result (TakesRelease (view_module m.now) func.now at points.old points.new) }
    ensures fault { IfErr result (IsBadRelease (view_module m.now) func.now at line points.old) }
{
    let Some(f) = function_of(m, func) else {
        return Err(MarkFault::NoPlace { line });
    };
    let Some(at) = at else {
        return Err(MarkFault::NoPlace { line });
    };
    if !has_push(alloc, m, pushes, f, at)? {
        return Err(MarkFault::NoPlace { line });
    }
    if !points.trusted(f) {
        return Err(MarkFault::Untrusted { line });
    }
    points.add_release(f, at)?;
    Ok(())
}

fn push_label(
    labels: &mut Vec<(SiteName, Label)>,
    name: SiteName,
    label: Label,
) -> Result<(), AllocError>
    ensures { OnOk result (labels.new.items ≡ labels.old.items ++ (name, label) ∷ []) }
{
    labels.push((name, label))?;
    Ok(())
}

// Adds what a line asks for.
fn add_order(
    alloc: Global,
    m: &Module,
    entry: &Entry,
    pushes: &mut Option<Points>,
    labels: &mut Vec<(SiteName, Label)>,
    points: &mut Points,
) -> Result<(), MarkFault>
    requires plain { (view_module m.now).ct ≡ false }
    requires valid { IsValid (view_module m.now) }
    requires pushes { MayBePushes (view_module m.now) pushes.old }
    ensures kept { OnOk result (MayBePushes (view_module m.now) pushes.new) }
    ensures few { OnOk result (length labels.new.items ≤ length labels.old.items + 1) }
    ensures taken { OnOk result (Takes (view_module m.now) entry.now.order
        (record { labels = labels.old.items; points = points.old })
        (record { labels = labels.new.items; points = points.new })) }
    ensures fault { IfErr result (IsBad (view_module m.now) entry.now
        (record { labels = labels.old.items; points = points.old })) }
{
    let line = entry.line;
    match &entry.order {
        Some(Order::Label { label, spot }) => match site_of(m, spot) {
            Some(name) => {
                push_label(labels, name, *label)?;
                Ok(())
            }
            None => Err(MarkFault::NoPlace { line }),
        },
        Some(Order::Trust { func }) => match trusted_function(m, func) {
            Some(_) => Ok(()),
            None => Err(MarkFault::NoPlace { line }),
        },
        Some(Order::Release { func, at }) => {
            add_release(alloc, m, func, *at, line, pushes, points)
        }
        None => Err(MarkFault::Line { line }),
    }
}

// The marks of lines, where these are the functions that they trust.
fn read_entries(
    alloc: Global,
    m: &Module,
    entries: &[Entry],
    mut points: Points,
) -> Result<Marks, MarkFault>
    requires plain { (view_module m.now).ct ≡ false }
    requires valid { IsValid (view_module m.now) }
    requires few { length entries.now < 2 ^ 32 }
    ensures taken { IfOk result (TakesAll (view_module m.now) entries.now
        (record { labels = []; points = points })) }
    ensures fault { IfErr result (StopsIn (view_module m.now) entries.now
        (record { labels = []; points = points })) }
{
    let mut labels = Vec::new(alloc);
    let mut pushes: Option<Points> = None;
    'entries: for entry in entries {
        add_order(alloc, m, entry, &mut pushes, &mut labels, &mut points)?;
    }
    Ok(Marks { labels, points })
}

/// The marks of a text's lines, for a module.
///
/// The text is shorter than 2^32 bytes; the module is valid and plain. A line's tokens are those that start on it, and
/// a line without tokens stands for nothing. `secret` or `public` and then `param FUNC I`, `result FUNC`,
/// `local FUNC I`, `global GLOBAL` or `memory` gives a site a label; `trust FUNC` makes a function a trusted one; and
/// `release FUNC AT` lets one release what its opcode AT pushes. FUNC and GLOBAL are an index, or an export's name as a
/// string. `local` names declared locals alone, which count on from the parameters.
///
/// `Lex` comes exactly where the text has no tokens, with the line of its first fault. Else the first bad line is
/// answered: `Line` where it has none of these forms, `NoPlace` where it names what the module doesn't have (for
/// `release` an opcode without a push too), and `Untrusted` where it releases in a function that no line of the text
/// trusts. `NoMemory` may come for any text.
///
/// The releases of the points stand in trusted functions.
pub fn read_marks(alloc: Global, text: &str, m: &Module) -> Result<Marks, MarkFault>
    requires short { length text.now < 2 ^ 32 }
    requires plain { (view_module m.now).ct ≡ false }
    requires valid { IsValid (view_module m.now) }
    ensures reading { IfOk result (HasReading (view_module m.now) text.now) }
    ensures releases { IfOk result (λ marks. AreReleases marks.points) }
    ensures fault { IfErr result (HasFault (view_module m.now) text.now) }
{
    let list = match tokens(alloc, text) {
        Ok(list) => list,
        Err(LexFault::Bad(place)) => return Err(MarkFault::Lex { line: place.line }),
        Err(LexFault::NoMemory) => return Err(MarkFault::NoMemory),
    };
    let _ = list.count();
    let lines = entries(alloc, &list)?;
    let points = trusted_by(alloc, m, &lines)?;
    read_entries(alloc, m, &lines, points)
}
