// Which opcodes push a value with a site.
ghost use Rattle.std.specs.Prelude.{◌≡◌, ◌↔◌, ◌==◌, ◌&&◌, ◌||◌, ◌<◌, ◌+◌, ◌^◌, ℕ, true, false, length, drop, IfOk, OnOk};
ghost use Rattle.ctw_ops.specs.Valid.{IsValid};
ghost use Rattle.ctw_module.specs.Trees.{view_module};
ghost use Rattle.ctw_labels.specs.declared.name.SiteName.TheVariants.{Push};
ghost use Rattle.ctw_labels.specs.Points.{is_released};
ghost use Rattle.ctw_marks.specs.Meaning.{HasSite};
ghost use Rattle.ctw_marks.specs.Pushed.{pushed_at, pushes_among, end_of, pushes_in, AreStarts, ArePushes, MayBePushes};

use ctw_module::Module;
use ctw_ops::ExternTag;
use ctw_sites::Points;
use ctw_sites::gather::gather;
use ctw_sites::packer::Packer;
use std::alloc::{AllocError, Global};

// The opcode of the site of a push, by the site's word.
fn pushed_at(word: u64) -> Option<u32>
    ensures { result ≡ pushed_at word }
{
    if word % 16 == 7 {
        Some((word / 16 % 2_097_152) as u32)
    } else {
        None
    }
}

// Adds the opcodes of a function that push, by the words of its sites.
fn add_pushes(f: u32, words: &[u64], pushes: &mut Points) -> Result<(), AllocError>
    ensures { OnOk result ((g k : ℕ) → is_released pushes.new g k
        ≡ ((f == g && pushes_among k words.now) || is_released pushes.old g k)) }
{
    'words: for word in words {
        if let Some(at) = pushed_at(*word) {
            pushes.add_release(f, at)?;
        }
    }
    Ok(())
}

// Where the sites of a body end whose followers' first sites stand behind it; the last one's at the end of all.
fn end_of(starts: &[u32], i: usize, whole: usize) -> usize
    requires { i < length starts.now }
    ensures { result ≡ end_of whole (drop (i + 1) starts.now) }
{
    match starts.get(i + 1) {
        Some(next) => *next as usize,
        None => whole,
    }
}

// The opcodes of a module that push, by the words of its sites. `starts` are the first sites of its defined functions'
// bodies.
fn gather_pushes(
    alloc: Global,
    imported: u32,
    starts: &[u32],
    words: &[u64],
) -> Result<Points, AllocError>
    requires count { imported + length starts.now < 2 ^ 32 }
    requires rising { AreStarts starts.now (length words.now) }
    ensures { IfOk result (λ p. (f k : ℕ) → is_released p f k ≡ pushes_in imported starts.now words.now f k) }
{
    let mut pushes = Points::new(alloc);
    'bodies: for i in 0..starts.len() {
        let from = starts[i] as usize;
        let to = end_of(starts, i, words.len());
        add_pushes(imported + i as u32, &words[from..to], &mut pushes)?;
    }
    Ok(pushes)
}

/// The points at which every push of a module releases.
fn all_pushes(alloc: Global, m: &Module) -> Result<Points, AllocError>
    requires plain { (view_module m.now).ct ≡ false }
    requires valid { IsValid (view_module m.now) }
    ensures { IfOk result (ArePushes (view_module m.now)) }
{
    let _ = m.bytes();
    let mut packer = Packer::new(alloc, u32::MAX);
    let mut heads = Vec::new(alloc);
    let mut starts = Vec::new(alloc);
    gather(alloc, m, &mut packer, &mut heads, &mut starts)?;
    gather_pushes(
        alloc,
        m.imported_count(ExternTag::Func),
        &starts,
        &packer.words,
    )
}

/// Whether an opcode of a function pushes a value with a site. The opcodes of the module that do are gathered once,
/// when that is first asked.
pub fn has_push(
    alloc: Global,
    m: &Module,
    pushes: &mut Option<Points>,
    f: u32,
    at: u32,
) -> Result<bool, AllocError>
    requires plain { (view_module m.now).ct ≡ false }
    requires valid { IsValid (view_module m.now) }
    requires pushes { MayBePushes (view_module m.now) pushes.old }
    ensures kept { OnOk result (MayBePushes (view_module m.now) pushes.new) }
    ensures has { IfOk result (λ has. (has ≡ true) ↔ HasSite (view_module m.now) (Push f at)) }
{
    if let Some(known) = pushes {
        return Ok(known.releases(f, at));
    }
    let known = all_pushes(alloc, m)?;
    let has = known.releases(f, at);
    *pushes = Some(known);
    Ok(has)
}
