// The search from the sites that are marked secret to those that have to be public.
ghost use Rattle.std.specs.Prelude.{◌≡◌, ◌<◌, ℕ, true, false, length, All, Contains, Some, IfOk, IfErr, slice_get, get_or};
ghost use Rattle.ctw_labels.specs.Fits.{label_at};
ghost use Rattle.ctw_least.specs.Flows.{label_of};
ghost use Rattle.ctw_infer.specs.Searched.{IsReachedLabelling, IsFound, IsWithin};

use crate::fault::InferFault;
use crate::witness::witness;
use ctw_flow::Marked;
use ctw_links::Links;
use ctw_ops::Label;
use ctw_sites::{Labelling, Sites};
use std::alloc::{AllocError, Global};

/// Whether one of the goals is reached.
fn is_met(reached: &Marked, goals: &[u32]) -> bool
    requires { All (λ n. n < length reached.now) goals.now }
    ensures met { result ≡ true → (n : ℕ) × Contains goals.now n × (slice_get reached.now n ≡ Some true) }
    ensures unmet { result ≡ false → (n : ℕ) → Contains goals.now n → slice_get reached.now n ≡ Some true → ⊥ }
{
    'goals: for goal in goals {
        if reached.has(*goal) {
            return true;
        }
    }
    false
}

/// The labelling that makes the reached sites secret.
fn labelling(alloc: Global, s: &Sites, reached: &Marked) -> Result<Labelling, AllocError>
    requires { length reached.now ≡ length s.now }
    ensures sized { IfOk result (λ l. length l ≡ length s.now) }
    ensures labels { IfOk result (λ l. (n : ℕ) → label_at l n ≡ label_of (get_or reached.now n false)) }
{
    let mut labels = Labelling::new(alloc, s)?;
    'sites: for site in 0..s.count() {
        if !reached.has(site) {
            continue;
        }
        labels.set(site, Label::Secret);
    }
    Ok(labels)
}

/// The labelling that makes the sites secret to which a path leads from a start, where no path leads from a start to a
/// goal; else the least path that does.
pub fn search(
    alloc: Global,
    s: &Sites,
    links: &Links,
    starts: &[u32],
    goals: &[u32],
) -> Result<Labelling, InferFault>
    requires nodes { length links.now.graph ≡ length s.now }
    requires places { length links.now.musts ≡ length s.now }
    requires starts { All (λ n. n < length s.now) starts.now }
    requires goals { All (λ n. n < length s.now) goals.now }
    ensures reached { IfOk result (λ l. IsReachedLabelling links.now.graph starts.now goals.now l) }
    ensures found { IfErr result (λ e. IsFound links.now.graph links.now.musts starts.now goals.now e) }
    ensures within { IfErr result (λ e. IsWithin (length s.now) e) }
{
    let graph = links.graph();
    let reached = graph.reach(alloc, starts)?;
    if !is_met(&reached, goals) {
        let labels = labelling(alloc, s, &reached)?;
        return Ok(labels);
    }
    let Some(path) = graph.shortest(alloc, starts, goals)? else {
        unreachable!();
    };
    let flow = witness(alloc, links, &path)?;
    Err(InferFault::Flow(flow))
}
