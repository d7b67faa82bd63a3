// Whether a witness is a flow with its least rules.
ghost use Rattle.std.specs.Prelude.{◌≡◌, ◌<◌, ◌↔◌, ℕ, List, true, false, length, All};
ghost use Rattle.ctw_ops.specs.Valid.{IsValid};
ghost use Rattle.ctw_module.specs.Trees.{view_module};
ghost use Rattle.ctw_flow.specs.Graph.{IsGraph};
ghost use Rattle.ctw_labels.specs.Fits.{must_of};
ghost use Rattle.ctw_labels.specs.ModuleLinks.{links as links_of, musts as musts_of};
ghost use Rattle.ctw_labels.specs.SitedModule.{sites as sites_of};
ghost use Rattle.ctw_least.specs.Flows.{IsGraphOf, IsMarked};
ghost use Rattle.ctw_links.specs.Collected.{must_at};
ghost use Rattle.ctw_labels.specs.Links.{Link};
ghost use Rattle.ctw_least.specs.Marked.{marks_on};
ghost use Rattle.ctw_least.specs.Flows.{AreLeastRules};
ghost use Rattle.ctw_witness.specs.Checked.{IsChecked, IsReasonBy};

use ctw_flow::Graph;
use ctw_links::Links;
use ctw_marks::Marks;
use ctw_module::Module;
use ctw_ops::Label;
use ctw_sites::{Sites, Witness};

/// The last reason of a flow whose last site is marked.
const MARKED: u8 = 255;

// Whether all numbers are those of sites.
fn are_sites(graph: &Graph, w: &Witness) -> bool
    ensures sites { (result ≡ true) ↔ All (λ n. n < length graph.now) w.now.sites }
    ensures graph { IsGraph graph.now }
{
    let nodes = graph.count();
    'sites: for i in 0..w.count() {
        if w.site(i) >= nodes {
            return false;
        }
    }
    true
}

// Whether a site has a mark of a label.
fn is_marked(s: &Sites, marks: &Marks, site: u32, label: Label) -> bool
    requires { site < length s.now }
    ensures { (result ≡ true) ↔ IsMarked (marks_on s.now marks.now.labels) site label }
{
    'marks: for i in 0..marks.count() {
        let (name, own) = marks.mark(i);
        if own != label {
            continue;
        }
        if s.site_of(name) == Some(site) {
            return true;
        }
    }
    false
}

// Whether each rule is that of the link to its site.
fn are_rules(graph: &Graph, w: &Witness) -> bool
    requires { All (λ n. n < length graph.now) w.now.sites }
    ensures { (links : List Link) → IsGraphOf links graph.now
        → (result ≡ true) ↔ AreLeastRules links w.now.sites w.now.rules }
{
    'links: for i in 1..w.count() {
        if graph.rule(w.site(i - 1), w.site(i)) != Some(w.rule(i)) {
            return false;
        }
    }
    true
}

// Whether the last site is public for this reason.
fn is_reason(s: &Sites, links: &Links, marks: &Marks, last: u32, reason: u8) -> bool
    requires site { last < length s.now }
    requires places { length links.now.musts ≡ length s.now }
    ensures { (result ≡ true) ↔ IsReasonBy (must_at links.now.musts last)
        (marks_on s.now marks.now.labels) last reason }
{
    match links.must(last) {
        Some(rule) => rule == reason,
        None => reason == MARKED && is_marked(s, marks, last, Label::Public),
    }
}

/// Whether the sites of a witness are a flow of a secret into a public place by the marks of a module, and its rules
/// and its last reason are the least ones: the first site is marked secret, links lead from each site to the next, and
/// the last one has to be public by a rule or is marked public.
///
/// The module is valid and plain, the sites and the links are its own for these marks. A number that is no site's makes
/// it false. It takes no memory, and time by the marks and the sites of the witness.
pub fn check_witness(m: &Module, s: &Sites, links: &Links, marks: &Marks, w: &Witness) -> bool
    requires plain { (view_module m.now).ct ≡ false }
    requires valid { IsValid (view_module m.now) }
    requires sites { s.now ≡ sites_of (view_module m.now) }
    requires graph { IsGraphOf (links_of (view_module m.now) marks.now.points) links.now.graph }
    requires nodes { length links.now.graph ≡ length s.now }
    requires places { length links.now.musts ≡ length s.now }
    requires musts { (n : ℕ) →
        must_at links.now.musts n ≡ must_of n (musts_of (view_module m.now) marks.now.points) }
    ensures { (result ≡ true) ↔ IsChecked (links_of (view_module m.now) marks.now.points)
        (musts_of (view_module m.now) marks.now.points)
        (marks_on (sites_of (view_module m.now)) marks.now.labels) w.now }
{
    let _ = m;
    let count = w.count();
    if !are_sites(links.graph(), w) {
        return false;
    }
    let first = w.site(0);
    let last = w.site(count - 1);
    if !is_marked(s, marks, first, Label::Secret) {
        return false;
    }
    if !are_rules(links.graph(), w) {
        return false;
    }
    is_reason(s, links, marks, last, w.last())
}
