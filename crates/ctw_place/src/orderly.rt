ghost use Rattle.std.specs.Prelude.{◌≡◌, ◌<◌, ◌↔◌, true, false, length, slice_get, Some};
ghost use Rattle.ctw_ops.specs.Valid.{IsValid};
ghost use Rattle.ctw_module.specs.Trees.{view_module};
ghost use Rattle.ctw_labels.specs.Fits.{label_at};
ghost use Rattle.ctw_labels.specs.Links.{at_tag};
ghost use Rattle.ctw_labels.specs.Names.{Site};
ghost use Rattle.ctw_labels.specs.Placed.{IsOrderly};
ghost use Rattle.ctw_labels.specs.SitedModule.{sites as sites_of};
ghost use Rattle.ctw_place.specs.Orderly.{may_go, push_place, AllowsSite};

use crate::labels::Labels;
use ctw_labels::SiteName;
use ctw_module::Module;
use ctw_ops::Label;
use ctw_sites::{Labelling, Points, Sites};

/// Whether no push is public while its yield is secret, but where its opcode releases. `s` are the sites of the module,
/// which is plain and valid, the points belong to it, and the labelling has a label for each site.
pub fn is_orderly(m: &Module, s: &Sites, p: &Points, l: &Labelling) -> bool
    requires plain { (view_module m.now).ct ≡ false }
    requires valid { IsValid (view_module m.now) }
    requires sites { s.now ≡ sites_of (view_module m.now) }
    requires labels { length l.now ≡ length s.now }
    ensures { (result ≡ true) ↔ IsOrderly (at_tag (label_at l.now)) (view_module m.now) p.now }
{
    let _ = m.bytes();
    let labels = Labels::new(s, l);
    for site in 0..s.count() {
        if !is_allowed(s, p, &labels, site) {
            return false;
        }
    }
    true
}

/// Whether a value of the first label may go under the second.
fn may_go_under(from: Label, to: Label) -> bool
    ensures { result ≡ may_go from to }
{
    match from {
        Label::Public => true,
        Label::Secret => to == Label::Secret,
    }
}

/// The function and the opcode of a push; None for a site of another kind.
fn push_of(name: SiteName) -> Option<(u32, u32)>
    ensures { result ≡ push_place name }
{
    match name {
        SiteName::Push { f, at } => Some((f, at)),
        _ => None,
    }
}

/// Whether a site, where it is a push that doesn't release, is secret if its yield is.
fn is_allowed(s: &Sites, p: &Points, labels: &Labels, site: u32) -> bool
    requires { site < length s.now }
    ensures { (x : Site) → slice_get s.now site ≡ Some x
        → (result ≡ true) ↔ AllowsSite (label_at labels.now) p.now site x }
{
    let Some(from) = s.yield_of(site) else {
        return true;
    };
    let Some((f, at)) = push_of(s.name(site)) else {
        return true;
    };
    p.releases(f, at) || may_go_under(labels.at(from), labels.at(site))
}
