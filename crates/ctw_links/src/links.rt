ghost use Rattle.std.specs.Prelude.{◌≡◌, ◌<◌, ◌↔◌, ◌++◌, ◌∷◌, ◌^◌, ℕ, [], false, length, replicate, slice_get, Some, IfOk, OnOk};
ghost use Rattle.std.specs.List.{AllByRecursion};
ghost use Rattle.ctw_ops.specs.declared.types.Label.{Label};
ghost use Rattle.ctw_ops.specs.Valid.{IsValid};
ghost use Rattle.ctw_module.specs.Trees.{view_module};
ghost use Rattle.ctw_labels.specs.declared.tag.Tag.TheVariants.{At};
ghost use Rattle.ctw_labels.specs.Kept.{IsKept};
ghost use Rattle.ctw_labels.specs.Names.{Site};
ghost use Rattle.ctw_labels.specs.Fits.{must_of};
ghost use Rattle.ctw_labels.specs.Links.{at_tag, Obeys, fact_links, fact_musts, links_of, musts_of};
ghost use Rattle.ctw_labels.specs.ModuleLinks.{links as links_in, musts as musts_in, yield_link, yield_links};
ghost use Rattle.ctw_labels.specs.Placed.{placed, IsOrderly, AreUsersAlike};
ghost use Rattle.ctw_labels.specs.Points.{AreReleases};
ghost use Rattle.ctw_labels.specs.SitedModule.{sites as sites_of};
ghost use Rattle.ctw_least.specs.Flows.{IsGraphOf};
ghost use Rattle.ctw_links.specs.Collected.{must_at, push_of, triples, yield_by, with_must, with_musts, FactIn};

use crate::gather::gather;
use ctw_flow::Graph;
use ctw_labels::{SiteName, Tag, Told};
use ctw_module::Module;
use ctw_sites::{Points, Sites};
use std::alloc::{AllocError, Global};
use std::marker::Model;

/// The links between the sites of a module, and the sites that have to be public.
#[derive(Drop)]
pub struct Links {
    graph: Graph,
    // The least rule by which each site is public, or 0.
    musts: Vec<u8>,
}

impl Model for Links {
    ghost use Rattle.ctw_links.specs.Collected.{Collected};

    ghost Value = { Collected };

    ghost view = { λ l. record { graph = l.graph; musts = l.musts.items } };
}

impl Links {
    /// The graph of the links. Its nodes are the sites, by their numbers, and a link's rule is the least one that gives
    /// it.
    pub fn graph(&self) -> &Graph
        ensures { result.now ≡ self.now.graph }
    {
        &self.graph
    }

    /// The least rule by which a site below the count is public; None exactly where no rule makes it so.
    pub fn must(&self, site: u32) -> Option<u8>
        requires { site < length self.now.musts }
        ensures { result ≡ must_at self.now.musts site }
    {
        match self.musts[site as usize] {
            0 => None,
            rule => Some(rule),
        }
    }
}

/// Adds the link from a site to a push of it.
fn link_from(from: u32, n: u32, links: &mut Vec<(u32, u32, u8)>) -> Result<(), AllocError>
    ensures { OnOk result (links.new.items ≡ links.old.items ++ (from, n, 1) ∷ []) }
{
    links.push((from, n, 1))?;
    Ok(())
}

/// The same, unless an opcode of a function releases.
fn link_unreleased(
    p: &Points,
    push: (u32, u32),
    from: u32,
    n: u32,
    links: &mut Vec<(u32, u32, u8)>,
) -> Result<(), AllocError>
    ensures { OnOk result (links.new.items ≡ links.old.items ++ triples (yield_by p.now n (Some push) (Some from))) }
{
    if p.releases(push.0, push.1) {
        return Ok(());
    }
    link_from(from, n, links)
}

/// The same of a site by its name.
fn link_push(
    p: &Points,
    name: SiteName,
    from: u32,
    n: u32,
    links: &mut Vec<(u32, u32, u8)>,
) -> Result<(), AllocError>
    ensures { OnOk result (links.new.items ≡ links.old.items ++ triples (yield_by p.now n (push_of name) (Some from))) }
{
    match name {
        SiteName::Push { f, at } => link_unreleased(p, (f, at), from, n, links),
        SiteName::Param { .. }
        | SiteName::Result { .. }
        | SiteName::GlobalOf { .. }
        | SiteName::Memory
        | SiteName::Local { .. }
        | SiteName::Block { .. }
        | SiteName::Op { .. }
        | SiteName::IParam { .. }
        | SiteName::IResult { .. } => Ok(()),
    }
}

/// Adds the link from the site that a push takes its label from, where the push isn't released.
fn link_yield(
    s: &Sites,
    p: &Points,
    n: u32,
    links: &mut Vec<(u32, u32, u8)>,
) -> Result<(), AllocError>
    requires { n < length s.now }
    ensures { (site : Site) → slice_get s.now n ≡ Some site → OnOk result (links.new.items
        ≡ links.old.items ++ triples (yield_link p.now n site.name site.yields)) }
{
    match s.yield_of(n) {
        Some(from) => {
            if p.releases_none() {
                return link_from(from, n, links);
            }
            link_push(p, s.name(n), from, n, links)
        }
        None => Ok(()),
    }
}

/// The same of all sites.
fn link_yields(s: &Sites, p: &Points, links: &mut Vec<(u32, u32, u8)>) -> Result<(), AllocError>
    ensures { OnOk result (links.new.items ≡ links.old.items ++ triples (yield_links p.now 0 s.now)) }
{
    'sites: for n in 0..s.count() {
        link_yield(s, p, n, links)?;
    }
    Ok(())
}

/// Links two sites both ways.
fn link_both(a: u32, b: u32, rule: u8, links: &mut Vec<(u32, u32, u8)>) -> Result<(), AllocError>
    ensures { OnOk result (links.new.items ≡ links.old.items ++ triples (fact_links rule (At a) (At b))) }
{
    links.push((a, b, rule))?;
    links.push((b, a, rule))?;
    Ok(())
}

/// Adds the links of a fact on a site and a tag: two sites that have to have one label are linked both ways.
fn link_site(
    a: u32,
    right: Tag,
    rule: u8,
    links: &mut Vec<(u32, u32, u8)>,
) -> Result<(), AllocError>
    ensures { OnOk result (links.new.items ≡ links.old.items ++ triples (fact_links rule (At a) right)) }
{
    match right {
        Tag::At { site } => link_both(a, site, rule, links),
        Tag::Fixed => Ok(()),
    }
}

/// The same of any fact.
fn link_fact(fact: &Told, links: &mut Vec<(u32, u32, u8)>) -> Result<(), AllocError>
    ensures { OnOk result (links.new.items
        ≡ links.old.items ++ triples (fact_links fact.now.rule fact.now.left fact.now.right)) }
{
    match fact.left {
        Tag::At { site } => link_site(site, fact.right, fact.rule, links),
        Tag::Fixed => Ok(()),
    }
}

/// The same of all facts.
fn link_facts(facts: &[Told], links: &mut Vec<(u32, u32, u8)>) -> Result<(), AllocError>
    ensures { OnOk result (links.new.items ≡ links.old.items ++ triples (links_of facts.now)) }
{
    'facts: for fact in facts {
        link_fact(fact, links)?;
    }
    Ok(())
}

/// Makes a site public by a rule, and keeps the least one.
fn set_must(musts: &mut [u8], site: u32, rule: u8)
    requires { site < length musts.old }
    ensures { musts.new ≡ with_must musts.old (record { site = site; rule = rule }) }
{
    let old = musts[site as usize];
    if old == 0 || rule < old {
        musts[site as usize] = rule;
    }
}

/// Makes the sites of a fact public where that says so.
fn tell_must(fact: &Told, musts: &mut [u8])
    requires { FactIn (length musts.old) fact.now }
    ensures { musts.new ≡ with_musts musts.old (fact_musts fact.now.rule fact.now.left fact.now.right) }
{
    match (fact.left, fact.right) {
        (Tag::At { site }, Tag::Fixed) => set_must(musts, site, fact.rule),
        (Tag::Fixed, Tag::At { site }) => set_must(musts, site, fact.rule),
        (Tag::At { .. }, Tag::At { .. }) => {}
        (Tag::Fixed, Tag::Fixed) => {}
    }
}

/// The least rules by which so many sites are public, or 0.
fn musts_of_facts(alloc: Global, count: u32, facts: &[Told]) -> Result<Vec<u8>, AllocError>
    requires { AllByRecursion (FactIn count) facts.now }
    ensures { IfOk result (λ musts. musts.items ≡ with_musts (replicate count 0) (musts_of facts.now)) }
{
    let mut musts = vec![in alloc; 0u8; count as usize]?;
    'facts: for fact in facts {
        tell_must(fact, &mut musts);
    }
    Ok(musts)
}

/// Collects the links of a module, which is valid and plain, and whose sites are `s`, under points: each release has no
/// link from what it pushes. It walks once over the module's bytes.
///
/// The error is want of memory.
pub fn collect(alloc: Global, m: &Module, s: &Sites, p: &Points) -> Result<Links, AllocError>
    requires plain { (view_module m.now).ct ≡ false }
    requires valid { IsValid (view_module m.now) }
    requires sites { s.now ≡ sites_of (view_module m.now) }
    ensures graph { IfOk result (λ l. IsGraphOf (links_in (view_module m.now) p.now) l.graph) }
    ensures nodes { IfOk result (λ l. length l.graph ≡ length (sites_of (view_module m.now))) }
    ensures few { IfOk result (λ l. length l.musts ≡ length (sites_of (view_module m.now))) }
    ensures musts { IfOk result (λ l. (n : ℕ) → must_at l.musts n ≡ must_of n (musts_in (view_module m.now) p.now)) }
    ensures right { AreReleases p.now → IsKept (view_module m.now) p.now → (l : ℕ → Label) →
        Obeys l (links_in (view_module m.now) p.now) (musts_in (view_module m.now) p.now)
        ↔ (IsOrderly (at_tag l) (view_module m.now) p.now × IsValid (placed (at_tag l) (view_module m.now) p.now)
        × AreUsersAlike (at_tag l) (view_module m.now) p.now) }
{
    let count = s.count();
    let told = gather(alloc, m)?;
    let mut links = Vec::new(alloc);
    link_yields(s, p, &mut links)?;
    link_facts(&told, &mut links)?;
    let musts = musts_of_facts(alloc, count, &told)?;
    let graph = Graph::from_rows(alloc, count, links)?;
    Ok(Links { graph, musts })
}
