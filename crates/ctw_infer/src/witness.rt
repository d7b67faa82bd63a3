// A path through the links as a witness.
ghost use Rattle.std.specs.Prelude.{◌≡◌, ◌<◌, length, IfOk};
ghost use Rattle.ctw_least.specs.Flows.{last_of};
ghost use Rattle.ctw_infer.specs.Searched.{reason_in};

use ctw_flow::Path;
use ctw_links::Links;
use ctw_sites::Witness;
use std::alloc::{AllocError, Global};

/// The last reason of a flow whose last site is marked.
const MARKED: u8 = 255;

/// The nodes of a path.
fn nodes(alloc: Global, path: &Path) -> Result<Vec<u32>, AllocError>
    ensures { IfOk result (λ nodes. nodes.items ≡ path.now.nodes) }
{
    let mut nodes = Vec::new(alloc);
    'nodes: for i in 0..path.count() {
        nodes.push(path.node(i))?;
    }
    Ok(nodes)
}

/// The rules of its links.
fn rules(alloc: Global, path: &Path) -> Result<Vec<u8>, AllocError>
    ensures { IfOk result (λ rules. rules.items ≡ path.now.rules) }
{
    let mut rules = Vec::new(alloc);
    'nodes: for i in 1..path.count() {
        rules.push(path.rule(i))?;
    }
    Ok(rules)
}

/// A path as a witness, with the least rule by which its last site is public; where there is none it is marked.
pub fn witness(alloc: Global, links: &Links, path: &Path) -> Result<Witness, AllocError>
    requires { last_of path.now.nodes < length links.now.musts }
    ensures nodes { IfOk result (λ w. w.sites ≡ path.now.nodes) }
    ensures rules { IfOk result (λ w. w.rules ≡ path.now.rules) }
    ensures last { IfOk result (λ w. w.last ≡ reason_in links.now.musts (last_of path.now.nodes)) }
{
    let last = path.node(path.count() - 1);
    let reason = links.must(last).unwrap_or(MARKED);
    let sites = nodes(alloc, path)?;
    let rules = rules(alloc, path)?;
    Ok(Witness::new(sites, rules, reason))
}
