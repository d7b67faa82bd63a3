// The search by levels, and what is read off it.
ghost use Rattle.std.specs.Prelude.{◌≡◌, ℕ, ◌<◌, ◌≤◌, ◌+◌, ◌^◌, ◌↔◌, List, [], ◌∷◌, length, true, All, Contains, reverse, MatchOption, slice_get, get_or, Some, IfOk};
ghost use Rattle.ctw_flow.specs.Path.{Leads, Reached, IsLeastPath};
ghost use Rattle.ctw_flow.specs.Search.{State, visit_all, IsSeen, IsSearch, AreMarks, root_entries, At, IsPos, IsRuled, AreEarlier, NoneBelow};

use super::graph::{Edge, Graph};
use super::path::{Marked, Path};
use std::alloc::{AllocError, Global};

// A node that was found, with the place in the queue of the one whose link led to it, and that link's rule.
#[derive(Clone, Copy, Drop)]
struct Entry {
    node: u32,
    parent: usize,
    rule: u8,
}

// A search that is done: the nodes that were found, in the order in which they were, the starts first.
#[derive(Drop)]
struct Search {
    seen: Vec<bool>,
    queue: Vec<Entry>,
    roots: usize,
}

impl Graph {
    /// The nodes to which a path from one of the starts leads. The starts are below the count of nodes, and a start
    /// alone is a path of one node.
    ///
    /// The error is want of memory.
    pub fn reach(&self, alloc: Global, starts: &[u32]) -> Result<Marked, AllocError>
        requires { All (λ n. n < length self.now) starts.now }
        ensures count { IfOk result (λ m. length m ≡ length self.now) }
        ensures reached { IfOk result (λ m. (n : ℕ) → (slice_get m n ≡ Some true) ↔ Reached self.now starts.now n) }
    {
        let Search {
            seen,
            queue: _,
            roots: _,
        } = self.explore(alloc, starts)?;
        let marked = Marked::of(alloc, seen.as_slice())?;
        Ok(marked)
    }

    /// The shortest path from one of the starts to one of the goals, all below the count of nodes; of several of that
    /// length the one that is least by its node numbers, compared as lists. None where no path leads from a start to
    /// a goal.
    ///
    /// The error is want of memory.
    pub fn shortest(
        &self,
        alloc: Global,
        starts: &[u32],
        goals: &[u32],
    ) -> Result<Option<Path>, AllocError>
        requires starts { All (λ n. n < length self.now) starts.now }
        requires goals { All (λ n. n < length self.now) goals.now }
        ensures { IfOk result (λ found.
            MatchOption found ((nodes : List ℕ) → Leads self.now starts.now goals.now nodes → ⊥)
            (λ path. IsLeastPath self.now starts.now goals.now path)) }
    {
        let nodes = self.count();
        let wanted = marks(alloc, nodes as usize, goals)?;
        let search = self.explore(alloc, starts)?;
        match first_wanted(&search.queue, &wanted) {
            None => Ok(None),
            Some(place) => {
                let path = trace(alloc, &search.queue, search.roots, place)?;
                Ok(Some(path))
            }
        }
    }

    // The search from the starts, all links followed.
    fn explore(&self, alloc: Global, starts: &[u32]) -> Result<Search, AllocError>
        requires { All (λ n. n < length self.now) starts.now }
        ensures search { IfOk result (λ s.
            IsSearch self.now starts.now s.roots (length s.queue.items) (length s.queue.items)
            (record { seen = s.seen.items; queue = s.queue.items })) }
        ensures small { IfOk result (λ s. length s.queue.items < 2 ^ 32) }
    {
        let nodes = self.count();
        let mut seen = marks(alloc, nodes as usize, starts)?;
        let mut queue = entries(alloc, &seen)?;
        let roots = queue.len();
        let mut head = 0;
        while head < queue.len() {
            let node = queue[head].node;
            expand(self.row(node), head, &mut seen, &mut queue)?;
            head += 1;
        }
        Ok(Search { seen, queue, roots })
    }
}

// The nodes of a list, as marks.
fn marks(alloc: Global, nodes: usize, listed: &[u32]) -> Result<Vec<bool>, AllocError>
    requires { All (λ n. n < nodes) listed.now }
    ensures { IfOk result (λ v. AreMarks listed.now nodes v.items) }
{
    let mut seen = vec![in alloc; false; nodes]?;
    for node in listed {
        seen[*node as usize] = true;
    }
    Ok(seen)
}

// An entry for each marked node, by rising number.
fn entries(alloc: Global, seen: &[bool]) -> Result<Vec<Entry>, AllocError>
    requires { length seen.now < 2 ^ 32 }
    ensures { IfOk result (λ q. q.items ≡ root_entries seen.now 0) }
{
    let mut queue = Vec::new(alloc);
    for (i, marked) in seen.iter().enumerate() {
        if *marked {
            queue.push(Entry {
                node: i as u32,
                parent: 0,
                rule: 0,
            })?;
        }
    }
    Ok(queue)
}

// Marks and queues the targets that weren't seen before.
fn expand(
    links: &[Edge],
    head: usize,
    seen: &mut Vec<bool>,
    queue: &mut Vec<Entry>,
) -> Result<(), AllocError>
    requires { All (λ e. e.to < length seen.old.items) links.now }
    ensures { IfOk result (λ _.
        record { seen = seen.new.items; queue = queue.new.items }
        ≡ visit_all head links.now (record { seen = seen.old.items; queue = queue.old.items })) }
{
    for link in links {
        let to = link.to as usize;
        if !seen[to] {
            seen[to] = true;
            queue.push(Entry {
                node: link.to,
                parent: head,
                rule: link.rule,
            })?;
        }
    }
    Ok(())
}

// The place of the first entry whose node is wanted.
fn first_wanted(queue: &[Entry], wanted: &[bool]) -> Option<usize>
    requires { All (λ e. e.node < length wanted.now) queue.now }
    ensures { MatchOption result (NoneBelow queue.now wanted.now (length queue.now))
        (λ i. (e : Entry) × At queue.now i e × IsSeen wanted.now e.node × NoneBelow queue.now wanted.now i) }
{
    for (i, entry) in queue.iter().enumerate() {
        if wanted[entry.node as usize] {
            return Some(i);
        }
    }
    None
}

// The path to the node at a place, read from its end.
fn trace(alloc: Global, queue: &[Entry], roots: usize, place: usize) -> Result<Path, AllocError>
    requires place { place < length queue.now }
    requires earlier { AreEarlier queue.now roots }
    requires small { length queue.now < 2 ^ 32 }
    ensures nodes { IfOk result (λ p. IsPos queue.now roots place (reverse p.nodes)) }
    ensures rules { IfOk result (λ p. IsRuled queue.now roots place (reverse p.rules)) }
{
    let mut nodes = Vec::new(alloc);
    let mut rules = Vec::new(alloc);
    let mut at = place;
    while at >= roots {
        let entry = queue[at];
        nodes.push(entry.node)?;
        rules.push(entry.rule)?;
        at = entry.parent;
    }
    nodes.push(queue[at].node)?;
    nodes.reverse();
    rules.reverse();
    Ok(Path { nodes, rules })
}
