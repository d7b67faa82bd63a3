// Small graphs by hand.
ghost use Rattle.std.specs.Prelude.{ℕ, ◌<◌, length, All, IsTrue};

use ctw_flow::{Graph, Path};
use std::alloc::Global;
use std::process::Abort;
use std::test::Fail;

// A graph with these links, as from, to and rule, all of nodes below the count.
fn graph_of(
    alloc: Global,
    rt: &impl Abort,
    nodes: u32,
    links: &[(u32, u32, u8)],
) -> Result<Graph, Fail> {
    let mut graph = Graph::new(alloc, nodes)?;
    for (from, to, rule) in links {
        assert!(rt; *from < graph.count() && *to < graph.count());
        graph.add_link(*from, *to, *rule)?;
    }
    Ok(graph)
}

// Whether all of these links are between nodes below a count.
fn are_links(nodes: u32, links: &[(u32, u32, u8)]) -> bool
    ensures { IsTrue result → All (λ l. (l.0 < nodes) × (l.1 < nodes)) links.now }
{
    links.iter().all(|link| link.0 < nodes && link.1 < nodes)
}

// A graph with these links, made at once.
fn graph_at_once(
    alloc: Global,
    rt: &impl Abort,
    nodes: u32,
    links: &[(u32, u32, u8)],
) -> Result<Graph, Fail> {
    let listed = Vec::from_slice(alloc, links)?;
    assert!(rt; are_links(nodes, listed.as_slice()));
    Ok(Graph::from_rows(alloc, nodes, listed)?)
}

// Whether a path has these nodes and, for each but the first, these rules.
fn is_path(path: &Path, nodes: &[u32], rules: &[u8]) -> bool {
    if path.count() as usize != nodes.len() || nodes.len() != rules.len() + 1 {
        return false;
    }
    for i in 0..path.count() {
        if path.node(i) != nodes[i as usize] {
            return false;
        }
        if i > 0 && path.rule(i) != rules[i as usize - 1] {
            return false;
        }
    }
    true
}

// Whether all of these are nodes of the graph.
fn are_nodes(graph: &Graph, listed: &[u32]) -> bool
    ensures { IsTrue result → All (λ n. n < length graph.now) listed.now }
{
    let count = graph.count();
    listed.iter().all(|n| *n < count)
}

// The nodes that are reached, by rising number.
fn reached(
    alloc: Global,
    rt: &impl Abort,
    graph: &Graph,
    starts: &[u32],
) -> Result<Vec<u32>, Fail> {
    assert!(rt; are_nodes(graph, starts));
    let marked = graph.reach(alloc, starts)?;
    let mut nodes = Vec::new(alloc);
    for n in 0..graph.count() {
        if marked.has(n) {
            nodes.push(n)?;
        }
    }
    Ok(nodes)
}

// Whether the shortest path is the one with these nodes and rules; no nodes stand for none.
fn is_shown(
    alloc: Global,
    rt: &impl Abort,
    graph: &Graph,
    starts: &[u32],
    goals: &[u32],
    nodes: &[u32],
    rules: &[u8],
) -> Result<bool, Fail> {
    assert!(rt; are_nodes(graph, starts));
    assert!(rt; are_nodes(graph, goals));
    match graph.shortest(alloc, starts, goals)? {
        None => Ok(nodes.is_empty()),
        Some(path) => Ok(is_path(&path, nodes, rules)),
    }
}

// Asserts of a graph of three nodes its links from each, and its rule between each two.
fn assert_links(graph: &Graph, rt: &impl Abort) -> Result<(), Fail> {
    for (from, out) in [
        (0, [Some((1, 5)), Some((2, 4)), None]),
        (1, [Some((0, 9)), Some((1, 3)), None]),
        (2, [None, None, None]),
    ] {
        assert!(rt; from < graph.count());
        for k in 0..3 {
            assert!(rt;
                graph.out(from, k) == out[k as usize],
                "link {k} from {from}"
            );
        }
    }
    for (from, rules) in [
        (0, [None, Some(5), Some(4)]),
        (1, [Some(9), Some(3), None]),
        (2, [None, None, None]),
    ] {
        assert!(rt; from < graph.count() && graph.count() == 3);
        for to in 0..3 {
            assert!(rt;
                graph.rule(from, to) == rules[to as usize],
                "from {from} to {to}"
            );
        }
    }
    Ok(())
}

#[test]
fn of_several_links_the_least_rule_is_kept(rt: HostRuntime) -> Result<(), Fail> {
    let links = [
        (0, 2, 7),
        (0, 1, 5),
        (0, 2, 4),
        (0, 2, 6),
        (1, 0, 9),
        (1, 1, 3),
    ];
    assert_links(&graph_of(rt.alloc(), &rt, 3, &links)?, &rt)?;
    assert_links(&graph_at_once(rt.alloc(), &rt, 3, &links)?, &rt)
}

#[test]
fn reached_are_the_nodes_behind_a_start(rt: HostRuntime) -> Result<(), Fail> {
    let links = [
        (0, 1, 1),
        (1, 2, 1),
        (2, 0, 1),
        (3, 2, 1),
        (4, 5, 1),
        (5, 5, 1),
    ];
    let graph = graph_at_once(rt.alloc(), &rt, 7, &links)?;
    let cases: [(&[u32], &[u32]); 6] = [
        (&[0], &[0, 1, 2]),
        (&[3], &[0, 1, 2, 3]),
        (&[4], &[4, 5]),
        (&[6], &[6]),
        (&[5, 1, 5], &[0, 1, 2, 5]),
        (&[], &[]),
    ];
    for (starts, want) in cases {
        let reached = reached(rt.alloc(), &rt, &graph, starts)?;
        assert!(rt; reached.as_slice() == want, "from {starts:?}");
    }
    Ok(())
}

#[test]
fn shown_is_the_least_shortest_path(rt: HostRuntime) -> Result<(), Fail> {
    // from 0 to 5 two ways of one length, and a longer one by the lesser node 1
    let links = [
        (0, 3, 2),
        (0, 2, 8),
        (0, 1, 1),
        (1, 4, 1),
        (4, 5, 1),
        (3, 5, 1),
        (2, 5, 9),
        (2, 5, 6),
        (7, 6, 3),
    ];
    let graph = graph_of(rt.alloc(), &rt, 8, &links)?;
    // starts, goals, and the nodes and rules of the path, without nodes where there is none
    let cases: [(&[u32], &[u32], &[u32], &[u8]); 11] = [
        (&[0], &[5], &[0, 2, 5], &[8, 6]),
        (&[0], &[4, 5], &[0, 1, 4], &[1, 1]),
        (&[0, 4], &[5], &[4, 5], &[1]),
        (&[3, 2], &[5], &[2, 5], &[6]),
        (&[5, 0], &[0, 5], &[0], &[]),
        (&[7], &[7], &[7], &[]),
        (&[0, 7], &[6], &[7, 6], &[3]),
        (&[0], &[6], &[], &[]),
        (&[5], &[0], &[], &[]),
        (&[], &[0], &[], &[]),
        (&[0], &[], &[], &[]),
    ];
    for (starts, goals, nodes, rules) in cases {
        let is_shown = is_shown(rt.alloc(), &rt, &graph, starts, goals, nodes, rules)?;
        assert!(rt; is_shown, "from {starts:?} to {goals:?}");
    }
    Ok(())
}
