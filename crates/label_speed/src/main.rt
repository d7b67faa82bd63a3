//! Numbers the sites of a plain module and collects its links, for bench/labels to measure. The words are how many times
//! both are done, and the module's file.
#![tactic(auto)]

ghost use Rattle.std.specs.Prelude.{◌≡◌, ◌<◌, false, length};
ghost use Rattle.ctw_ops.specs.Valid.{IsValid};
ghost use Rattle.ctw_module.specs.Trees.{view_module};

use anyhow::bail;
use ctw_flow::Graph;
use ctw_links::collect;
use ctw_modcheck::check;
use ctw_module::Module;
use ctw_read::read;
use ctw_sites::{Points, Sites};
use std::time::{Duration, Instant};
use std::{env, fs};

/// The greatest size of a plain module, in bytes.
const MOST_BYTES: usize = 2_097_152;

/// How many links leave a node.
fn links_from(graph: &Graph, from: u32) -> u64
    requires { from < length graph.now }
{
    let mut count = 0u64;
    for k in 0..graph.count() {
        if graph.out(from, k).is_none() {
            return count;
        }
        count = count.wrapping_add(1);
    }
    count
}

/// How many links a graph has.
fn link_count(graph: &Graph) -> u64 {
    let mut count = 0u64;
    for from in 0..graph.count() {
        count = count.wrapping_add(links_from(graph, from));
    }
    count
}

/// Prints how many sites and links a module has, and the least time of numbering and of collecting them, if they are
/// done more than no times.
fn measure(rt: &HostRuntime, m: &Module, times: u32) -> anyhow::Result<()>
    requires plain { (view_module m.now).ct ≡ false }
    requires valid { IsValid (view_module m.now) }
{
    let points = Points::new(rt.alloc());
    let mut numbering = Duration::MAX;
    let mut collecting = Duration::MAX;
    'times: for _ in 0..times {
        let start = Instant::now(rt)?;
        let s = Sites::of(rt.alloc(), m)?;
        let numbered = Instant::now(rt)?;
        let links = collect(rt.alloc(), m, &s, &points)?;
        collecting = collecting.min(numbered.elapsed(rt)?);
        numbering = numbering.min(numbered.duration_since(start));
    }
    let s = Sites::of(rt.alloc(), m)?;
    let links = collect(rt.alloc(), m, &s, &points)?;
    println!(rt; "sites {} links {}", s.count(), link_count(links.graph()))?;
    if times > 0 {
        println!(rt;
            "Sites::of {} us, collect {} us",
            numbering.as_micros(),
            collecting.as_micros()
        )?;
    }
    Ok(())
}

fn main(rt: HostRuntime) -> anyhow::Result<()> {
    let mut words = Vec::new(rt.alloc());
    for word in env::args(&rt)?.skip(1) {
        words.push(word)?;
    }
    let [times, file] = words.as_slice() else {
        bail!("usage: label_speed TIMES MODULE");
    };
    let times = times.parse::<u32>()?;
    let bytes = fs::read(&rt, file.as_str())?;
    if bytes.len() > MOST_BYTES {
        bail!("longer than a plain module");
    }
    let m = read(rt.alloc(), &bytes)?;
    if m.is_ct() {
        bail!("not a plain module");
    }
    check(rt.alloc(), &m)?;
    measure(&rt, &m, times)
}
