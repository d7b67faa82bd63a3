// What the searches answer.
ghost use Rattle.std.specs.Prelude.{◌≡◌, ◌↔◌, ℕ, ◌<◌, ◌≤◌, ◌-◌, ◌+◌, ◌*◌, length, true, Some, IfOk, slice_get, slice_index};
ghost use Rattle.ctw_flow.specs.Bits.{bits_of};

use std::alloc::{AllocError, Global};
use std::marker::Model;

/// A set of nodes, with one bit a node.
///
/// Contracts see it as a list that says of each node whether it is in the set.
#[derive(Drop)]
pub struct Marked {
    words: Vec<u64>,
    nodes: usize,
}

impl Model for Marked {
    ghost use Rattle.std.specs.Prelude.{List, Bool, ◌≤◌, ◌*◌, length};
    ghost use Rattle.ctw_flow.specs.Bits.{bits_of};

    ghost Value = { List Bool };

    ghost view = { λ m. bits_of m.words.items m.nodes };

    ghost invariant = { λ m. m.nodes ≤ 64 * length m.words.items };
}

impl Marked {
    /// Whether a node below the count of nodes is in the set.
    pub fn has(&self, node: u32) -> bool
        requires { node < length self.now }
        ensures { (result ≡ true) ↔ (slice_get self.now node ≡ Some true) }
    {
        let n = node as usize;
        (self.words[n / 64] >> (n % 64)) % 2 == 1
    }

    // The set of the nodes that are marked in a list. The error is want of memory.
    pub(crate) fn of(alloc: Global, marks: &[bool]) -> Result<Marked, AllocError>
        ensures { IfOk result (λ m. m ≡ marks.now) }
    {
        let words = packed(alloc, marks)?;
        Ok(Marked {
            words,
            nodes: marks.len(),
        })
    }
}

// A list of marks as words of 64 bits, the first mark in the lowest bit.
fn packed(alloc: Global, marks: &[bool]) -> Result<Vec<u64>, AllocError>
    ensures bits { IfOk result (λ words. bits_of words.items (length marks.now) ≡ marks.now) }
    ensures room { IfOk result (λ words. length marks.now ≤ 64 * length words.items) }
{
    let mut words = Vec::with_capacity(alloc, marks.len() / 64 + 1)?;
    let mut word = 0u64;
    'marks: for (i, marked) in marks.iter().enumerate() {
        if *marked {
            word += 1u64 << (i % 64);
        }
        if i % 64 == 63 {
            words.push(word)?;
            word = 0;
        }
    }
    words.push(word)?;
    Ok(words)
}

/// A path, by its nodes in order, with the rules of its links.
#[derive(Drop)]
pub struct Path {
    pub(crate) nodes: Vec<u32>,
    pub(crate) rules: Vec<u8>,
}

impl Model for Path {
    ghost use Rattle.std.specs.Prelude.{◌≡◌, ◌<◌, ◌^◌, ◌+◌, length};
    ghost use Rattle.ctw_flow.specs.Path.{Steps};

    ghost Value = { Steps };

    ghost view = { λ p. record { nodes = p.nodes.items; rules = p.rules.items } };

    ghost invariant = { λ p. (length p.nodes.items ≡ length p.rules.items + 1) × (length p.nodes.items < 2 ^ 32) };
}

impl Path {
    /// The number of nodes, at least 1.
    pub fn count(&self) -> u32
        ensures nodes { result ≡ length self.now.nodes }
        ensures links { result ≡ length self.now.rules + 1 }
    {
        self.nodes.len() as u32
    }

    /// Node i of the path, counted from 0, for i below the count.
    pub fn node(&self, i: u32) -> u32
        requires { i < length self.now.nodes }
        ensures { result ≡ slice_index self.now.nodes i }
    {
        self.nodes[i as usize]
    }

    /// The rule of the link that leads to node i of the path, for i from 1 and below the count.
    pub fn rule(&self, i: u32) -> u8
        requires first { 1 ≤ i }
        requires last { i < length self.now.nodes }
        ensures { result ≡ slice_index self.now.rules (i - 1) }
    {
        self.rules[i as usize - 1]
    }
}
