ghost use Rattle.std.specs.Prelude.{◌≡◌, ◌≤◌, ◌<◌, ◌^◌, ◌+◌, ◌∷◌, [], length, reverse, IfOk, IfErr, OnOk, ℕ, List};
ghost use Rattle.ctw_ops.specs.declared.types.Label.{Label};
ghost use Rattle.ctw_ops.specs.Code.{Code};
ghost use Rattle.ctw_flat.specs.Spelled.{IsLimitedBody};
ghost use Rattle.ctw_flat.specs.Places.{Placed, Stand, from};
ghost use Rattle.ctw_flat.specs.Bodies.{body_at, own_body};
ghost use Rattle.ctw_flat.specs.Blocks.{blocks_of, ends_in};
ghost use Rattle.ctw_flat.specs.Marks.{mark_closings, mark_blocks, closings_in, blocks_in};
ghost use Rattle.ctw_flat.specs.Positions.{TellsEnds};
ghost use Rattle.ctw_flat.specs.Calls.{FailsWith, IsOkButMemory};

use crate::body::Body;
use crate::fault::BuildFault;
use crate::nesting::{Nesting, mark};
use std::alloc::{AllocError, Global};
use std::marker::Model;

/// A block: where it begins, where its `end` stands, and where its `else` stands if it has one.
#[derive(Clone, Copy, Debug, PartialEq, Eq)]
pub struct Block {
    /// The place of `block`, `loop` or `if`.
    pub at: usize,
    /// The place of its `end`.
    pub end: usize,
    /// The place of its `else`.
    pub other: Option<usize>,
}

/// Where a block ends whose beginning isn't met yet.
#[derive(Clone, Copy, Debug, PartialEq, Eq)]
pub struct Closing {
    /// The place of its `end`.
    pub end: usize,
    /// The place of its `else`.
    pub other: Option<usize>,
}

/// What an opcode does to blocks.
#[derive(Clone, Copy, Debug, PartialEq, Eq)]
pub enum Role {
    /// `block`, `loop` and `if`
    Begins,
    /// `else`
    Parts,
    /// `end`
    Ends,
}

/// An opcode that does something to blocks.
#[derive(Clone, Copy, Debug, PartialEq, Eq)]
pub struct Mark {
    /// Its place.
    pub at: usize,
    /// What it does.
    pub role: Role,
}

/// Takes a mark in front of the marks that were taken before.
fn take_mark(
    closings: &mut Vec<Closing>,
    found: &mut Vec<Block>,
    mark: Mark,
) -> Result<(), AllocError>
    ensures closings { OnOk result (reverse closings.new.items
        ≡ mark_closings mark.role mark.at (reverse closings.old.items)) }
    ensures blocks { OnOk result (reverse found.new.items
        ≡ mark_blocks mark.role mark.at (reverse closings.old.items) (reverse found.old.items)) }
{
    match mark.role {
        Role::Begins => {
            if let Some(closing) = closings.pop() {
                found.push(Block {
                    at: mark.at,
                    end: closing.end,
                    other: closing.other,
                })?;
            }
        }
        Role::Parts => {
            if let Some(closing) = closings.pop() {
                closings.push(Closing {
                    end: closing.end,
                    other: Some(mark.at),
                })?;
            }
        }
        Role::Ends => closings.push(Closing {
            end: mark.at,
            other: None,
        })?,
    }
    Ok(())
}

/// The blocks that begin among marks, from the last mark to the first; `closings` is what it works in.
fn blocks_among(
    alloc: Global,
    closings: &mut Vec<Closing>,
    marks: &[Mark],
) -> Result<Vec<Block>, AllocError>
    ensures { IfOk result (λ v. v.items ≡ blocks_in marks.now) }
{
    closings.clear();
    let mut found = Vec::new(alloc);
    let mut left = marks.len();
    'back: while left > 0 {
        left -= 1;
        take_mark(closings, &mut found, marks[left])?;
    }
    found.reverse();
    Ok(found)
}

/// Where the blocks of a body end.
#[derive(Drop)]
pub struct BlockMap {
    found: Vec<Block>,
}

impl Model for BlockMap {
    ghost use Rattle.std.specs.Prelude.{List};
    ghost use Rattle.ctw_flat.specs.declared.blocks.Block.{Block};
    ghost use Rattle.ctw_flat.specs.Rising.{RisesFrom};

    ghost Value = { List Block };

    ghost view = { λ map. map.found.items };

    ghost invariant = { λ map. RisesFrom 0 map.found.items };
}

impl BlockMap {
    /// For the place of a `block`, `loop` or `if`, the place of its `end` and that of its `else`, if it has one.
    ///
    /// None exactly where none of them begins. Takes logarithmic time and no memory.
    pub fn ends(&self, at: usize) -> Option<(usize, Option<usize>)>
        ensures { result ≡ ends_in self.now at }
    {
        let found = self.found.as_slice();
        let mut low = 0;
        let mut high = found.len();
        'halves: while low < high {
            let middle = low + (high - low) / 2;
            let block = found[middle];
            if block.at == at {
                return Some((block.end, block.other));
            }
            if block.at < at {
                low = middle + 1;
            } else {
                high = middle;
            }
        }
        None
    }
}

/// Where the blocks of a body end, or the first fault from the left. Takes linear time.
///
/// The faults are those of `Body::instr_at`, and `Unbalanced` and `TooDeep`.
pub fn build(alloc: Global, body: &Body) -> Result<BlockMap, BuildFault>
    ensures found { IfOk result (λ map. (code : Code Label) × IsLimitedBody body.now code) }
    ensures ends { IfOk result (λ map. TellsEnds body.now (ends_in map)) }
    ensures blocks { IfOk result (λ map. (ps : List Placed) × Stand body.now 0 ps × (map ≡ blocks_of ps)) }
    ensures complete { (code : Code Label) → IsLimitedBody body.now code → IsOkButMemory result }
    ensures fault { IfErr result (λ e. FailsWith e (body_at (from body.now 0))) }
{
    let mut builder = BlockBuilder::new(alloc)?;
    builder.build(alloc, body)
}

/// What finds where the blocks of bodies end, one body after another in the same memory. Contracts see what is open in
/// the body that it reads.
#[derive(Drop)]
pub struct BlockBuilder {
    nesting: Nesting,
    marks: Vec<Mark>,
    closings: Vec<Closing>,
}

impl Model for BlockBuilder {
    ghost use Rattle.std.specs.Prelude.{List, Bool};

    ghost Value = { List Bool };

    ghost view = { λ b. b.nesting };
}

impl BlockBuilder {
    /// In front of a first body. `Err` where memory runs out.
    pub fn new(alloc: Global) -> Result<BlockBuilder, AllocError>
        ensures { IfOk result (λ b. b ≡ own_body) }
    {
        Ok(BlockBuilder {
            nesting: Nesting::new(alloc)?,
            marks: Vec::new(alloc),
            closings: Vec::new(alloc),
        })
    }

    /// What `build` answers. It takes memory of its own only for a body with blocks,
    /// or one that is larger than those before.
    pub fn build(&mut self, alloc: Global, body: &Body) -> Result<BlockMap, BuildFault>
        ensures found { IfOk result (λ map. (code : Code Label) × IsLimitedBody body.now code) }
        ensures ends { IfOk result (λ map. TellsEnds body.now (ends_in map)) }
        ensures blocks { IfOk result (λ map. (ps : List Placed) × Stand body.now 0 ps × (map ≡ blocks_of ps)) }
        ensures complete { (code : Code Label) → IsLimitedBody body.now code → IsOkButMemory result }
        ensures fault { IfErr result (λ e. FailsWith e (body_at (from body.now 0))) }
    {
        mark(&mut self.nesting, &mut self.marks, body.code())?;
        let found = blocks_among(alloc, &mut self.closings, self.marks.as_slice())?;
        Ok(BlockMap { found })
    }
}
