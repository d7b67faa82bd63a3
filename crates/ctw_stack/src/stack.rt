ghost use Rattle.std.specs.Prelude.{◌≡◌, ◌<◌, ◌^◌, ◌-◌, ◌↔◌, List, [], length, slice_index_or, option_map, MatchResult, IsSome};
ghost use Rattle.ctw_ops.specs.declared.types.Label.{Label};
ghost use Rattle.ctw_ops.specs.declared.types.Label.TheVariants.{Public};
ghost use Rattle.ctw_stack.specs.Opens.{type_of, slot_count, after_push, after_pop, after_enter, after_kill, target_of, innermost_of, after_leave, count_of_innermost};
ghost use Rattle.ctw_stack.specs.Tags.{TagLaw};

use crate::slot::{Slot, Underflow};
use ctw_ops::Width;
use std::alloc::{AllocError, Global};
use std::marker::Model;

/// An open block: how many slots stand below its own, whether its rest is dead, whether it is a loop, and its result.
#[derive(Clone, Copy)]
struct Block<S: Copy> {
    height: usize,
    dead: bool,
    loops: bool,
    yields: Option<(Width, S)>,
}

/// The open blocks of a pass over a body with their operands, which contracts see innermost first.
#[derive(Drop)]
pub struct Stack<S: Copy + Drop> {
    slots: Vec<Slot<S>>,
    blocks: Vec<Block<S>>,
}

impl<S: Copy + Drop> Model for Stack<S> {
    ghost use Rattle.std.specs.Prelude.{List};
    ghost use Rattle.ctw_stack.specs.Opens.{Open};

    ghost Value = { List (Open S) };

    ghost use Rattle.ctw_stack.specs.View.{blocks_of, IsSound};

    ghost view = { λ s. blocks_of s.blocks.items s.slots.items };

    ghost invariant = { λ s. IsSound s.blocks.items s.slots.items };
}

impl<S: Copy + Drop> Stack<S> {
    /// A stack without an open block. Where tags are numbers,
    /// putting for each the label that a list has there commutes with each call.
    pub fn new(alloc: Global) -> Stack<S>
        ensures empty { result ≡ [] }
        ensures tags { (labels : List Label) → TagLaw (λ n. slice_index_or labels n Public) }
    {
        Stack {
            slots: Vec::new(alloc),
            blocks: Vec::new(alloc),
        }
    }

    /// Closes all blocks.
    pub fn clear(&mut self)
        ensures { self.new ≡ [] }
    {
        self.slots.clear();
        self.blocks.clear();
    }

    /// Puts a slot on the innermost block. An error, for want of memory, leaves the stack as it was.
    #[inline(always)]
    pub fn push(&mut self, slot: Slot<S>) -> Result<(), AllocError>
        requires open { 0 < length self.old }
        requires few { slot_count self.old < 2 ^ 32 - 1 }
        ensures { MatchResult result (λ _. self.new ≡ after_push slot self.old) (λ _. self.new ≡ self.old) }
    {
        self.slots.push(slot)?;
        Ok(())
    }

    /// Takes the last slot of the innermost block. Where that block has none, the answer is `Unknown` in dead code,
    /// and else an underflow, which leaves the stack as it was.
    #[inline(always)]
    pub fn pop(&mut self) -> Result<Slot<S>, Underflow>
        requires { 0 < length self.old }
        ensures { MatchResult result (λ slot. after_pop self.old ≡ Some (record { slot = slot; blocks = self.new }))
            (λ _. (after_pop self.old ≡ None) × (self.new ≡ self.old)) }
    {
        let last = self.blocks.len() - 1;
        let block = self.blocks[last];
        if block.height < self.slots.len() {
            match self.slots.pop() {
                Some(slot) => Ok(slot),
                None => Err(Underflow),
            }
        } else if block.dead {
            Ok(Slot::Unknown)
        } else {
            Err(Underflow)
        }
    }

    /// Opens a block without slots, a loop or not, with the type of its result. An error, for want of memory,
    /// leaves the stack as it was.
    pub fn enter(&mut self, loops: bool, yields: Option<(Width, S)>) -> Result<(), AllocError>
        ensures { MatchResult result (λ _. self.new ≡ after_enter loops (option_map type_of yields) self.old)
            (λ _. self.new ≡ self.old) }
    {
        let height = self.slots.len();
        self.blocks.push(Block {
            height,
            dead: false,
            loops,
            yields,
        })?;
        Ok(())
    }

    /// Drops the slots of the innermost block, whose rest is dead.
    pub fn kill(&mut self)
        requires { 0 < length self.old }
        ensures { self.new ≡ after_kill self.old }
    {
        let last = self.blocks.len() - 1;
        let mut block = self.blocks[last];
        self.slots.truncate(block.height);
        block.dead = true;
        self.blocks[last] = block;
    }

    /// What a branch to the block carries that is so many blocks outwards from the innermost, which is 0:
    /// nothing to a loop. None exactly where no more blocks are open.
    pub fn target(&self, depth: u32) -> Option<Option<(Width, S)>>
        ensures { option_map (option_map type_of) result ≡ target_of depth self.now }
    {
        let depth = depth as usize;
        if depth < self.blocks.len() {
            let block = self.blocks[self.blocks.len() - 1 - depth];
            if block.loops {
                Some(None)
            } else {
                Some(block.yields)
            }
        } else {
            None
        }
    }

    /// Whether the innermost block is a loop, and the type of the result that it has at its end.
    /// None exactly where no block is open.
    pub fn innermost(&self) -> Option<(bool, Option<(Width, S)>)>
        ensures block { option_map (λ b. (b.0, option_map type_of b.1)) result ≡ innermost_of self.now }
        ensures open { IsSome result ↔ (0 < length self.now) }
    {
        let block = self.blocks.last()?;
        Some((block.loops, block.yields))
    }

    /// Closes the innermost block with its slots, and says how many these were. None exactly where no block is open.
    pub fn leave(&mut self) -> Option<u32>
        ensures count { result ≡ count_of_innermost self.old }
        ensures left { self.new ≡ after_leave self.old }
    {
        let height = self.blocks.pop()?.height;
        let count = self.slots.len() - height;
        self.slots.truncate(height);
        Some(count as u32)
    }
}
