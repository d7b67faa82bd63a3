ghost use Rattle.std.specs.Prelude.{◌≡◌, length, drop, slice_get};
ghost use Rattle.ctw_leb.specs.Grammar.{Times};
ghost use Rattle.ctw_leb.specs.Numbers.{IsU32};
ghost use Rattle.ctw_flat.specs.Instructions.{targets_in};

use ctw_leb::front_u32;
use std::marker::Model;

/// The targets of a branch table that are left, read from the first on where they are spelled. Contracts see the list.
#[derive(Drop)]
pub struct Targets<'a> {
    rest: &'a [u8],
    left: u32,
}

impl<'a> Model for Targets<'a> {
    ghost use Rattle.std.specs.Prelude.{ℕ, List};
    ghost use Rattle.ctw_leb.specs.Grammar.{Times};
    ghost use Rattle.ctw_leb.specs.Numbers.{IsU32};
    ghost use Rattle.ctw_flat.specs.Instructions.{targets_in};

    ghost Value = { List ℕ };

    ghost view = { λ t. targets_in t.left t.rest.now };

    ghost invariant = { λ t. Times IsU32 t.left t.rest.now (targets_in t.left t.rest.now) };
}

impl<'a> Targets<'a> {
    /// The targets of an `Instr::BrTable` with these `targets` and this `count`.
    pub fn new(targets: &'a [u8], count: u32) -> Targets<'a>
        requires { Times IsU32 count targets.now (targets_in count targets.now) }
        ensures targets { result ≡ targets_in count targets.now }
        ensures count { length result ≡ count }
    {
        Targets {
            rest: targets,
            left: count,
        }
    }

    /// The next target, behind which the others are left; None exactly where none is left.
    #[inline(always)]
    pub fn next(&mut self) -> Option<u32>
        ensures target { result ≡ slice_get self.old 0 }
        ensures left { self.new ≡ drop 1 self.old }
    {
        if self.left == 0 {
            return None;
        }
        match front_u32(self.rest) {
            Some((target, rest)) => {
                self.rest = rest;
                self.left -= 1;
                Some(target)
            }
            None => unreachable!(),
        }
    }

    /// The k-th of them, from 0 on; None exactly where there are no more than k. Takes time linear in `k`,
    /// and no memory.
    pub fn target(mut self, k: u32) -> Option<u32>
        ensures { result ≡ slice_get self.entry k }
    {
        'skipped: for _ in 0..k {
            self.next()?;
        }
        self.next()
    }
}
