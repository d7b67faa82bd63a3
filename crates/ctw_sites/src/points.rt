ghost use Rattle.std.specs.Prelude.{◌≡◌, ◌==◌, ◌&&◌, ◌||◌, ◌↔◌, ℕ, true, [], IfOk, IfErr};
ghost use Rattle.ctw_labels.specs.Points.{no_points, has_number, is_released};

use std::alloc::{AllocError, Global};
use std::collections::BTreeSet;
use std::marker::Model;

/// Trusted functions, and the opcodes in them that release a value. Each is kept once, in order.
#[derive(Drop)]
pub struct Points {
    trusted: BTreeSet<u32>,
    releases: BTreeSet<(u32, u32)>,
}

impl Model for Points {
    ghost use Rattle.std.specs.Prelude.{map};
    ghost use Rattle.ctw_labels.specs.Points.{Points};

    ghost Value = { Points };

    ghost view = { λ p. record {
      trusted = p.trusted.keys;
      releases = map (λ r. record { func = r.0; at = r.1 }) p.releases.keys;
    } };
}

impl Points {
    /// No trusted function and no release. It takes no memory.
    pub fn new(alloc: Global) -> Points
        ensures { result ≡ no_points }
    {
        Points {
            trusted: BTreeSet::new(alloc),
            releases: BTreeSet::new(alloc),
        }
    }

    /// Makes a function a trusted one.
    ///
    /// The error is want of memory, and all is then as before.
    pub fn add_trust(&mut self, f: u32) -> Result<(), AllocError>
        ensures trusted { IfOk result (λ _. (g : ℕ) →
            has_number g self.new.trusted ≡ (f == g || has_number g self.old.trusted)) }
        ensures releases { self.new.releases ≡ self.old.releases }
        ensures err { IfErr result (λ _. self.new ≡ self.old) }
    {
        self.trusted.insert(f)?;
        Ok(())
    }

    /// Makes an opcode of a function one that releases what it pushes.
    ///
    /// The error is want of memory, and all is then as before.
    pub fn add_release(&mut self, f: u32, at: u32) -> Result<(), AllocError>
        ensures releases { IfOk result (λ _. (g k : ℕ) →
            is_released self.new g k ≡ ((f == g && at == k) || is_released self.old g k)) }
        ensures trusted { self.new.trusted ≡ self.old.trusted }
        ensures err { IfErr result (λ _. self.new ≡ self.old) }
    {
        self.releases.insert((f, at))?;
        Ok(())
    }

    /// Whether no function is trusted.
    pub fn trusts_none(&self) -> bool
        ensures { (result ≡ true) ↔ (self.now.trusted ≡ []) }
    {
        self.trusted.is_empty()
    }

    /// Whether no opcode releases what it pushes.
    pub fn releases_none(&self) -> bool
        ensures { (result ≡ true) ↔ (self.now.releases ≡ []) }
    {
        self.releases.is_empty()
    }

    /// Whether a function is trusted.
    pub fn trusted(&self, f: u32) -> bool
        ensures { result ≡ has_number f self.now.trusted }
    {
        self.trusted.contains(&f)
    }

    /// Whether an opcode of a function releases what it pushes.
    pub fn releases(&self, f: u32, at: u32) -> bool
        ensures { result ≡ is_released self.now f at }
    {
        self.releases.contains(&(f, at))
    }
}
