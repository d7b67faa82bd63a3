//! The vault: bytes that are taken from their front.
ghost use Rattle.std.specs.Prelude.{◌≡◌, ◌≤◌, length, drop};

use std::marker::Model;

/// Secret bytes that a session takes one after another. Contracts see those that are left.
#[derive(Drop)]
pub struct Vault {
    bytes: Vec<u8>,
    used: usize,
}

impl Model for Vault {
    ghost use Rattle.std.specs.Prelude.{◌≤◌, ℕ, List, length, drop};

    ghost Value = { List ℕ };

    ghost view = { λ vault. drop vault.used vault.bytes.items };

    ghost invariant = { λ vault. vault.used ≤ length vault.bytes.items };
}

impl Vault {
    /// A whole vault.
    pub fn new(bytes: Vec<u8>) -> Vault
        ensures { result ≡ bytes.items }
    {
        Vault { bytes, used: 0 }
    }

    /// The bytes that are left.
    pub fn rest(&self) -> &[u8]
        ensures { result.now ≡ self.now }
    {
        &self.bytes[self.used..]
    }

    /// Takes so many bytes, which are left.
    pub fn skip(&mut self, count: usize)
        requires { count ≤ length self.old }
        ensures { self.new ≡ drop count self.old }
    {
        self.used += count;
    }
}
