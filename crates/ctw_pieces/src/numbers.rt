// Numbers of tokens and what they are wanted for.

ghost use Rattle.std.specs.Prelude.{◌≡◌, ◌≤◌, ◌<◌, ◌^◌, ◌∷◌, [], ℕ, true, false, MatchOption};
ghost use Rattle.ctw_ops.specs.declared.types.Width.TheVariants.{W32, W64};
ghost use Rattle.ctw_ops.specs.Code as ops;
ghost use Rattle.ctw_text.specs.declared.pieces.Piece.TheVariants.{Single};
ghost use Rattle.ctw_text.specs.Grammar.{is_u32, fits, bits_of, exponent, gives};
ghost use Rattle.ctw_text.specs.Machine.{when};

use crate::moves::{Move, Next, writes};
use ctw_ops::{Label, Width};
use ctw_text::{Leaf, LeafKind, Piece};

/// The number, if it is below 2^32.
pub fn small(n: u128) -> Option<u32>
    ensures { MatchOption result (is_u32 n ≡ false) (λ k. (is_u32 n ≡ true) × (k ≡ n)) }
{
    if n < 0x1_0000_0000 {
        Some(n as u32)
    } else {
        None
    }
}

// The bits of a number that fits 32 bits, signed or not.
fn bits_32(negative: bool, n: u128) -> Option<u64>
    ensures { MatchOption result (fits W32 negative n ≡ false) (λ k. (fits W32 negative n ≡ true) × (k ≡ bits_of W32 negative n)) }
{
    if negative {
        if n <= 0x8000_0000 {
            return Some(((0x1_0000_0000 - n) % 0x1_0000_0000) as u64);
        }
        return None;
    }
    if n < 0x1_0000_0000 {
        Some(n as u64)
    } else {
        None
    }
}

// The bits of a number that fits 64 bits, signed or not.
fn bits_64(negative: bool, n: u128) -> Option<u64>
    ensures { MatchOption result (fits W64 negative n ≡ false) (λ k. (fits W64 negative n ≡ true) × (k ≡ bits_of W64 negative n)) }
{
    if negative {
        if n <= 0x8000_0000_0000_0000 {
            return Some(((0x1_0000_0000_0000_0000 - n) % 0x1_0000_0000_0000_0000) as u64);
        }
        return None;
    }
    if n < 0x1_0000_0000_0000_0000 {
        Some(n as u64)
    } else {
        None
    }
}

fn bits(width: Width, negative: bool, n: u128) -> Option<u64>
    ensures { MatchOption result (fits width negative n ≡ false) (λ k. (fits width negative n ≡ true) × (k ≡ bits_of width negative n)) }
{
    match width {
        Width::W32 => bits_32(negative, n),
        Width::W64 => bits_64(negative, n),
    }
}

/// A constant by its number, if that fits the width.
pub fn constant<'a>(width: Width, label: Label, negative: bool, n: u128) -> Option<Move<'a>>
    ensures { result ≡ when (fits width negative n) (gives (Single (ops.Const width label (bits_of width negative n)) ∷ []) []) }
{
    match bits(width, negative, n) {
        Some(bits) => writes(
            Piece::Single(Leaf {
                kind: LeafKind::Const { width, label, bits },
            }),
            Next::Done,
        ),
        None => None,
    }
}

/// The exponent of a power of two below 2^32.
pub fn exponent(n: u128) -> Option<u32>
    ensures { result ≡ exponent n }
{
    let mut power: u128 = 0x8000_0000;
    let mut k: u32 = 31;
    while k > 0 {
        if n == power {
            return Some(k);
        }
        power /= 2;
        k -= 1;
    }
    if n == 1 { Some(0) } else { None }
}
