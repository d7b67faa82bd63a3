// Memories as lists of pages. A number is read from one page and written into one by one copy; one that lies over two
// pages goes byte by byte.
ghost use Rattle.std.specs.Prelude.{◌≡◌, ◌-◌, ◌++◌, replicate, IfOk, OnOk, IfErr, ◌≤◌, ◌<◌, ◌+◌, ◌*◌, ◌/◌, ◌%◌, ◌^◌, ℕ, true, false, length, take, drop, get_or, slice_set, All};
ghost use Rattle.ctw_ops.specs.Limits.{page_size};
ghost use Rattle.ctw_semantics.specs.Stores.{number_of_bytes, bytes_of_number, written_at};
ghost use Rattle.ctw_store.specs.declared.page.Page.TheVariants.{Absent};
ghost use Rattle.ctw_store.specs.Answers.{IsAccess};
ghost use Rattle.ctw_store.specs.Pages.{zeros, IsPage, is_made, IsMadeIn, KeepsMadeIn, AreMadeIn, all_bytes, made_in};

use crate::number::{read_u16, read_u32, read_u64, write_u16, write_u32, write_u64};
use std::alloc::{AllocError, Global};

/// 65,536 bytes: all zeros until they are first written.
#[derive(Drop)]
pub enum Page {
    /// It reads as zeros.
    Absent,
    /// Its bytes.
    Made(Vec<u8>),
}

/// Whether so many bytes from a place on are inside.
#[inline(always)]
#[tactic(auto, using(crate::proofs::Pages::bytes_long))]
pub fn is_inside(pages: &[Page], at: u64, bytes: u64) -> bool
    requires whole { All IsPage pages.now }
    requires short { length pages.now ≤ 65536 }
    ensures inside { result ≡ true → at + bytes ≤ length (all_bytes pages.now) }
    ensures outside { result ≡ false → length (all_bytes pages.now) < at + bytes }
{
    let length = pages.len() as u64 * 65_536;
    at <= length && bytes <= length - at
}

// ---- reading

/// The number that so many bytes from a place on stand for.
#[inline(always)]
pub fn read(pages: &[Page], at: usize, count: u8) -> u64
    requires whole { All IsPage pages.now }
    requires short { length pages.now ≤ 65536 }
    requires access { IsAccess count }
    requires inside { at + count ≤ length (all_bytes pages.now) }
    ensures { result ≡ number_of_bytes (take count (drop at (all_bytes pages.now))) }
{
    let within = at % 65_536;
    if within + count as usize > 65_536 {
        return read_over(pages, at, count as usize);
    }
    match &pages[at / 65_536] {
        Page::Absent => 0,
        Page::Made(bytes) => read_in(bytes, within, count),
    }
}

// The same in one page that is made.
#[inline(always)]
fn read_in(bytes: &[u8], at: usize, count: u8) -> u64
    requires access { IsAccess count }
    requires inside { at + count ≤ length bytes.now }
    ensures { result ≡ number_of_bytes (take count (drop at bytes.now)) }
{
    match count {
        1 => bytes[at] as u64,
        2 => read_u16(&bytes[at..at + 2]),
        4 => read_u32(&bytes[at..at + 4]),
        _ => read_u64(&bytes[at..at + 8]),
    }
}

// The same over any pages, byte by byte.
#[inline(never)]
fn read_over(pages: &[Page], at: usize, count: usize) -> u64
    requires whole { All IsPage pages.now }
    requires short { length pages.now ≤ 65536 }
    requires few { count ≤ 8 }
    requires inside { at + count ≤ length (all_bytes pages.now) }
    ensures { result ≡ number_of_bytes (take count (drop at (all_bytes pages.now))) }
{
    let mut number = 0u64;
    let mut left = count;
    'bytes: while left > 0 {
        left -= 1;
        number = number * 256 + byte_at(pages, at + left) as u64;
    }
    number
}

// The byte at a place.
#[inline(always)]
fn byte_at(pages: &[Page], at: usize) -> u8
    requires whole { All IsPage pages.now }
    requires inside { at < length (all_bytes pages.now) }
    ensures { result ≡ get_or (all_bytes pages.now) at 0 }
{
    match &pages[at / 65_536] {
        Page::Absent => 0,
        Page::Made(bytes) => bytes[at % 65_536],
    }
}

// ---- writing

/// Writes so many bytes of a number from a place on. The one or two pages that they lie in are made before; the error
/// is want of memory for them.
#[inline(always)]
pub fn write(
    alloc: Global,
    pages: &mut [Page],
    at: usize,
    count: u8,
    value: u64,
) -> Result<(), AllocError>
    requires whole { All IsPage pages.old }
    requires short { length pages.old ≤ 65536 }
    requires access { IsAccess count }
    requires inside { at + count ≤ length (all_bytes pages.old) }
    ensures whole { All IsPage pages.new }
    ensures kept { KeepsMadeIn (made_in pages.old) (made_in pages.new) }
    ensures ok { IfOk result
        (λ _. all_bytes pages.new ≡ written_at at (bytes_of_number count value) (all_bytes pages.old)) }
    ensures err { IfErr result (λ _. all_bytes pages.new ≡ all_bytes pages.old) }
    ensures ready { AreMadeIn (made_in pages.old) at count → IfErr result (λ _. ⊥) }
{
    make(alloc, pages, at / 65_536)?;
    if at % 65_536 + count as usize > 65_536 {
        make(alloc, pages, at / 65_536 + 1)?;
        write_over(pages, at, count as usize, value);
    } else {
        write_in(pages, at, count, value);
    }
    Ok(())
}

// Makes a page, if it isn't made.
#[inline(always)]
fn make(alloc: Global, pages: &mut [Page], index: usize) -> Result<(), AllocError>
    requires whole { All IsPage pages.old }
    requires there { index < length pages.old }
    ensures whole { All IsPage pages.new }
    ensures bytes { all_bytes pages.new ≡ all_bytes pages.old }
    ensures kept { KeepsMadeIn (made_in pages.old) (made_in pages.new) }
    ensures made { OnOk result (IsMadeIn (made_in pages.new) index) }
    ensures ready { IsMadeIn (made_in pages.old) index → IfErr result (λ _. ⊥) }
{
    match &pages[index] {
        Page::Made(_) => Ok(()),
        Page::Absent => {
            pages[index] = Page::Made(blank(alloc)?);
            Ok(())
        }
    }
}

// The bytes of a page that nobody has written.
#[inline(never)]
#[tactic(auto, unfolding(crate::specs::Pages::zeros))]
fn blank(alloc: Global) -> Result<Vec<u8>, AllocError>
    ensures { IfOk result (λ v. v.items ≡ zeros) }
{
    Ok(vec![in alloc; 0u8; 65_536]?)
}

// Writes so many bytes of a number into one page, which is made.
#[inline(always)]
fn write_in(pages: &mut [Page], at: usize, count: u8, value: u64)
    requires whole { All IsPage pages.old }
    requires access { IsAccess count }
    requires inside { at + count ≤ length (all_bytes pages.old) }
    requires one { at % page_size + count ≤ page_size }
    requires made { IsMadeIn (made_in pages.old) (at / page_size) }
    ensures whole { All IsPage pages.new }
    ensures bytes { all_bytes pages.new ≡ written_at at (bytes_of_number count value) (all_bytes pages.old) }
    ensures made { made_in pages.new ≡ made_in pages.old }
{
    match &mut pages[at / 65_536] {
        Page::Absent => {}
        Page::Made(bytes) => put(bytes, at % 65_536, count, value),
    }
}

// Writes so many bytes of a number.
#[inline(always)]
fn put(bytes: &mut [u8], at: usize, count: u8, value: u64)
    requires access { IsAccess count }
    requires inside { at + count ≤ length bytes.old }
    ensures { bytes.new ≡ written_at at (bytes_of_number count value) bytes.old }
{
    match count {
        1 => bytes[at] = (value % 256) as u8,
        2 => write_u16(&mut bytes[at..at + 2], value),
        4 => write_u32(&mut bytes[at..at + 4], value),
        _ => write_u64(&mut bytes[at..at + 8], value),
    }
}

// Writes so many bytes of a number over two pages, which are made, byte by byte.
#[inline(never)]
fn write_over(pages: &mut [Page], at: usize, count: usize, value: u64)
    requires whole { All IsPage pages.old }
    requires short { length pages.old ≤ 65536 }
    requires some { 0 < count }
    requires few { count ≤ 8 }
    requires inside { at + count ≤ length (all_bytes pages.old) }
    requires first { IsMadeIn (made_in pages.old) (at / page_size) }
    requires last { IsMadeIn (made_in pages.old) (at / page_size + 1) }
    ensures whole { All IsPage pages.new }
    ensures bytes { all_bytes pages.new ≡ written_at at (bytes_of_number count value) (all_bytes pages.old) }
    ensures made { made_in pages.new ≡ made_in pages.old }
{
    let mut rest = value;
    'bytes: for i in 0..count {
        set_byte(pages, at + i, (rest % 256) as u8);
        rest /= 256;
    }
}

// Writes a byte into a page that is made.
#[inline(always)]
fn set_byte(pages: &mut [Page], at: usize, byte: u8)
    requires whole { All IsPage pages.old }
    requires inside { at < length (all_bytes pages.old) }
    requires made { IsMadeIn (made_in pages.old) (at / page_size) }
    ensures whole { All IsPage pages.new }
    ensures bytes { all_bytes pages.new ≡ slice_set (all_bytes pages.old) at byte }
    ensures made { made_in pages.new ≡ made_in pages.old }
{
    match &mut pages[at / 65_536] {
        Page::Absent => {}
        Page::Made(bytes) => bytes[at % 65_536] = byte,
    }
}

/// Makes the pages of so many bytes from a place on. The error is want of memory for one of them.
pub fn make_all(
    alloc: Global,
    pages: &mut [Page],
    at: usize,
    count: usize,
) -> Result<(), AllocError>
    requires whole { All IsPage pages.old }
    requires short { length pages.old ≤ 65536 }
    requires inside { at + count ≤ length (all_bytes pages.old) }
    ensures whole { All IsPage pages.new }
    ensures bytes { all_bytes pages.new ≡ all_bytes pages.old }
    ensures kept { KeepsMadeIn (made_in pages.old) (made_in pages.new) }
    ensures made { OnOk result (AreMadeIn (made_in pages.new) at count) }
    ensures ready { AreMadeIn (made_in pages.old) at count → IfErr result (λ _. ⊥) }
{
    if count == 0 {
        return Ok(());
    }
    let first = at / 65_536;
    let last = (at + count - 1) / 65_536;
    'pages: for index in first..last + 1 {
        make(alloc, pages, index)?;
    }
    Ok(())
}

// ---- growing

/// Adds so many pages that aren't made. The error is want of memory, and the pages are then as before.
pub fn extend(pages: &mut Vec<Page>, count: usize) -> Result<(), AllocError>
    ensures ok { IfOk result (λ _. pages.new.items ≡ pages.old.items ++ replicate count Absent) }
    ensures err { IfErr result (λ _. pages.new.items ≡ pages.old.items) }
{
    pages.reserve(count)?;
    'pages: for _ in 0..count {
        pages.push_reserved(Page::Absent);
    }
    Ok(())
}
