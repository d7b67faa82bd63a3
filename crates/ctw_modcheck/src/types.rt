ghost use Rattle.std.specs.Prelude.{◌≡◌, ◌<◌, [], drop, length, map, option_map, IsTrue, IfSome};
ghost use Rattle.std.specs.List.{list_all, position};
ghost use Rattle.ctw_ops.specs.Types.{byte_type, byte_types, is_type_byte, erase_value_type};
ghost use Rattle.ctw_ops.specs.Equal.{same_types, same_result, erases_alike};
ghost use Rattle.ctw_module.specs.Trees.{tree};
ghost use Rattle.ctw_modcheck.specs.Answers.{Answers, fault_at};
ghost use Rattle.ctw_modcheck.specs.Faults.{is_variant, variant_fault, types_fault};

use crate::fault::Invalid;
use ctw_flat::type_of_byte;
use ctw_module::Module;
use ctw_ops::{FuncType, ValType, Width};

/// The first fault of the type entries. Variants stand behind all other entries; where one doesn't, the first one is at
/// fault, whatever its base is.
pub fn check_types(m: &Module) -> Result<(), Invalid>
    ensures { Answers result (types_fault (tree m.now).types 0 (tree m.now).types) }
{
    let Some(first) = first_variant(m) else {
        return Ok(());
    };
    if !are_variants_from(m, first) {
        return Err(Invalid::Variant { index: first });
    }
    'variants: for i in first..m.type_count() {
        check_base(m, i)?;
    }
    Ok(())
}

/// The first variant, if there is one.
fn first_variant(m: &Module) -> Option<u32>
    ensures { result ≡ position is_variant (tree m.now).types }
{
    'entries: for i in 0..m.type_count() {
        if m.variant_of(i).is_some() {
            return Some(i);
        }
    }
    None
}

/// Whether all entries from one on are variants.
fn are_variants_from(m: &Module, first: u32) -> bool
    ensures { result ≡ list_all is_variant (drop first (tree m.now).types) }
{
    'entries: for i in first..m.type_count() {
        if m.variant_of(i).is_none() {
            return false;
        }
    }
    true
}

/// The fault of a variant by its base: it isn't there, is a variant or erases otherwise.
fn check_base(m: &Module, i: u32) -> Result<(), Invalid>
    requires { i < length (tree m.now).types }
    ensures { Answers result (fault_at (variant_fault (tree m.now).types []) (tree m.now).types i) }
{
    let Some(base) = m.variant_of(i) else {
        return Ok(());
    };
    if base >= m.type_count() || m.variant_of(base).is_some() {
        return Err(Invalid::Variant { index: i });
    }
    if !erase_alike(&m.func_type(i), &m.func_type(base)) {
        return Err(Invalid::Variant { index: i });
    }
    Ok(())
}

/// Whether two types are alike but for their labels and trust.
fn erase_alike(a: &FuncType, b: &FuncType) -> bool
    ensures { result ≡ erases_alike a.now b.now }
{
    have_same_widths(a.params, b.params) && have_same_width(a.result, b.result)
}

/// Whether the types of two lists of bytes have the same widths.
fn have_same_widths(a: &[u8], b: &[u8]) -> bool
    requires first { IsTrue (list_all is_type_byte a.now) }
    requires second { IsTrue (list_all is_type_byte b.now) }
    ensures { result ≡ same_types (map erase_value_type (byte_types a.now)) (map erase_value_type (byte_types b.now)) }
{
    if a.len() != b.len() {
        return false;
    }
    'bytes: for i in 0..a.len() {
        if width_of(a[i]) != width_of(b[i]) {
            return false;
        }
    }
    true
}

/// The width of a value type's byte.
fn width_of(byte: u8) -> Width
    requires { IsTrue (is_type_byte byte) }
    ensures { IfSome (byte_type byte) (λ t. result ≡ t.width) }
{
    match type_of_byte(byte) {
        Some(t) => t.width,
        None => unreachable!(),
    }
}

/// Whether both results are missing, or have the same width.
fn have_same_width(a: Option<ValType>, b: Option<ValType>) -> bool
    ensures { result ≡ same_result (option_map erase_value_type a) (option_map erase_value_type b) }
{
    match (a, b) {
        (Some(a), Some(b)) => a.width == b.width,
        (None, None) => true,
        _ => false,
    }
}
