ghost use Rattle.std.specs.Prelude.{◌≡◌, ◌∷◌, ◌++◌, IfOk, IfSome, IsTrue};
ghost use Rattle.std.specs.List.{list_all};
ghost use Rattle.ctw_ops.specs.Types.{byte_type, byte_types, is_type_byte};
ghost use Rattle.ctw_ops.specs.Equal.{same_label, same_width, same_trust, same_type, same_types, same_result, same_function_type};
ghost use Rattle.ctw_link.specs.Firsts.{width_byte, result_byte, params_bytes, key_of};

use ctw_flat::{byte_of_type, type_of_byte};
use ctw_ops::{FuncType, Label, Trust, ValType, Width};
use std::alloc::{AllocError, Global};

/// The bytes of the erased type: those of its result, 40 for none, and of its parameters.
pub fn key(alloc: Global, ty: &FuncType) -> Result<Vec<u8>, AllocError>
    ensures { IfOk result (λ key. key.items ≡ key_of ty.now) }
{
    erased(alloc, byte_of_result(ty.result), ty.params)
}

/// A byte in front of those of erased types.
fn erased(alloc: Global, first: u8, params: &[u8]) -> Result<Vec<u8>, AllocError>
    requires { IsTrue (list_all is_type_byte params.now) }
    ensures { IfOk result (λ bytes. bytes.items ≡ first ∷ params_bytes (byte_types params.now)) }
{
    let mut bytes = vec![in alloc; first]?;
    'params: for byte in params {
        bytes.push(erased_byte(*byte))?;
    }
    Ok(bytes)
}

/// The byte of the public type of the same width.
fn erased_byte(byte: u8) -> u8
    requires { IsTrue (is_type_byte byte) }
    ensures { IfSome (byte_type byte) (λ t. result ≡ width_byte t.width) }
{
    match type_of_byte(byte) {
        Some(t) => byte_of_width(t.width),
        None => unreachable!(),
    }
}

fn byte_of_result(ty: Option<ValType>) -> u8
    ensures { result ≡ result_byte ty }
{
    match ty {
        None => 0x40,
        Some(t) => byte_of_width(t.width),
    }
}

fn byte_of_width(width: Width) -> u8
    ensures { result ≡ width_byte width }
{
    byte_of_type(ValType {
        width,
        label: Label::Public,
    })
}

/// Whether two types are equal, labels and trust too.
pub fn is_same(a: &FuncType, b: &FuncType) -> bool
    ensures { result ≡ same_function_type a.now b.now }
{
    is_same_trust(a.trust, b.trust)
        && is_same_params(a.params, b.params)
        && is_same_result(a.result, b.result)
}

/// Whether the types of two lists of bytes are equal.
fn is_same_params(a: &[u8], b: &[u8]) -> bool
    requires first { IsTrue (list_all is_type_byte a.now) }
    requires second { IsTrue (list_all is_type_byte b.now) }
    ensures { result ≡ same_types (byte_types a.now) (byte_types b.now) }
{
    a == b
}

fn is_same_result(a: Option<ValType>, b: Option<ValType>) -> bool
    ensures { result ≡ same_result a b }
{
    match (a, b) {
        (None, None) => true,
        (Some(a), Some(b)) => is_same_type(a, b),
        _ => false,
    }
}

fn is_same_type(a: ValType, b: ValType) -> bool
    ensures { result ≡ same_type a b }
{
    is_same_width(a.width, b.width) && is_same_label(a.label, b.label)
}

fn is_same_width(a: Width, b: Width) -> bool
    ensures { result ≡ same_width a b }
{
    a == b
}

fn is_same_label(a: Label, b: Label) -> bool
    ensures { result ≡ same_label a b }
{
    a == b
}

fn is_same_trust(a: Trust, b: Trust) -> bool
    ensures { result ≡ same_trust a b }
{
    a == b
}
