ghost use Rattle.std.specs.Prelude.{◌≡◌, ◌∷◌, ◌++◌, IfOk, IfSome, IsTrue};
ghost use Rattle.std.specs.List.{list_all};
ghost use Rattle.ctw_ops.specs.Types.{byte_type, byte_types, is_type_byte};
ghost use Rattle.ctw_links.specs.Firsts.{width_byte, result_byte, params_bytes, key_of};

use ctw_flat::{byte_of_type, type_of_byte};
use ctw_ops::{FuncType, Label, ValType, Width};
use std::alloc::{AllocError, Global};

/// The bytes of the erased type: those of its result, 40 for none, and of its parameters.
pub fn key(alloc: Global, ty: &FuncType) -> Result<Vec<u8>, AllocError>
    ensures { IfOk result (λ key. key.items ≡ key_of ty.now) }
{
    erased(alloc, byte_of_result(ty.result), ty.params)
}

/// A byte in front of those of erased types.
fn erased(alloc: Global, first: u8, params: &[u8]) -> Result<Vec<u8>, AllocError>
    requires { IsTrue (list_all is_type_byte params.now) }
    ensures { IfOk result (λ bytes. bytes.items ≡ first ∷ params_bytes (byte_types params.now)) }
{
    let mut bytes = vec![in alloc; first]?;
    'params: for byte in params {
        bytes.push(erased_byte(*byte))?;
    }
    Ok(bytes)
}

/// The byte of the public type of the same width.
fn erased_byte(byte: u8) -> u8
    requires { IsTrue (is_type_byte byte) }
    ensures { IfSome (byte_type byte) (λ t. result ≡ width_byte t.width) }
{
    match type_of_byte(byte) {
        Some(t) => byte_of_width(t.width),
        None => unreachable!(),
    }
}

fn byte_of_result(ty: Option<ValType>) -> u8
    ensures { result ≡ result_byte ty }
{
    match ty {
        None => 0x40,
        Some(t) => byte_of_width(t.width),
    }
}

fn byte_of_width(width: Width) -> u8
    ensures { result ≡ width_byte width }
{
    byte_of_type(ValType {
        width,
        label: Label::Public,
    })
}
