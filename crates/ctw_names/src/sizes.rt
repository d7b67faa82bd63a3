ghost use Rattle.std.specs.Prelude.{◌≡◌, IfOk};
ghost use Rattle.ctw_text.specs.Names.{bytes_in as bytes_of_draft, exact as exactly, global_type as type_of_global, label_of as label_where, limits_in as limits_of_numbers, memory_type as type_of_memory, pages_for as pages_of, table_limits as limits_of_table};

use ctw_ops::{GlobalType, Label, Limits, MemType, ValType, Width};
use ctw_text::{Draft, FrontList};
use std::alloc::{AllocError, Global};

/// The limits that are spelled.
pub fn limits_in(numbers: &FrontList<u32>) -> Limits
    ensures { result ≡ limits_of_numbers numbers.now }
{
    if numbers.len() == 0 {
        return Limits { min: 0, max: None };
    }
    if numbers.len() == 1 {
        return Limits {
            min: *numbers.at(0),
            max: None,
        };
    }
    Limits {
        min: *numbers.at(0),
        max: Some(*numbers.at(1)),
    }
}

/// Just this size.
fn exact(n: u32) -> Limits
    ensures { result ≡ exactly n }
{
    Limits {
        min: n,
        max: Some(n),
    }
}

/// The bytes of the strings of a field.
pub fn bytes_in(alloc: Global, draft: &Draft) -> Result<Vec<u8>, AllocError>
    ensures { IfOk result (λ bytes. bytes.items ≡ bytes_of_draft draft.now) }
{
    let mut bytes = Vec::new(alloc);
    'strings: for i in 0..draft.strings.len() {
        let string = draft.strings.at(i).bytes(alloc)?;
        bytes.extend_from_slice(string.as_slice())?;
    }
    Ok(bytes)
}

/// As many pages as this many bytes need; no text has strings of 2^32 bytes, which count as want of memory.
fn pages_for(n: usize) -> Result<u32, AllocError>
    ensures { IfOk result (λ pages. pages ≡ pages_of n) }
{
    if n > 0xFFFF_FFFF {
        return Err(AllocError);
    }
    Ok(((n + 65535) / 65536) as u32)
}

/// The sizes of a table.
pub fn table_limits(draft: &Draft) -> Limits
    ensures { result ≡ limits_of_table draft.now }
{
    if draft.inline {
        return exact(draft.items.len());
    }
    limits_in(&draft.numbers)
}

/// The label of a memory.
pub fn label_of(secret: bool) -> Label
    ensures { result ≡ label_where secret }
{
    if secret {
        return Label::Secret;
    }
    Label::Public
}

/// The type of a memory.
pub fn memory_type(alloc: Global, draft: &Draft) -> Result<MemType, AllocError>
    ensures { IfOk result (λ t. t ≡ type_of_memory draft.now) }
{
    let label = label_of(draft.secret);
    if draft.inline {
        let bytes = bytes_in(alloc, draft)?;
        let pages = pages_for(bytes.len())?;
        return Ok(MemType {
            label,
            limits: exact(pages),
        });
    }
    Ok(MemType {
        label,
        limits: limits_in(&draft.numbers),
    })
}

/// The type of a global.
pub fn global_type(draft: &Draft) -> GlobalType
    ensures { result ≡ type_of_global draft.now }
{
    GlobalType {
        value: draft.value.unwrap_or(ValType {
            width: Width::W32,
            label: Label::Public,
        }),
        mutable: draft.mutable,
    }
}
