//! How a type under labels is spelled as a variant's entry.
ghost use Rattle.std.specs.Prelude.{◌≡◌, ◌<◌, ◌+◌, ◌^◌, ◌++◌, ◌&&◌, ℕ, true, false, map, length, option_map, IsTrue, IfSome, IfOk, OnOk};
ghost use Rattle.std.specs.List.{list_all};
ghost use Rattle.ctw_ops.specs.Types.{type_byte, byte_type, byte_types, is_type_byte, value_type};
ghost use Rattle.ctw_ops.specs.Typing.{optional};
ghost use Rattle.ctw_ops.specs.TagMaps.{type_to, function_type_to};
ghost use Rattle.ctw_ops.specs.Tree.{type_named};
ghost use Rattle.ctw_module.specs.Trees.{tree};
ghost use Rattle.ctw_labels.specs.Fits.{label_at};
ghost use Rattle.ctw_labels.specs.Links.{at_tag};
ghost use Rattle.ctw_labels.specs.Numbering.{params_from, type_from};
ghost use Rattle.ctw_labels.specs.Placed.{is_public, are_public, is_untrusted, is_all_public};
ghost use Rattle.ctw_labels.specs.SitedModule.{site_count};
ghost use Rattle.ctw_write.specs.Canon.{all_texts, vector_text, type_text, signature_text, trust_byte};
ghost use Rattle.ctw_place.specs.Variants.{use_text};
ghost use Rattle.ctw_place.specs.Settings.{module_of, use_at};

use crate::labels::Labels;
use crate::setting::{Setting, sites_of};
use ctw_flat::{byte_of_type, type_of_byte};
use ctw_leb::put_u32;
use ctw_module::Module;
use ctw_ops::{FuncType, Label, Trust, ValType};
use ctw_write::text::put_result;
use std::alloc::{AllocError, Global};

/// The type that an index names; an untrusted one without parameters and result where it names none.
pub fn type_of<'a>(m: &Module<'a>, y: u32) -> FuncType<'a>
    ensures { result ≡ type_named (tree m.now) y }
{
    if y >= m.type_count() {
        return FuncType {
            trust: Trust::Untrusted,
            params: &[],
            result: None,
        };
    }
    m.func_type(y)
}

/// Whether a label is public.
pub fn is_open(label: Label) -> bool
    ensures { result ≡ is_public label }
{
    match label {
        Label::Public => true,
        Label::Secret => false,
    }
}

/// Whether all labels are public, where those before are or aren't.
fn stays_public(public: bool, label: Label) -> bool
    ensures { result ≡ (public && is_public label) }
{
    match label {
        Label::Public => public,
        Label::Secret => false,
    }
}

/// Whether a trust is none.
fn is_none(trust: Trust) -> bool
    ensures { result ≡ is_untrusted trust }
{
    match trust {
        Trust::Untrusted => true,
        Trust::Trusted => false,
    }
}

/// The byte of a trust in a variant's entry.
fn trust_code(trust: Trust) -> u8
    ensures { result ≡ trust_byte trust }
{
    match trust {
        Trust::Untrusted => 0x00,
        Trust::Trusted => 0x01,
    }
}

/// The byte of a type of a byte's width, with a label.
fn labelled_byte(byte: u8, label: Label) -> u8
    requires { IsTrue (is_type_byte byte) }
    ensures { IfSome (byte_type byte) (λ t. result ≡ type_byte (value_type t.width label)) }
{
    match type_of_byte(byte) {
        Some(t) => byte_of_type(ValType {
            width: t.width,
            label,
        }),
        None => unreachable!(),
    }
}

/// A result's type with a label.
pub fn labelled_result(ty: Option<ValType>, label: Label) -> Option<ValType>
    ensures { result ≡ option_map (λ t. value_type t.width label) ty }
{
    match ty {
        Some(t) => Some(ValType {
            width: t.width,
            label,
        }),
        None => None,
    }
}

/// The types of bytes under the labels of sites from a first one on, and whether all are public.
fn put_types(
    out: &mut Vec<u8>,
    bytes: &[u8],
    labels: &Labels,
    first: u32,
) -> Result<bool, AllocError>
    requires types { IsTrue (list_all is_type_byte bytes.now) }
    requires room { first + length bytes.now < 2 ^ 32 }
    ensures put { OnOk result (out.new.items ≡ out.old.items
        ++ all_texts type_text (map (type_to (at_tag (label_at labels.now))) (params_from first (byte_types bytes.now)))) }
    ensures public { IfOk result (λ b.
        b ≡ are_public (map (type_to (at_tag (label_at labels.now))) (params_from first (byte_types bytes.now)))) }
{
    let mut public = true;
    let mut site = first;
    'types: for byte in bytes {
        let label = labels.at(site);
        out.push(labelled_byte(*byte, label))?;
        public = stays_public(public, label);
        site += 1;
    }
    Ok(public)
}

/// The parameters of a type under the labels of sites from a first one on, and whether all are public.
fn put_params(
    out: &mut Vec<u8>,
    ty: &FuncType,
    labels: &Labels,
    first: u32,
) -> Result<bool, AllocError>
    requires { first + length ty.now.params < 2 ^ 32 }
    ensures put { OnOk result (out.new.items ≡ out.old.items
        ++ vector_text type_text (map (type_to (at_tag (label_at labels.now))) (params_from first ty.now.params))) }
    ensures public { IfOk result (λ b.
        b ≡ are_public (map (type_to (at_tag (label_at labels.now))) (params_from first ty.now.params))) }
{
    put_u32(out, ty.params.len() as u32)?;
    put_types(out, ty.params, labels, first)
}

/// Whether a result is public, if there is one.
fn is_open_result(ty: Option<ValType>) -> bool
    ensures { result ≡ are_public (optional ty) }
{
    match ty {
        Some(t) => is_open(t.label),
        None => true,
    }
}

/// The parameters and the result of a type under the labels of sites from a first one on, and whether all are public.
fn put_signature(
    out: &mut Vec<u8>,
    ty: &FuncType,
    labels: &Labels,
    first: u32,
) -> Result<bool, AllocError>
    requires { first + site_count ty.now < 2 ^ 32 }
    ensures put { OnOk result (out.new.items ≡ out.old.items
        ++ signature_text (function_type_to (at_tag (label_at labels.now)) (type_from first ty.now))) }
    ensures public { IfOk result (λ b.
        b ≡ (are_public (function_type_to (at_tag (label_at labels.now)) (type_from first ty.now)).params
        && are_public (optional (function_type_to (at_tag (label_at labels.now)) (type_from first ty.now)).result))) }
{
    let params = put_params(out, ty, labels, first)?;
    let site = first + ty.params.len() as u32;
    let result = labelled_result(ty.result, labels.at(site));
    put_result(out, result)?;
    Ok(params && is_open_result(result))
}

/// A type entry under the labels of sites from a first one on, spelled as a variant of it, and whether it needs none:
/// it is untrusted, and all its labels are public.
pub fn spelled(
    alloc: Global,
    setting: &Setting,
    y: u32,
    first: u32,
    trust: Trust,
) -> Result<(Vec<u8>, bool), AllocError>
    requires { first + site_count (type_named (module_of setting.now) y) < 2 ^ 32 }
    ensures text { IfOk result (λ r. r.0.items ≡ use_text (use_at setting.now y first trust)) }
    ensures public { IfOk result (λ r. r.1 ≡ is_all_public (use_at setting.now y first trust).type) }
{
    let ty = type_of(setting.whole, y);
    let mut text = vec![in alloc; 0x62]?;
    put_u32(&mut text, y)?;
    text.push(trust_code(trust))?;
    let public = put_signature(&mut text, &ty, &setting.labels, first)?;
    Ok((text, is_none(trust) && public))
}

/// Whether the labels of so many sites from a first one on are public.
fn are_open(labels: &Labels, first: u32, count: u32) -> bool
    requires { first + count < 2 ^ 32 }
    ensures yes { result ≡ true → (i : ℕ) → i < count → is_public (label_at labels.now (first + i)) ≡ true }
    ensures no { result ≡ false → (i : ℕ) × (i < count) × (is_public (label_at labels.now (first + i)) ≡ false) }
{
    'sites: for i in 0..count {
        if !is_open(labels.at(first + i)) {
            return false;
        }
    }
    true
}

/// Whether a type entry needs no variant under the labels of sites from a first one on: it is untrusted, and these are
/// public.
pub fn is_plain(setting: &Setting, y: u32, first: u32, trust: Trust) -> bool
    requires { first + site_count (type_named (module_of setting.now) y) < 2 ^ 32 }
    ensures { result ≡ is_all_public (use_at setting.now y first trust).type }
{
    is_none(trust) && are_open(&setting.labels, first, sites_of(setting.whole, y))
}
