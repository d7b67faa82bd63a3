ghost use Rattle.std.specs.Prelude.{◌≡◌, ◌<◌, ◌+◌, ◌^◌, ◌∷◌, [], ◌++◌, List, slice_get, IfOk, OnOk};
ghost use Rattle.std.specs.List.{AllByRecursion};
ghost use Rattle.ctw_ops.specs.Tree.{function_types, type_named};
ghost use Rattle.ctw_module.specs.Trees.{view_module};
ghost use Rattle.ctw_labels.specs.Links.{after};
ghost use Rattle.ctw_labels.specs.ModuleLinks.{element_users, entry_users};
ghost use Rattle.ctw_labels.specs.SitedModule.{site_count, sited_functions};
ghost use Rattle.ctw_sites.specs.Heads.{heads as heads_of};
ghost use Rattle.ctw_links.specs.declared.user.User.{User as AnyUser};
ghost use Rattle.ctw_links.specs.Firsts.{key_of, site_facts, user_told, users_told, TellsFirsts, TellsSome, IsPlaced};
ghost use Rattle.ctw_links.specs.Uses.{types_of_users};

use crate::key::key;
use crate::user::User;
use ctw_labels::{Tag, Told};
use ctw_module::{Element, Module};
use ctw_sites::head::signature;
use std::alloc::{AllocError, Global};
use std::collections::BTreeMap;

/// Notes a function in the table, where there is such a function. `heads` are the first sites of functions.
fn note_entry(m: &Module, heads: &[u32], f: u32, users: &mut Vec<User>) -> Result<(), AllocError>
    requires { heads.now ≡ heads_of (view_module m.now) }
    ensures { OnOk result (types_of_users (function_types (view_module m.now)) users.new.items
        ≡ types_of_users (function_types (view_module m.now)) users.old.items
        ++ after (slice_get (sited_functions (view_module m.now)) f) (λ g. g ∷ [])) }
{
    let i = f as usize;
    if i >= heads.len() {
        return Ok(());
    }
    users.push(User {
        entry: m.type_of_func(f),
        first: heads[i],
    })?;
    Ok(())
}

/// Notes the functions of an element.
fn note_entries(
    m: &Module,
    heads: &[u32],
    element: &Element,
    users: &mut Vec<User>,
) -> Result<(), AllocError>
    requires { heads.now ≡ heads_of (view_module m.now) }
    ensures { OnOk result (types_of_users (function_types (view_module m.now)) users.new.items
        ≡ types_of_users (function_types (view_module m.now)) users.old.items
        ++ entry_users (sited_functions (view_module m.now)) element.now.functions) }
{
    'entries: for i in 0..element.count() {
        note_entry(m, heads, element.func(i), users)?;
    }
    Ok(())
}

/// Notes the functions of all elements.
pub fn note_elements(m: &Module, heads: &[u32], users: &mut Vec<User>) -> Result<(), AllocError>
    requires { heads.now ≡ heads_of (view_module m.now) }
    ensures { OnOk result (types_of_users (function_types (view_module m.now)) users.new.items
        ≡ types_of_users (function_types (view_module m.now)) users.old.items
        ++ element_users (sited_functions (view_module m.now)) (view_module m.now).elements) }
{
    'elements: for i in 0..m.element_count() {
        let element = match m.element(i) {
            Some(element) => element,
            None => return Ok(()),
        };
        note_entries(m, heads, &element, users)?;
    }
    Ok(())
}

/// Tells that so many sites from two places on have equal labels.
fn tell_sites(a: u32, b: u32, count: u32, told: &mut Vec<Told>) -> Result<(), AllocError>
    requires first { 0 < count → a + count < 2 ^ 32 }
    requires second { 0 < count → b + count < 2 ^ 32 }
    ensures { OnOk result (told.new.items ≡ told.old.items ++ site_facts a b count) }
{
    'sites: for i in 0..count {
        told.push(Told {
            rule: 11,
            left: Tag::At { site: a + i },
            right: Tag::At { site: b + i },
        })?;
    }
    Ok(())
}

/// How many sites a type entry's type has.
fn count_of(m: &Module, entry: u32) -> u32
    ensures { result ≡ site_count (type_named (view_module m.now) entry) }
{
    match signature(m, entry) {
        (params, Some(_)) => params + 1,
        (params, None) => params,
    }
}

/// The bytes of a type entry's erased type; those of the type without parameters and result where there is no such
/// entry.
fn key_at(alloc: Global, m: &Module, entry: u32) -> Result<Vec<u8>, AllocError>
    ensures { IfOk result (λ key. key.items ≡ key_of (type_named (view_module m.now) entry)) }
{
    if entry >= m.type_count() {
        let none = vec![in alloc; 0x40u8]?;
        return Ok(none);
    }
    key(alloc, &m.func_type(entry))
}

/// Tells that a user has the labels of the first one that erases alike.
fn tell_user(
    alloc: Global,
    m: &Module,
    firsts: &mut BTreeMap<Vec<u8>, u32>,
    user: User,
    told: &mut Vec<Told>,
) -> Result<(), AllocError>
    requires placed { IsPlaced (view_module m.now) user }
    requires some { TellsSome (view_module m.now) firsts.old }
    ensures told { (before : List AnyUser) → TellsFirsts (view_module m.now) before firsts.old
        → OnOk result (told.new.items ≡ told.old.items ++ user_told (view_module m.now) (before ++ user ∷ []) user) }
    ensures firsts { (before : List AnyUser) → TellsFirsts (view_module m.now) before firsts.old
        → OnOk result (TellsFirsts (view_module m.now) (before ++ user ∷ []) firsts.new) }
{
    let key = key_at(alloc, m, user.entry)?;
    let count = count_of(m, user.entry);
    match firsts.get(key.as_slice()).copied() {
        None => {
            firsts.insert(key, user.first)?;
            tell_sites(user.first, user.first, count, told)
        }
        Some(first) => tell_sites(user.first, first, count, told),
    }
}

/// Tells that each user has the labels of the first one that erases alike.
pub fn tell_users(
    alloc: Global,
    m: &Module,
    users: &[User],
    told: &mut Vec<Told>,
) -> Result<(), AllocError>
    requires { AllByRecursion (IsPlaced (view_module m.now)) users.now }
    ensures { OnOk result (told.new.items ≡ told.old.items ++ users_told (view_module m.now) [] users.now) }
{
    let mut firsts = BTreeMap::new(alloc);
    'users: for user in users {
        tell_user(alloc, m, &mut firsts, *user, told)?;
    }
    Ok(())
}
