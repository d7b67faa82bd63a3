ghost use Rattle.std.specs.Prelude.{◌≡◌, ◌≤◌, ◌<◌, ◌+◌, ◌^◌, Some, Option, length, map, option_map, unwrap_or, slice_get, IfSome};
ghost use Rattle.ctw_ops.specs.Types.{value_type};
ghost use Rattle.ctw_ops.specs.Tree.{function_entries, global_types, type_named};
ghost use Rattle.ctw_module.specs.Trees.{tree, view_module};
ghost use Rattle.ctw_module.specs.Lookup.{imported_count};
ghost use Rattle.ctw_stack.specs.Opens.{type_of};
ghost use Rattle.ctw_labels.specs.declared.tag.Tag.TheVariants.{At, Fixed};
ghost use Rattle.ctw_labels.specs.Numbering.{type_from};
ghost use Rattle.ctw_labels.specs.SitedModule.{first_global, memory_site};
ghost use Rattle.ctw_sites.specs.Rows.{call_row as row_of_call};
ghost use Rattle.ctw_sites.specs.Heads.{heads as heads_of, own_type, declared};
ghost use Rattle.ctw_sites.specs.Tags.{tags_from};

use crate::head::signature;
use crate::row::Row;
use ctw_labels::Tag;
use ctw_module::Module;
use ctw_ops::{GlobalType, Profile, ValType, Width};

/// What a defined function's body may name, besides its labels, with the sites of each.
#[derive(Drop)]
pub struct Around<'a> {
    whole: &'a Module<'a>,
    /// The first site of each function.
    heads: &'a [u32],
    /// The function.
    pub f: u32,
    // Its first site, and how many parameters it has.
    head: u32,
    params: u32,
    // The site of its first declared local, and how many locals it has, parameters among them.
    locals: u32,
    count: u32,
    // The sites of the first global, and of the memory.
    globals: u32,
    memory: u32,
    ghost heads_are: { heads.now ≡ heads_of (view_module whole.now) },
    ghost head_is: { slice_get heads.now f ≡ Some head },
    ghost params_are: { params ≡ length (own_type (view_module whole.now) f).params },
    ghost locals_are: { count ≡ params + length (declared (view_module whole.now) f) },
    ghost room: { locals + length (declared (view_module whole.now) f) ≤ 2 ^ 32 },
    ghost own_room: { head + params ≤ globals },
    ghost few: { globals < 2 ^ 32 },
    ghost globals_are: { globals ≡ first_global (view_module whole.now) },
    ghost memory_is: { memory ≡ memory_site (view_module whole.now) },
    ghost defined: { imported_count (tree whole.now) ≤ f },
    ghost there: { f < length (function_entries (tree whole.now)) },
}

/// A type's width, with a site.
fn placed(ty: ValType, site: u32) -> (Width, Tag)
    ensures { type_of result ≡ value_type ty.width (At site) }
{
    (ty.width, Tag::At { site })
}

/// The width of a global's type, with a site.
fn placed_global(ty: GlobalType, site: u32) -> (Width, Tag)
    ensures { type_of result ≡ value_type ty.value.width (At site) }
{
    placed(ty.value, site)
}

/// A width with a site, where there is a width.
fn given(width: Option<Width>, site: u32) -> Option<(Width, Tag)>
    ensures { option_map type_of result ≡ option_map (λ w. value_type w (At site)) width }
{
    match width {
        Some(width) => Some((width, Tag::At { site })),
        None => None,
    }
}

impl<'a> Around<'a> {
    ghost use Rattle.ctw_sites.specs.Scope.{functions_of, globals_of, locals_of, memory_of, scope};

    /// What the body of a defined function may name. `heads` are the first sites of functions, `globals` is that of the
    /// first global, and `locals` that of the function's first declared local.
    pub fn new(
        whole: &'a Module<'a>,
        heads: &'a [u32],
        globals: u32,
        f: u32,
        locals: u32,
    ) -> Around<'a>
        requires defined { imported_count (tree whole.now) ≤ f }
        requires there { f < length (function_entries (tree whole.now)) }
        requires heads { heads.now ≡ heads_of (view_module whole.now) }
        requires globals { globals ≡ first_global (view_module whole.now) }
        requires memory { memory_site (view_module whole.now) < 2 ^ 32 }
        requires room { locals + length (declared (view_module whole.now) f) ≤ 2 ^ 32 }
        ensures whole { result.whole.now ≡ whole.now }
        ensures f { result.f ≡ f }
        ensures head { slice_get heads.now f ≡ Some result.head }
        ensures locals { result.locals ≡ locals }
    {
        let (params, _) = signature(whole, whole.type_of_func(f));
        Around {
            whole,
            heads,
            f,
            head: heads[f as usize],
            params,
            locals,
            count: whole.local_count(f),
            globals,
            memory: globals + whole.global_count(),
        }
    }

    /// How many parameters a type entry has, and the width of its result; none of both where there is no such entry.
    pub fn signature(&self, y: u32) -> (u32, Option<Width>)
        ensures params { result.0 ≡ length (type_named (view_module self.now.whole.now) y).params }
        ensures few { result.0 < 2 ^ 16 }
        ensures width { result.1 ≡ option_map (λ t. t.width) (type_named (view_module self.now.whole.now) y).result }
    {
        signature(self.whole, y)
    }

    /// The first site of a function, and how many parameters it has; None exactly where there is no such function.
    pub fn params(&self, index: u32) -> Option<(u32, u32)>
        ensures room { IfSome result (λ p. p.0 + p.1 < 2 ^ 32) }
        ensures tags { option_map (λ p. tags_from p.0 p.1) result
            ≡ option_map (λ g. map (λ t. t.tag) g.params) (slice_get (functions_of self.now) index) }
    {
        let i = index as usize;
        if i >= self.heads.len() {
            return None;
        }
        let (params, _) = self.signature(self.whole.type_of_func(index));
        Some((self.heads[i], params))
    }

    /// The row of a call of a function.
    pub fn call_row(&self, index: u32) -> Row
        ensures { result ≡ row_of_call 0 (slice_get (functions_of self.now) index) }
    {
        let i = index as usize;
        if i >= self.heads.len() {
            return Row::takes_alone(0);
        }
        let (params, result) = self.signature(self.whole.type_of_func(index));
        let site = self.heads[i] + params;
        Row::gives_of(params, given(result, site))
    }

    /// The row of an indirect call by a type entry, whose sites begin at `n`.
    pub fn user_row(&self, y: u32, n: u32) -> Row
        requires { n + length (type_named (view_module self.now.whole.now) y).params < 2 ^ 32 }
        ensures { result ≡ row_of_call 1 (Some (type_from n (type_named (view_module self.now.whole.now) y))) }
    {
        let (params, result) = self.signature(y);
        let site = n + params;
        Row::gives_of(params + 1, given(result, site))
    }

    /// The width and the site of the function's result.
    pub fn result(&self) -> Option<(Width, Tag)>
        ensures { option_map type_of result ≡ (scope self.now).result }
    {
        let (params, width) = self.signature(self.whole.type_of_func(self.f));
        given(width, self.head + params)
    }

    /// A local's width and site; None exactly where there is no such local.
    #[inline(always)]
    pub fn local(&self, x: u32) -> Option<(Width, Tag)>
        ensures { option_map type_of result ≡ slice_get (locals_of self.now) x }
    {
        if x >= self.count {
            return None;
        }
        let site = if x < self.params {
            self.head + x
        } else {
            self.locals + (x - self.params)
        };
        Some(placed(self.whole.local(self.f, x), site))
    }

    /// A global's width and site; None exactly where there is no such global.
    pub fn global(&self, g: u32) -> Option<(Width, Tag)>
        ensures { option_map type_of result ≡ option_map (λ g. g.value) (slice_get (globals_of self.now) g) }
    {
        if g >= self.whole.global_count() {
            return None;
        }
        let site = self.globals + g;
        Some(placed_global(self.whole.global(g).ty, site))
    }

    /// What the module is taken to leak.
    pub fn profile(&self) -> Profile
        ensures { result ≡ (scope self.now).profile }
    {
        self.whole.profile()
    }

    /// The memory's site.
    pub fn memory(&self) -> Tag
        ensures { result ≡ unwrap_or (memory_of self.now) Fixed }
    {
        match self.whole.memory() {
            Some(_) => Tag::At { site: self.memory },
            None => Tag::Fixed,
        }
    }
}
