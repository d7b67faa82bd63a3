// The lines that tell a flow.
ghost use Rattle.std.specs.Prelude.{◌≡◌, ◌++◌, ◌∷◌, ◌<◌, [], length, drop, map, decimal, string_bytes, All, IfOk, OnOk};
ghost use Rattle.ctw_script.specs.Lines.{blank_before_each, spaced};
ghost use Rattle.ctw_witness.specs.Lines.{rule_text, site_text, site_line, next_lines, flow_text};

use ctw_labels::SiteName;
use ctw_sites::{Sites, Witness};
use itoa::Buffer;
use std::alloc::{AllocError, Global};

// The word of a rule, or of why a site is public.
fn rule_text(rule: u8) -> &'static str
    ensures { result.now ≡ rule_text rule }
{
    match rule {
        1 => "yield",
        2 => "operand",
        3 => "select",
        4 => "local",
        5 => "global",
        6 => "memory",
        7 => "argument",
        8 => "branch",
        9 => "targets",
        10 => "leave",
        11 => "table",
        12 => "init",
        13 => "condition",
        14 => "index",
        15 => "address",
        16 => "divide",
        17 => "grow",
        18 => "offset",
        _ => "marked",
    }
}

// Adds numbers, each behind a blank.
fn add_numbers(out: &mut String, numbers: &[u32]) -> Result<(), AllocError>
    ensures { OnOk result (string_bytes out.new ≡ string_bytes out.old ++ blank_before_each (map decimal numbers.now)) }
{
    'numbers: for n in numbers {
        let mut buffer = Buffer::new();
        out.push_str(" ")?;
        out.push_str(buffer.format(*n))?;
    }
    Ok(())
}

// Adds a word and numbers.
fn add_numbered(out: &mut String, word: &str, numbers: &[u32]) -> Result<(), AllocError>
    ensures { OnOk result (string_bytes out.new
        ≡ string_bytes out.old ++ (word.now ++ blank_before_each (map decimal numbers.now))) }
{
    out.push_str(word)?;
    add_numbers(out, numbers)
}

/// Adds a site's name as lines tell it, such as `push 0 4`.
///
/// The error is want of memory.
pub fn add_site(out: &mut String, name: SiteName) -> Result<(), AllocError>
    ensures { OnOk result (string_bytes out.new ≡ string_bytes out.old ++ site_text name) }
{
    match name {
        SiteName::Param { f, i } => add_numbered(out, "param", &[f, i]),
        SiteName::Result { f } => add_numbered(out, "result", &[f]),
        SiteName::GlobalOf { g } => add_numbered(out, "global", &[g]),
        SiteName::Memory => add_numbered(out, "memory", &[]),
        SiteName::Local { f, i } => add_numbered(out, "local", &[f, i]),
        SiteName::Block { f, at } => add_numbered(out, "block", &[f, at]),
        SiteName::Op { f, at } => add_numbered(out, "op", &[f, at]),
        SiteName::Push { f, at } => add_numbered(out, "push", &[f, at]),
        SiteName::IParam { f, at, i } => add_numbered(out, "iparam", &[f, at, i]),
        SiteName::IResult { f, at } => add_numbered(out, "iresult", &[f, at]),
    }
}

// Adds the line of a site of a flow.
fn add_line(out: &mut String, name: SiteName, why: &str) -> Result<(), AllocError>
    ensures { OnOk result (string_bytes out.new ≡ string_bytes out.old ++ site_line name why.now) }
{
    add_site(out, name)?;
    out.push_str(" because ")?;
    out.push_str(why)?;
    out.push_str("\n")
}

// Adds the lines of the sites behind the first one.
fn add_next(out: &mut String, s: &Sites, w: &Witness) -> Result<(), AllocError>
    requires { All (λ n. n < length s.now) w.now.sites }
    ensures { OnOk result (string_bytes out.new
        ≡ string_bytes out.old ++ next_lines s.now (drop 1 w.now.sites) w.now.rules) }
{
    'sites: for i in 1..w.count() {
        add_line(out, s.name(w.site(i)), rule_text(w.rule(i)))?;
    }
    Ok(())
}

/// The lines of a flow: `no labelling`, then for each site its name and why it is secret, which for the first one is
/// `marked` and for each other one the rule of the link to it, and last why the last one is public.
///
/// The sites of the witness are below the count. The only error is want of memory.
pub fn witness_text(alloc: Global, s: &Sites, w: &Witness) -> Result<String, AllocError>
    requires { All (λ n. n < length s.now) w.now.sites }
    ensures { IfOk result (λ text. string_bytes text ≡ flow_text s.now w.now) }
{
    let _ = w.count();
    let mut out = String::new(alloc);
    out.push_str("no labelling\n")?;
    add_line(&mut out, s.name(w.site(0)), "marked")?;
    add_next(&mut out, s, w)?;
    out.push_str("public because ")?;
    out.push_str(rule_text(w.last()))?;
    out.push_str("\n")?;
    Ok(out)
}
