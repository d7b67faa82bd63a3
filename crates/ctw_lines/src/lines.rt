//! The lines that refuse files and words.
ghost use Rattle.std.specs.Prelude.{◌≡◌, ◌++◌, ◌∷◌, [], OnOk, IfOk, codes, decimal};
ghost use Rattle.ctw_script.specs.Lines.{blank_before_each};
ghost use Rattle.ctw_lines.specs.Lines.{refusal_line, what_word, form_word, excess_words, read_line, space_word, rule_word, body_words, invalid_words, check_line, not_text_line, script_words, script_line, mark_words, marks_line, infer_words, infer_line};

use ctw_form::{FormFault, FormKind};
use ctw_infer::InferFault;
use ctw_marks::MarkFault;
use ctw_modcheck::Invalid;
use ctw_ops::{SecretRule, Space, What};
use ctw_script::ScriptFault;
use ctw_valid::BodyFault;
use itoa::Buffer;
use std::alloc::{AllocError, Global};

/// Adds decimal digits.
pub fn add_number(line: &mut Vec<u8>, number: u32) -> Result<(), AllocError>
    ensures { OnOk result (line.new.items ≡ line.old.items ++ decimal number) }
{
    let mut buffer = Buffer::new();
    line.extend_from_slice(buffer.format(number).as_bytes())
}

/// The line of a refusal: its kind, and the word that it is about.
pub fn refusal_line(alloc: Global, kind: &str, word: &str) -> Result<Vec<u8>, AllocError>
    ensures { IfOk result (λ line. line.items ≡ refusal_line kind.now word.now) }
{
    let mut line = Vec::from_slice(alloc, b"refused ")?;
    line.extend_from_slice(kind.as_bytes())?;
    line.push(b' ')?;
    line.extend_from_slice(word.as_bytes())?;
    line.push(b'\n')?;
    Ok(line)
}

/// Adds a word behind a blank.
pub fn add_word(line: &mut Vec<u8>, word: &[u8]) -> Result<(), AllocError>
    ensures { OnOk result (line.new.items ≡ line.old.items ++ blank_before_each (word.now ∷ [])) }
{
    line.push(b' ')?;
    line.extend_from_slice(word)
}

/// Adds decimal digits behind a blank.
pub fn add_number_word(line: &mut Vec<u8>, number: u32) -> Result<(), AllocError>
    ensures { OnOk result (line.new.items ≡ line.old.items ++ blank_before_each (decimal number ∷ [])) }
{
    line.push(b' ')?;
    add_number(line, number)
}

/// The word for what is too much.
pub fn what_word(what: What) -> &'static [u8]
    ensures { result.now ≡ what_word what }
{
    match what {
        What::Bytes => b"Bytes",
        What::Params => b"Params",
        What::Results => b"Results",
        What::Memories => b"Memories",
        What::Tables => b"Tables",
        What::Locals => b"Locals",
        What::Nesting => b"Nesting",
    }
}

fn form_word(kind: FormKind) -> &'static [u8]
    ensures { result.now ≡ form_word kind }
{
    match kind {
        FormKind::BadMagic => b"BadMagic",
        FormKind::BadVersion => b"BadVersion",
        FormKind::Truncated => b"Truncated",
        FormKind::BadLeb => b"BadLeb",
        FormKind::BadSection => b"BadSection",
        FormKind::SizeMismatch => b"SizeMismatch",
        FormKind::CountMismatch => b"CountMismatch",
        FormKind::BadType => b"BadType",
        FormKind::BadOpcode => b"BadOpcode",
        FormKind::Floats => b"Floats",
        FormKind::BadUtf8 => b"BadUtf8",
        FormKind::Unbalanced => b"Unbalanced",
        FormKind::TooMany { .. } => b"TooMany",
        FormKind::LabelsInPlain => b"LabelsInPlain",
    }
}

/// Adds what there is too much of, and the limit.
fn add_excess(line: &mut Vec<u8>, kind: FormKind) -> Result<(), AllocError>
    ensures { OnOk result (line.new.items ≡ line.old.items ++ blank_before_each (excess_words kind)) }
{
    let FormKind::TooMany { what, limit } = kind else {
        return Ok(());
    };
    add_word(line, what_word(what))?;
    add_number_word(line, limit)
}

/// The line for a file that spells no module.
pub fn read_line(alloc: Global, word: &str, fault: FormFault) -> Result<Vec<u8>, AllocError>
    ensures { IfOk result (λ line. line.items ≡ read_line word.now fault) }
{
    let mut line = Vec::from_slice(alloc, b"refused read")?;
    add_word(&mut line, word.as_bytes())?;
    add_word(&mut line, form_word(fault.kind))?;
    add_number_word(&mut line, fault.place)?;
    add_excess(&mut line, fault.kind)?;
    line.push(b'\n')?;
    Ok(line)
}

fn space_word(space: Space) -> &'static [u8]
    ensures { result.now ≡ space_word space }
{
    match space {
        Space::Types => b"type",
        Space::Imports => b"import",
        Space::Functions => b"func",
        Space::Tables => b"table",
        Space::Memories => b"memory",
        Space::Globals => b"global",
        Space::Exports => b"export",
        Space::Start => b"start",
        Space::Elements => b"elem",
        Space::Segments => b"data",
    }
}

fn rule_word(rule: SecretRule) -> &'static [u8]
    ensures { result.now ≡ rule_word rule }
{
    match rule {
        SecretRule::Condition => b"Condition",
        SecretRule::TableIndex => b"TableIndex",
        SecretRule::CallIndex => b"CallIndex",
        SecretRule::Address => b"Address",
        SecretRule::Divide => b"Divide",
        SecretRule::GrowSize => b"GrowSize",
    }
}

/// Adds the word of an index space.
pub fn add_space(line: &mut Vec<u8>, space: Space) -> Result<(), AllocError>
    ensures { OnOk result (line.new.items ≡ line.old.items ++ blank_before_each (space_word space ∷ [])) }
{
    add_word(line, space_word(space))
}

/// Adds where an opcode stands and a word.
fn add_at(line: &mut Vec<u8>, at: u32, word: &[u8]) -> Result<(), AllocError>
    ensures { OnOk result (line.new.items ≡ line.old.items ++ blank_before_each (decimal at ∷ word.now ∷ [])) }
{
    add_number_word(line, at)?;
    add_word(line, word)
}

/// Adds where a body's fault stands and what it is.
fn add_body(line: &mut Vec<u8>, fault: BodyFault) -> Result<(), AllocError>
    ensures { OnOk result (line.new.items ≡ line.old.items ++ blank_before_each (body_words fault)) }
{
    match fault {
        BodyFault::Index { at } => add_at(line, at, b"Index"),
        BodyFault::Align { at } => add_at(line, at, b"Align"),
        BodyFault::Immutable { at } => add_at(line, at, b"Immutable"),
        BodyFault::Trust { at } => add_at(line, at, b"Trust"),
        BodyFault::SecretPlace { at, rule } => {
            add_at(line, at, b"SecretPlace")?;
            add_word(line, rule_word(rule))
        }
        BodyFault::WrongType { at } => add_at(line, at, b"WrongType"),
        BodyFault::NoMemory => Ok(()),
    }
}

/// Adds a kind, and the item that it is about.
fn add_item(line: &mut Vec<u8>, kind: &[u8], space: Space, index: u32) -> Result<(), AllocError>
    ensures { OnOk result (line.new.items
        ≡ line.old.items ++ blank_before_each (kind.now ∷ space_word space ∷ decimal index ∷ [])) }
{
    add_word(line, kind)?;
    add_word(line, space_word(space))?;
    add_number_word(line, index)
}

/// Adds a body's fault with its function.
fn add_function(line: &mut Vec<u8>, f: u32, fault: BodyFault) -> Result<(), AllocError>
    ensures { OnOk result (line.new.items
        ≡ line.old.items ++ blank_before_each (codes "Body" ∷ decimal f ∷ codes "at" ∷ body_words fault)) }
{
    add_word(line, b"Body")?;
    add_number_word(line, f)?;
    add_word(line, b"at")?;
    add_body(line, fault)
}

/// Adds a kind and a number.
pub fn add_numbered(line: &mut Vec<u8>, kind: &[u8], number: u32) -> Result<(), AllocError>
    ensures { OnOk result (line.new.items ≡ line.old.items ++ blank_before_each (kind.now ∷ decimal number ∷ [])) }
{
    add_word(line, kind)?;
    add_number_word(line, number)
}

/// Adds what is wrong with a module.
fn add_invalid(line: &mut Vec<u8>, fault: Invalid) -> Result<(), AllocError>
    ensures { OnOk result (line.new.items ≡ line.old.items ++ blank_before_each (invalid_words fault)) }
{
    match fault {
        Invalid::Body { f, fault } => add_function(line, f, fault),
        Invalid::ModuleIndex { space, index } => add_item(line, b"ModuleIndex", space, index),
        Invalid::DoubleExport { index } => add_numbered(line, b"DoubleExport", index),
        Invalid::ConstExpr { space, index } => add_item(line, b"ConstExpr", space, index),
        Invalid::LimitsOrder { space } => {
            add_word(line, b"LimitsOrder")?;
            add_word(line, space_word(space))
        }
        Invalid::StartType => add_word(line, b"StartType"),
        Invalid::SegmentType { space, index } => add_item(line, b"SegmentType", space, index),
        Invalid::Variant { index } => add_numbered(line, b"Variant", index),
        Invalid::NoMemory => Ok(()),
    }
}

/// The line for a module that isn't valid.
pub fn check_line(alloc: Global, word: &str, fault: Invalid) -> Result<Vec<u8>, AllocError>
    ensures { IfOk result (λ line. line.items ≡ check_line word.now fault) }
{
    let mut line = Vec::from_slice(alloc, b"refused check")?;
    add_word(&mut line, word.as_bytes())?;
    add_invalid(&mut line, fault)?;
    line.push(b'\n')?;
    Ok(line)
}

/// The line for a text that isn't UTF-8, with the length of its longest prefix that is.
pub fn not_text_line(alloc: Global, word: &str, place: usize) -> Result<Vec<u8>, AllocError>
    ensures { IfOk result (λ line. line.items ≡ not_text_line word.now place) }
{
    let mut buffer = Buffer::new();
    let mut line = Vec::from_slice(alloc, b"refused NotText")?;
    add_word(&mut line, word.as_bytes())?;
    add_word(&mut line, buffer.format(place).as_bytes())?;
    line.push(b'\n')?;
    Ok(line)
}

/// Adds what is wrong with a script.
fn add_script(line: &mut Vec<u8>, fault: ScriptFault) -> Result<(), AllocError>
    ensures { OnOk result (line.new.items ≡ line.old.items ++ blank_before_each (script_words fault)) }
{
    match fault {
        ScriptFault::Lex { line: number } => add_numbered(line, b"Lex", number),
        ScriptFault::Line { line: number } => add_numbered(line, b"Line", number),
        ScriptFault::NoMemory => Ok(()),
    }
}

/// The line for a script that isn't read.
pub fn script_line(alloc: Global, fault: ScriptFault) -> Result<Vec<u8>, AllocError>
    ensures { IfOk result (λ line. line.items ≡ script_line fault) }
{
    let mut line = Vec::from_slice(alloc, b"refused script")?;
    add_script(&mut line, fault)?;
    line.push(b'\n')?;
    Ok(line)
}

/// Adds what is wrong with marks.
fn add_marks(line: &mut Vec<u8>, fault: MarkFault) -> Result<(), AllocError>
    ensures { OnOk result (line.new.items ≡ line.old.items ++ blank_before_each (mark_words fault)) }
{
    match fault {
        MarkFault::Lex { line: number } => add_numbered(line, b"Lex", number),
        MarkFault::Line { line: number } => add_numbered(line, b"Line", number),
        MarkFault::NoPlace { line: number } => add_numbered(line, b"NoPlace", number),
        MarkFault::Untrusted { line: number } => add_numbered(line, b"Untrusted", number),
        MarkFault::NoMemory => Ok(()),
    }
}

/// The line for marks that aren't read.
pub fn marks_line(alloc: Global, fault: MarkFault) -> Result<Vec<u8>, AllocError>
    ensures { IfOk result (λ line. line.items ≡ marks_line fault) }
{
    let mut line = Vec::from_slice(alloc, b"refused marks")?;
    add_marks(&mut line, fault)?;
    line.push(b'\n')?;
    Ok(line)
}

/// Adds a kind, a function that calls, the call's opcode, and the function that is called.
fn add_call(
    line: &mut Vec<u8>,
    kind: &[u8],
    caller: u32,
    at: u32,
    callee: u32,
) -> Result<(), AllocError>
    ensures { OnOk result (line.new.items
        ≡ line.old.items ++ blank_before_each (kind.now ∷ decimal caller ∷ decimal at ∷ decimal callee ∷ [])) }
{
    add_numbered(line, kind, caller)?;
    add_number_word(line, at)?;
    add_number_word(line, callee)
}

/// Adds why a module isn't labelled.
fn add_infer(line: &mut Vec<u8>, fault: &InferFault) -> Result<(), AllocError>
    ensures { OnOk result (line.new.items ≡ line.old.items ++ blank_before_each (infer_words fault.now)) }
{
    match fault {
        InferFault::Labelled => add_word(line, b"Labelled"),
        InferFault::TooManySites { count } => add_numbered(line, b"TooManySites", *count),
        InferFault::TrustCall { caller, at, callee } => {
            add_call(line, b"TrustCall", *caller, *at, *callee)
        }
        InferFault::TrustTable { func } => add_numbered(line, b"TrustTable", *func),
        InferFault::Flow(_) => Ok(()),
        InferFault::NoMemory => Ok(()),
    }
}

/// The line for a module that isn't labelled; a flow has lines of its own.
pub fn infer_line(alloc: Global, fault: &InferFault) -> Result<Vec<u8>, AllocError>
    ensures { IfOk result (λ line. line.items ≡ infer_line fault.now) }
{
    let mut line = Vec::from_slice(alloc, b"refused infer")?;
    add_infer(&mut line, fault)?;
    line.push(b'\n')?;
    Ok(line)
}
