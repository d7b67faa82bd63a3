// A module as it is spelled, in the order of the text: names stand as they are written, and folded instructions where
// they are.

ghost use Rattle.std.specs.Prelude.{◌≡◌, ◌<◌, ◌^◌, [], IfOk, IsSome, Some};
ghost use Rattle.ctw_lex.specs.declared.TokenKind.TheVariants.{Text};
ghost use Rattle.ctw_lex.specs.Strings.{string_value};
ghost use Rattle.ctw_text.specs.Written.{is_text};

use crate::keys::{Indexed, Leaf, Part, Shape};
use ctw_lex::{Token, TokenKind, unescape};
use ctw_ops::{ExternTag, ValType};
use std::alloc::{AllocError, Global};
use std::marker::Model;

/// An identifier and where it stands.
#[derive(Drop)]
pub struct Name<'a> {
    /// Its bytes, the `$` among them.
    pub word: &'a [u8],
    /// The offset of its `$`.
    pub place: u32,
}

impl<'a> Model for Name<'a> {
    ghost use Rattle.ctw_text.specs.Written.{Name as WrittenName};

    ghost Value = { WrittenName };

    ghost view = { λ n. record { word = n.word.now; place = n.place } };
}

impl<'a> Name<'a> {
    /// The same name again.
    pub fn again(&self) -> Name<'a>
        ensures { result ≡ self.now }
    {
        Name {
            word: self.word,
            place: self.place,
        }
    }

    /// Its bytes, the `$` among them.
    pub fn bytes(&self) -> &'a [u8]
        ensures { result.now ≡ self.now.word }
    {
        self.word
    }

    /// The offset of its `$`.
    pub fn offset(&self) -> u32
        ensures value { result ≡ self.now.place }
        ensures small { result < 2 ^ 32 }
    {
        self.place
    }
}

// Whether bytes are UTF-8.
#[tactic(auto, using(crate::proofs::Utf8::text, crate::proofs::Utf8::no_text))]
fn is_text(bytes: &[u8]) -> bool
    ensures { result ≡ is_text bytes.now }
{
    match str::from_utf8(bytes) {
        Ok(_) => true,
        Err(_) => false,
    }
}

/// A string, seen as the bytes that it stands for.
#[derive(Drop)]
pub struct Quote<'a> {
    // Its characters with the quotes, and the escapes as they are spelled.
    pub(crate) text: &'a str,
    // Whether its bytes are UTF-8.
    pub(crate) utf8: bool,
}

impl<'a> Model for Quote<'a> {
    ghost use Rattle.std.specs.Prelude.{ℕ, List};
    ghost use Rattle.ctw_text.specs.Written.{quoted, IsQuoted};

    ghost Value = { List ℕ };

    ghost view = { λ q. quoted q.text.now };

    ghost invariant = { λ q. IsQuoted q.text.now q.utf8 };
}

impl<'a> Quote<'a> {
    /// The string of a token; the only error is want of memory.
    #[tactic(auto, using(crate::proofs::Strings::is_quoted))]
    pub fn of(alloc: Global, token: Token<'a>) -> Result<Quote<'a>, AllocError>
        requires kind { token.kind ≡ Text }
        requires whole { IsSome (string_value token.text.now) }
        ensures { IfOk result (λ q. string_value token.entry.text.now ≡ Some q) }
    {
        let text = token.text;
        let bytes = unescape(alloc, token)?;
        let utf8 = is_text(bytes.as_slice());
        Ok(Quote { text, utf8 })
    }

    /// The empty string.
    pub fn empty() -> Quote<'a>
        ensures { result ≡ [] }
    {
        Quote {
            text: "\"\"",
            utf8: true,
        }
    }

    /// The same string again.
    pub fn again(&self) -> Quote<'a>
        ensures { result ≡ self.now }
    {
        Quote {
            text: self.text,
            utf8: self.utf8,
        }
    }

    /// Whether its bytes are UTF-8.
    pub fn is_utf8(&self) -> bool
        ensures { result ≡ is_text self.now }
    {
        self.utf8
    }

    /// The bytes that it stands for; the only error is want of memory.
    #[tactic(auto, using(crate::proofs::Strings::quoted_is))]
    pub fn bytes(&self, alloc: Global) -> Result<Vec<u8>, AllocError>
        ensures { IfOk result (λ bytes. bytes.items ≡ self.now) }
    {
        unescape(
            alloc,
            Token {
                kind: TokenKind::Text,
                text: self.text,
                start: 0,
                end: 0,
                line: 0,
            },
        )
    }
}

/// An index: a number, or a name for one.
#[derive(Drop)]
pub enum Index<'a> {
    /// The number.
    Numbered(u32),
    /// An identifier.
    Named(Name<'a>),
}

/// What an index stands for.
#[derive(Clone, Copy, Debug, PartialEq, Eq)]
pub enum Role {
    /// The index of an instruction.
    OfOp(Indexed),
    /// A target of `br_table`.
    OfTarget,
    /// The entry of a typeuse.
    OfEntry,
    /// The entry of which a variant is one.
    OfBase,
    /// What is exported.
    OfExport(ExternTag),
    /// The function of `start`.
    OfStart,
    /// The table of an `elem`.
    OfTable,
    /// The memory of a `data`.
    OfMemory,
    /// A function in an `elem`.
    OfItem,
}

/// What a string stands for.
#[derive(Clone, Copy, Debug, PartialEq, Eq)]
pub enum Quoted {
    /// The name of an `export` field.
    ExportName,
    /// The name of an export inside the field that it exports.
    InlineExport,
    /// The module that something is imported from.
    ModuleName,
    /// The name under which it is imported.
    ImportName,
    /// The name of a custom section.
    CustomName,
    /// Bytes of a `data` or of a custom section.
    Bytes,
}

/// What a field is.
#[derive(Clone, Copy, Debug, PartialEq, Eq)]
pub enum FieldKind {
    TypeField,
    ImportField,
    ExportField,
    StartField,
    ElemField,
    DataField,
    CustomField,
    /// `func`, `table`, `memory` or `global`, imported in place or defined.
    Defining(ExternTag),
}

/// A piece of a module. Each piece belongs to the last field before it, and what says more of an instruction to the
/// last instruction before it.
#[derive(Drop)]
pub enum Piece<'a> {
    /// A field begins.
    Begin(FieldKind),
    /// The field's own name.
    NameIs(Name<'a>),
    /// What is imported.
    KindIs(ExternTag),
    /// A string.
    Quotes(Quoted, Quote<'a>),
    /// An index.
    Refers(Role, Index<'a>),
    /// A limit, or the place of a custom section.
    Number(u32),
    /// The memory is secret.
    IsSecret,
    /// The global is mutable.
    IsMutable,
    /// The type of a global.
    ValueIs(ValType),
    /// A `(type` of a typeuse, with the offset of its `(`.
    Entry(u32),
    /// The function is trusted.
    Trusting,
    /// The name of the type that follows.
    Slot(Part, Name<'a>),
    /// The type of a parameter, a result or a local.
    Typed(Part, ValType),
    /// The field holds its data or elements.
    Inline,
    /// An instruction without an index.
    Single(Leaf),
    /// `br_table`; its targets follow.
    Branches,
    /// `call_indirect`; its typeuse follows.
    Indirect,
    /// `block`, `loop` or `if`.
    Opens(Shape),
    Else,
    End,
    /// The offset of a load or store.
    AtOffset(u32),
    /// The exponent of the alignment of a load or store.
    Aligned(u32),
    /// The label of a block.
    Labelled(Name<'a>),
    /// The result of a block.
    Yields(ValType),
    /// The label at an `else` or `end`.
    Repeats(Name<'a>),
    /// A folded instruction begins, whose operands come first.
    Fold,
    /// The folded instruction ends.
    Unfold,
}
