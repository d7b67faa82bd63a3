ghost use Rattle.std.specs.Prelude.{◌≡◌, ◌∷◌, None, IfOk, OnOk};
ghost use Rattle.ctw_text.specs.declared.pieces.Piece.TheVariants.{Single, Branches, Indirect, Opens};
ghost use Rattle.ctw_text.specs.Fields.{add, at_place as placed_leaf, called, empty as empty_draft, fields_of, first_named, listed, no_use as no_typeuse, placed, put as put_piece, quote as quoted, refer as referred};

use ctw_ops::{ExternTag, Trust, ValType};
use ctw_text::{
    Draft, Field, FieldKind, FrontList, Index, Item, Leaf, LeafKind, Name, NamedEntry, Part, Piece,
    Quote, Quoted, Raw, Role, Shape, Use, Variable,
};
use std::alloc::{AllocError, Global};
use std::mem;

/// A typeuse of which nothing is spelled.
fn no_use<'a>(alloc: Global) -> Use<'a>
    ensures { result ≡ no_typeuse }
{
    Use {
        entry: None,
        trust: Trust::Untrusted,
        params: FrontList::new(alloc),
        results: FrontList::new(alloc),
    }
}

/// A field of which nothing is known.
fn empty<'a>(alloc: Global) -> Draft<'a>
    ensures { result ≡ empty_draft }
{
    Draft {
        name: None,
        exports: FrontList::new(alloc),
        from: None,
        imported: Quote::empty(),
        title: Quote::empty(),
        strings: FrontList::new(alloc),
        kind: ExternTag::Func,
        target: None,
        items: FrontList::new(alloc),
        numbers: FrontList::new(alloc),
        secret: false,
        mutable: false,
        inline: false,
        value: None,
        sig: no_use(alloc),
        locals: FrontList::new(alloc),
        code: FrontList::new(alloc),
        targets: FrontList::new(alloc),
        offset: 0,
        align: None,
        label: None,
        yields: None,
    }
}

fn quote<'a>(what: Quoted, string: Quote<'a>, draft: &mut Draft<'a>) -> Result<(), AllocError>
    ensures { OnOk result (draft.new ≡ quoted what string.entry draft.old) }
{
    match what {
        Quoted::InlineExport => draft.exports.push(string)?,
        Quoted::ModuleName => draft.from = Some(string),
        Quoted::ImportName => draft.imported = string,
        Quoted::ExportName => draft.title = string,
        Quoted::CustomName => draft.title = string,
        Quoted::Bytes => draft.strings.push(string)?,
    }
    Ok(())
}

fn refer<'a>(role: Role, x: Index<'a>, draft: &mut Draft<'a>) -> Result<(), AllocError>
    ensures { OnOk result (draft.new ≡ referred role x.entry draft.old) }
{
    match role {
        Role::OfOp(op) => draft.code.push(Item::Op(Raw::Uses(op, x)))?,
        Role::OfTarget => draft.targets.push(x)?,
        Role::OfEntry => draft.sig.entry = Some(NamedEntry { place: 0, index: x }),
        Role::OfItem => draft.items.push(x)?,
        Role::OfExport(tag) => {
            draft.kind = tag;
            draft.target = Some(x);
        }
        Role::OfBase => draft.target = Some(x),
        Role::OfStart => draft.target = Some(x),
        Role::OfTable => draft.target = Some(x),
        Role::OfMemory => draft.target = Some(x),
    }
    Ok(())
}

/// Says where the entry of a typeuse is named.
fn place_entry(place: u32, sig: &mut Use)
    ensures { sig.new ≡ record sig.old { entry = placed place sig.old.entry } }
{
    let Some(entry) = sig.entry.take() else {
        return;
    };
    sig.entry = Some(NamedEntry {
        place,
        index: entry.index,
    });
}

/// Lists a type that has no name yet.
fn list_type(part: Part, ty: ValType, draft: &mut Draft) -> Result<(), AllocError>
    ensures { OnOk result (draft.new ≡ listed part None ty draft.old) }
{
    match part {
        Part::Param => draft.sig.params.push(Variable { name: None, ty })?,
        Part::Result => draft.sig.results.push(ty)?,
        Part::Local => draft.locals.push(Variable { name: None, ty })?,
    }
    Ok(())
}

/// Names the first of some variables.
fn name_first<'a>(name: Name<'a>, variables: &mut FrontList<Variable<'a>>) -> Result<(), AllocError>
    ensures { OnOk result (variables.new ≡ first_named name.entry variables.old) }
{
    let Some(first) = variables.pop() else {
        return Ok(());
    };
    variables.push(Variable {
        name: Some(name),
        ty: first.ty,
    })
}

fn call<'a>(part: Part, name: Name<'a>, draft: &mut Draft<'a>) -> Result<(), AllocError>
    ensures { OnOk result (draft.new ≡ called part name.entry draft.old) }
{
    match part {
        Part::Param => name_first(name, &mut draft.sig.params),
        Part::Result => Ok(()),
        Part::Local => name_first(name, &mut draft.locals),
    }
}

/// An access with its offset, and its alignment where that is spelled.
fn place_leaf(leaf: Leaf, offset: u32, align: Option<u32>) -> Leaf
    ensures { result ≡ placed_leaf leaf offset align }
{
    match leaf.kind {
        LeafKind::Load {
            width,
            label,
            bytes,
            signed,
            align: natural,
            offset: _,
        } => Leaf {
            kind: LeafKind::Load {
                width,
                label,
                bytes,
                signed,
                align: align.unwrap_or(natural),
                offset,
            },
        },
        LeafKind::Store {
            width,
            label,
            bytes,
            align: natural,
            offset: _,
        } => Leaf {
            kind: LeafKind::Store {
                width,
                label,
                bytes,
                align: align.unwrap_or(natural),
                offset,
            },
        },
        kind => Leaf { kind },
    }
}

fn single(leaf: Leaf, draft: &mut Draft) -> Result<(), AllocError>
    ensures { OnOk result (draft.new ≡ add (Single leaf) draft.old) }
{
    let leaf = place_leaf(leaf, draft.offset, draft.align);
    draft.offset = 0;
    draft.align = None;
    draft.code.push(Item::Op(Raw::Single(leaf)))
}

fn branch_table(alloc: Global, draft: &mut Draft) -> Result<(), AllocError>
    ensures { OnOk result (draft.new ≡ add Branches draft.old) }
{
    let targets = mem::replace(&mut draft.targets, FrontList::new(alloc));
    draft.code.push(Item::Op(Raw::Targets(targets)))
}

fn call_indirect(alloc: Global, draft: &mut Draft) -> Result<(), AllocError>
    ensures { OnOk result (draft.new ≡ add Indirect draft.old) }
{
    let sig = mem::replace(&mut draft.sig, no_use(alloc));
    draft.code.push(Item::Op(Raw::Indirect(sig)))
}

fn open(shape: Shape, draft: &mut Draft) -> Result<(), AllocError>
    ensures { OnOk result (draft.new ≡ add (Opens shape) draft.old) }
{
    let label = draft.label.take();
    let yields = draft.yields.take();
    draft.code.push(Item::Op(Raw::Opens(shape, label, yields)))
}

/// What a piece says of its field or its instruction; where a field begins, what is known goes to that.
fn put<'a>(
    alloc: Global,
    piece: Piece<'a>,
    draft: &mut Draft<'a>,
    fields: &mut FrontList<Field<'a>>,
) -> Result<(), AllocError>
    ensures { OnOk result (record { draft = draft.new; fields = fields.new }
        ≡ put_piece piece.entry (record { draft = draft.old; fields = fields.old })) }
{
    match piece {
        Piece::Begin(kind) => begin(alloc, kind, draft, fields)?,
        Piece::NameIs(name) => draft.name = Some(name),
        Piece::KindIs(tag) => draft.kind = tag,
        Piece::Quotes(what, string) => quote(what, string, draft)?,
        Piece::Refers(role, x) => refer(role, x, draft)?,
        Piece::Number(n) => draft.numbers.push(n)?,
        Piece::IsSecret => draft.secret = true,
        Piece::IsMutable => draft.mutable = true,
        Piece::Inline => draft.inline = true,
        Piece::ValueIs(ty) => draft.value = Some(ty),
        Piece::Entry(place) => place_entry(place, &mut draft.sig),
        Piece::Trusting => draft.sig.trust = Trust::Trusted,
        Piece::Slot(part, name) => call(part, name, draft)?,
        Piece::Typed(part, ty) => list_type(part, ty, draft)?,
        Piece::AtOffset(n) => draft.offset = n,
        Piece::Aligned(n) => draft.align = Some(n),
        Piece::Labelled(name) => draft.label = Some(name),
        Piece::Yields(ty) => draft.yields = Some(ty),
        Piece::Repeats(name) => draft.label = Some(name),
        Piece::Single(leaf) => single(leaf, draft)?,
        Piece::Branches => branch_table(alloc, draft)?,
        Piece::Indirect => call_indirect(alloc, draft)?,
        Piece::Opens(shape) => open(shape, draft)?,
        Piece::Else => {
            let label = draft.label.take();
            draft.code.push(Item::Op(Raw::Else(label)))?;
        }
        Piece::End => {
            let label = draft.label.take();
            draft.code.push(Item::Op(Raw::End(label)))?;
        }
        Piece::Fold => draft.code.push(Item::Folds)?,
        Piece::Unfold => draft.code.push(Item::Unfolds)?,
    }
    Ok(())
}

fn begin<'a>(
    alloc: Global,
    kind: FieldKind,
    draft: &mut Draft<'a>,
    fields: &mut FrontList<Field<'a>>,
) -> Result<(), AllocError>
    ensures draft { draft.new ≡ empty_draft }
    ensures fields { OnOk result (fields.new ≡ record { kind = kind; draft = draft.old } ∷ fields.old) }
{
    let draft = mem::replace(draft, empty(alloc));
    fields.push(Field { kind, draft })
}

/// The fields of pieces, in their order.
pub fn fields<'a>(alloc: Global, pieces: Vec<Piece<'a>>) -> Result<FrontList<Field<'a>>, AllocError>
    ensures { IfOk result (λ fields. fields ≡ fields_of pieces.entry.items) }
{
    let mut pieces = pieces;
    let mut draft = empty(alloc);
    let mut fields = FrontList::new(alloc);
    'pieces: while let Some(piece) = pieces.pop() {
        put(alloc, piece, &mut draft, &mut fields)?;
    }
    Ok(fields)
}
