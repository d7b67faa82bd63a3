//! Laws of the definitions, for the crates above: functions that do nothing, whose contracts hold.
ghost use Rattle.std.specs.Prelude.{Bool, true, ◌≡◌, ◌≤◌, ◌+◌, ◌++◌, ◌∷◌, [], Ok, Some, ℕ, List, length};
ghost use Rattle.ctw_ops.specs.declared.types.Label.{Label};
ghost use Rattle.ctw_ops.specs.declared.types.Width.{Width};
ghost use Rattle.ctw_ops.specs.Types.{ValueType, type_byte, byte_type};
ghost use Rattle.ctw_ops.specs.Code.{Code, Op, Closer, Closes, ByEnd, opcodes};
ghost use Rattle.ctw_flat.specs.declared.instr.Instr.TheVariants.{Load, Store};
ghost use Rattle.ctw_flat.specs.declared.opcode.Form.{Form};
ghost use Rattle.ctw_flat.specs.declared.opcode.First.TheVariants.{Direct};
ghost use Rattle.ctw_flat.specs.Opcodes.{opcode, secret_form, has_secret_form, opcode_byte};
ghost use Rattle.ctw_flat.specs.Instructions.{IsExactly, IsSize, IsOpcode};
ghost use Rattle.ctw_ops.specs.Segments.{Segment, segment, spread};
ghost use Rattle.ctw_leb.specs.Reading.{Exact, Whole};
ghost use Rattle.ctw_flat.specs.Spelled.{IsOp, IsOps, IsBody, IsLimitedBody};
ghost use Rattle.ctw_flat.specs.Read.{op_at};
ghost use Rattle.ctw_flat.specs.Bodies.{body_at};
ghost use Rattle.ctw_flat.specs.Places.{Placed, Stand, ops_of, instr_in};
ghost use Rattle.ctw_flat.specs.Positions.{At};

/// The reader of opcodes answers exactly what is spelled; no spelling begins another, and each has one opcode.
pub fn one_opcode()
    ensures read { Exact IsOp op_at }
    ensures one { (a b x y : List ℕ) (p q : Op Label) → IsOp a p → IsOp b q → a ++ x ≡ b ++ y → (a ≡ b) × (p ≡ q) }
{}

/// The reader of bodies answers exactly the body that is spelled; bytes spell at most one.
pub fn one_body()
    ensures read { Whole IsLimitedBody body_at }
    ensures body { (bytes : List ℕ) (code other : Code Label) → IsBody bytes code → IsBody bytes other → code ≡ other }
    ensures opcodes { (bytes : List ℕ) (code : Code Label) (ops : List (Op Label)) → IsBody bytes code → IsOps bytes ops
        → ops ≡ opcodes code }
{}

/// The opcodes of a body stand at places, in one way; at each place of them certain segments are left, and no others.
pub fn places_of_a_body()
    ensures listed { (bytes : List ℕ) (code : Code Label) → IsBody bytes code
        → (ps : List Placed) × Stand bytes 0 ps × (ops_of ps ≡ opcodes code) }
    ensures one_list { (bytes : List ℕ) (ps others : List Placed) → Stand bytes 0 ps → Stand bytes 0 others
        → ps ≡ others }
    ensures start { (bytes : List ℕ) (code : Code Label) → IsBody bytes code → At bytes 0 (segment code ByEnd ∷ []) }
    ensures next { (bytes : List ℕ) (place : ℕ) (op : Op Label) (left behind : List (Segment Label))
        → spread left ≡ op ∷ spread behind → At bytes place left
        → (next : ℕ) × (instr_in bytes place ≡ Ok (op, next)) × At bytes next behind }
    ensures each { (bytes : List ℕ) (code : Code Label) (front rest : List Placed) (p : Placed) → IsBody bytes code
        → Stand bytes 0 (front ++ p ∷ rest) → (left : List (Segment Label)) × At bytes p.at left }
    ensures one_left { (bytes : List ℕ) (place : ℕ) (left other : List (Segment Label)) → At bytes place left
        → At bytes place other → left ≡ other }
{}

/// An `end` and an `else` take one byte.
pub fn closers_are_one_byte()
    ensures { (bytes : List ℕ) (at next : ℕ) (closer : Closer) → instr_in bytes at ≡ Ok (Closes closer, next)
        → next ≡ at + 1 }
{}

/// A load and a store that stand in a body have 1, 2, 4 or 8 bytes, and no more than their width.
pub fn sizes_of_accesses()
    ensures loads { (width : Width) (label : Label) (bytes : ℕ) (signed : Bool) (align offset : ℕ) →
        IsExactly (Load width label bytes signed align offset) → IsSize width bytes }
    ensures stores { (width : Width) (label : Label) (bytes : ℕ) (signed : Bool) (align offset : ℕ) →
        IsExactly (Store width label bytes signed align offset) → IsSize width bytes }
{}

/// The opcode of a form is read as that form, and the opcode of a form that was read is the byte that it was read from;
/// so it is behind the prefix for the forms that have a secret one.
pub fn opcodes_both_ways()
    ensures read { (f : Form) → IsOpcode f → opcode (opcode_byte f) ≡ Ok (Direct f) }
    ensures written { (byte : ℕ) (f : Form) → opcode byte ≡ Ok (Direct f) → IsOpcode f × (opcode_byte f ≡ byte) }
    ensures secret_read { (f : Form) → IsOpcode f → has_secret_form f ≡ true → secret_form (opcode_byte f) ≡ Ok f }
    ensures secret_written { (byte : ℕ) (f : Form) → secret_form byte ≡ Ok f
        → IsOpcode f × (has_secret_form f ≡ true) × (opcode_byte f ≡ byte) }
{}

/// The byte of a value type is read as that type, and the byte of a type that was read is the one that
/// it was read from.
pub fn type_bytes_both_ways()
    ensures read { (t : ValueType Label) → byte_type (type_byte t) ≡ Some t }
    ensures written { (byte : ℕ) (t : ValueType Label) → byte_type byte ≡ Some t → type_byte t ≡ byte }
{}
