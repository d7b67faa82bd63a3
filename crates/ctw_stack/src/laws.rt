//! Laws of the pass, for the crates above: functions that do nothing, whose contracts hold. `S` are the tags.
ghost use Rattle.std.specs.Prelude.{◌≡◌, ◌↔◌, ◌++◌, ◌∷◌, [], ℕ, Bool, List, Some, None, length, take};
ghost use Rattle.ctw_ops.specs.Types.{ValueType};
ghost use Rattle.ctw_ops.specs.Code.{Code, Op, opcodes};
ghost use Rattle.ctw_ops.specs.Typing.{Context, Typed, optional};
ghost use Rattle.ctw_ops.specs.Cut.{cut, cut_opcodes};
ghost use Rattle.ctw_ops.specs.CutTyping.{StopsAt, Reaches};
ghost use Rattle.ctw_stack.specs.Operands.{Denotes};
ghost use Rattle.ctw_stack.specs.Steps.{IsExactTest};
ghost use Rattle.ctw_stack.specs.Pass.{Level, outermost, flat, run};
ghost use Rattle.ctw_stack.specs.Secrets.{HasTagAt, IsTaggedAt};

/// The pass over a body's opcodes ends with no block open exactly where the body is typed.
pub fn accepts_exactly_typed_bodies<S>()
    ensures { (same : S → S → Bool) → IsExactTest same → (C : Context S) → C.labels ≡ C.result ∷ [] → (code : Code S) →
        (run same C (opcodes code) (outermost C) ≡ Some []) ↔ Typed C code [] (optional C.result) }
{}

/// The opcodes of a cut body are the cut opcodes. The pass gets through its first k opcodes exactly
/// where the body cut there is typed.
/// So the typing stops at the opcode that the pass refuses, and at no other.
pub fn refuses_where_the_typing_stops<S>()
    ensures cut_tree { (code : Code S) (k : ℕ) → opcodes (cut code k) ≡ cut_opcodes k (opcodes code) }
    ensures gets_through { (same : S → S → Bool) → IsExactTest same → (C : Context S) → C.labels ≡ C.result ∷ []
        → (code : Code S) (k : ℕ) →
        ((levels : List (Level S)) × (run same C (take k (opcodes code)) (outermost C) ≡ Some levels))
        ↔ Typed C (cut code k) [] (optional C.result) }
    ensures refused { (same : S → S → Bool) → IsExactTest same → (C : Context S) → C.labels ≡ C.result ∷ []
        → (code : Code S) (before behind : List (Op S)) (op : Op S) (levels : List (Level S)) →
        opcodes code ≡ before ++ op ∷ behind → run same C before (outermost C) ≡ Some levels
        → flat same C op levels ≡ None → StopsAt C code (length before) }
    ensures once { (same : S → S → Bool) → IsExactTest same → (C : Context S) → C.labels ≡ C.result ∷ []
        → (code : Code S) (j k : ℕ) → StopsAt C code j → StopsAt C code k → j ≡ k }
{}

/// Behind k opcodes of a body, the innermost block's operands stand for exactly the stacks that typings
/// of the body cut there have.
/// So a slot has a tag exactly where each of these typings has a value of that tag there.
/// Where a typing has a stack there, the cut body is typed.
pub fn operands_are_those_of_typings<S>()
    ensures typed { (same : S → S → Bool) → IsExactTest same → (C : Context S) → C.labels ≡ C.result ∷ []
        → (code : Code S) (k : ℕ) (types : List (ValueType S)) →
        Reaches C code k [] types → Typed C (cut code k) [] (optional C.result) }
    ensures stacks { (same : S → S → Bool) → IsExactTest same → (C : Context S) → C.labels ≡ C.result ∷ []
        → (code : Code S) (k : ℕ) (level : Level S) (outer : List (Level S)) →
        run same C (take k (opcodes code)) (outermost C) ≡ Some (level ∷ outer) → (types : List (ValueType S))
        → Denotes level.block.operands types ↔ Reaches C code k [] types }
    ensures tag { (same : S → S → Bool) → IsExactTest same → (C : Context S) → C.labels ≡ C.result ∷ []
        → (tag other : S) → (other ≡ tag → ⊥) → (code : Code S) (k n : ℕ) (level : Level S) (outer : List (Level S)) →
        run same C (take k (opcodes code)) (outermost C) ≡ Some (level ∷ outer)
        → IsTaggedAt tag n level.block.operands.slots
        ↔ ((types : List (ValueType S)) → Reaches C code k [] types → HasTagAt tag n types) }
{}
