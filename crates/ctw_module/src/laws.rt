//! Laws of the definitions, for the crates above: functions that do nothing, whose contracts hold.
ghost use Rattle.std.specs.Prelude.{◌≡◌, ℕ, List, map, Some};
ghost use Rattle.std.specs.List.{slice_get};
ghost use Rattle.ctw_ops.specs.declared.types.Label.{Label};
ghost use Rattle.ctw_ops.specs.Tree.{Module, Function};
ghost use Rattle.ctw_form.specs.Spelled.{IsFormBody, Spells};
ghost use Rattle.ctw_module.specs.Trees.{tree, parts, code_of, view_of};

/// What a view stands for where its bytes spell a module: that module, with a function for each that the
/// file declares, and with code that spells each function's body.
pub fn tree_of_a_file()
    ensures whole { (bytes : List ℕ) (m : Module Label) → Spells bytes m → tree (view_of bytes) ≡ m }
    ensures uses { (bytes : List ℕ) (m : Module Label) → Spells bytes m
        → map (λ f. f.type) m.functions ≡ (parts (view_of bytes)).uses }
    ensures code { (bytes : List ℕ) (m : Module Label) (k : ℕ) (f : Function Label) → Spells bytes m
        → slice_get m.functions k ≡ Some f → IsFormBody m.ct (code_of (view_of bytes) k) f.body }
{}
