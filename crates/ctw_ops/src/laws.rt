//! Laws of the definitions, for the crates above: functions that do nothing, whose contracts hold.
ghost use Rattle.std.specs.Prelude.{◌≡◌, ℕ, List, is_some, flat_map};
ghost use Rattle.ctw_ops.specs.Numeric.{is_numeric, num_sig_of};
ghost use Rattle.ctw_ops.specs.Code.{Leaf, Code, opcodes};
ghost use Rattle.ctw_ops.specs.TagMaps.{code_to, op_to};

/// The table of signatures has a row for each numeric operation, and for nothing else.
pub fn signatures_cover_the_operations()
    ensures { (op : ℕ) → is_some (num_sig_of op) ≡ is_numeric op }
{}

/// The opcodes of code under a function on tags and an action on leaves are those that its opcodes become.
pub fn opcodes_under_an_action<S, T>()
    ensures { (f : S → T) (act : Leaf S → List (Leaf T)) (code : Code S)
        → opcodes (code_to f act code) ≡ flat_map (op_to f act) (opcodes code) }
{}
