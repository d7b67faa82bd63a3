//! Laws of the definitions, for the crates above: functions that do nothing, whose contracts hold.
ghost use Rattle.std.specs.Prelude.{◌≡◌, ℕ, is_some};
ghost use Rattle.ctw_num.specs.Values.{takes, value1, value2};

/// There are values of one operand for the operations that take one, of two for those that take two, and for nothing
/// else.
pub fn values_cover_the_operations()
    ensures one { (op n : ℕ) → is_some (value1 op n) ≡ takes 1 op }
    ensures two { (op a b : ℕ) → is_some (value2 op a b) ≡ takes 2 op }
{}
