//! Laws of trust: functions that do nothing, whose contracts hold.
ghost use Rattle.std.specs.Prelude.{◌≡◌, ◌↔◌, []};
ghost use Rattle.ctw_ops.specs.declared.types.Label.{Label};
ghost use Rattle.ctw_ops.specs.Tree.{Module};
ghost use Rattle.ctw_labels.specs.Points.{Points};
ghost use Rattle.ctw_labels.specs.Kept.{IsKept};
ghost use Rattle.ctw_infer.specs.Misuse.{misused_calls, misused_entries};

/// Trust is kept exactly where no function that isn't trusted calls one that is by its index, and no element has a
/// trusted one.
pub fn kept_trust_is_not_misused()
    ensures { (m : Module Label) → (p : Points)
        → IsKept m p ↔ ((misused_calls m p ≡ []) × (misused_entries m p ≡ [])) }
{}
