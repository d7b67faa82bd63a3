//! The laws of erased spellings, for the crates above: functions that do nothing, whose contracts hold.
ghost use Rattle.std.specs.Prelude.{◌≡◌, ◌≤◌, ℕ, List, length};
ghost use Rattle.ctw_ops.specs.declared.types.Label.{Label};
ghost use Rattle.ctw_ops.specs.Limits.{most_plain_bytes};
ghost use Rattle.ctw_ops.specs.Tree.{Module};
ghost use Rattle.ctw_ops.specs.Valid.{AreTypes, IsFormed};
ghost use Rattle.ctw_ops.specs.Erasure.{erase_module};
ghost use Rattle.ctw_form.specs.Spelled.{Spells};
ghost use Rattle.ctw_write.specs.Canon.{canon};

/// Where bytes spell a module, the canonical bytes of its erased module are no longer, and they spell the erased module
/// and no other, if they aren't longer than a plain module's file may be. The erased module of a valid module is formed,
/// since it is valid: that is the law `erased_sets_match` of `ctw_launch`.
pub fn erased_modules_are_spelled()
    ensures shorter { (bytes : List ℕ) (m : Module Label) → Spells bytes m → AreTypes m.types
        → length (canon (erase_module m)) ≤ length bytes }
    ensures spelled { (bytes : List ℕ) (m : Module Label) → Spells bytes m → AreTypes m.types
        → IsFormed (erase_module m) → length (canon (erase_module m)) ≤ most_plain_bytes
        → Spells (canon (erase_module m)) (erase_module m) }
    ensures only { (bytes : List ℕ) (m n : Module Label) → Spells bytes m → AreTypes m.types
        → IsFormed (erase_module m) → length (canon (erase_module m)) ≤ most_plain_bytes
        → Spells (canon (erase_module m)) n → n ≡ erase_module m }
{}
