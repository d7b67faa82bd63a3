//! The laws of canonical spellings, for the crates above: functions that do nothing, whose contracts hold.
ghost use Rattle.std.specs.Prelude.{◌≡◌, ◌≤◌, ℕ, List, length};
ghost use Rattle.ctw_ops.specs.declared.types.Label.{Label};
ghost use Rattle.ctw_ops.specs.Tree.{Module};
ghost use Rattle.ctw_ops.specs.Valid.{IsFormed};
ghost use Rattle.ctw_form.specs.Spelled.{Spells};
ghost use Rattle.ctw_write.specs.Canon.{canon};
ghost use Rattle.ctw_write.specs.KeepsLimits.{KeepsLimits};

/// Where any bytes spell a module, its canonical spelling does too, and none is shorter. What it spells has
/// these very bytes for its canonical spelling.
pub fn canonical_spelling()
    ensures spelled { (bytes : List ℕ) (m : Module Label) → Spells bytes m → Spells (canon m) m }
    ensures shortest { (bytes : List ℕ) (m : Module Label) → Spells bytes m → length (canon m) ≤ length bytes }
    ensures fixed { (bytes : List ℕ) (m n : Module Label) → Spells bytes m → Spells (canon m) n → canon n ≡ canon m }
{}

/// Every module that is formed and keeps the limits of files is spelled by its canonical bytes, and it is the only one
/// which they spell: also where no bytes are known that spell it, as where a module was made from others.
pub fn formed_modules_are_spelled()
    ensures spelled { (m : Module Label) → IsFormed m → KeepsLimits m → Spells (canon m) m }
    ensures only { (m n : Module Label) → IsFormed m → KeepsLimits m → Spells (canon m) n → n ≡ m }
{}

/// What bytes spell keeps the limits of files, as it is formed: so the modules that are spelled by any bytes are
/// exactly those that are formed and keep the limits.
pub fn spelled_modules_keep_limits()
    ensures { (bytes : List ℕ) (m : Module Label) → Spells bytes m → KeepsLimits m }
{}
