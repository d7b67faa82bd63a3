//! Laws of the definitions, for the crates above: functions that do nothing, whose contracts hold.
ghost use Rattle.std.specs.Prelude.{◌≡◌, ◌≤◌, ◌↔◌, ◌++◌, Bool, false, ℕ, List, length, All, Ok};
ghost use Rattle.ctw_ops.specs.declared.types.Label.{Label};
ghost use Rattle.ctw_ops.specs.Tree.{Module};
ghost use Rattle.ctw_ops.specs.Limits.{most_plain_bytes};
ghost use Rattle.ctw_ops.specs.Valid.{IsFormed};
ghost use Rattle.ctw_ops.specs.WithinLimits.{IsOctet, IsWithinLimits};
ghost use Rattle.ctw_leb.specs.Reading.{Exact, Whole};
ghost use Rattle.ctw_form.specs.declared.sections.Seen.{Seen};
ghost use Rattle.ctw_form.specs.Sections.{Section};
ghost use Rattle.ctw_form.specs.Spelled.{IsFormBody, IsSection, File, IsFile, IsFinished, Spells};
ghost use Rattle.ctw_form.specs.Read.{form_body_at, section_at, file_at, module_at};

/// The readers of sections and of functions' bodies answer exactly what is spelled; no spelling of a
/// section begins another, and each has one value.
pub fn one_section()
    ensures body { (ct : Bool) → Whole (IsFormBody ct) (form_body_at ct) }
    ensures read { (ct : Bool) (seen : Seen) → Exact (IsSection ct seen) (section_at ct seen) }
    ensures one { (ct : Bool) (seen : Seen) (a b x y : List ℕ) (s t : Section) → IsSection ct seen a s
        → IsSection ct seen b t → a ++ x ≡ b ++ y → (a ≡ b) × (s ≡ t) }
{}

/// The reader of files answers exactly the file that bytes spell, and the module that it makes; bytes spell
/// at most one.
pub fn one_module()
    ensures file { (bytes : List ℕ) (file : File)
        → (file_at bytes ≡ Ok file)
        ↔ (IsFile bytes file × IsFinished file × (file.ct ≡ false → length bytes ≤ most_plain_bytes)) }
    ensures read { (bytes : List ℕ) (m : Module Label) → (module_at bytes ≡ Ok m) ↔ Spells bytes m }
    ensures one { (bytes : List ℕ) (m n : Module Label) → Spells bytes m → Spells bytes n → m ≡ n }
{}

/// What bytes spell is formed: it has at most one table and one memory, imported ones among them, its numbers fit their
/// types, and with the plain version it has no label, trust, variant, classify or declassify.
pub fn spelled_modules_are_formed()
    ensures { (bytes : List ℕ) (m : Module Label) → Spells bytes m → IsFormed m }
{}

/// What bytes spell keeps the limits on parameters and locals, and its data segments have bytes.
pub fn spelled_modules_are_within_limits()
    ensures { (bytes : List ℕ) (m : Module Label) → All IsOctet bytes → Spells bytes m → IsWithinLimits m }
{}
