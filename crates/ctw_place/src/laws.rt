//! The laws of placed spellings, for the crates above: functions that do nothing, whose contracts hold.
ghost use Rattle.std.specs.Prelude.{◌≡◌, ◌≤◌, ℕ, List, length, false};
ghost use Rattle.ctw_ops.specs.declared.numeric.Profile.{Profile};
ghost use Rattle.ctw_ops.specs.declared.types.Label.{Label};
ghost use Rattle.ctw_ops.specs.Tree.{Module, under};
ghost use Rattle.ctw_ops.specs.Valid.{IsValid};
ghost use Rattle.ctw_form.specs.Spelled.{Spells};
ghost use Rattle.ctw_labels.specs.declared.tag.Tag.{Tag};
ghost use Rattle.ctw_labels.specs.Placed.{placed};
ghost use Rattle.ctw_labels.specs.Points.{Points, AreReleases};
ghost use Rattle.ctw_labels.specs.SitedModule.{sites};
ghost use Rattle.ctw_sites.specs.Packed.{most_sites};
ghost use Rattle.ctw_write.specs.Canon.{canon};
ghost use Rattle.ctw_place.specs.Limits.{most_ct_bytes};

/// Where bytes spell a plain valid module whose sites are within the limit, the canonical bytes of its placed module are
/// no longer than a CT module's file may be, for every labelling; and they spell the placed module and no other, where
/// each release of the points stands in a trusted function.
pub fn placed_modules_are_spelled()
    ensures within { (bytes : List ℕ) (m : Module Label) → Spells bytes m → m.ct ≡ false → IsValid m
        → length (sites m) ≤ most_sites → (p : Points) → (l : Tag → Label) → length (canon (placed l m p)) ≤ most_ct_bytes }
    ensures spelled { (bytes : List ℕ) (m : Module Label) → Spells bytes m → m.ct ≡ false → IsValid m
        → length (sites m) ≤ most_sites → (p : Points) → AreReleases p → (l : Tag → Label)
        → Spells (canon (placed l m p)) (placed l m p) }
    ensures only { (bytes : List ℕ) (m n : Module Label) → Spells bytes m → m.ct ≡ false → IsValid m
        → length (sites m) ≤ most_sites → (p : Points) → AreReleases p → (l : Tag → Label)
        → Spells (canon (placed l m p)) n → n ≡ placed l m p }
{}

/// Neither the sites of a module nor what is placed at them depends on its profile, which isn't spelled. So the canonical
/// bytes of the placed module under any profile spell the placed module of the bytes' own.
pub fn profiles_are_not_placed()
    ensures sites { (q : Profile) → (m : Module Label) → sites (under q m) ≡ sites m }
    ensures placed { (q : Profile) → (m : Module Label) → (p : Points) → (l : Tag → Label)
        → placed l (under q m) p ≡ under q (placed l m p) }
    ensures spelled { (q : Profile) → (bytes : List ℕ) (m : Module Label) → Spells bytes m → m.ct ≡ false → IsValid m
        → length (sites m) ≤ most_sites → (p : Points) → AreReleases p → (l : Tag → Label)
        → Spells (canon (placed l (under q m) p)) (placed l m p) }
{}
