//! Laws of sites: functions that do nothing, whose contracts hold.
ghost use Rattle.std.specs.Prelude.{◌≡◌, ◌≤◌, ◌↔◌, ◌⊎◌, ◌++◌, ◌∷◌, [], ℕ, Bool, List, Some, None, true, false, length, slice_get, Contains};
ghost use Rattle.std.specs.List.{AllByRecursion};
ghost use Rattle.ctw_ops.specs.declared.types.Label.{Label};
ghost use Rattle.ctw_ops.specs.declared.types.Label.TheVariants.{Secret};
ghost use Rattle.ctw_ops.specs.Types.{IsBelow};
ghost use Rattle.ctw_ops.specs.Code.{Code, opcodes};
ghost use Rattle.ctw_ops.specs.Typing.{Context};
ghost use Rattle.ctw_ops.specs.Tree.{Module};
ghost use Rattle.ctw_ops.specs.Valid.{IsValid};
ghost use Rattle.ctw_ops.specs.Erasure.{erase_module};
ghost use Rattle.ctw_stack.specs.Operands.{fresh};
ghost use Rattle.ctw_stack.specs.Opens.{opened};
ghost use Rattle.ctw_labels.specs.Names.{Tag, Site};
ghost use Rattle.ctw_labels.specs.Numbering.{BodyPlace, number};
ghost use Rattle.ctw_labels.specs.Links.{facts, facts_of_end, ending, links_up, at_tag, Obeys};
ghost use Rattle.ctw_labels.specs.FlatSites.{flat_sites, flat_facts};
ghost use Rattle.ctw_ops.specs.Plain.{IsPlainModule};
ghost use Rattle.ctw_labels.specs.Points.{Points, no_points, AreReleases};
ghost use Rattle.ctw_labels.specs.Kept.{IsKept};
ghost use Rattle.ctw_labels.specs.SitedModule.{sites, bodies, head_sites, body_sites};
ghost use Rattle.ctw_labels.specs.ModuleLinks.{links, musts, lifts_within, yield_links};
ghost use Rattle.ctw_labels.specs.Placed.{placed, IsOrderly, AreUsersAlike};

/// A labelling obeys the links and the public sites of a plain valid module exactly where it is orderly, the placed
/// module is valid, and table users that erase alike have equal labels.
pub fn the_link_table_is_right()
    ensures unreleased { (m : Module Label) → IsPlainModule m → IsValid m → (l : ℕ → Label) →
        Obeys l (links m no_points) (musts m no_points) ↔ (IsOrderly (at_tag l) m no_points × IsValid (placed (at_tag l) m no_points) × AreUsersAlike (at_tag l) m no_points) }
    ensures released { (m : Module Label) → IsPlainModule m → IsValid m → (p : Points) → AreReleases p → IsKept m p
        → (l : ℕ → Label) →
        Obeys l (links m p) (musts m p) ↔ (IsOrderly (at_tag l) m p × IsValid (placed (at_tag l) m p) × AreUsersAlike (at_tag l) m p) }
{}

/// A plain valid module is its placed one, erased, for every labelling.
pub fn erasing_undoes_placing()
    ensures { (m : Module Label) → IsPlainModule m → m.ct ≡ false → IsValid m → (p : Points) → AreReleases p
        → (l : Tag → Label) → erase_module (placed l m p) ≡ m }
{}

/// The sites and the facts over a body's opcodes are those over its tree.
pub fn opcodes_have_the_sites_of_the_tree()
    ensures sites { (P : BodyPlace Label) → (C : Context Tag) → C.labels ≡ C.result ∷ [] → (code : Code Label)
        → (n : ℕ) →
        flat_sites P C (opcodes code) (opened false C.result ∷ []) n 0 ≡ (number P C code n 0 fresh).sites }
    ensures facts { (P : BodyPlace Label) → (C : Context Tag) → C.labels ≡ C.result ∷ [] → (code : Code Label)
        → (n : ℕ) →
        flat_facts P C (opcodes code) (opened false C.result ∷ []) n 0
        ≡ facts C (number P C code n 0 fresh).code fresh
        ++ facts_of_end C.result (ending C (number P C code n 0 fresh).code fresh) }
{}

/// No two sites have one name. The sites don't depend on points, and say from where the links of the first rule come.
pub fn sites_have_names_and_yields()
    ensures name { (m : Module Label) → (j k : ℕ) → (s t : Site) → slice_get (sites m) j ≡ Some s
        → slice_get (sites m) k ≡ Some t → s.name ≡ t.name → j ≡ k }
    ensures points { (m : Module Label) → IsPlainModule m → (p : Points)
        → head_sites m ++ body_sites (bodies m p) ≡ sites m }
    ensures yields { (m : Module Label) → IsPlainModule m → (p : Points)
        → yield_links p 0 (sites m) ≡ links_up (lifts_within (bodies m p)) }
    ensures orderly { (m : Module Label) → IsPlainModule m → (p : Points) → (l : ℕ → Label) →
        IsOrderly (at_tag l) m p
        ↔ AllByRecursion (λ k. l k.from ≡ Secret → l k.to ≡ Secret) (yield_links p 0 (sites m)) }
{}
