//! Laws of flows: functions that do nothing, whose contracts hold.
ghost use Rattle.std.specs.Prelude.{◌≡◌, ◌≤◌, ◌↔◌, ◌⊎◌, ℕ, Bool, List, true, length, Contains};
ghost use Rattle.ctw_ops.specs.declared.types.Label.{Label};
ghost use Rattle.ctw_ops.specs.declared.types.Label.TheVariants.{Secret};
ghost use Rattle.ctw_ops.specs.Types.{IsBelow};
ghost use Rattle.ctw_ops.specs.Tree.{Module};
ghost use Rattle.ctw_ops.specs.Valid.{IsValid};
ghost use Rattle.ctw_ops.specs.Plain.{IsPlainModule};
ghost use Rattle.ctw_flow.specs.declared.graph.Edge.{Edge};
ghost use Rattle.ctw_flow.specs.Path.{Leads, Reached, Steps, IsLeastPath, ComesBefore};
ghost use Rattle.ctw_labels.specs.Points.{Points, AreReleases};
ghost use Rattle.ctw_labels.specs.Kept.{IsKept};
ghost use Rattle.ctw_labels.specs.ModuleLinks.{links, musts};
ghost use Rattle.ctw_labels.specs.Fits.{Mark, Fits};
ghost use Rattle.ctw_least.specs.Flows.{IsMarked, IsEnd, IsFlow, IsGraphOf, label_of};

/// Over a graph of a module's links, where no path leads from a site that is marked secret to an end,
/// the reached sites are the least labelling that fits.
/// Where one leads there, the least path is a shortest flow, and nothing fits.
pub fn reached_sites_are_the_least_labelling()
    ensures fits { (m : Module Label) → IsPlainModule m → IsValid m → (p : Points) → AreReleases p → IsKept m p
        → (marks : List Mark) → (g : List (List Edge)) → (starts goals : List ℕ) →
        IsGraphOf (links m p) g → ((n : ℕ) → Contains starts n ↔ IsMarked marks n Secret)
        → ((n : ℕ) → Contains goals n ↔ IsEnd (musts m p) marks n) →
        (seen : ℕ → Bool) → ((n : ℕ) → (seen n ≡ true) ↔ Reached g starts n)
        → ((nodes : List ℕ) → Leads g starts goals nodes → ⊥) →
        Fits m p marks (λ n. label_of (seen n))
        × ((k : ℕ → Label) → Fits m p marks k → (n : ℕ) → IsBelow (label_of (seen n)) (k n)) }
    ensures flow { (m : Module Label) → IsPlainModule m → IsValid m → (p : Points) → AreReleases p → IsKept m p
        → (marks : List Mark) → (g : List (List Edge)) → (starts goals : List ℕ) →
        IsGraphOf (links m p) g → ((n : ℕ) → Contains starts n ↔ IsMarked marks n Secret)
        → ((n : ℕ) → Contains goals n ↔ IsEnd (musts m p) marks n) →
        (path : Steps) → IsLeastPath g starts goals path → IsFlow (links m p) (musts m p) marks path.nodes
        × ((nodes : List ℕ) → IsFlow (links m p) (musts m p) marks nodes → length path.nodes ≤ length nodes)
        × ((nodes : List ℕ) → IsFlow (links m p) (musts m p) marks nodes → length nodes ≡ length path.nodes
        → (path.nodes ≡ nodes) ⊎ ComesBefore path.nodes nodes)
        × ((k : ℕ → Label) → Fits m p marks k → ⊥) }
{}
