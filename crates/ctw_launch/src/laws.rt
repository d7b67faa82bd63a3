// Laws, for the crates above: functions that do nothing, whose contracts hold.
ghost use Rattle.std.specs.Prelude.{◌≡◌, ◌↔◌, ◌<◌, ◌+◌, ◌∷◌, ◌++◌, ℕ, length, map, slice_get, All, Contains, List, Some, None};
ghost use Rattle.ctw_ops.specs.declared.types.Label.{Label};
ghost use Rattle.ctw_ops.specs.declared.types.Trust.TheVariants.{Untrusted};
ghost use Rattle.ctw_ops.specs.declared.types.ExternTag.TheVariants.{Global};
ghost use Rattle.ctw_ops.specs.Tree as Tree;
ghost use Rattle.ctw_ops.specs.Tree.{Module};
ghost use Rattle.ctw_ops.specs.Erasure.{erase_module};
ghost use Rattle.ctw_ops.specs.Valid.{IsValid};
ghost use Rattle.ctw_script.specs.declared.trap.TrapCode.{TrapCode};
ghost use Rattle.ctw_semantics.specs.Stores.{Storage};
ghost use Rattle.ctw_semantics.specs.Activations.{Activation};
ghost use Rattle.ctw_semantics.specs.Steps.{Running, Trapped};
ghost use Rattle.ctw_semantics.specs.Sound.{Shape, SoundStorage, SoundSet, shape_of, AllUntrusted};
ghost use Rattle.ctw_semantics.specs.Erased.{erase_functions, erase_storage};
ghost use Rattle.ctw_link.specs.Sets.{NamedModule, ModuleSet, set_of};
ghost use Rattle.ctw_link.specs.Linked.{CanBeLinked};
ghost use Rattle.ctw_link.specs.declared.set.Part.{Part};
ghost use Rattle.ctw_ops.specs.ExternType.{ExternType};
ghost use Rattle.ctw_link.specs.Externals.{offered};
ghost use Rattle.ctw_link.specs.Numbers.{LinkedModule, defined_before, linked_module, exported_number, linked, owners};
ghost use Rattle.ctw_link.specs.Matching.{AreMatching};
ghost use Rattle.ctw_link.specs.SetInstances.{set_instances, instance_at, LeadsTo, IsShapeOf, AllValid};
ghost use Rattle.ctw_link.specs.Sets.{AllWithinLimits};
ghost use Rattle.ctw_launch.specs.Launched.{fresh_global, allocated, loaded, outside, Space, SegmentOutside, StartTrapped, StartUnfinished, Stands, Fails, launched_within};
ghost use Rattle.ctw_launch.specs.Outcomes.{IsInside, FirstOutside, AllStart, StartLeaves};
ghost use Rattle.ctw_launch.specs.ErasedSets.{erase_set, erase_started};

/// A matching set of valid modules gives a sound set of function instances, over stores of each shape that is the
/// set's.
pub fn matching_sets_are_sound()
    ensures { (set : ModuleSet) (shape : Shape) → AreMatching set → AllValid set → IsShapeOf set shape
        → SoundSet (set_instances set) shape }
{}

/// The store of a set has a shape of the set with all segments written, and is sound where they fit and after its
/// start functions.
pub fn launched_stores_are_sound()
    ensures shape { (set : ModuleSet) → IsShapeOf set (shape_of (loaded set)) }
    ensures loaded { (set : ModuleSet) → AreMatching set → AllValid set → AllWithinLimits set
        → outside (allocated (linked set)) (linked set) ≡ None → SoundStorage (shape_of (loaded set)) (loaded set) }
    ensures memories { (set : ModuleSet) → outside (allocated (linked set)) (linked set) ≡ None
        → map (λ m. length m.bytes) (loaded set).memories
        ≡ map (λ m. length m.bytes) (allocated (linked set)).memories }
    ensures tables { (set : ModuleSet) → outside (allocated (linked set)) (linked set) ≡ None
        → map (λ t. length t.entries) (loaded set).tables
        ≡ map (λ t. length t.entries) (allocated (linked set)).tables }
    ensures launched { (most : ℕ) (set : ModuleSet) (s : Storage) → AreMatching set → AllValid set
        → AllWithinLimits set → launched_within most set ≡ Stands s → SoundStorage (shape_of (loaded set)) s }
{}

/// Each global of the loaded store begins as its initial value says, read over the globals of that store.
pub fn globals_begin_as_declared()
    ensures { (set before behind : ModuleSet) (p : NamedModule) (j : ℕ) (g : Tree.Global Label)
        → AreMatching set → AllValid set → set ≡ before ++ p ∷ behind → slice_get p.tree.globals j ≡ Some g
        → slice_get (loaded set).globals (defined_before Global (linked before) + j)
        ≡ Some (fresh_global (loaded set).globals (linked_module (linked before) p).numbers.globals g) }
{}

/// How a launch ends. It stands where all segments are inside and the start functions of the parts, one after
/// another, end within their steps; and each refusal comes exactly where it should: for the first segment that isn't
/// inside; and, where all are, for the first part whose start function traps, or for that whose start function hasn't
/// ended.
pub fn launches_end_as_told()
    ensures stands { (most : ℕ) (set : ModuleSet) (s : Storage) → AreMatching set → AllValid set → AllWithinLimits set
        → (launched_within most set ≡ Stands s)
        ↔ (All (IsInside (allocated (linked set))) (linked set)
        × AllStart most (set_instances set) (linked set) (loaded set) s) }
    ensures outside { (most : ℕ) (set : ModuleSet) (part : List ℕ) (space : Space) (index : ℕ)
        → AreMatching set → AllValid set → AllWithinLimits set
        → (launched_within most set ≡ Fails (SegmentOutside part space index))
        ↔ FirstOutside (allocated (linked set)) (linked set) part space index }
    ensures trapped { (most : ℕ) (set : ModuleSet) (part : List ℕ) (code : TrapCode)
        → AreMatching set → AllValid set → AllWithinLimits set
        → (launched_within most set ≡ Fails (StartTrapped part code))
        ↔ (All (IsInside (allocated (linked set))) (linked set)
        × StartLeaves most (set_instances set) (linked set) (loaded set) part (Trapped code)) }
    ensures unfinished { (most : ℕ) (set : ModuleSet) (part : List ℕ)
        → AreMatching set → AllValid set → AllWithinLimits set
        → (launched_within most set ≡ Fails (StartUnfinished part))
        ↔ (All (IsInside (allocated (linked set))) (linked set)
        × (a : Activation) × StartLeaves most (set_instances set) (linked set) (loaded set) part (Running a)) }
{}

/// What a part of such a set offers under a name has a number in the store, which leads to a thing of the offered
/// type.
pub fn offers_lead()
    ensures { (set : ModuleSet) (shape : Shape) → AreMatching set → AllValid set → IsShapeOf set shape
        → (p : LinkedModule) → Contains (linked set) p → (name : List ℕ) (got : ExternType Label) → offered p.tree name
        ≡ Some got
        → (n : ℕ) × (exported_number name p ≡ Some n) × LeadsTo (set_instances set) shape got n }
{}

/// Each function number has its owner's instance.
pub fn instances_are_their_owners()
    ensures { (set : ModuleSet) (f : ℕ) (owner : ℕ × ℕ) → slice_get (owners set) f ≡ Some owner
        → slice_get (set_instances set) f ≡ instance_at (linked set) owner }
{}

/// No function of a set without trusted types is trusted.
pub fn untrusted_types_give_untrusted_functions()
    ensures { (set : ModuleSet) → All (λ p. All (λ entry. entry.type.trust ≡ Untrusted) p.tree.types) set
        → AllUntrusted (set_instances set) }
{}

/// Parts that can be linked are valid modules, and those of a linked set give a sound set.
pub fn linked_parts_are_sound()
    ensures valid { (parts : List Part) → CanBeLinked parts → AllValid (set_of parts) }
    ensures sound { (parts : List Part) (shape : Shape) → CanBeLinked parts → AreMatching (set_of parts)
        → IsShapeOf (set_of parts) shape → SoundSet (set_instances (set_of parts)) shape }
{}

/// The erased module of a valid module is valid, within the same limits, and the erased set of a matching set of
/// valid modules matches.
pub fn erased_sets_match()
    ensures valid { (m : Module Label) → IsValid m → IsValid (erase_module m) }
    ensures all_valid { (set : ModuleSet) → AllValid set → AllValid (erase_set set) }
    ensures within_limits { (set : ModuleSet) → AllWithinLimits set → AllWithinLimits (erase_set set) }
    ensures matching { (set : ModuleSet) → AreMatching set → AllValid set → AreMatching (erase_set set) }
{}

/// The erased set has the erased instances and the erased store, and is launched where the set is, or with the same
/// fault.
pub fn erased_sets_launch_alike()
    ensures instances { (set : ModuleSet) → AllValid set → set_instances (erase_set set)
        ≡ erase_functions (set_instances set) }
    ensures loaded { (set : ModuleSet) → loaded (erase_set set) ≡ erase_storage (loaded set) }
    ensures launched { (most : ℕ) (set : ModuleSet) → AreMatching set → AllValid set → AllWithinLimits set
        → launched_within most (erase_set set) ≡ erase_started (launched_within most set) }
{}
