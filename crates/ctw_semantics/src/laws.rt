//! Laws of the definitions, for the crates above: functions that do nothing, whose contracts hold.
ghost use Rattle.std.specs.Prelude.{◌≡◌, ◌↔◌, ◌⊎◌, ◌≤◌, ◌+◌, ◌++◌, ◌∷◌, [], false, ℕ, Bool, List, map, flat_map, length, Option, Some, None, is_some, slice_get};
ghost use Rattle.ctw_ops.specs.declared.types.Label.{Label};
ghost use Rattle.ctw_ops.specs.declared.types.Label.TheVariants.{Public};
ghost use Rattle.ctw_ops.specs.Types.{ValueType};
ghost use Rattle.ctw_ops.specs.Code.{Code, Then, MemoryGrow, opcodes};
ghost use Rattle.ctw_ops.specs.IndirectCalls.{indirect_calls};
ghost use Rattle.ctw_ops.specs.TagMaps.{op_to};
ghost use Rattle.ctw_ops.specs.Tree.{Module, TypeEntry, Function, table_among, type_named};
ghost use Rattle.ctw_ops.specs.Erasure.{base_of, erase_label, erase_leaf, erase_code, erase_function, erase_module};
ghost use Rattle.ctw_ops.specs.Limits.{most_weight};
ghost use Rattle.ctw_ops.specs.Valid.{AreTypes};
ghost use Rattle.ctw_ops.specs.Typing.{Typed, optional};
ghost use Rattle.ctw_ops.specs.Bodies.{HasItsType};
ghost use Rattle.ctw_script.specs.declared.event.Event.TheVariants.{Grow};
ghost use Rattle.ctw_semantics.specs.Values.{Value, value, i32};
ghost use Rattle.ctw_semantics.specs.Stores.{Memory, Storage, may_grow};
ghost use Rattle.ctw_semantics.specs.Instances.{ModuleInstance, FunctionInstance, Functions};
ghost use Rattle.ctw_semantics.specs.Activations.{Open, Activation, weight};
ghost use Rattle.ctw_semantics.specs.Answers.{Goes, noting};
ghost use Rattle.ctw_semantics.specs.Machine.{Here, put, begun, red};
ghost use Rattle.ctw_semantics.specs.Steps.{free_next, stops, then_step, step, turn};
ghost use Rattle.ctw_semantics.specs.Places.{StandIn};
ghost use Rattle.ctw_semantics.specs.Seen.{seen_value, seen_memory, seen, Agree, seen_reduced, seen_stepped, seen_turned, LookSame};
ghost use Rattle.ctw_semantics.specs.Sound.{Shape, context, SoundStorage, SoundSet, HasTypes, SoundCall, SoundAnswer, SoundTurn, AllUntrusted};
ghost use Rattle.ctw_semantics.specs.Modules.{instance_of, index_types};
ghost use Rattle.ctw_semantics.specs.Erased.{erase_functions, erase_part, erase_instance, erase_value, erase_storage, erase_open, erase_activation, erase_reduced, erase_stepped, erase_turned};

/// A step is one reduction where that costs 1, and else goes on after it; each reduction costs 0 or 1.
pub fn steps_are_reductions()
    ensures counted { (fns : Functions) (s : Storage) (a : Activation) → (red fns s a).cost ≡ 1
        → step fns s a ≡ stops (red fns s a) }
    ensures free { (fns : Functions) (s : Storage) (a : Activation) → (red fns s a).cost ≡ 0
        → step fns s a ≡ then_step (red fns s a).answer (red fns s a).event (red fns s a).release (step fns) }
    ensures cost { (fns : Functions) (s : Storage) (a : Activation)
        → ((red fns s a).cost ≡ 0) ⊎ ((red fns s a).cost ≡ 1) }
{}

/// Values look the same exactly where their types are equal, and their numbers too where these are public; memories
/// exactly where their types and lengths are equal, and their bytes too where these are public.
pub fn agreement_hides_secrets_alone()
    ensures values { (v w : Value) → (seen_value v ≡ seen_value w)
        ↔ ((v.type ≡ w.type) × (v.type.tag ≡ Public → v.number ≡ w.number)) }
    ensures memories { (m q : Memory) → (seen_memory m ≡ seen_memory q)
        ↔ ((m.type ≡ q.type) × (length m.bytes ≡ length q.bytes) × (m.type.tag ≡ Public → m.bytes ≡ q.bytes)) }
{}

/// Isolation: from agreeing states, and with equal releases, one reduction, one step and a turn of any length look
/// the same. They have the same kind of answer, events, trap code, public result and count of steps, and leave
/// agreeing states.
pub fn agreeing_runs_look_the_same()
    ensures reductions { (fns : Functions) (s t : Storage) (a b : Activation) → Agree s a t b
        → LookSame (seen_reduced (red fns s a)) (seen_reduced (red fns t b)) (optional (red fns s a).release)
        (optional (red fns t b).release) }
    ensures steps { (fns : Functions) (s t : Storage) (a b : Activation) → Agree s a t b
        → LookSame (seen_stepped (step fns s a)) (seen_stepped (step fns t b)) (step fns s a).releases
        (step fns t b).releases }
    ensures turns { (n : ℕ) (fns : Functions) (s t : Storage) (a b : Activation) → Agree s a t b
        → LookSame (seen_turned (turn n fns s a)) (seen_turned (turn n fns t b)) (turn n fns s a).releases
        (turn n fns t b).releases }
    ensures equal_releases { (n : ℕ) (fns : Functions) (s t : Storage) (a b : Activation) → Agree s a t b
        → (turn n fns s a).releases ≡ (turn n fns t b).releases
        → seen_turned (turn n fns s a) ≡ seen_turned (turn n fns t b) }
    ensures one_after_another { (n m : ℕ) (fns : Functions) (s t : Storage) (a b c d : Activation) → Agree s a t b
        → seen c ≡ seen d
        → LookSame (seen_turned (turn n fns s a) ∷ seen_turned (turn m fns (turn n fns s a).storage c) ∷ [])
        (seen_turned (turn n fns t b) ∷ seen_turned (turn m fns (turn n fns t b).storage d) ∷ [])
        ((turn n fns s a).releases ++ (turn m fns (turn n fns s a).storage c).releases)
        ((turn n fns t b).releases ++ (turn m fns (turn n fns t b).storage d).releases) }
    ensures begun_calls { (n : ℕ) (fn : FunctionInstance) (xs ys : List Value) → map seen_value xs ≡ map seen_value ys
        → seen (begun n fn xs) ≡ seen (begun n fn ys) }
{}

/// A sound call over a sound store is never stuck, and both stay sound, whatever turns other calls take between.
pub fn sound_calls_are_never_stuck()
    ensures reductions { (fns : Functions) (shape : Shape) (last : Option (ValueType Label)) (s : Storage)
        (a : Activation)
        → SoundSet fns shape → SoundStorage shape s → SoundCall fns shape last a
        → SoundAnswer fns shape last (red fns s a).answer }
    ensures steps { (fns : Functions) (shape : Shape) (last : Option (ValueType Label)) (s : Storage) (a : Activation)
        → SoundSet fns shape → SoundStorage shape s → SoundCall fns shape last a
        → SoundAnswer fns shape last (step fns s a).answer }
    ensures turns { (n : ℕ) (fns : Functions) (shape : Shape) (last : Option (ValueType Label)) (s : Storage)
        (a : Activation)
        → SoundSet fns shape → SoundStorage shape s → SoundCall fns shape last a
        → SoundTurn fns shape last (turn n fns s a) }
    ensures between { (n m : ℕ) (fns : Functions) (shape : Shape) (last other : Option (ValueType Label))
        (s : Storage) (a b : Activation)
        → SoundSet fns shape → SoundStorage shape s → SoundCall fns shape last a → SoundCall fns shape other b
        → SoundTurn fns shape last (turn n fns (turn m fns s b).storage a) }
{}

/// A call of a function of a sound set with arguments of its parameters' types is sound, if it isn't too heavy.
pub fn begun_calls_are_sound()
    ensures { (fns : Functions) (shape : Shape) (n : ℕ) (fn : FunctionInstance) (args : List Value)
        → SoundSet fns shape → slice_get fns n ≡ Some fn → HasTypes fn.type.params args
        → 1 + length fn.type.params + length fn.locals ≤ most_weight
        → SoundCall fns shape fn.type.result (begun n fn args) }
{}

/// A body that has its type in its module has it as a function instance, over the module's index types.
pub fn typed_bodies_are_typed_instances()
    ensures { (part : ModuleInstance) (m : Module Label) (f : Function Label)
        → is_some part.table ≡ is_some (table_among m.imports m.table) → HasItsType m f
        → Typed (context (index_types m) (instance_of part m f) ((type_named m f.type).result ∷ [])) f.body []
        (optional (type_named m f.type).result) }
{}

/// A turn of a sound call in a set without trusted functions releases nothing.
pub fn untrusted_sets_release_nothing()
    ensures { (n : ℕ) (fns : Functions) (shape : Shape) (last : Option (ValueType Label)) (s : Storage) (a : Activation)
        → AllUntrusted fns → SoundSet fns shape → SoundStorage shape s → SoundCall fns shape last a
        → (turn n fns s a).releases ≡ [] }
{}

/// Erasure: the erased state of a sound call takes the same counted reduction, the same step and the same turn, with
/// the same events, weight and count of steps, and releases nothing. No erased function is trusted.
pub fn erased_calls_take_the_same_steps()
    ensures reductions { (fns : Functions) (shape : Shape) (last : Option (ValueType Label)) (s : Storage)
        (a : Activation)
        → SoundSet fns shape → SoundStorage shape s → SoundCall fns shape last a → free_next a ≡ 0
        → red (erase_functions fns) (erase_storage s) (erase_activation fns a) ≡ erase_reduced fns (red fns s a) }
    ensures steps { (fns : Functions) (shape : Shape) (last : Option (ValueType Label)) (s : Storage) (a : Activation)
        → SoundSet fns shape → SoundStorage shape s → SoundCall fns shape last a
        → step (erase_functions fns) (erase_storage s) (erase_activation fns a) ≡ erase_stepped fns (step fns s a) }
    ensures turns { (n : ℕ) (fns : Functions) (shape : Shape) (last : Option (ValueType Label)) (s : Storage)
        (a : Activation)
        → SoundSet fns shape → SoundStorage shape s → SoundCall fns shape last a
        → turn n (erase_functions fns) (erase_storage s) (erase_activation fns a) ≡ erase_turned fns (turn n fns s a) }
    ensures untrusted { (fns : Functions) → AllUntrusted (erase_functions fns) }
    ensures weights { (fns : Functions) (a : Activation) → weight (erase_activation fns a) ≡ weight a }
    ensures begun_calls { (fns : Functions) (n : ℕ) (fn : FunctionInstance) (args : List Value)
        → slice_get fns n ≡ Some fn → erase_activation fns (begun n fn args)
        ≡ begun n (erase_instance fn) (map erase_value args) }
{}

/// Erased code has what the erasure of leaves gives: its opcodes are those that the code's become, its indirect calls
/// name the bases of the code's, and labels that stand around one place of a body do so when erased.
pub fn erased_code_keeps_its_form()
    ensures opcodes { (entries : List (TypeEntry Label)) (code : Code Label)
        → opcodes (erase_code entries code) ≡ flat_map (op_to erase_label (erase_leaf entries)) (opcodes code) }
    ensures calls { (entries : List (TypeEntry Label)) (code : Code Label)
        → indirect_calls (erase_code entries code) ≡ map (base_of entries) (indirect_calls code) }
    ensures places { (entries : List (TypeEntry Label)) (body : Code Label) (labels : List Open) → StandIn body labels
        → StandIn (erase_code entries body) (map (erase_open entries) labels) }
{}

/// Where variants stand last and name what erases alike, as in a valid module, the erased instance of a module's
/// function is the instance of the erased function in the erased module, and its body has its type there if it had it
/// before.
pub fn erased_functions_are_those_of_the_erased_module()
    ensures instances { (part : ModuleInstance) (m : Module Label) (f : Function Label) → AreTypes m.types
        → erase_instance (instance_of part m f)
        ≡ instance_of (erase_part part) (erase_module m) (erase_function m.types f) }
    ensures bodies { (m : Module Label) (f : Function Label) → AreTypes m.types → HasItsType m f
        → HasItsType (erase_module m) (erase_function m.types f) }
{}

/// A `memory.grow` that the store refuses leaves the store as it was, and changes of its activation only the operands
/// and the code of the innermost label.
pub fn refused_growth_changes_operands_alone()
    ensures { (fns : Functions) (s : Storage) (h : Here) (rest : Code Label) (fn : FunctionInstance) (i count : ℕ)
        (m : Memory) (below : List Value)
        → slice_get fns h.func ≡ Some fn → fn.part.memory ≡ Some i → slice_get s.memories i ≡ Some m
        → may_grow s m count ≡ false
        → weight (put h (Then MemoryGrow rest) (value i32 count ∷ below)) ≤ most_weight
        → red fns s (put h (Then MemoryGrow rest) (value i32 count ∷ below))
        ≡ noting (Grow count) (Goes s (put h rest (value i32 4294967295 ∷ below))) }
{}
