// Laws, for the crates above: functions that do nothing, whose contracts hold.
ghost use Rattle.std.specs.Prelude.{◌≡◌, ◌∷◌, [], ℕ, List, Option, Some, slice_get};
ghost use Rattle.ctw_ops.specs.declared.types.Label.{Label};
ghost use Rattle.ctw_ops.specs.Types.{ValueType};
ghost use Rattle.ctw_ops.specs.Code.{Code, Closer, ByEnd};
ghost use Rattle.ctw_semantics.specs.Values.{Value};
ghost use Rattle.ctw_semantics.specs.Stores.{Storage};
ghost use Rattle.ctw_semantics.specs.Instances.{FunctionInstance, Functions};
ghost use Rattle.ctw_semantics.specs.Activations.{Open, Activation};
ghost use Rattle.ctw_semantics.specs.Machine.{begun, red};
ghost use Rattle.ctw_semantics.specs.Steps.{step, turn};
ghost use Rattle.ctw_semantics.specs.Sound.{Shape, context, FunctionTyped, SoundStorage, SoundSet, SoundCall};
ghost use Rattle.ctw_step.specs.Shown.{Shown};
ghost use Rattle.ctw_step.specs.Stands.{Codes, Stands};
ghost use Rattle.ctw_unique.specs.Leading.{Leads};
ghost use Rattle.ctw_unique.specs.ByBodies.{LabelsHold, HoldsByBodies, StillHolds, LeftHolds};
ghost use Rattle.ctw_unique.specs.StandsByBodies.{StandsByBodies};

/// The types that the instructions in front of a place of a sequence lead to by one typing of a function's body are
/// those by each other typing of it, and they are the only ones.
pub fn every_typing_gives_the_same_types()
    ensures each { (fns : Functions) (shape : Shape) (fn : FunctionInstance) (typed also : FunctionTyped fns shape fn)
        (arrives : List (ValueType Label)) (closers : List Closer) (labels : List Open)
        → LabelsHold typed.names fn arrives closers labels → LabelsHold also.names fn arrives closers labels }
    ensures only { (fns : Functions) (shape : Shape) (fn : FunctionInstance) (typed also : FunctionTyped fns shape fn)
        (labels : List (Option (ValueType Label))) (n m : ℕ) (sequence rest : Code Label)
        (to end : List (ValueType Label))
        → Leads (context typed.names fn labels) n sequence [] rest to
        → Leads (context also.names fn labels) m sequence [] rest end → to ≡ end }
{}

/// A call of a function of a sound set that has just begun has its operands as its body leads to them: none.
pub fn begun_calls_hold_by_bodies()
    ensures { (fns : Functions) (shape : Shape) (n : ℕ) (fn : FunctionInstance) (args : List Value)
        → SoundSet fns shape → slice_get fns n ≡ Some fn
        → HoldsByBodies fns shape ((ByEnd ∷ []) ∷ []) (begun n fn args) }
{}

/// Each reduction, step and turn of a sound call over a sound store keeps operands as the bodies lead to them.
pub fn running_calls_hold_by_bodies()
    ensures reductions { (fns : Functions) (shape : Shape) (last : Option (ValueType Label))
        (closers : List (List Closer)) (s : Storage) (a : Activation)
        → SoundSet fns shape → SoundStorage shape s → SoundCall fns shape last a → HoldsByBodies fns shape closers a
        → StillHolds fns shape (red fns s a).answer }
    ensures steps { (fns : Functions) (shape : Shape) (last : Option (ValueType Label)) (closers : List (List Closer))
        (s : Storage) (a : Activation)
        → SoundSet fns shape → SoundStorage shape s → SoundCall fns shape last a → HoldsByBodies fns shape closers a
        → StillHolds fns shape (step fns s a).answer }
    ensures turns { (n : ℕ) (fns : Functions) (shape : Shape) (last : Option (ValueType Label))
        (closers : List (List Closer)) (s : Storage) (a : Activation)
        → SoundSet fns shape → SoundStorage shape s → SoundCall fns shape last a → HoldsByBodies fns shape closers a
        → LeftHolds fns shape (turn n fns s a).left }
{}

/// At most one activation stands for a running call: of two sound ones whose operands are as their bodies lead to
/// them, in sequences that are closed alike, or as the bytes at their places close them, both are equal.
pub fn one_activation_stands()
    ensures closed_alike { (fns : Functions) (shape : Shape) (codes : Codes) (c : Shown)
        (last other : Option (ValueType Label)) (closers : List (List Closer)) (a b : Activation)
        → Stands codes c a → Stands codes c b → SoundCall fns shape last a → SoundCall fns shape other b
        → HoldsByBodies fns shape closers a → HoldsByBodies fns shape closers b → a ≡ b }
    ensures there { (fns : Functions) (shape : Shape) (codes : Codes) (c : Shown)
        (last other : Option (ValueType Label)) (a b : Activation)
        → StandsByBodies fns shape codes c a → StandsByBodies fns shape codes c b → SoundCall fns shape last a
        → SoundCall fns shape other b → a ≡ b }
{}
