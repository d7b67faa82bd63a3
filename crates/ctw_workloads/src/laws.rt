//! The laws of workloads under labels, for the crates above: functions that do nothing, whose contracts hold.
ghost use Rattle.std.specs.Prelude.{◌≡◌, ◌≤◌, ℕ, List, [], length};
ghost use Rattle.ctw_ops.specs.declared.numeric.Profile.{Profile};
ghost use Rattle.ctw_ops.specs.declared.types.Label.{Label};
ghost use Rattle.ctw_ops.specs.Valid.{IsValid};
ghost use Rattle.ctw_labels.specs.declared.tag.Tag.{Tag};
ghost use Rattle.ctw_labels.specs.Kept.{IsKept};
ghost use Rattle.ctw_labels.specs.Points.{Points};
ghost use Rattle.ctw_labels.specs.SitedModule.{sites};
ghost use Rattle.ctw_sites.specs.Packed.{most_sites};
ghost use Rattle.ctw_marks.specs.declared.fault.MarkFault.{MarkFault};
ghost use Rattle.ctw_marks.specs.declared.fault.MarkFault.TheVariants.{NoMemory};
ghost use Rattle.ctw_marks.specs.Readings.{MarkList, IsReading, HasReading, HasFault};
ghost use Rattle.ctw_link.specs.Matching.{AreMatching};
ghost use Rattle.ctw_moves.specs.States.{State};
ghost use Rattle.ctw_moves.specs.LaunchedStates.{Ready, launch};
ghost use Rattle.ctw_gen.specs.Workload.{marks};
ghost use Rattle.ctw_workloads.specs.Marks.{workload_marks};
ghost use Rattle.ctw_workloads.specs.Placed.{workload_under, placed_set};

/// The module of each workload is valid under every profile, since all its labels are public.
pub fn workloads_are_valid_under_profiles()
    ensures { (q : Profile) → (seed size : ℕ) → size ≤ 20000 → IsValid (workload_under q seed size) }
{}

/// The sites of each workload's module are within the limit.
pub fn workloads_have_few_sites()
    ensures { (q : Profile) → (seed size : ℕ) → size ≤ 20000 → length (sites (workload_under q seed size)) ≤ most_sites }
{}

/// The marks of each workload are read under every profile, so that no fault but want of memory is told of them. They
/// label the parameter of `main` alone, keep trust, and have no release.
pub fn workload_marks_are_read()
    ensures read { (q : Profile) → (seed size : ℕ) → IsReading (workload_under q seed size) marks (workload_marks size) }
    ensures faults { (q : Profile) → (seed size : ℕ) → (why : MarkFault)
        → HasFault (workload_under q seed size) marks why → why ≡ NoMemory }
    ensures labels { (q : Profile) → (seed size : ℕ) → (l : MarkList)
        → HasReading (workload_under q seed size) marks l → l.labels ≡ (workload_marks size).labels }
    ensures trust { (q : Profile) → (seed size : ℕ) → (l : MarkList)
        → HasReading (workload_under q seed size) marks l → IsKept (workload_under q seed size) l.points }
    ensures releases { (q : Profile) → (seed size : ℕ) → (l : MarkList)
        → HasReading (workload_under q seed size) marks l → l.points.releases ≡ [] }
{}

/// The placed module of each workload, alone under the name of the script, matches and is launched with any vault,
/// whatever its labels are.
pub fn placed_workloads_are_launched()
    ensures matching { (q : Profile) → (seed size : ℕ) → (p : Points) → (l : Tag → Label)
        → AreMatching (placed_set q seed size p l) }
    ensures launched { (q : Profile) → (seed size : ℕ) → (p : Points) → (l : Tag → Label) → (vault : List ℕ)
        → (s : State) × (launch (placed_set q seed size p l) vault ≡ Ready s) }
{}
