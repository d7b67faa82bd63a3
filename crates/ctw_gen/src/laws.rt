//! The law of workloads, for the crates above: a function that does nothing, whose contract holds.
ghost use Rattle.std.specs.Prelude.{◌≤◌, ℕ};
ghost use Rattle.ctw_ops.specs.Valid.{IsValid};
ghost use Rattle.ctw_gen.specs.Workload.{workload_module};

/// The module of each workload is valid, whatever its seed is.
pub fn workloads_are_valid()
    ensures { (seed size : ℕ) → size ≤ 20000 → IsValid (workload_module seed size) }
{}
