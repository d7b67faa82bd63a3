ghost use Rattle.std.specs.Prelude.{◌≡◌};
ghost use Rattle.ctw_modcheck.specs.Answers.{Answers};
ghost use Rattle.ctw_modcheck.specs.Faults.{in_order, is_memory, within_pages, table_fault, memory_fault};

use crate::fault::Invalid;
use ctw_ops::{Limits, MemType, Space};

/// The pages of the greatest memory.
const MOST_PAGES: u32 = 65_536;

/// Whether the least size passes no greatest one.
fn are_in_order(limits: Limits) -> bool
    ensures { result ≡ in_order limits }
{
    match limits.max {
        Some(max) => limits.min <= max,
        None => true,
    }
}

/// Whether a memory's sizes are in order and within the most pages.
#[tactic(auto, unfolding(ctw_ops::specs::Limits::most_memory_pages))]
fn are_pages(ty: MemType) -> bool
    ensures { result ≡ is_memory ty }
{
    are_in_order(ty.limits) && ty.limits.min <= MOST_PAGES && fits(ty.limits.max)
}

/// Whether a greatest size, where there is one, is within the most pages.
#[tactic(auto, unfolding(ctw_ops::specs::Limits::most_memory_pages))]
fn fits(max: Option<u32>) -> bool
    ensures { result ≡ within_pages max }
{
    match max {
        Some(max) => max <= MOST_PAGES,
        None => true,
    }
}

/// The fault of a table's limits, with the space where they stand.
pub fn check_table_limits(space: Space, limits: Limits) -> Result<(), Invalid>
    ensures { Answers result (table_fault space limits) }
{
    if !are_in_order(limits) {
        return Err(Invalid::LimitsOrder { space });
    }
    Ok(())
}

/// The fault of a memory's limits, with the space where they stand.
pub fn check_memory_limits(space: Space, ty: MemType) -> Result<(), Invalid>
    ensures { Answers result (memory_fault space ty) }
{
    if !are_pages(ty) {
        return Err(Invalid::LimitsOrder { space });
    }
    Ok(())
}
