ghost use Rattle.std.specs.Prelude.{◌≡◌, nat_le};
ghost use Rattle.ctw_ops.specs.Limits.{most_weight};
ghost use Rattle.ctw_step.specs.Shown.{shown};
ghost use Rattle.ctw_step.specs.Told.{words, Weighs};

use crate::running::{Running, Stepped};
use ctw_script::TrapCode;

/// Whether a call may go on.
#[inline(always)]
#[tactic(auto, unfolding(ctw_ops::specs::Limits::most_weight))]
fn is_light(act: &Running) -> bool
    ensures { result ≡ nat_le (words (shown act.now)) most_weight }
{
    let values = act.operands.len() + act.locals.len();
    if values > 1_000_000 {
        return false;
    }
    values + act.labels.len() <= 1_000_000
}

/// What a reduction did, where a call that weighs too much traps.
#[tactic(auto, unfolding(ctw_ops::specs::Limits::most_weight))]
pub fn weigh(act: &Running, told: Stepped) -> Stepped
    ensures { Weighs (shown act.now) told result }
{
    match told {
        Stepped::Went { event } => {
            if is_light(act) {
                return Stepped::Went { event };
            }
            Stepped::Trapped {
                code: TrapCode::Exhausted,
                event,
            }
        }
        other => other,
    }
}
