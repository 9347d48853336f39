//! Counting faults.
#![tactic(auto)]

ghost use Rattle.std.specs.Prelude.{◌≡◌};
ghost use Rattle.lk_depot.specs.Faults.{next_count};

use crate::stops::Failed;

/// Counts one more fault.
pub fn counted(faults: &mut u64) -> Failed
    ensures { faults.new ≡ next_count faults.old }
{
    *faults = faults.saturating_add(1);
    Failed
}
