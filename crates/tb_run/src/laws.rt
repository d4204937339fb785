//! A theorem about the answers of a run. The call changes nothing: its contract is the theorem.

ghost use Rattle.std.specs.Prelude.{◌+◌, ◌≤◌, ℕ, max};
ghost use Rattle.tb_log.specs.Limits.{log_size, most_size};
ghost use Rattle.tb_bus.specs.declared.origin.Origin.{Origin};
ghost use Rattle.tb_bus.specs.Commands.{largest_command};
ghost use Rattle.tb_core.specs.Cores.{CoreState};
ghost use Rattle.tb_run.specs.Outcomes.{Runs};
ghost use Rattle.tb_run.specs.Views.{OutsideView, Tells};

use crate::ends::RunWhy;

/// States that the claims for `Ended` and the claims for `Events` never hold for the same views and the same returned core. The lanes and
/// the clock must report their values, and the log must not be near its limit of size. The log can have its greatest number of entries.
pub fn a_run_that_ended_was_not_refused()
    ensures { (most : ℕ) (old new : OutsideView) (origin other : Origin) (back : CoreState)
        → Tells old → log_size back.log + max 131072 (largest_command back.origin) ≤ most_size
        → Runs most old new origin back RunWhy.Ended
        → Runs most old new other back RunWhy.Events → ⊥ }
{}
