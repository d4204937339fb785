//! What is known of the answers of a pair. A call changes nothing: its contract is the law.

ghost use Rattle.std.specs.Prelude.{◌≡◌, ◌+◌, ◌≤◌, ◌<◌, ◌^◌, ℕ, max};
ghost use Rattle.tb_log.specs.Limits.{log_size, most_size};
ghost use Rattle.tb_log.specs.LogText.{log_text};
ghost use Rattle.tb_bus.specs.declared.origin.Origin.{Origin};
ghost use Rattle.tb_bus.specs.Commands.{largest_command};
ghost use Rattle.tb_core.specs.Cores.{CoreState};
ghost use Rattle.tb_pair_run.specs.Outcomes.{PairRuns};
ghost use Rattle.tb_pair_run.specs.Views.{PairTells, PairView};

use crate::ends::PairWhy;

/// Take a pair whose lanes from 2 on and whose clock report what they gave and took, and whose logs aren't near their limit of size. If
/// both buses went to their end, the pair doesn't show what a pair shows of which a bus found its log full, even if both logs have the
/// greatest number of entries.
pub fn a_pair_that_ended_was_not_refused()
    ensures { (most : ℕ) (old new : PairView) (origin others_origin origin' others_origin' : Origin)
        (back others_back : CoreState) → PairTells old
        → log_size back.log + max 131072 (largest_command back.origin) ≤ most_size
        → log_size others_back.log + max 131072 (largest_command others_back.origin) ≤ most_size
        → PairRuns most old new origin others_origin back others_back PairWhy.Ended
        → PairRuns most old new origin' others_origin' back others_back PairWhy.Events → ⊥ }
{}

/// The texts of the two logs determine both: two pairs whose logs have the same texts have the same logs, whatever their scripts were
/// and however they ended.
pub fn a_pair_has_its_two_logs()
    ensures { (most most' : ℕ) (old new old' new' : PairView)
        (origin others_origin origin' others_origin' : Origin)
        (back others_back back' others_back' : CoreState) (it it' : PairWhy)
        → origin.limit < 2 ^ 64 → others_origin.limit < 2 ^ 64
        → origin'.limit < 2 ^ 64 → others_origin'.limit < 2 ^ 64
        → PairRuns most old new origin others_origin back others_back it
        → PairRuns most' old' new' origin' others_origin' back' others_back' it'
        → log_text back.log ≡ log_text back'.log
        → log_text others_back.log ≡ log_text others_back'.log
        → (back.log ≡ back'.log) × (others_back.log ≡ others_back'.log) }
{}
