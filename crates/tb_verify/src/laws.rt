//! Theorems about the verdicts on a log. The call changes nothing: its clauses are the theorems.

ghost use Rattle.std.specs.Prelude.{◌≡◌, ◌<◌, ℕ, List};
ghost use Rattle.tb_bus.specs.declared.origin.Origin.{Origin};
ghost use Rattle.tb_verify.specs.Verdicts.{IsCrowdedAt, IsVerdict, LeavesAt};
ghost use Rattle.tb_verify.specs.declared.verdict.Verdict.{Verdict};

/// A log has at most one verdict. If the log is crowded at a line, and its verdict is a line, the crowded line is before the line of the
/// verdict.
pub fn a_log_has_one_verdict()
    ensures one { (origin : Origin) (bytes : List ℕ) (one other : Verdict)
        → IsVerdict origin bytes one → IsVerdict origin bytes other → one ≡ other }
    ensures before { (origin : Origin) (bytes : List ℕ) (crowded leaves : ℕ)
        → IsCrowdedAt origin bytes crowded → LeavesAt origin bytes leaves → crowded < leaves }
{}
