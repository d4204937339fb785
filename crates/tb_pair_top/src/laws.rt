//! Theorems about all pairs. The calls change nothing: their contracts are the theorems.

ghost use Rattle.std.specs.Prelude.{◌≡◌, ◌<◌, ◌^◌, ◌⊎◌, ℕ, List, Option, Ok, Err};
ghost use Rattle.tb_bus.specs.declared.origin.Origin.{Origin};
ghost use Rattle.tb_cli.specs.declared.pair_command.PairCommand.{PairCommand};
ghost use Rattle.tb_cli.specs.Words.{asked_pair};
ghost use Rattle.tb_pair_run.specs.Views.{PairView};
ghost use Rattle.tb_pair_run.specs.declared.ends.PairWhy.{PairWhy};
ghost use Rattle.tb_pair_top.specs.Completeness.{HoldsScript, NothingFailed};
ghost use Rattle.tb_pair_top.specs.Outcomes.{Comes, HaveRun, IsPair, text_of};
ghost use Rattle.tb_pair_top.specs.Reporting.{Reported};
ghost use Rattle.tb_pair_top.specs.Views.{Seen};
ghost use Rattle.tb_pair_top.specs.declared.fault.PairFault.TheVariants as fault;

use crate::status::{PairEdge, PairStatus};

/// States that a pair of two accepted scripts ends with `Ended`, unless a part of the environment fails, memory runs out, or a log is
/// full. If it ends because a log is full, the outcome of such a pair holds.
pub fn a_pair_of_accepted_scripts_ends()
    ensures { (words : List (List ℕ)) (command : PairCommand) (old new : Seen)
        (told more : Option (List ℕ)) (status : PairStatus)
        → asked_pair words ≡ Ok command → HoldsScript (old.held command.first)
        → HoldsScript (old.held command.second) → NothingFailed old new
        → (status ≡ PairStatus.Outside PairEdge.Err → ⊥)
        → Reported {A = Unit {0}} (Comes (asked_pair words) old new) told more status
        → (status ≡ PairStatus.Ended) ⊎ ((status ≡ PairStatus.NoMemory)
        ⊎ ((status ≡ PairStatus.Limit)
        × IsPair {A = Unit {0}} command old new (Err fault.Limit))) }
{}

/// States that the text of a pair is the text of its two logs alone. If two pairs have the same text, they have the same logs, even if
/// their scripts differ.
pub fn a_pair_has_two_logs()
    ensures { (most other_most : ℕ) (one two other_one other_two : Origin)
        (old new other_old other_new : PairView) (it other_it : PairWhy)
        (ran : HaveRun most one two old new it)
        (other : HaveRun other_most other_one other_two other_old other_new other_it)
        → one.limit < 2 ^ 64 → two.limit < 2 ^ 64 → other_one.limit < 2 ^ 64
        → other_two.limit < 2 ^ 64 → text_of ran ≡ text_of other
        → (ran.back.log ≡ other.back.log) × (ran.others_back.log ≡ other.others_back.log) }
{}
