//! The theorem that a walk has no branches if and only if its process has ended.
ghost use Rattle.std.specs.Prelude.{◌≡◌, ◌↔◌, [], None};
ghost use Rattle.tb_code.specs.declared.code.Code.{Code};
ghost use Rattle.tb_walk.specs.WalkViews.{IsOnCode, walking_of};
ghost use Rattle.tb_walk.specs.declared.walk.Walk.{Walk};

/// States that the row of a walk is empty if and only if its process has ended.
pub fn rows_end_with_their_terms()
    ensures { (code : Code) (walk : Walk) → IsOnCode code walk
        → (walk.row ≡ []) ↔ ((walking_of code walk).term ≡ None) }
{}
