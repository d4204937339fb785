//! Theorems about the disrupts of a body. The calls change nothing: their contracts are the theorems.

ghost use Rattle.std.specs.Prelude.{◌≡◌, ℕ, List, Some, Contains};
ghost use Rattle.tb_func.specs.declared.slot.Slot.{Slot};
ghost use Rattle.tb_body.specs.declared.body.Body.{Body};
ghost use Rattle.tb_process_steps.specs.Processes.{Process, fresh};
ghost use Rattle.tb_process_steps.specs.Offers.{Offered, offers};
ghost use Rattle.tb_process_steps.specs.Reached.{Reaches};
ghost use Rattle.tb_process_steps.specs.Transfers.{AreApart, RightWent, atoms_of};
ghost use Rattle.tb_transfer_laws.specs.Entering.{HasDisrupt, GoesOn};

/// States that the two sides of each disrupt of a body have no atom in common (`apart`). If only this disrupt runs, and its right
/// side has taken a step, each offer has an atom of the right side and none has an atom of the left side (`gone`).
pub fn sides_of_a_disrupt_are_apart()
    ensures apart { (body : Body) (x y : Process) → HasDisrupt x y (fresh body.tree)
        → AreApart x y }
    ensures gone { (body : Body) (x y term : Process) (ticks : ℕ) (store : List Slot)
        (offered : Offered) → HasDisrupt x y (fresh body.tree) → RightWent x y ticks term
        → Contains (offers term store) offered → Contains (atoms_of x) offered.atom → ⊥ }
{}

/// States that a step of the right side of a disrupt drops its left side, wherever the disrupt is in the body: in a sequence, a
/// choice, a star, a merge, another disrupt, a test, or a `let`. After the step, and until the process enters the disrupt again, no
/// offer has an atom of the left side.
pub fn a_step_of_the_right_side_drops_the_left_side()
    ensures { (body : Body) (x y term rest later : Process) (ticks : ℕ) (store other : List Slot)
        (offered found : Offered) → HasDisrupt x y (fresh body.tree)
        → Reaches body.tree ticks term → Contains (offers term store) offered
        → Contains (atoms_of y) offered.atom → offered.residual ≡ Some rest
        → GoesOn x y rest later → Contains (offers later other) found
        → Contains (atoms_of x) found.atom → ⊥ }
{}
