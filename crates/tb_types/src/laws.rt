//! Theorems about the first errors of scripts. The functions do nothing: their contracts are the theorems.

ghost use Rattle.std.specs.Prelude.{◌≡◌, ℕ};
ghost use Rattle.tb_syntax.specs.declared.script.Script.{Script};
ghost use Rattle.tb_types.specs.declared.violation.Rule.{Rule};
ghost use Rattle.tb_types.specs.Conditions.{IsFirst, Proper};

/// States that a script has at most one first error, and none if it is well-formed.
pub fn first_fault_is_one()
    ensures one { (script : Script) (condition other : Rule) (token later : ℕ)
        → IsFirst script condition token → IsFirst script other later
        → (condition ≡ other) × (token ≡ later) }
    ensures none { (script : Script) (condition : Rule) (token : ℕ) → Proper script
        → IsFirst script condition token → ⊥ }
{}
