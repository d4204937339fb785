//! A theorem about sources, whatever the loader returns. The call changes nothing: its contract is the theorem.

ghost use Rattle.std.specs.Prelude.{◌≡◌, ℕ, List};
ghost use Rattle.tb_body.specs.declared.program.Program.{Program};
ghost use Rattle.tb_script.specs.Findings.{HasProgram};

/// States that a source has at most one program.
pub fn a_text_has_one_program()
    ensures { (text : List ℕ) (program other : Program) → HasProgram text program
        → HasProgram text other → program ≡ other }
{}
