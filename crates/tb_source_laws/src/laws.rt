//! Theorems about the sources of scripts and their programs. The calls change nothing: their contracts are the theorems.

ghost use Rattle.std.specs.Prelude.{◌≡◌, ℕ, List, false, Contains};
ghost use Rattle.tb_body.specs.declared.body.Body.{Body};
ghost use Rattle.tb_body.specs.declared.program.Program.{Program};
ghost use Rattle.tb_body.specs.declared.program.Tool.{Tool};
ghost use Rattle.tb_syntax.specs.declared.script.ProcDef.{ProcDef};
ghost use Rattle.tb_syntax.specs.declared.script.Script.{Script};
ghost use Rattle.tb_syntax.specs.Words.{is_sort_word};
ghost use Rattle.tb_script.specs.Findings.{HasProgram};
ghost use Rattle.tb_script.specs.Programs.{IsTextOf};
ghost use Rattle.tb_source_laws.specs.Disrupts.{HasSymbol, proc_has_disrupt, tree_has_disrupt};

/// States that if a source doesn't have the symbol `>>`, no process of its script has a disrupt (`script`), and no body of its
/// program has one (`program`).
pub fn without_the_symbol_there_is_no_disrupt()
    ensures script { (text : List ℕ) (script : Script) (definition : ProcDef)
        → IsTextOf text script → (HasSymbol text → ⊥) → Contains script.procs definition
        → proc_has_disrupt definition.body ≡ false }
    ensures program { (text : List ℕ) (program : Program) (body : Body)
        → HasProgram text program → (HasSymbol text → ⊥) → Contains program.bodies body
        → tree_has_disrupt body.tree ≡ false }
{}

/// States that no tool of an accepted source has the name of a built-in type.
pub fn tools_have_no_names_of_types()
    ensures { (text : List ℕ) (program : Program) (tool : Tool) → HasProgram text program
        → Contains program.tools tool → is_sort_word tool.name ≡ false }
{}
