//! Theorems about the places of any script. The calls change nothing: their contracts are the theorems.

ghost use Rattle.std.specs.Prelude.{◌≡◌, ◌+◌, ◌++◌, ◌∷◌, ℕ, List, All, Contains};
ghost use Rattle.std.specs.List.{AllZip};
ghost use Rattle.tb_body.specs.declared.program.Program.{Program};
ghost use Rattle.tb_syntax.specs.declared.script.ProcDef.{ProcDef};
ghost use Rattle.tb_syntax.specs.declared.script.Script.{Script};
ghost use Rattle.tb_script.specs.Findings.{HasProgram};
ghost use Rattle.tb_source_map.specs.declared.places.ProcessPlace.{ProcessPlace};
ghost use Rattle.tb_source_map.specs.Places.{ArePlaces, IsAtomOf, IsPlaced};
ghost use Rattle.tb_source_map.specs.Sites.{sites_of};
ghost use Rattle.tb_source_map.specs.Spots.{characters, lines_ended, spot_behind};

/// States that the places of a source and the bodies of its program belong together, one place for each body. The body is the
/// expansion of a process of the script, and the place is that of this process. Each atom of the body belongs to one atom of the
/// script, in the order of the expansion: the script's atom becomes the body's atom, and the atom's mark is the first token of the
/// script's atom.
pub fn atoms_come_from_their_places()
    ensures { (text : List ℕ) (program : Program) (places : List ProcessPlace)
        → HasProgram text program → (are : ArePlaces text places)
        → AllZip (IsPlaced are.tokens are.script) program.bodies places }
{}

/// States that the atoms of an expansion come from atoms in the bodies of processes that the script defines.
pub fn sites_are_atoms_of_the_script()
    ensures { (script : Script) (d : ProcDef) → Contains script.procs d
        → All (IsAtomOf script) (sites_of script d) }
{}

/// States that the line of a byte is one more than the number of lines that end before the byte. The column is one more than the
/// number of characters between the byte and the newline before it.
pub fn columns_count_from_the_line()
    ensures first { (line : List ℕ) → lines_ended line ≡ 0
        → spot_behind line ≡ record { line = 1; column = characters line + 1 } }
    ensures later { (before line : List ℕ) → lines_ended line ≡ 0
        → spot_behind (before ++ 10 ∷ line)
        ≡ record { line = lines_ended before + 2; column = characters line + 1 } }
{}
