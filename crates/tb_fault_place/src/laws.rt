//! A theorem about errors of any script. The call changes nothing: its contract is the theorem.
ghost use Rattle.std.specs.Prelude.{ℕ, List};
ghost use Rattle.tb_fault_place.specs.FaultNames.{BeginsLine};
ghost use Rattle.tb_fault_place.specs.Points.{IsPoint};
ghost use Rattle.tb_fault_place.specs.declared.point.Point.{Point};

/// States that the text of an error's line after `toolbus: ` begins with `script: ` and the name of the error.
pub fn lines_begin_with_names()
    ensures { (text : List ℕ) (point : Point) → IsPoint text point → BeginsLine point.fault }
{}
