//! Theorems about lines of tools. The calls change nothing: their clauses are the theorems.

ghost use Rattle.std.specs.Prelude.{◌≡◌, ℕ, List};
ghost use Rattle.tb_log.specs.declared.entry.ToolLine.{ToolLine};
ghost use Rattle.tb_tool_line.specs.ToolLines.{IsToolLine};

/// Each sequence of bytes is at most one line of a tool.
pub fn tool_lines_are_unique()
    ensures { (bytes : List ℕ) (line other : ToolLine) → IsToolLine bytes line
        → IsToolLine bytes other → line ≡ other }
{}

/// Each sequence of bytes is a line of a tool, maybe a bad one.
pub fn each_line_is_one()
    ensures { (bytes : List ℕ) → (line : ToolLine) × IsToolLine bytes line }
{}
