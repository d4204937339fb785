//! Theorems about the lines that a trace takes from tools. The calls change nothing: their contracts are the theorems.

ghost use Rattle.std.specs.Prelude.{◌≡◌, ◌++◌, ◌∷◌, ℕ, List, Some, Contains};
ghost use Rattle.tb_terms.specs.declared.term.Term.{Term};
ghost use Rattle.tb_log.specs.declared.entry.Entry.{Entry};
ghost use Rattle.tb_log.specs.declared.entry.Entry.TheVariants.{Did};
ghost use Rattle.tb_log.specs.declared.entry.Label.{Label};
ghost use Rattle.tb_tools.specs.Lanes.{Tool, tool_at};
ghost use Rattle.tb_bus.specs.declared.origin.Origin.{Origin};
ghost use Rattle.tb_bus.specs.Buses.{Bus, start};
ghost use Rattle.tb_bus.specs.Reached.{Reaches};
ghost use Rattle.tb_bus.specs.Traces.{IsLegal, IsTrace, after};
ghost use Rattle.tb_iface.specs.Hearing.{heard_by};
ghost use Rattle.tb_heard_laws.specs.Given.{WasGiven};
ghost use Rattle.tb_heard_laws.specs.Taking.{Takes};

/// States that each line that the program takes from a tool by a trace was given earlier: before the step, a lane gave the line that
/// the term means, and the bus took it.
pub fn heard_lines_were_given()
    ensures { (origin : Origin) (before rest : List Entry) (label : Label) (tool : List ℕ)
        (term : Term) → IsTrace (start origin) (before ++ Did label ∷ rest)
        → Contains (heard_by tool (Did label)) term → WasGiven before term }
{}

/// States that if a step takes a line from the tool of a lane, the program takes this line from the tool by the entry of the step.
pub fn taken_lines_are_heard()
    ensures { (origin : Origin) (bus : Bus) (label : Label) (lane : ℕ) (before later : Tool)
        (line : Term) → Reaches origin bus → IsLegal bus (Did label) (after bus (Did label))
        → tool_at lane bus.bench ≡ Some before
        → tool_at lane (after bus (Did label)).bench ≡ Some later → Takes before later line
        → Contains (heard_by before.name (Did label)) line }
{}
