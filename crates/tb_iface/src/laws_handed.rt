//! Theorems about the lines that a trace sends to tools. The calls change nothing: their contracts are the theorems.

ghost use Rattle.std.specs.Prelude.{◌++◌, ◌∷◌, ℕ, List, Contains};
ghost use Rattle.tb_terms.specs.declared.term.Term.{Term};
ghost use Rattle.tb_log.specs.declared.entry.Entry.{Entry};
ghost use Rattle.tb_log.specs.declared.entry.Entry.TheVariants.{Gave};
ghost use Rattle.tb_log.specs.declared.entry.Out.TheVariants.{Line};
ghost use Rattle.tb_tools.specs.Lanes.{lane_at};
ghost use Rattle.tb_bus.specs.declared.origin.Origin.{Origin};
ghost use Rattle.tb_bus.specs.Buses.{start};
ghost use Rattle.tb_bus.specs.Traces.{IsTrace, replay};
ghost use Rattle.tb_iface.specs.Handing.{IsFor, WasPut, WasPutAsListed};
ghost use Rattle.tb_iface.specs.Hearing.{told};

/// For each line that a trace sends to a lane, an earlier step of the trace queues the line. If the bus shuts down at this step, the
/// line is for every tool. If not, the line is for the tool of the lane. By the log, each tool that a line is for receives this line.
pub fn lines_handed_out_were_put()
    ensures put { (origin : Origin) (before rest : List Entry) (lane : ℕ) (term : Term)
        → IsTrace (start origin) (before ++ Gave lane (Line term) ∷ rest)
        → WasPut origin before lane term }
    ensures told { (origin : Origin) (log : List Entry) (lane : ℕ) (term : Term) (tool : List ℕ)
        → (put : WasPut origin log lane term)
        → IsFor tool put.label (lane_at lane (replay (start origin) put.before).bench)
        → Contains (told tool log) term }
{}

/// Each line that a trace sends to a lane is for a tool. The line matches a `to` pattern of the interface of each tool that the
/// line is for.
pub fn lines_handed_out_match_the_interface()
    ensures { (origin : Origin) (before rest : List Entry) (lane : ℕ) (term : Term)
        → IsTrace (start origin) (before ++ Gave lane (Line term) ∷ rest)
        → WasPutAsListed origin before lane term }
{}
