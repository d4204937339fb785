//! Theorems about the values of variables, and about the terms that a tool receives and sends by a log. The calls change nothing:
//! their contracts are the theorems.

ghost use Rattle.std.specs.Prelude.{◌≡◌, ℕ, List, Some, IsTrue, Contains, map, slice_get};
ghost use Rattle.tb_terms.specs.declared.term.Term.{Term};
ghost use Rattle.tb_func.specs.Stores.{are_well_sorted};
ghost use Rattle.tb_body.specs.declared.body.Body.{Body};
ghost use Rattle.tb_process_steps.specs.Walks.{sorts_of};
ghost use Rattle.tb_log.specs.declared.entry.Entry.{Entry};
ghost use Rattle.tb_bus.specs.declared.origin.Origin.{Origin};
ghost use Rattle.tb_bus.specs.Buses.{Bus, Proc, start};
ghost use Rattle.tb_bus.specs.Reached.{Reaches};
ghost use Rattle.tb_bus.specs.Traces.{IsTrace};
ghost use Rattle.tb_iface.specs.Hearing.{MatchesOne, told, heard};
ghost use Rattle.tb_iface.specs.Interfaces.{to_of, from_of};

/// On each bus that a program reaches, the variables of a process have the types that its body gives them. The value of each
/// variable has the variable's type.
pub fn values_have_the_sorts_of_their_slots()
    ensures sorts { (origin : Origin) (bus : Bus) (proc : Proc) → Reaches origin bus
        → Contains bus.procs proc
        → slice_get (map (λ (body : Body). body.sorts) origin.program.bodies) proc.body
        ≡ Some (sorts_of proc.store) }
    ensures values { (origin : Origin) (bus : Bus) (proc : Proc) → Reaches origin bus
        → Contains bus.procs proc → IsTrue (are_well_sorted proc.store) }
{}

/// If a log is a trace of the program, each term that a tool receives by the log matches a `to` pattern of the tool's interface.
/// Each term that the program takes from the tool by the log matches a `from` pattern. All tools of one name count as one tool.
pub fn told_and_heard_terms_match_the_interface()
    ensures told { (origin : Origin) (log : List Entry) (tool : List ℕ) (term : Term)
        → IsTrace (start origin) log → Contains (told tool log) term
        → MatchesOne (to_of origin.program tool) term }
    ensures heard { (origin : Origin) (log : List Entry) (tool : List ℕ) (term : Term)
        → IsTrace (start origin) log → Contains (heard tool log) term
        → MatchesOne (from_of origin.program tool) term }
{}
