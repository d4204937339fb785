//! Theorems about the commands of the program. The calls change nothing: their contracts are the theorems.
ghost use Rattle.std.specs.Prelude.{◌≡◌, ◌≢◌, ◌≤◌, ◌<◌, ◌^◌, ◌+◌, ◌*◌, ◌⊎◌, ◌++◌, ◌∷◌, [], ℕ, List};
ghost use Rattle.std.specs.Prelude.{Option, Ok, Some, codes, length};
ghost use Rattle.std.specs.Fmt.{decimal};
ghost use Rattle.tb_body.specs.declared.program.Program.{Program};
ghost use Rattle.tb_cli.specs.declared.command.Command.TheVariants.{Check, Iface, Ring, Run, Sim};
ghost use Rattle.tb_cli.specs.declared.command.Command.TheVariants.{Verify};
ghost use Rattle.tb_cli.specs.Words.{asked};
ghost use Rattle.tb_edge.specs.Faults.{Rose};
ghost use Rattle.tb_edge.specs.Sinks.{Writes};
ghost use Rattle.tb_iface.specs.Interfaces.{interface_of};
ghost use Rattle.tb_log.specs.LogText.{log_text};
ghost use Rattle.tb_log.specs.declared.entry.Entry.{Entry};
ghost use Rattle.tb_run.specs.Views.{OutsideView};
ghost use Rattle.tb_run.specs.declared.ends.RunWhy.{RunWhy};
ghost use Rattle.tb_run.specs.declared.ends.RunWhy.TheVariants as why;
ghost use Rattle.tb_script.specs.Findings.{IsFound, Program'};
ghost use Rattle.tb_sim.specs.declared.ends.SimEnd.{SimEnd};
ghost use Rattle.tb_sim.specs.declared.ends.SimEnd.TheVariants.{Down};
ghost use Rattle.tb_top.specs.Completeness.{Due, MustEnd, MustTell, due_status, tool_status};
ghost use Rattle.tb_load.specs.Loading.{most_bytes};
ghost use Rattle.tb_top.specs.OneLog.{HasPut, PutsAll};
ghost use Rattle.tb_top.specs.Outcomes.{Comes};
ghost use Rattle.tb_top.specs.Reporting.{Reported};
ghost use Rattle.tb_top.specs.Ring.{IsRingOf, summary};
ghost use Rattle.tb_top.specs.Run.{IsRun, RunRequest};
ghost use Rattle.tb_top.specs.Sim.{IsSimOf, Request};
ghost use Rattle.tb_top.specs.Verify.{VerifyRequest};
ghost use Rattle.tb_top.specs.Views.{Seen};

use crate::status::{Bound, Edge, Status};

/// States that `check` of an accepted script ends with `Ended`, unless the files, the sink or standard error fails, or memory runs out.
pub fn an_accepted_script_is_told()
    ensures { (script bytes : List ℕ) (program : Program) (old new : Seen)
        (told more : Option (List ℕ)) (status : Status) → old.held script ≡ Some bytes
        → length bytes ≤ most_bytes → IsFound bytes (Program' program)
        → (Rose old.file_faults new.file_faults → ⊥)
        → (Rose old.outside.out_faults new.outside.out_faults → ⊥)
        → (status ≡ Status.Outside Edge.Err → ⊥)
        → Reported {A = Unit {0}} (Comes (Ok (Check script)) old new) told more status
        → (status ≡ Status.Ended) ⊎ (status ≡ Status.NoMemory) }
{}

/// States that `sim` ends with `Ended` if the simulation ends because the bus has shut down, unless the files, the sink or standard error
/// fails, or memory runs out.
pub fn a_simulation_that_ends_is_put()
    ensures { (request : Request) (old new : Seen) (told more : Option (List ℕ)) (status : Status)
        → MustEnd old.held request → (Rose old.file_faults new.file_faults → ⊥)
        → (Rose old.outside.out_faults new.outside.out_faults → ⊥)
        → (status ≡ Status.Outside Edge.Err → ⊥)
        → Reported {A = Unit {0}} (Comes (Ok (Sim request.script request.feed request.connects
        request.steps request.events)) old new) told more status
        → (status ≡ Status.Ended) ⊎ (status ≡ Status.NoMemory) }
{}

/// States that `verify` reports the finding on a log, unless the files, the sink or standard error fails, or memory runs out. The
/// findings: the log is a trace, its lines up to some line aren't a trace, a log has no capacity for one of its entries, or its file is too
/// long.
pub fn a_log_is_judged()
    ensures { (request : VerifyRequest) (due : Due) (old new : Seen) (told more : Option (List ℕ))
        (status : Status) → MustTell old.held request due
        → (Rose old.file_faults new.file_faults → ⊥)
        → (Rose old.outside.out_faults new.outside.out_faults → ⊥)
        → (status ≡ Status.Outside Edge.Err → ⊥)
        → Reported {A = Unit {0}}
        (Comes (Ok (Verify request.script request.log request.connects)) old new) told more status
        → (status ≡ due_status due) ⊎ (status ≡ Status.NoMemory) }
{}

/// States that `iface` of an accepted script ends with `Ended` for a tool of the script, and with `Stranger` for any other argument,
/// unless the files, the sink or standard error fails, or memory runs out.
pub fn a_tool_of_a_script_has_its_interface_put()
    ensures { (script tool bytes : List ℕ) (program : Program) (old new : Seen)
        (told more : Option (List ℕ)) (status : Status) → old.held script ≡ Some bytes
        → length bytes ≤ most_bytes → IsFound bytes (Program' program)
        → (Rose old.file_faults new.file_faults → ⊥)
        → (Rose old.outside.out_faults new.outside.out_faults → ⊥)
        → (status ≡ Status.Outside Edge.Err → ⊥)
        → Reported {A = Unit {0}} (Comes (Ok (Iface script tool)) old new) told more status
        → (status ≡ tool_status (interface_of program tool)) ⊎ (status ≡ Status.NoMemory) }
{}

/// States that `ring` with any accepted arguments ends with `Ended`, unless the sink or standard error fails, or memory runs out.
pub fn a_ring_is_put()
    ensures words { (words : List (List ℕ)) (n k : ℕ) (old new : Seen)
        (told more : Option (List ℕ)) (status : Status) → asked words ≡ Ok (Ring n k)
        → (Rose old.outside.out_faults new.outside.out_faults → ⊥)
        → (status ≡ Status.Outside Edge.Err → ⊥)
        → Reported {A = Unit {0}} (Comes (asked words) old new) told more status
        → (status ≡ Status.Ended) ⊎ (status ≡ Status.NoMemory) }

    // The arguments are accepted only with numbers in these ranges.
    ensures numbers { (n k : ℕ) (old new : Seen) (told more : Option (List ℕ)) (status : Status)
        → 2 ≤ n
        → n ≤ 10000 → 1 ≤ k → n * k ≤ 1000000
        → (Rose old.outside.out_faults new.outside.out_faults → ⊥)
        → (status ≡ Status.Outside Edge.Err → ⊥)
        → Reported {A = Unit {0}} (Comes (Ok (Ring n k)) old new) told more status
        → (status ≡ Status.Ended) ⊎ (status ≡ Status.NoMemory) }
{}

/// States that the written bytes of a run are the text of one log alone. If two runs wrote their whole texts, and wrote the same bytes,
/// they have the same log, even if their scripts differ.
pub fn a_run_has_one_log()
    ensures { (held other_held : List ℕ → Option (List ℕ)) (request other_request : RunRequest)
        (old new other_old other_new : OutsideView) (it other_it : RunWhy) (bytes : List ℕ)
        (run : IsRun held request old new it)
        (other : IsRun other_held other_request other_old other_new other_it)
        → request.events < 2 ^ 64 → other_request.events < 2 ^ 64 → PutsAll it → PutsAll other_it
        → HasPut bytes old.put new.put → HasPut bytes other_old.put other_new.put
        → run.back.log ≡ other.back.log }
{}

/// States that two simulations that wrote their whole texts, and wrote the same bytes, have the same log, even if their scripts differ.
pub fn a_simulation_has_one_log()
    ensures { (held other_held : List ℕ → Option (List ℕ)) (request other_request : Request)
        (log other : List Entry) (last other_last : SimEnd)
        (old new other_old other_new : Option (List ℕ)) (bytes : List ℕ)
        → request.events < 2 ^ 64 → other_request.events < 2 ^ 64
        → IsSimOf held request log last → IsSimOf other_held other_request other other_last
        → Writes old new (log_text log) → Writes other_old other_new (log_text other)
        → HasPut bytes old new → HasPut bytes other_old other_new → log ≡ other }
{}

/// States the summary that `ring` writes for `n` processes: `n * k + 1` steps, and the last step is the shutdown.
pub fn a_ring_has_one_summary()
    ensures words { (words : List (List ℕ)) (n k : ℕ) (log : List Entry) (last : SimEnd)
        → asked words ≡ Ok (Ring n k) → IsRingOf n k log last
        → (last ≡ Down) × (summary n log ≡ codes "processes " ++ decimal n ++ codes " steps "
        ++ decimal (n * k + 1) ++ codes " end " ++ codes "shutdown" ++ 10 ∷ []) }
    ensures numbers { (n k : ℕ) (log : List Entry) (last : SimEnd) → 2 ≤ n → n ≤ 10000 → 1 ≤ k
        → n * k ≤ 1000000 → IsRingOf n k log last
        → (last ≡ Down) × (summary n log ≡ codes "processes " ++ decimal n ++ codes " steps "
        ++ decimal (n * k + 1) ++ codes " end " ++ codes "shutdown" ++ 10 ∷ []) }
{}

/// States that `run` of an accepted script ends with `Ended`, unless a part of the environment fails, memory runs out, or the log is full.
/// If it ends because the log is full, the outcome of such a run holds.
pub fn a_run_of_an_accepted_script_ends()
    ensures { (request : RunRequest) (bytes : List ℕ) (program : Program) (old new : Seen)
        (told more : Option (List ℕ)) (status : Status)
        → old.held request.script ≡ Some bytes → length bytes ≤ most_bytes
        → IsFound bytes (Program' program)
        → (Rose old.file_faults new.file_faults → ⊥)
        → (Rose old.outside.out_faults new.outside.out_faults → ⊥)
        → (Rose old.outside.clock_faults new.outside.clock_faults → ⊥)
        → (Rose old.outside.crew_faults new.outside.crew_faults → ⊥)
        → (status ≡ Status.Outside Edge.Err → ⊥)
        → Reported {A = Unit {0}} (Comes (Ok (Run request.script request.connects request.ticks
        request.events)) old new) told more status
        → (status ≡ Status.Ended) ⊎ ((status ≡ Status.NoMemory)
        ⊎ ((status ≡ Status.Limit Bound.Events)
        × IsRun old.held request old.outside new.outside why.Events)) }
{}
