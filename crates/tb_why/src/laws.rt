//! Theorems about reasons, and about the bus that `why` explains. The calls change nothing: their contracts are the theorems.

ghost use Rattle.std.specs.Prelude.{◌≡◌, ◌↔◌, ℕ, Contains, IsTrue, List, Some, false, is_none, slice_get};
ghost use Rattle.tb_func.specs.Stores.{sort_at};
ghost use Rattle.tb_process_steps.specs.Offers.{Offered, offers};
ghost use Rattle.tb_bus.specs.Buses.{Bus, Proc, atoms_of, start};
ghost use Rattle.tb_bus.specs.Reached.{Reaches};
ghost use Rattle.tb_bus.specs.Steps.{Step, place_of, steps};
ghost use Rattle.tb_bus.specs.Traces.{IsTrace, replay};
ghost use Rattle.tb_bus.specs.declared.origin.Origin.{Origin};
ghost use Rattle.tb_log.specs.declared.entry.Entry.{Entry};
ghost use Rattle.tb_why.specs.Ends.{while_up};
ghost use Rattle.tb_why.specs.Failing.{Fails};
ghost use Rattle.tb_why.specs.Possible.{Shows, can_happen};
ghost use Rattle.tb_why.specs.Reasons.{reason_now, scene_of, sorts_in};
ghost use Rattle.tb_why.specs.Standing.{offering_of};
ghost use Rattle.tb_why.specs.declared.reason.Reason.{Reason};

/// On a bus that is up, an offer has no reason if and only if it takes part in a move: its action has an effect, or it shakes hands with
/// an offer of another process. The theorem assumes that the slots of the offered store have the types of the body.
pub fn no_reason_is_a_move()
    ensures { (bus : Bus) (proc : Proc) (offered : Offered) → bus.down ≡ false
        → ((slot : ℕ) → sort_at offered.store slot
        ≡ sorts_in (slice_get bus.program.bodies proc.body) slot)
        → is_none (reason_now bus.down (scene_of bus) proc.number proc.body proc.inbox
        (offering_of (atoms_of bus.program.bodies proc.body) bus.now offered))
        ≡ can_happen bus proc offered }
{}

/// On a bus that a program reaches and that is up, an offer has no reason if and only if a step of the bus shows its atom:
/// as the atom that acts, or as the atom that receives.
pub fn no_reason_is_a_step()
    ensures { (origin : Origin) (bus : Bus) (proc : Proc) (offered : Offered)
        → Reaches origin bus → bus.down ≡ false
        → Contains bus.procs proc → Contains (offers proc.term proc.store) offered
        → IsTrue (is_none (reason_now bus.down (scene_of bus) proc.number proc.body proc.inbox
        (offering_of (atoms_of bus.program.bodies proc.body) bus.now offered)))
        ↔ ((step : Step) × Contains (steps bus) step
        × Shows step.label (place_of proc offered)) }
{}

/// The bus that `why` explains hasn't shut down.
pub fn the_explained_bus_is_up()
    ensures { (origin : Origin) (log : List Entry) → IsTrace (start origin) log
        → (replay (start origin) (while_up log)).down ≡ false }
{}

/// If an offer has a reason, the condition that the reason names fails. The conditions before it hold: the bus is up, the times hold, and
/// the values and patterns exist. `Fails` states this with the definitions of the bus.
pub fn each_reason_fails()
    ensures { (bus : Bus) (proc : Proc) (offered : Offered) (reason : Reason)
        → reason_now bus.down (scene_of bus) proc.number proc.body proc.inbox
        (offering_of (atoms_of bus.program.bodies proc.body) bus.now offered) ≡ Some reason
        → Fails bus proc offered reason }
{}
