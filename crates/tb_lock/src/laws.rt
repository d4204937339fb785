//! Theorems about the entries that the handles of a shared bus see. The calls change nothing: their contracts are the theorems.
ghost use Rattle.std.specs.Prelude.{◌≡◌, ◌≤◌, ◌++◌, List, length, true};
ghost use Rattle.tb_log.specs.declared.entry.Entry.{Entry};
ghost use Rattle.tb_core.specs.Cores.{CoreState, Call, entries_of};
ghost use Rattle.tb_lock.specs.declared.rights.Rights.{Rights};
ghost use Rattle.tb_lock.specs.Rights.{AreAmong, has, own, right_to};
ghost use Rattle.tb_lock.specs.Seats.{SeatView};
ghost use Rattle.tb_lock.specs.Calls.{Meets, StopsBus, Joins, noted};

/// Choose some rights of a handle, and take the entries that need one of these rights. After a call, the handle has seen exactly those
/// that it had seen before, and then the call's own. The right for a call is also the right for the entries that it adds. A call adds
/// at most one entry.
pub fn calls_add_their_own()
    ensures seen { (old : SeatView) (core : CoreState) (entries : List Entry) (some : Rights)
        → Meets old core → AreAmong some old.rights
        → own some (noted old core entries).seen ≡ own some old.seen ++ own some entries }
    ensures added { (rights : Rights) (core : CoreState) (call : Call)
        → has rights (right_to call) ≡ true
        → own rights (entries_of core call) ≡ entries_of core call }
    ensures one { (core : CoreState) (call : Call) → length (entries_of core call) ≤ 1 }
{}

/// Choose some rights of a handle, and take the entries that need one of these rights. The log of the core in the handle's turn has
/// exactly those that the handle had seen before. After a call that changes nothing (`Observes`), and after `stop`, the handle has seen
/// exactly these.
pub fn looks_add_nothing()
    ensures meets { (old : SeatView) (core : CoreState) (some : Rights) → Meets old core
        → AreAmong some old.rights → own some core.log ≡ own some old.seen }
    ensures looks { (old new : SeatView) (core : CoreState) (some : Rights) → Meets old core
        → new ≡ record old { seen = core.log } → AreAmong some old.rights
        → own some new.seen ≡ own some old.seen }
    ensures stops { (old new : SeatView) (some : Rights) → StopsBus old new
        → AreAmong some old.rights → own some new.seen ≡ own some old.seen }
{}

/// Choose some rights of one of two handles, and take the entries that need one of these rights. After a join, the joined handle has
/// seen exactly those that this one had seen before.
pub fn joins_keep_their_own()
    ensures first { (old other new : SeatView) (some : Rights) → Joins old other new
        → AreAmong some old.rights → own some new.seen ≡ own some old.seen }
    ensures second { (old other new : SeatView) (some : Rights) → Joins old other new
        → AreAmong some other.rights → own some new.seen ≡ own some other.seen }
{}
