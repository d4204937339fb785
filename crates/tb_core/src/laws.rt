//! A theorem about a log that was full. The call changes nothing: its contract is the theorem.

ghost use Rattle.std.specs.Prelude.{◌≡◌, ◌≤◌, ◌++◌, List, length, true};
ghost use Rattle.tb_log.specs.declared.entry.Entry.{Entry};
ghost use Rattle.tb_bus.specs.Buses.{start};
ghost use Rattle.tb_bus.specs.Commands.{largest_command};
ghost use Rattle.tb_bus.specs.Traces.{IsTrace};
ghost use Rattle.tb_core.specs.Cores.{Call, CoreState, is_full};
ghost use Rattle.tb_core.specs.Full.{IsAtLimit, MayCall};

/// Proves that a log without capacity for the entry of a call is at its limit: it has as many entries as its limit, or is nearly too
/// large (`IsAtLimit`). A nearly too large log has no capacity for an entry that is as large as two terms can be together, or if this
/// is larger, as the largest command of the origin. This also holds of each log within the limit that begins with such a log.
pub fn a_full_log_is_at_its_limit()
    ensures full { (core : CoreState) (call : Call) → IsTrace (start core.origin) core.log →
        MayCall call → is_full core call ≡ true → length core.log ≤ core.origin.limit →
        IsAtLimit (largest_command core.origin) core.origin core.log }
    ensures later { (core : CoreState) (call : Call) (more : List Entry) →
        IsTrace (start core.origin) core.log → MayCall call → is_full core call ≡ true →
        length (core.log ++ more) ≤ core.origin.limit →
        IsAtLimit (largest_command core.origin) core.origin (core.log ++ more) }
{}
