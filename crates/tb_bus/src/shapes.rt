//! Theorems about the shape and the size of the entries of traces. The calls change nothing: their contracts are the theorems.

ghost use Rattle.std.specs.Prelude.{◌≡◌, ◌≤◌, ℕ, List, Some};
ghost use Rattle.std.specs.List.{All};
ghost use Rattle.tb_log.specs.Limits.{entry_size};
ghost use Rattle.tb_log.specs.Shapes.{InShape, IsOutInShape};
ghost use Rattle.tb_log.specs.declared.entry.Out.{Out};
ghost use Rattle.tb_log.specs.declared.entry.Entry.{Entry};
ghost use Rattle.tb_tools.specs.Finding.{next_out};
ghost use Rattle.tb_bus.specs.declared.origin.Origin.{Origin};
ghost use Rattle.tb_bus.specs.Buses.{Bus, start};
ghost use Rattle.tb_bus.specs.Traces.{IsLegal, IsTrace};
ghost use Rattle.tb_bus.specs.Reached.{Reaches};
ghost use Rattle.tb_bus.specs.Waiting.{IsBusInShape};
ghost use Rattle.tb_bus.specs.Commands.{AreNamed, IsNamed, most_entry_size};

/// States that each entry that can follow on a reached bus is in shape. Each entry of a trace from the initial bus is also in shape.
pub fn entries_are_in_shape()
    ensures legal { (origin : Origin) (bus next : Bus) (entry : Entry) → Reaches origin bus
        → IsLegal bus entry next → InShape entry }
    ensures trace { (origin : Origin) (log : List Entry)
        → IsTrace (start origin) log → All InShape log }
{}

/// States that the values in stores, the notes in queues, and the contents of lanes are in shape on a reached bus.
pub fn what_waits_is_in_shape()
    ensures { (origin : Origin) (bus : Bus) → Reaches origin bus → IsBusInShape bus }
{}

/// States that each command that is queued on a lane of a reached bus is a command of the origin. The origin has the commands that start
/// the first lanes, and the commands of the kinds of tools.
pub fn commands_are_the_origins()
    ensures lanes { (origin : Origin) (bus : Bus) → Reaches origin bus → AreNamed origin bus.bench }
    ensures next { (origin : Origin) (bus : Bus) (lane : ℕ) (out : Out) → Reaches origin bus →
        next_out lane bus.bench ≡ Some out → IsNamed origin out }
{}

/// States that the next output of each lane of a reached bus is in shape.
pub fn what_is_handed_out_is_in_shape()
    ensures { (origin : Origin) (bus : Bus) (lane : ℕ) (out : Out) → Reaches origin bus →
        next_out lane bus.bench ≡ Some out → IsOutInShape out }
{}

/// States that the size of each entry that can follow on a reached bus is limited. The limit is the size of two terms of the largest size,
/// or the size of the origin's largest command if that is larger.
pub fn entries_are_limited()
    ensures { (origin : Origin) (bus next : Bus) (entry : Entry) → Reaches origin bus →
        IsLegal bus entry next → entry_size entry ≤ most_entry_size origin }
{}
