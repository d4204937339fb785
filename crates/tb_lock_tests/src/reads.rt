//! Tests of reading the log of a shared bus, of several steps in one visit, and of a walk that goes from thread to thread.
ghost use Rattle.std.specs.Prelude.{◌≡◌, ◌≤◌, IfOk};
ghost use Rattle.tb_core.specs.Cores.{most_entries};
ghost use Rattle.tb_lock.specs.Rights.{all_rights};
ghost use Rattle.tb_lock.specs.Seats.{first_seat};

use crate::workers::side_by_side;
use std::alloc::Global;
use std::sync::Wait;
use std::test::Fail;
use tb_core::{Core, CoreFault, Stepped};
use tb_lock::{Rights, Seat, Shared};
use tb_log::{Entry, Input, Log, Seen, ToolLine, write_entry, write_seen};
use tb_process_steps::{Rewriter, Walker};
use tb_script::load;
use tb_terms::{Items, NoMemory, Term};
use tb_walk::Walk;

/// A script that asks its tool once.
const ASKS: &str = "tool calc is { command = \"calc\" } \
    process P is let C : calc, V : int in execute(calc, C?) . snd-eval(C, 7) . rec-value(C, V?) endlet \
    toolbus(P)";

/// The log of the script until no step is possible before the tool answers.
const ASKED: &str = "1 execute 1.1 calc(1)\n2 snd-eval 1.2 calc(1),7\n3 quiet\n";

/// The complete log, with the tool's answer.
const ANSWERED: &str =
    "1 execute 1.1 calc(1)\n2 snd-eval 1.2 calc(1),7\n3 quiet\n4 out 1 start \"calc\"\n\
    5 out 1 rec-eval(7)\n6 tick\n7 line 1 snd-value(49)\n8 rec-value 1.3 calc(1),49\n";

/// The log of the first six steps of `COUNTS`.
const SIX: &str = "1 set 1.1 1\n2 set 1.1 2\n3 set 1.1 3\n4 set 1.1 4\n5 set 1.1 5\n6 set 1.1 6\n";

/// A script that counts a number up without end.
const COUNTS: &str = "process P is let N : int in N := add(N, 1) * delta endlet toolbus(P)";

/// Returns a bus that runs a script, and its first seat. The log has a capacity of `limit` entries.
fn bus_of<W: Walker>(alloc: Global, script: &str, limit: u32) -> Result<(Shared<W>, Seat), Fail>
    requires { limit ≤ most_entries }
    ensures { IfOk result (λ made. made.1 ≡ first_seat made.0 made.1.origin) }
{
    let program = load(alloc, script.as_bytes())?;
    let core = Core::start(alloc, program, &Items::new(alloc), limit)?;
    match Shared::make(alloc, core) {
        Ok(made) => Ok(made),
        Err(_) => Err("no memory")?,
    }
}

/// Appends the lines of entries to a text. The first line has the number `before` plus 1.
fn put_lines(text: &mut Vec<u8>, before: u64, entries: &[Entry]) -> Result<(), NoMemory> {
    let mut number = before;
    for entry in entries {
        number = number.saturating_add(1);
        write_entry(number, entry, text)?;
    }
    Ok(())
}

/// Returns the text of a log.
fn log_text(alloc: Global, log: &Log) -> Result<Vec<u8>, NoMemory> {
    let mut text = Vec::new(alloc);
    for at in 0..log.len() {
        write_seen(at as u64 + 1, &log.at(at), &mut text)?;
    }
    Ok(text)
}

/// Returns whether the log of a core has exactly this text.
fn has_logged<W: Walker>(alloc: Global, core: Core<W>, wanted: &str) -> Result<bool, NoMemory> {
    let text = log_text(alloc, core.log())?;
    Ok(text.as_slice() == wanted.as_bytes())
}

/// Makes three steps, takes the two items that are queued on lane 1, delivers a tick and the tool's answer, and makes one more step.
fn ask<W: Walker, R: Wait>(rt: &R, bus: &Shared<W>, seat: &mut Seat) -> Result<(), CoreFault>
    requires own { seat.old.bus ≡ bus.now }
    requires whole { seat.old.rights ≡ all_rights }
    ensures same { (seat.new.bus ≡ seat.old.bus) × (seat.new.rights ≡ seat.old.rights)
        × (seat.new.room ≡ seat.old.room) }
{
    bus.step(rt, seat)?;
    bus.step(rt, seat)?;
    bus.step(rt, seat)?;
    bus.take_out(rt, seat, 1)?;
    bus.take_out(rt, seat, 1)?;
    bus.hand_in(rt, seat, Input::Tick)?;
    bus.hand_in(rt, seat, Input::Line(1, ToolLine::Value(Term::Int(49))))?;
    bus.step(rt, seat)?;
    Ok(())
}

/// Reads at most `most` entries of the log after its first `from` entries, appends their lines, and returns their number.
fn put_piece<W: Walker, R: Wait>(
    rt: &R,
    alloc: Global,
    bus: &Shared<W>,
    seat: &mut Seat,
    from: u64,
    most: usize,
    text: &mut Vec<u8>,
) -> Result<usize, NoMemory>
    requires own { seat.old.bus ≡ bus.now }
    ensures same { (seat.new.bus ≡ seat.old.bus) × (seat.new.rights ≡ seat.old.rights)
        × (seat.new.room ≡ seat.old.room) }
{
    let piece = bus.read_log(rt, alloc, seat, from, most)?;
    put_lines(text, from, piece.as_slice())?;
    Ok(piece.len())
}

/// Reads a log of eight entries in three pieces, and once more after its last entry. Returns the number of entries of each piece.
fn put_pieces<W: Walker, R: Wait>(
    rt: &R,
    alloc: Global,
    bus: &Shared<W>,
    seat: &mut Seat,
    text: &mut Vec<u8>,
) -> Result<(usize, usize, usize, usize), NoMemory>
    requires own { seat.old.bus ≡ bus.now }
    ensures same { (seat.new.bus ≡ seat.old.bus) × (seat.new.rights ≡ seat.old.rights)
        × (seat.new.room ≡ seat.old.room) }
{
    let first = put_piece(rt, alloc, bus, seat, 0, 3, text)?;
    let next = put_piece(rt, alloc, bus, seat, 3, 4, text)?;
    let last = put_piece(rt, alloc, bus, seat, 7, 10, text)?;
    let past = put_piece(rt, alloc, bus, seat, 8, 10, text)?;
    Ok((first, next, last, past))
}

#[test]
fn a_seat_without_rights_reads_the_log_in_pieces(rt: HostRuntime) -> Result<(), Fail> {
    let alloc = rt.alloc();
    let (bus, mut seat) = bus_of::<Walk>(alloc, ASKS, 10)?;
    let mut reader = bus.split(&mut seat, Rights::none());
    let mut read = Vec::new(alloc);
    let before = put_piece(&rt, alloc, &bus, &mut reader, 0, 10, &mut read);
    let asked = ask(&rt, &bus, &mut seat);
    let pieces = put_pieces(&rt, alloc, &bus, &mut reader, &mut read);
    bus.join(&mut seat, reader);
    let logged = has_logged(alloc, bus.close(&rt, seat), ANSWERED);
    assert_eq!(rt; (before, asked, pieces), (Ok(0), Ok(()), Ok((3, 4, 1, 0))));
    assert_eq!(rt;
        (read.as_slice() == ANSWERED.as_bytes(), logged),
        (true, Ok(true))
    );
    Ok(())
}

/// Makes steps until an answer isn't `Did`, at least one and at most `most`. The thread enters the gate once, and each step has its own
/// turn.
fn row<W: Walker, R: Wait>(
    rt: &R,
    bus: &Shared<W>,
    seat: &mut Seat,
    most: u32,
) -> Result<Stepped, CoreFault>
    requires own { seat.old.bus ≡ bus.now }
    requires whole { seat.old.rights ≡ all_rights }
    ensures same { (seat.new.bus ≡ seat.old.bus) × (seat.new.rights ≡ seat.old.rights)
        × (seat.new.room ≡ seat.old.room) }
{
    let visit = bus.enter(rt);
    for _ in 1..most {
        match visit.step(rt, seat) {
            Ok(Stepped::Did) => {}
            Ok(Stepped::Quiet) => return Ok(Stepped::Quiet),
            Ok(Stepped::Down) => return Ok(Stepped::Down),
            Err(fault) => return Err(fault),
        }
    }
    let last = visit.step(rt, seat);
    last
}

#[test]
fn a_row_of_steps_ends_where_none_is_possible(rt: HostRuntime) -> Result<(), Fail> {
    let (bus, mut seat) = bus_of::<Rewriter>(rt.alloc(), ASKS, 10)?;
    let long = row(&rt, &bus, &mut seat, 10);
    let calls = bus.calls_for(1);
    let again = row(&rt, &bus, &mut seat, 10);
    let logged = has_logged(rt.alloc(), bus.close(&rt, seat), ASKED);
    let wanted = (Ok(Stepped::Quiet), true, Ok(Stepped::Quiet), Ok(true));
    assert_eq!(rt; (long, calls, again, logged), wanted);
    Ok(())
}

#[test]
fn a_row_of_steps_has_its_length_and_ends_where_one_is_refused(
    rt: HostRuntime,
) -> Result<(), Fail> {
    let (bus, mut seat) = bus_of::<Rewriter>(rt.alloc(), COUNTS, 6)?;
    let four = row(&rt, &bus, &mut seat, 4);
    let two = row(&rt, &bus, &mut seat, 10);
    bus.stop(&rt, &mut seat);
    let none = row(&rt, &bus, &mut seat, 10);
    let logged = has_logged(rt.alloc(), bus.close(&rt, seat), SIX);
    let wanted = (
        Ok(Stepped::Did),
        Err(CoreFault::Full),
        Err(CoreFault::Stopped),
        Ok(true),
    );
    assert_eq!(rt; (four, two, none, logged), wanted);
    Ok(())
}

/// Returns whether the steps of a log set the variable of the only process to 1, 2, and so on. Also returns the number of steps.
fn count_up(alloc: Global, log: &Log) -> Result<(bool, u64), NoMemory> {
    let mut count = 0_u64;
    let mut text = Vec::new(alloc);
    let mut wanted = Vec::new(alloc);
    for at in 0..log.len() {
        let seen = log.at(at);
        if matches!(seen, Seen::Did(_)) {
            count = count.saturating_add(1);
            write_seen(count, &seen, &mut text)?;
            let line = format!(in alloc; "{count} set 1.1 {count}\n")?;
            wanted.extend_from_slice(line.as_bytes())?;
        }
    }
    Ok((text.as_slice() == wanted.as_slice(), count))
}

/// Checks the log of a core with `count_up`.
fn counted<W: Walker>(alloc: Global, core: Core<W>) -> Result<(bool, u64), NoMemory> {
    count_up(alloc, core.log())
}

#[test]
fn a_walk_goes_on_in_another_thread_and_back(rt: HostRuntime) -> Result<(), Fail> {
    let (bus, mut seat) = bus_of::<Walk>(rt.alloc(), COUNTS, 1_000)?;
    let ticks = bus.split(&mut seat, Rights::ticker());
    let ((mut seat, made), (ticks, handed)) = side_by_side(&rt, &bus, seat, ticks);
    bus.join(&mut seat, ticks);
    let back = row(&rt, &bus, &mut seat, 10);
    let found = counted(rt.alloc(), bus.close(&rt, seat));
    let wanted = (true, true, Ok(Stepped::Did), Ok((true, 110)));
    assert_eq!(rt; (made, handed, back, found), wanted);
    Ok(())
}
