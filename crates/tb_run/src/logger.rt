//! The job that writes the log while the bus runs.
ghost use Rattle.std.specs.Prelude.{◌≡◌, ◌+◌, [], length, IfSome, MatchOption, OnOk, OnErr, IsErrOf};
ghost use Rattle.tb_edge.specs.Faults.{Rose};
ghost use Rattle.tb_edge.specs.Sinks.{Writes, WritesPrefix};
ghost use Rattle.tb_log.specs.LogText.{log_text_from};
ghost use Rattle.tb_run.specs.declared.ends.LogEnd.TheVariants.{Over};
ghost use Rattle.tb_run.specs.Logging.{LogsOn, EndsLogging, LogDone, PutsSome, PutsLast, end_by};

use crate::ends::LogEnd;
use crate::handing::stop;
use crate::post::Post;
use std::sync::Wait;
use tb_bells::{Bells, Sleeper};
use tb_edge::{Job, Sink};
use tb_lock::{Seat, calls_add_their_own};
use tb_log::Entry;
use tb_process_steps::Walker;
use tb_write::{LogFault, LogWriter};

/// The largest number of entries that are read in one turn.
const MOST: usize = 1_000;

/// The job of the calling thread: it reads the log by a seat without rights, and writes it. The writer's type is a parameter, so that
/// contracts see the state of `out` after the job is taken apart.
#[derive(Drop)]
pub struct LogJob<'a, W: Walker, O, L> {
    /// The bus whose log is written.
    pub post: &'a Post<W>,
    /// The seat. It needs no right.
    pub seat: Seat,
    /// The sink of the log.
    pub out: &'a mut O,
    /// The writer of the log's lines.
    pub writer: L,
    /// Why the job ended, after it has ended.
    pub end: LogEnd,
}

impl<'a, W: Walker, O: Sink> Job for LogJob<'a, W, O, LogWriter> {
    ghost use Rattle.std.specs.Prelude.{◌≡◌, []};
    ghost use Rattle.tb_run.specs.declared.ends.LogEnd.TheVariants.{Over};
    ghost use Rattle.tb_run.specs.Logging.{LogDone};

    ghost ready = { λ it. (it.seat.bus ≡ it.post.now.shared)
        × (it.writer ≡ record { written = 0; held = [] }) };

    ghost done = { λ old new. (new.out.ghost_name ≡ old.out.ghost_name)
        × LogDone old.seat new.seat new.writer (O.taken old.out.now) (O.taken new.out.now)
        (O.faults old.out.now) (O.faults new.out.now) new.end };

    fn work<R: Wait>(&mut self, rt: &R) {
        self.end = log_all(rt, self.post, &mut self.seat, &mut self.writer, self.out);
    }
}

/// Writes the log, until all workers have ended.
fn log_all<W: Walker, R: Wait, O: Sink>(
    rt: &R,
    post: &Post<W>,
    seat: &mut Seat,
    writer: &mut LogWriter,
    out: &mut O,
) -> LogEnd
    requires own { seat.old.bus ≡ post.now.shared }
    requires none { writer.old ≡ record { written = 0; held = [] } }
    ensures { LogDone seat.old seat.new writer.new (O.taken out.old) (O.taken out.new)
        (O.faults out.old) (O.faults out.new) result }
{
    let mut heard = 0;
    for _ in rt.forever() {
        match log_some(rt, post, seat, writer, out, &mut heard) {
            Some(end) => return end,
            None => {}
        }
    }
    unreachable!()
}

/// Writes the next entries of the log, or waits if there are none. Returns why the job ends, if it ends. If no worker was left before a
/// read that finds no further entry, the whole log is written.
fn log_some<W: Walker, R: Wait, O: Sink>(
    rt: &R,
    post: &Post<W>,
    seat: &mut Seat,
    writer: &mut LogWriter,
    out: &mut O,
    heard: &mut u64,
) -> Option<LogEnd>
    requires own { seat.old.bus ≡ post.now.shared }
    requires held { writer.old.held ≡ [] }
    ensures { MatchOption result (LogsOn seat.old seat.new writer.old writer.new (O.taken out.old)
        (O.taken out.new) (O.faults out.old) (O.faults out.new))
        (EndsLogging seat.old seat.new writer.old writer.new (O.taken out.old) (O.taken out.new)
        (O.faults out.old) (O.faults out.new)) }
{
    calls_add_their_own();
    let over = post.is_over();
    match post
        .shared
        .read_log(rt, post.alloc, seat, writer.written(), MOST)
    {
        Ok(piece) => {
            let piece = piece.as_slice();
            if piece.is_empty() {
                wait_for_more(rt, post, over, heard)
            } else {
                put_some(rt, post, seat, writer, piece, out)
            }
        }
        Err(_) => {
            stop(rt, post, seat);
            Some(LogEnd::NoMemory)
        }
    }
}

/// Waits for a further entry. If no worker was left (`over`), returns `Over` at once.
fn wait_for_more<W: Walker, R: Wait>(
    rt: &R,
    post: &Post<W>,
    over: bool,
    heard: &mut u64,
) -> Option<LogEnd>
    ensures { IfSome result (λ end. end ≡ Over) }
{
    if over {
        return Some(LogEnd::Over);
    }
    *heard = post.bells.wait_past(rt, Sleeper::Log, *heard);
    None
}

/// Writes the entries that were read. If this fails, stops the bus.
fn put_some<W: Walker, R: Wait, O: Sink>(
    rt: &R,
    post: &Post<W>,
    seat: &mut Seat,
    writer: &mut LogWriter,
    piece: &[Entry],
    out: &mut O,
) -> Option<LogEnd>
    requires own { seat.old.bus ≡ post.now.shared }
    requires held { writer.old.held ≡ [] }
    ensures { MatchOption result (PutsSome seat.old seat.new piece.now writer.old writer.new
        (O.taken out.old) (O.taken out.new) (O.faults out.old) (O.faults out.new))
        (PutsLast seat.old seat.new piece.now writer.old writer.new (O.taken out.old)
        (O.taken out.new) (O.faults out.old) (O.faults out.new)) }
{
    match put_piece(writer, piece, out) {
        Ok(()) => {
            gather(rt, &post.bells, piece);
            None
        }
        Err(fault) => {
            stop(rt, post, seat);
            Some(end_of(fault))
        }
    }
}

/// Pauses after a piece of fewer than `MOST` entries, so that further entries gather.
fn gather<R: Wait>(rt: &R, bells: &Bells, piece: &[Entry]) {
    if piece.len() < MOST {
        bells.pause(rt);
    }
}

fn end_of(fault: LogFault) -> LogEnd
    ensures { result ≡ end_by fault }
{
    match fault {
        LogFault::Out => LogEnd::Out,
        LogFault::NoMemory => LogEnd::NoMemory,
    }
}

/// Writes the lines of the next entries.
fn put_piece<O: Sink>(writer: &mut LogWriter, piece: &[Entry], out: &mut O) -> Result<(), LogFault>
    requires { writer.old.held ≡ [] }
    ensures ok { OnOk result (Writes (O.taken out.old) (O.taken out.new)
        (log_text_from (writer.old.written + 1) piece.now)) }
    ensures counted { OnOk result
        (writer.new ≡ record { written = writer.old.written + length piece.now; held = [] }) }
    ensures prefix { OnErr result (WritesPrefix (O.taken out.old) (O.taken out.new)
        (log_text_from (writer.old.written + 1) piece.now)) }
    ensures rose { IsErrOf result LogFault.Out → Rose (O.faults out.old) (O.faults out.new) }
    ensures calm { OnOk result (O.faults out.new ≡ O.faults out.old) }
{
    writer.put_and_flush(piece, out)
}
