//! Writes the text of a log to a sink, piece by piece.
ghost use Rattle.std.specs.Prelude.{◌≡◌, ◌<◌, ◌≤◌, ◌+◌, ◌++◌, [], length, drop, OnOk, OnErr, IsErrOf, IsOkUnless};
ghost use Rattle.tb_edge.specs.Faults.{Rose};
ghost use Rattle.tb_edge.specs.Sinks.{Writes, WritesPrefix, Owes};
ghost use Rattle.tb_log.specs.LogText.{log_text, log_text_from, entry_text};
ghost use Rattle.tb_log.specs.Seens.{entry_seen};

use std::alloc::Global;
use std::marker::Model;
use tb_edge::{Failed, Sink};
use tb_log::{Entry, Log, Seen, write_seen};
use tb_terms::NoMemory;

/// The number of bytes, from which on a writer writes its buffer to the sink.
pub const PIECE_BYTES: usize = 32_768;

/// The reason why a log wasn't written completely.
#[derive(Clone, Copy, Debug, PartialEq, Eq)]
pub enum LogFault {
    /// The sink failed.
    Out,
    /// Memory ran out, or there are 2^64 entries.
    NoMemory,
}

/// Writes the lines of the entries of a log in order, numbered from 1. It holds lines back until it has at least `PIECE_BYTES` bytes,
/// or until a call flushes it. After an error, a caller can't rely on the writer: no contract states which bytes it holds.
#[derive(Drop)]
pub struct LogWriter {
    buffer: Vec<u8>,
    written: u64,
}

impl Model for LogWriter {
    ghost use Rattle.tb_write.specs.Writers.{WriterView};

    ghost Value = { WriterView };

    ghost view = { λ writer. record { written = writer.written; held = writer.buffer.items } };
}

impl LogWriter {
    /// Returns a writer that has received no entries.
    pub fn new(alloc: Global) -> LogWriter
        ensures { result ≡ record { written = 0; held = [] } }
    {
        LogWriter {
            buffer: Vec::new(alloc),
            written: 0,
        }
    }

    /// Returns the number of entries that the writer has received.
    pub fn written(&self) -> u64
        ensures { result ≡ self.now.written }
    {
        self.written
    }

    /// Adds the lines of the next entries, and writes full buffers to the sink.
    pub fn put<O: Sink>(&mut self, entries: &[Entry], out: &mut O) -> Result<(), LogFault>
        ensures ok { OnOk result (Owes (O.taken out.old) (O.taken out.new)
            (self.old.held ++ log_text_from (self.old.written + 1) entries.now) self.new.held) }
        ensures counted { OnOk result (self.new.written ≡ self.old.written + length entries.now) }
        ensures small { length self.old.held < PIECE_BYTES
            → OnOk result (length self.new.held < PIECE_BYTES) }
        ensures prefix { OnErr result (WritesPrefix (O.taken out.old) (O.taken out.new)
            (self.old.held ++ log_text_from (self.old.written + 1) entries.now)) }
        ensures rose { IsErrOf result LogFault.Out → Rose (O.faults out.old) (O.faults out.new) }
        ensures calm { OnOk result (O.faults out.new ≡ O.faults out.old) }
        ensures never_falls { O.faults out.old ≤ O.faults out.new }
    {
        for entry in entries {
            match self.put_entry(&Seen::of(entry), out) {
                Ok(()) => {}
                Err(fault) => return Err(fault),
            }
        }
        Ok(())
    }

    /// Writes all bytes that the writer holds to the sink.
    pub fn flush<O: Sink>(&mut self, out: &mut O) -> Result<(), LogFault>
        ensures ok { OnOk result (Writes (O.taken out.old) (O.taken out.new) self.old.held) }
        ensures emptied { OnOk result (self.new ≡ record self.old { held = [] }) }
        ensures prefix { OnErr result
            (WritesPrefix (O.taken out.old) (O.taken out.new) self.old.held) }
        ensures rose { OnErr result (Rose (O.faults out.old) (O.faults out.new)) }
        ensures calm { OnOk result (O.faults out.new ≡ O.faults out.old) }
        ensures out_alone { IsOkUnless result LogFault.Out }
        ensures never_falls { O.faults out.old ≤ O.faults out.new }
    {
        match out.put(self.buffer.as_slice()) {
            Ok(()) => {
                self.buffer.clear();
                Ok(())
            }
            Err(Failed) => Err(LogFault::Out),
        }
    }

    /// Adds the lines of the next entries, and writes all bytes to the sink.
    pub fn put_and_flush<O: Sink>(&mut self, entries: &[Entry], out: &mut O) -> Result<(), LogFault>
        ensures ok { OnOk result (Writes (O.taken out.old) (O.taken out.new)
            (self.old.held ++ log_text_from (self.old.written + 1) entries.now)) }
        ensures counted { OnOk result
            (self.new ≡ record { written = self.old.written + length entries.now; held = [] }) }
        ensures prefix { OnErr result (WritesPrefix (O.taken out.old) (O.taken out.new)
            (self.old.held ++ log_text_from (self.old.written + 1) entries.now)) }
        ensures rose { IsErrOf result LogFault.Out → Rose (O.faults out.old) (O.faults out.new) }
        ensures calm { OnOk result (O.faults out.new ≡ O.faults out.old) }
        ensures never_falls { O.faults out.old ≤ O.faults out.new }
    {
        match self.put(entries, out) {
            Ok(()) => self.flush(out),
            Err(fault) => Err(fault),
        }
    }

    /// Adds the lines of the entries of a log after the first `from` entries, and writes full buffers to the sink.
    pub fn put_behind<O: Sink>(
        &mut self,
        log: &Log,
        from: usize,
        out: &mut O,
    ) -> Result<(), LogFault>
        requires { from ≤ length log.now.entries }
        ensures ok { OnOk result (Owes (O.taken out.old) (O.taken out.new) (self.old.held
            ++ log_text_from (self.old.written + 1) (drop from log.now.entries)) self.new.held) }
        ensures counted { OnOk result
            (self.new.written + from ≡ self.old.written + length log.now.entries) }
        ensures small { length self.old.held < PIECE_BYTES
            → OnOk result (length self.new.held < PIECE_BYTES) }
        ensures prefix { OnErr result (WritesPrefix (O.taken out.old) (O.taken out.new)
            (self.old.held ++ log_text_from (self.old.written + 1) (drop from log.now.entries))) }
        ensures rose { IsErrOf result LogFault.Out → Rose (O.faults out.old) (O.faults out.new) }
        ensures calm { OnOk result (O.faults out.new ≡ O.faults out.old) }
        ensures never_falls { O.faults out.old ≤ O.faults out.new }
    {
        for at in from..log.len() {
            match self.put_entry(&log.at(at), out) {
                Ok(()) => {}
                Err(fault) => return Err(fault),
            }
        }
        Ok(())
    }

    /// Adds the lines of the entries of a log after the first `from` entries, and writes all bytes to the sink.
    pub fn put_behind_and_flush<O: Sink>(
        &mut self,
        log: &Log,
        from: usize,
        out: &mut O,
    ) -> Result<(), LogFault>
        requires { from ≤ length log.now.entries }
        ensures ok { OnOk result (Writes (O.taken out.old) (O.taken out.new)
            (self.old.held ++ log_text_from (self.old.written + 1) (drop from log.now.entries))) }
        ensures counted { OnOk result
            (self.new.written + from ≡ self.old.written + length log.now.entries) }
        ensures emptied { OnOk result (self.new.held ≡ []) }
        ensures prefix { OnErr result (WritesPrefix (O.taken out.old) (O.taken out.new)
            (self.old.held ++ log_text_from (self.old.written + 1) (drop from log.now.entries))) }
        ensures rose { IsErrOf result LogFault.Out → Rose (O.faults out.old) (O.faults out.new) }
        ensures calm { OnOk result (O.faults out.new ≡ O.faults out.old) }
        ensures never_falls { O.faults out.old ≤ O.faults out.new }
    {
        match self.put_behind(log, from, out) {
            Ok(()) => self.flush(out),
            Err(fault) => Err(fault),
        }
    }

    fn put_entry<O: Sink>(&mut self, seen: &Seen, out: &mut O) -> Result<(), LogFault>
        ensures ok { OnOk result (Owes (O.taken out.old) (O.taken out.new) (self.old.held
            ++ entry_text (self.old.written + 1) (entry_seen seen.now)) self.new.held) }
        ensures counted { OnOk result (self.new.written ≡ self.old.written + 1) }
        ensures small { OnOk result (length self.new.held < PIECE_BYTES) }
        ensures prefix { OnErr result (WritesPrefix (O.taken out.old) (O.taken out.new)
            (self.old.held ++ entry_text (self.old.written + 1) (entry_seen seen.now))) }
        ensures rose { IsErrOf result LogFault.Out → Rose (O.faults out.old) (O.faults out.new) }
        ensures calm { OnOk result (O.faults out.new ≡ O.faults out.old) }
        ensures never_falls { O.faults out.old ≤ O.faults out.new }
    {
        match self.add_line(seen) {
            Ok(()) => self.flush_full(out),
            Err(NoMemory) => Err(LogFault::NoMemory),
        }
    }

    /// Adds the line of the entry to the buffer.
    fn add_line(&mut self, seen: &Seen) -> Result<(), NoMemory>
        ensures { OnOk result (self.new ≡ record {
          written = self.old.written + 1;
          held = self.old.held ++ entry_text (self.old.written + 1) (entry_seen seen.now);
        }) }
    {
        let Some(number) = self.written.checked_add(1) else {
            return Err(NoMemory);
        };
        match write_seen(number, seen, &mut self.buffer) {
            Ok(()) => {
                self.written = number;
                Ok(())
            }
            Err(NoMemory) => Err(NoMemory),
        }
    }

    /// Writes the buffer to the sink if the buffer is full.
    fn flush_full<O: Sink>(&mut self, out: &mut O) -> Result<(), LogFault>
        ensures ok { OnOk result
            (Owes (O.taken out.old) (O.taken out.new) self.old.held self.new.held) }
        ensures counted { OnOk result (self.new.written ≡ self.old.written) }
        ensures small { OnOk result (length self.new.held < PIECE_BYTES) }
        ensures prefix { OnErr result
            (WritesPrefix (O.taken out.old) (O.taken out.new) self.old.held) }
        ensures rose { OnErr result (Rose (O.faults out.old) (O.faults out.new)) }
        ensures calm { OnOk result (O.faults out.new ≡ O.faults out.old) }
        ensures never_falls { O.faults out.old ≤ O.faults out.new }
    {
        if self.buffer.len() < PIECE_BYTES {
            return Ok(());
        }
        self.flush(out)
    }
}

/// Writes the text of a log. If the call fails, the sink has taken a prefix of the text.
pub fn put_log<O: Sink>(alloc: Global, log: &Log, out: &mut O) -> Result<(), LogFault>
    ensures ok { OnOk result
        (Writes (O.taken out.old) (O.taken out.new) (log_text log.now.entries)) }
    ensures prefix { OnErr result
        (WritesPrefix (O.taken out.old) (O.taken out.new) (log_text log.now.entries)) }
    ensures rose { IsErrOf result LogFault.Out → Rose (O.faults out.old) (O.faults out.new) }
    ensures calm { OnOk result (O.faults out.new ≡ O.faults out.old) }
    ensures never_falls { O.faults out.old ≤ O.faults out.new }
{
    let mut writer = LogWriter::new(alloc);
    writer.put_behind_and_flush(log, 0, out)
}
