//! The command `chart`: a log as a message sequence chart.

use crate::loading::{load_log, load_source};
use crate::put::put;
use crate::status::{Status, Trouble};
use std::alloc::Global;
use tb_chart::{Cast, ChartFault, Span, chart_of};
use tb_chart_cast::load_cast;
use tb_chart_draw::{Output, write_chart};
use tb_edge::{Files, Sink};
use tb_log::Entry;
use tb_log_read::{LogFault, read_log};
use tb_script::ScriptFault;

/// The arguments of `chart`.
#[derive(Clone, Copy)]
pub struct ChartRequest<'a> {
    /// The name of the file with the script.
    pub script: &'a str,
    /// The name of the file with the log.
    pub log: &'a str,
    /// The form of the chart.
    pub output: Output,
    /// The entries that are shown.
    pub span: Span,
    /// The number of commands with which the bus began.
    pub commands: usize,
}

/// Writes the chart of a log. If a line isn't a line of a log or doesn't fit the script, the call writes its number to `err` and returns
/// `Found`. The call fails if a file can't be read or is too long, if the script is rejected, if the write fails, or if memory runs out.
pub fn tell_chart<F: Files, O: Sink, E: Sink>(
    alloc: Global,
    request: &ChartRequest,
    files: &mut F,
    out: &mut O,
    err: &mut E,
) -> Result<Status, Trouble> {
    let source = load_source(alloc, request.script, files)?;
    let cast = match load_cast(alloc, source.as_slice()) {
        Ok(cast) => cast,
        Err(ScriptFault::NoMemory) => return Err(Trouble::NoMemory),
        Err(_) => return Err(Trouble::Script(String::from_str(alloc, request.script)?)),
    };
    let log = load_log(alloc, request.log, files)?;
    match drawn(alloc, request, &cast, source.as_slice(), log.as_slice()) {
        Ok(text) => put(text.as_slice(), Status::Fine, out),
        Err(ChartFault::Line(number)) => tell_line(alloc, request.log, number, err),
        Err(ChartFault::NoMemory) => Err(Trouble::NoMemory),
    }
}

/// Writes the number of the first wrong line of a log.
fn tell_line<E: Sink>(
    alloc: Global,
    log: &str,
    number: u64,
    err: &mut E,
) -> Result<Status, Trouble> {
    let text = format!(in alloc; "{log}:{number}: this is no line of a log of the script\n")?;
    let _ = err.put(text.as_bytes());
    Ok(Status::Found)
}

/// Returns the chart of the log with these bytes, as a text.
fn drawn(
    alloc: Global,
    request: &ChartRequest,
    cast: &Cast,
    source: &[u8],
    log: &[u8],
) -> Result<Vec<u8>, ChartFault> {
    match read_log(alloc, log) {
        Ok(entries) => drawn_entries(alloc, request, cast, source, entries.as_slice()),
        Err(LogFault::Line(number)) => Err(ChartFault::Line(number)),
        Err(LogFault::NoMemory) => Err(ChartFault::NoMemory),
    }
}

fn drawn_entries(
    alloc: Global,
    request: &ChartRequest,
    cast: &Cast,
    source: &[u8],
    entries: &[Entry],
) -> Result<Vec<u8>, ChartFault> {
    let chart = chart_of(alloc, cast, request.commands, entries, request.span)?;
    let title = file_name(request.log.as_bytes());
    let mut text = Vec::new(alloc);
    write_chart(
        alloc,
        request.output,
        title,
        source,
        cast,
        &chart,
        &mut text,
    )?;
    Ok(text)
}

/// Returns the part after the last slash, or the whole path if it has none.
fn file_name(path: &[u8]) -> &[u8] {
    let mut start: usize = 0;
    for (place, byte) in path.iter().enumerate() {
        if *byte == b'/' {
            start = place + 1;
        }
    }
    path.get(start..).unwrap_or(path)
}
